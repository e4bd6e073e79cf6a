//! Chains of keys that are written in order stand in order in every frozen copy.
//!
//! Each thread has two chains of its own, one whose keys stand deep and one whose keys have one hash. It gives their keys a greater value
//! in each round, from the first key to the last, and now and then removes them from the last to the first. So whenever a map is copied,
//! a key that is there has all keys of its chain before it, each with its value at least.

ghost use Rattle.std.specs.Prelude.{◌≡◌};

use crate::keys::{deep_key, listed_key};
use crate::maps::{Trouble, sizes_for};
use crate::seats::seats_of;
use crate::words::{hash, number, threads};
use ctrie_base::HashKind;
use lock_free::{Board, CallError, MapName, NamedSeat, NamedWords, Seat, named, open};
use std::alloc::Global;
use std::marker::Brand;
use std::sync::Wait;
use std::thread;
use std::thread::Threads;

/// What is done: so many rounds by each of so many threads.
#[derive(Clone, Copy)]
pub struct Load {
    threads: u8,
    rounds: u64,
    hash: HashKind,
    seed: u64,
}

/// How many keys a chain has.
const LENGTH: u64 = 16;

/// After so many rounds a thread looks at a copy.
const EVERY: u64 = 4;

/// After so many rounds it removes its keys.
const REMOVED: u64 = 7;

/// What a thread has seen.
#[derive(Clone, Copy)]
struct Seen {
    copies: u64,
    /// How often it couldn't copy: a seat copies a map so often at most while another thread stays in one call.
    refused: u64,
    wrong: u64,
}

impl Seen {
    fn nothing() -> Seen {
        Seen {
            copies: 0,
            refused: 0,
            wrong: 0,
        }
    }

    /// What came of a look at a copy.
    fn add(&mut self, looked: Result<bool, CallError>) -> Result<(), CallError> {
        match looked {
            Ok(is_right) => {
                self.copies = self.copies.saturating_add(1);
                self.wrong = self.wrong.saturating_add(u64::from(!is_right));
            }
            Err(CallError::Full) => self.refused = self.refused.saturating_add(1),
            Err(why) => return Err(why),
        }
        Ok(())
    }

    /// What another thread has seen, too.
    fn join(&mut self, other: Seen) {
        self.copies = self.copies.saturating_add(other.copies);
        self.refused = self.refused.saturating_add(other.refused);
        self.wrong = self.wrong.saturating_add(other.wrong);
    }
}

/// A seat after its rounds, with what it has seen.
#[derive(Drop)]
struct Looker<N: MapName> {
    seat: NamedSeat<N>,
    seen: Seen,
}

/// The key of this number in a chain: there are two for each thread, of which the even ones are deep.
fn chain_key(hash: HashKind, chain: u64, number: u64) -> u64 {
    if chain % 2 == 0 {
        deep_key(hash, chain / 2 + 1, number)
    } else {
        listed_key(hash, chain / 2 + 1, number)
    }
}

/// Gives all keys of a chain this value, in order.
fn write_chain<N: MapName, R: Wait>(
    rt: &R,
    words: &NamedWords<N>,
    seat: &mut NamedSeat<N>,
    load: Load,
    chain: u64,
    value: u64,
) -> Result<(), CallError> {
    for n in 0..LENGTH {
        seat.put(rt, words, 0, chain_key(load.hash, chain, n), value)?;
    }
    Ok(())
}

/// Removes the last so many keys of a chain, the last first.
fn cut_chain<N: MapName, R: Wait>(
    rt: &R,
    words: &NamedWords<N>,
    seat: &mut NamedSeat<N>,
    load: Load,
    chain: u64,
    many: u64,
) -> Result<(), CallError> {
    for n in 0..many.min(LENGTH) {
        seat.remove(rt, words, 0, chain_key(load.hash, chain, LENGTH - 1 - n))?;
    }
    Ok(())
}

/// Whether a key of this value, or none, may come after one of this value in a chain.
fn may_follow(before: Option<u64>, value: Option<u64>) -> bool {
    match (before, value) {
        (_, None) => true,
        (Some(before), Some(value)) => value <= before,
        (None, Some(_)) => false,
    }
}

/// Whether a chain stands in order by this read-only handle.
fn is_in_order<N: MapName, R: Wait>(
    rt: &R,
    words: &NamedWords<N>,
    seat: &mut NamedSeat<N>,
    load: Load,
    chain: u64,
    copy: u16,
) -> Result<bool, CallError> {
    let mut before = Some(u64::MAX);
    let mut is_right = true;
    for n in 0..LENGTH {
        let key = chain_key(load.hash, chain, n);
        let value = seat.get(rt, words, copy, key)?;
        let is_there = seat.contains(rt, words, copy, key)?;
        is_right = is_right && may_follow(before, value) && is_there == value.is_some();
        before = value;
    }
    Ok(is_right)
}

/// Whether a walk gives what gets of the same copy give, by rising key.
fn is_walked_right<N: MapName, R: Wait>(
    rt: &R,
    alloc: Global,
    words: &NamedWords<N>,
    seat: &mut NamedSeat<N>,
    copy: u16,
) -> Result<bool, CallError> {
    let pairs = seat.entries(alloc, rt, words, copy)?;
    let mut is_right = seat.count(alloc, rt, words, copy)? == pairs.len() as u64;
    let mut last = None;
    for (key, value) in pairs {
        let is_next = last.is_none_or(|before| before < key);
        is_right = is_right && is_next && seat.get(rt, words, copy, key)? == Some(value);
        last = Some(key);
    }
    Ok(is_right)
}

/// Looks at all chains in this copy, and closes it. Whether it is as it has to be.
fn look<N: MapName, R: Wait>(
    rt: &R,
    alloc: Global,
    words: &NamedWords<N>,
    seat: &mut NamedSeat<N>,
    load: Load,
    copy: u16,
) -> Result<bool, CallError> {
    let mut is_right = is_walked_right(rt, alloc, words, seat, copy)?;
    for chain in 0..2 * u64::from(load.threads) {
        is_right = is_in_order(rt, words, seat, load, chain, copy)? && is_right;
    }
    seat.close(words, copy)?;
    Ok(is_right)
}

/// A look at a frozen copy of this copy, which is cleared then.
fn look_at_own<N: MapName, R: Wait>(
    rt: &R,
    alloc: Global,
    words: &NamedWords<N>,
    seat: &mut NamedSeat<N>,
    load: Load,
    own: u16,
) -> Result<bool, CallError> {
    let copy = seat.freeze(rt, words, own)?;
    let cleared = seat.clear(rt, words, own);
    if !look(rt, alloc, words, seat, load, copy)? {
        return Ok(false);
    }
    cleared?;
    let empty = seat.freeze(rt, words, own)?;
    let is_empty = seat.count(alloc, rt, words, empty)? == 0;
    seat.close(words, empty)?;
    Ok(is_empty)
}

/// A look at a frozen copy, now and then at one of a copy that may be written, and was.
fn look_at_copy<N: MapName, R: Wait>(
    rt: &R,
    alloc: Global,
    words: &NamedWords<N>,
    seat: &mut NamedSeat<N>,
    load: Load,
    round: u64,
) -> Result<bool, CallError> {
    if round % 3 != 0 {
        let copy = seat.freeze(rt, words, 0)?;
        return look(rt, alloc, words, seat, load, copy);
    }
    let own = seat.snapshot(rt, words, 0)?;
    let looked = look_at_own(rt, alloc, words, seat, load, own);
    seat.close(words, own)?;
    looked
}

/// A thread's round with one of its chains.
fn turn<N: MapName, R: Wait>(
    rt: &R,
    words: &NamedWords<N>,
    seat: &mut NamedSeat<N>,
    load: Load,
    chain: u64,
    n: u64,
) -> Result<(), CallError> {
    write_chain(rt, words, seat, load, chain, n)?;
    let round = n.wrapping_add(load.seed);
    if round % REMOVED == 0 {
        cut_chain(rt, words, seat, load, chain, round % 19)?;
    }
    Ok(())
}

/// A thread's rounds.
fn work<N: MapName, R: Wait>(
    rt: &R,
    alloc: Global,
    words: &NamedWords<N>,
    load: Load,
    seat: &mut NamedSeat<N>,
) -> Result<Seen, CallError> {
    let first = 2 * u64::from(seat.number() - 1);
    let mut seen = Seen::nothing();
    for n in 0..load.rounds {
        let round = n.wrapping_add(load.seed);
        turn(rt, words, seat, load, first, n)?;
        turn(rt, words, seat, load, first + 1, n)?;
        if round % EVERY == 0 {
            seen.add(look_at_copy(rt, alloc, words, seat, load, round))?;
        }
    }
    Ok(seen)
}

/// What a thread has seen, with its seat.
fn rounds_of<N: MapName, R: Wait>(
    rt: &R,
    alloc: Global,
    words: &NamedWords<N>,
    load: Load,
    seat: NamedSeat<N>,
) -> Result<Looker<N>, Trouble> {
    let mut seat = seat;
    match work(rt, alloc, words, load, &mut seat) {
        Ok(seen) => Ok(Looker { seat, seen }),
        Err(CallError::Memory) => Err(Trouble::Memory),
        Err(_) => Err(Trouble::Full),
    }
}

/// What all threads have seen at this map.
fn seen_at<N: MapName + Send + Sync, R: Threads + Wait + Sync + AllocGlobal>(
    rt: &R,
    board: Board,
    seat: Seat,
    load: Load,
) -> Result<Seen, Trouble>
    requires name { N.map_id ≡ record { table = board.shared.table_id; sizes = board.shared.key } }
    requires slots { board.shared.table_id.slots ≡ 0 }
    requires seat { (seat.table ≡ board.shared.table_id) × (seat.view.sizes ≡ board.shared.key) }
{
    let alloc = rt.alloc();
    let (words, first) = named::<N>(board, seat);
    let seats = seats_of(alloc, &words, first, load.threads)?;
    let lookers = thread::map_vec(
        rt,
        seats,
        &|seat: NamedSeat<N>| rounds_of(rt, alloc, &words, load, seat),
    )?;
    let mut seats = Vec::new(alloc);
    let mut all = Seen::nothing();
    for looker in lookers {
        let Looker { seat, seen } = looker?;
        all.join(seen);
        seats.push(seat)?;
    }
    match words.finish(alloc, seats) {
        Ok(()) => Ok(all),
        Err(_) => Err(Trouble::Memory),
    }
}

/// Makes the rounds, and tells what was seen. Whether all chains stood in order.
pub fn judge<R: Threads + Wait + Sync + Print + AllocGlobal>(
    rt: &R,
    load: Load,
) -> Result<bool, Trouble> {
    let puts = load.rounds.saturating_mul(64 * u64::from(load.threads));
    let (board, seat) = open(rt.alloc(), sizes_for(load.threads, load.hash, puts))?;
    let seen = seen_at::<Brand, R>(rt, board, seat, load)?;
    let _ = println!(rt;
        "chains of {} threads with the hash {}: {} copies, {} refused, {} not in order",
        load.threads, load.hash, seen.copies, seen.refused, seen.wrong
    );
    Ok(seen.wrong == 0)
}

/// The load of these words.
pub fn load_of(words: &[String]) -> Option<Load> {
    Some(Load {
        threads: threads(words.get(0))?,
        rounds: number(words.get(1))?,
        hash: hash(words.get(2))?,
        seed: number(words.get(3))?,
    })
}

/// A few rounds.
pub fn small<R: Threads + Wait + Sync + Print + AllocGlobal>(rt: &R) -> Result<bool, Trouble> {
    judge(
        rt,
        Load {
            threads: 2,
            rounds: 40,
            hash: HashKind::Block,
            seed: 0,
        },
    )
}
