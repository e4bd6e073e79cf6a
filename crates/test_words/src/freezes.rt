//! A small map that one thread freezes over and over, while another one changes it: many offers are taken back, and made anew.

ghost use Rattle.std.specs.Prelude.{◌≡◌};

use crate::maps::Trouble;
use crate::seats::seats_of;
use crate::words::{hash, number};
use ctrie_base::HashKind;
use lock_free::{Board, CallError, MapName, NamedSeat, NamedWords, Seat, Sizes, named, open};
use std::marker::Brand;
use std::sync::Wait;
use std::sync::atomic::{AtomicU64, Ordering};
use std::thread;
use std::thread::Threads;

/// What is done: a map of this hash is frozen in so many rounds, by a thread that makes so many changes before.
#[derive(Clone, Copy)]
pub struct Load {
    rounds: u64,
    changes: u64,
    hash: HashKind,
}

/// So many keys there are: all stand in the branch at the root, so that a change of any may come before a freeze.
const KEYS: u64 = 8;

/// A seat, and how many of its calls were refused.
#[derive(Drop)]
struct Caller<N: MapName> {
    seat: NamedSeat<N>,
    refused: u64,
}

/// Changes keys, freezes the map, and closes what was frozen.
fn freeze_once<N: MapName, R: Wait>(
    rt: &R,
    words: &NamedWords<N>,
    seat: &mut NamedSeat<N>,
    changes: u64,
    round: u64,
) -> Result<(), CallError> {
    for n in 0..changes {
        seat.put(rt, words, 0, n % KEYS, round)?;
    }
    let frozen = seat.freeze(rt, words, 0)?;
    seat.close(words, frozen)
}

/// Freezes the map in so many rounds, and says then that it is done. Returns how many rounds were refused.
fn freeze_often<N: MapName, R: Wait>(
    rt: &R,
    words: &NamedWords<N>,
    done: &AtomicU64,
    load: Load,
    seat: &mut NamedSeat<N>,
) -> u64 {
    let mut refused = 0u64;
    for round in 0..load.rounds {
        if freeze_once(rt, words, seat, load.changes, round).is_err() {
            refused = refused.saturating_add(1);
        }
    }
    done.store(1, Ordering::SeqCst);
    refused
}

/// Changes keys until the other thread is done. Returns how many calls were refused.
fn change_often<N: MapName, R: Wait>(
    rt: &R,
    words: &NamedWords<N>,
    done: &AtomicU64,
    seat: &mut NamedSeat<N>,
) -> u64 {
    let mut refused = 0u64;
    let mut key = 0u64;
    for _ in rt.forever() {
        if done.load(Ordering::SeqCst) == 1 {
            return refused;
        }
        key = key.wrapping_add(1) % KEYS;
        if seat.put(rt, words, 0, key, key).is_err() {
            refused = refused.saturating_add(1);
        }
    }
    unreachable!()
}

/// The work of this seat: the first one freezes.
fn work<N: MapName, R: Wait>(
    rt: &R,
    words: &NamedWords<N>,
    done: &AtomicU64,
    load: Load,
    seat: NamedSeat<N>,
) -> Caller<N> {
    let mut seat = seat;
    let refused = if seat.number() == 1 {
        freeze_often(rt, words, done, load, &mut seat)
    } else {
        change_often(rt, words, done, &mut seat)
    };
    Caller { seat, refused }
}

/// How many calls of both were refused.
fn refused_on<N: MapName + Send + Sync, R: Threads + Wait + Sync + AllocGlobal>(
    rt: &R,
    board: Board,
    seat: Seat,
    load: Load,
) -> Result<u64, Trouble>
    requires name { N.map_id ≡ record { table = board.shared.table_id; sizes = board.shared.key } }
    requires slots { board.shared.table_id.slots ≡ 0 }
    requires seat { (seat.table ≡ board.shared.table_id) × (seat.view.sizes ≡ board.shared.key) }
{
    let alloc = rt.alloc();
    let (words, first) = named::<N>(board, seat);
    let seats = seats_of(alloc, &words, first, 2)?;
    let done = AtomicU64::new(0);
    let told = thread::map_vec(
        rt,
        seats,
        &|seat: NamedSeat<N>| work(rt, &words, &done, load, seat),
    )?;
    let mut seats = Vec::new(alloc);
    let mut all = 0u64;
    for caller in told {
        let Caller { seat, refused } = caller;
        all = all.saturating_add(refused);
        seats.push(seat)?;
    }
    match words.finish(alloc, seats) {
        Ok(()) => Ok(all),
        Err(_) => Err(Trouble::Memory),
    }
}

/// The load's calls. Whether none was refused.
pub fn judge<R: Threads + Wait + Sync + Print + AllocGlobal>(
    rt: &R,
    load: Load,
) -> Result<bool, Trouble> {
    let sizes = Sizes {
        seats: 2,
        hash: load.hash,
        small: 2_000,
        medium: 500,
        wide: 500,
    };
    let (board, seat) = open(rt.alloc(), sizes)?;
    let refused = refused_on::<Brand, R>(rt, board, seat, load)?;
    let _ = println!(rt;
        "{} freezes of a map that another thread changes: {refused} calls refused",
        load.rounds
    );
    Ok(refused == 0)
}

/// The load of these words.
pub fn load_of(words: &[String]) -> Option<Load> {
    Some(Load {
        rounds: number(words.get(0))?,
        changes: number(words.get(1))?,
        hash: hash(words.get(2))?,
    })
}
