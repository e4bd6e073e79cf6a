//! One thread puts keys in a map of few slots, and another one removes them: what the one lacks the other one has.

ghost use Rattle.std.specs.Prelude.{◌≡◌};

use crate::maps::Trouble;
use crate::seats::seats_of;
use crate::words::{hash, number};
use ctrie_base::HashKind;
use lock_free::{Board, MapName, NamedSeat, NamedWords, Seat, Sizes, named, open};
use std::marker::Brand;
use std::sync::Wait;
use std::sync::atomic::{AtomicU64, Ordering};
use std::thread;
use std::thread::Threads;

/// What is done: so many keys are put and removed.
#[derive(Clone, Copy)]
pub struct Load {
    keys: u64,
    hash: HashKind,
}

/// So many keys stand at a time, at most.
const STANDING: u64 = 64;

/// How many keys were put, and removed.
#[derive(Drop)]
struct Shared {
    put: AtomicU64,
    removed: AtomicU64,
}

/// A seat, and how many of its calls were not told what they had to be.
#[derive(Drop)]
struct Handed<N: MapName> {
    seat: NamedSeat<N>,
    wrong: u64,
}

/// Waits until there are so many.
fn wait_for<R: Wait>(rt: &R, count: &AtomicU64, many: u64) {
    for _ in rt.forever() {
        if count.load(Ordering::SeqCst) >= many {
            return;
        }
        thread::yield_now();
    }
}

/// Puts all keys, one after the other. Returns how many calls were not told that the key was new.
fn put_all<N: MapName, R: Wait>(
    rt: &R,
    words: &NamedWords<N>,
    shared: &Shared,
    keys: u64,
    seat: &mut NamedSeat<N>,
) -> u64 {
    let mut wrong = 0u64;
    for key in 0..keys {
        wait_for(rt, &shared.removed, key.saturating_sub(STANDING));
        if !matches!(seat.put(rt, words, 0, key, key), Ok(None)) {
            wrong = wrong.saturating_add(1);
        }
        shared.put.fetch_add(1, Ordering::SeqCst);
    }
    wrong
}

/// Removes them, each after it was put. Returns how many calls were not told the key's value.
fn remove_all<N: MapName, R: Wait>(
    rt: &R,
    words: &NamedWords<N>,
    shared: &Shared,
    keys: u64,
    seat: &mut NamedSeat<N>,
) -> u64 {
    let mut wrong = 0u64;
    for key in 0..keys {
        wait_for(rt, &shared.put, key.saturating_add(1));
        if !matches!(seat.remove(rt, words, 0, key), Ok(Some(value)) if value == key) {
            wrong = wrong.saturating_add(1);
        }
        shared.removed.fetch_add(1, Ordering::SeqCst);
    }
    wrong
}

/// The work of this seat: the first one puts.
fn work<N: MapName, R: Wait>(
    rt: &R,
    words: &NamedWords<N>,
    shared: &Shared,
    keys: u64,
    seat: NamedSeat<N>,
) -> Handed<N> {
    let mut seat = seat;
    let wrong = if seat.number() == 1 {
        put_all(rt, words, shared, keys, &mut seat)
    } else {
        remove_all(rt, words, shared, keys, &mut seat)
    };
    Handed { seat, wrong }
}

/// How many calls of both were not told what they had to be.
fn wrong_on<N: MapName + Send + Sync, R: Threads + Wait + Sync + AllocGlobal>(
    rt: &R,
    board: Board,
    seat: Seat,
    keys: u64,
) -> Result<u64, Trouble>
    requires name { N.map_id ≡ record { table = board.shared.table_id; sizes = board.shared.key } }
    requires slots { board.shared.table_id.slots ≡ 0 }
    requires seat { (seat.table ≡ board.shared.table_id) × (seat.view.sizes ≡ board.shared.key) }
{
    let alloc = rt.alloc();
    let (words, first) = named::<N>(board, seat);
    let seats = seats_of(alloc, &words, first, 2)?;
    let shared = Shared {
        put: AtomicU64::new(0),
        removed: AtomicU64::new(0),
    };
    let told = thread::map_vec(
        rt,
        seats,
        &|seat: NamedSeat<N>| work(rt, &words, &shared, keys, seat),
    )?;
    let mut seats = Vec::new(alloc);
    let mut all = 0u64;
    for handed in told {
        let Handed { seat, wrong } = handed;
        all = all.saturating_add(wrong);
        seats.push(seat)?;
    }
    match words.finish(alloc, seats) {
        Ok(()) => Ok(all),
        Err(_) => Err(Trouble::Memory),
    }
}

/// The load's calls. Whether each was told what it had to be.
pub fn judge<R: Threads + Wait + Sync + Print + AllocGlobal>(
    rt: &R,
    load: Load,
) -> Result<bool, Trouble> {
    let sizes = Sizes {
        seats: 2,
        hash: load.hash,
        small: 2_000,
        medium: 500,
        wide: 500,
    };
    let (board, seat) = open(rt.alloc(), sizes)?;
    let wrong = wrong_on::<Brand, R>(rt, board, seat, load.keys)?;
    let _ = println!(rt;
        "{} keys handed on with the hash {}: {wrong} calls not told so",
        load.keys, load.hash
    );
    Ok(wrong == 0)
}

/// The load of these words.
pub fn load_of(words: &[String]) -> Option<Load> {
    Some(Load {
        keys: number(words.get(0))?,
        hash: hash(words.get(1))?,
    })
}
