//! A small map, walked by one thread.

ghost use Rattle.std.specs.Prelude.{◌≡◌};

use crate::keys::{deep_key, listed_key};
use crate::maps::{Trouble, sizes_for};
use crate::words::hash;
use ctrie_base::HashKind;
use lock_free::{Board, CallError, MapName, NamedSeat, NamedWords, Seat, named, open};
use std::alloc::Global;
use std::marker::Brand;
use std::sync::Wait;

/// What is done: a map of this hash is walked.
#[derive(Clone, Copy)]
pub struct Load {
    hash: HashKind,
}

/// How many keys of each kind there are.
const KEYS: u64 = 6;

/// Why a call of a map that is large enough is refused.
fn trouble_of(error: CallError) -> Trouble {
    match error {
        CallError::Memory => Trouble::Memory,
        _ => Trouble::Full,
    }
}

/// Puts keys of both kinds.
fn fill<N: MapName, R: Wait>(
    rt: &R,
    words: &NamedWords<N>,
    seat: &mut NamedSeat<N>,
    hash: HashKind,
) -> Result<(), CallError> {
    for n in 0..KEYS {
        seat.put(rt, words, 0, deep_key(hash, 2, n), n)?;
        seat.put(rt, words, 0, listed_key(hash, 3, n), 100 + n)?;
    }
    Ok(())
}

/// All pairs of a frozen copy, which is closed again.
fn pairs_of<N: MapName, R: Wait>(
    rt: &R,
    alloc: Global,
    words: &NamedWords<N>,
    seat: &mut NamedSeat<N>,
) -> Result<Vec<(u64, u64)>, CallError> {
    let copy = seat.freeze(rt, words, 0)?;
    let pairs = seat.entries(alloc, rt, words, copy)?;
    seat.close(words, copy)?;
    Ok(pairs)
}

/// The pairs of a map that was filled and is ended.
fn walked<N: MapName, R: Wait + AllocGlobal>(
    rt: &R,
    board: Board,
    seat: Seat,
    hash: HashKind,
) -> Result<Vec<(u64, u64)>, Trouble>
    requires name { N.map_id ≡ record { table = board.shared.table_id; sizes = board.shared.key } }
    requires slots { board.shared.table_id.slots ≡ 0 }
    requires seat { (seat.table ≡ board.shared.table_id) × (seat.view.sizes ≡ board.shared.key) }
{
    let alloc = rt.alloc();
    let (words, mut seat) = named::<N>(board, seat);
    fill(rt, &words, &mut seat, hash).map_err(trouble_of)?;
    let pairs = pairs_of(rt, alloc, &words, &mut seat).map_err(trouble_of)?;
    let mut seats = Vec::new(alloc);
    seats.push(seat)?;
    match words.finish(alloc, seats) {
        Ok(()) => Ok(pairs),
        Err(_) => Err(Trouble::Memory),
    }
}

/// Writes all pairs, by rising key.
pub fn write<R: Wait + Print + AllocGlobal>(rt: &R, load: Load) -> Result<(), Trouble> {
    let (board, seat) = open(rt.alloc(), sizes_for(1, load.hash, 1))?;
    let pairs = walked::<Brand, R>(rt, board, seat, load.hash)?;
    for (key, value) in pairs {
        let _ = println!(rt; "{key} = {value}");
    }
    Ok(())
}

/// The load of these words.
pub fn load_of(words: &[String]) -> Option<Load> {
    Some(Load {
        hash: hash(words.get(0))?,
    })
}

/// One of 64 bits.
pub fn small<R: Wait + Print + AllocGlobal>(rt: &R) -> Result<(), Trouble> {
    write(
        rt,
        Load {
            hash: HashKind::Wide,
        },
    )
}
