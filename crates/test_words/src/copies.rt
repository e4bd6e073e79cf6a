//! A small map that one thread copies over and over.

ghost use Rattle.std.specs.Prelude.{◌≡◌};

use crate::keys::deep_key;
use crate::maps::{Trouble, sizes_for};
use crate::words::{hash, number};
use ctrie_base::HashKind;
use lock_free::{Board, CallError, MapName, NamedSeat, NamedWords, Seat, named, open};
use std::alloc::Global;
use std::marker::Brand;
use std::sync::Wait;

/// What is done: a map of this hash is copied in so many rounds.
#[derive(Clone, Copy)]
pub struct Load {
    rounds: u64,
    hash: HashKind,
}

/// Puts a key, takes a snapshot and changes that, freezes the map, and clears it. Returns how often it was copied.
fn copy_once<N: MapName, R: Wait>(
    rt: &R,
    words: &NamedWords<N>,
    seat: &mut NamedSeat<N>,
    load: Load,
    round: u64,
) -> Result<u64, CallError> {
    let key = deep_key(load.hash, 1, round % 8);
    seat.put(rt, words, 0, key, round)?;
    let copy = seat.snapshot(rt, words, 0)?;
    seat.put(rt, words, copy, key, 0)?;
    seat.close(words, copy)?;
    let frozen = seat.freeze(rt, words, 0)?;
    seat.close(words, frozen)?;
    seat.clear(rt, words, 0)?;
    Ok(3)
}

/// Copies the map in so many rounds. Returns how often it was copied until a call was refused.
fn copy_often<N: MapName, R: Wait>(
    rt: &R,
    words: &NamedWords<N>,
    seat: &mut NamedSeat<N>,
    load: Load,
) -> u64 {
    let mut copies = 0u64;
    for round in 0..load.rounds {
        match copy_once(rt, words, seat, load, round) {
            Ok(more) => copies = copies.saturating_add(more),
            Err(_) => return copies,
        }
    }
    copies
}

/// How often a map was copied that is ended then.
fn copied<N: MapName, R: Wait + AllocGlobal>(
    rt: &R,
    board: Board,
    seat: Seat,
    load: Load,
) -> Result<u64, Trouble>
    requires name { N.map_id ≡ record { table = board.shared.table_id; sizes = board.shared.key } }
    requires slots { board.shared.table_id.slots ≡ 0 }
    requires seat { (seat.table ≡ board.shared.table_id) × (seat.view.sizes ≡ board.shared.key) }
{
    let alloc = rt.alloc();
    let (words, mut seat) = named::<N>(board, seat);
    let copies = copy_often(rt, &words, &mut seat, load);
    let mut seats = Vec::new(alloc);
    seats.push(seat)?;
    match words.finish(alloc, seats) {
        Ok(()) => Ok(copies),
        Err(_) => Err(Trouble::Memory),
    }
}

/// Writes how often a map of few slots was copied.
pub fn write<R: Wait + Print + AllocGlobal>(rt: &R, load: Load) -> Result<(), Trouble> {
    let (board, seat) = open(rt.alloc(), sizes_for(1, load.hash, 1))?;
    let copies = copied::<Brand, R>(rt, board, seat, load)?;
    let _ = println!(rt; "{copies} copies of a map of few slots");
    Ok(())
}

/// The load of these words.
pub fn load_of(words: &[String]) -> Option<Load> {
    Some(Load {
        rounds: number(words.get(0))?,
        hash: hash(words.get(1))?,
    })
}

/// One that is copied 12,000 times.
pub fn small<R: Wait + Print + AllocGlobal>(rt: &R) -> Result<(), Trouble> {
    write(
        rt,
        Load {
            rounds: 4000,
            hash: HashKind::Wide,
        },
    )
}
