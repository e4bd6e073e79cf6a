//! Calls that make a concurrent map, hand out its seats, and free them.

ghost use Rattle.std.specs.Prelude.{◌≡◌, Some, None};
ghost use Rattle.ctrie_c.specs.Calls.{kind_of};
ghost use Rattle.ctrie_c.specs.Threading.{HoldsOne, Splits, Threads};
ghost use Rattle.concurrent_map.specs.Seats.{AreSeatsOf};

use crate::codes::{BAD_HASH, HAS_MAP, NO, NO_MAP};
use crate::concurrent_codes::{BAD_SIZES, MEMORY};
use crate::held_callers::{HeldCaller, give_caller, take_caller};
use crate::making::kind_by;
use crate::sharing::NO_SEAT;
use crate::threading::{At, ThreadingSeat};
use concurrent_map::{ConcurrentMap, HashKind, MapSeat, OpenError};
use std::alloc::Global;
use std::sync::Arc;

/// Makes a map with room for this many keys, which are hashed so, and this many seats, where there is none. One seat is held then, and
/// hands out the others.
#[unsafe(no_mangle)]
pub extern "C" fn ctrie_concurrent_open(
    alloc: Global,
    held: &mut HeldCaller,
    keys: u32,
    hash: u32,
    seats: u8,
) -> u32
    ensures { Threads (kind_of hash) keys seats result held.old.state held.new.state }
{
    let Some(kind) = kind_by(hash) else {
        return BAD_HASH;
    };
    match take_caller(alloc, held) {
        None => open(alloc, held, keys, kind, seats),
        Some(seat) => {
            give_caller(held, seat);
            HAS_MAP
        }
    }
}

/// Another seat of the held one's map, where none is held yet.
#[unsafe(no_mangle)]
pub extern "C" fn ctrie_concurrent_split(
    alloc: Global,
    held: &mut HeldCaller,
    other: &mut HeldCaller,
) -> u32
    ensures { Splits result held.old.state other.old.state held.new.state other.new.state }
{
    match take_caller(alloc, other) {
        None => split(alloc, held, other),
        Some(seat) => {
            give_caller(other, seat);
            HAS_MAP
        }
    }
}

/// Frees the seat and those that it has not handed out, if there is one; and the map, where it has no other seat. A call of it that is
/// under way stays so for ever.
#[unsafe(no_mangle)]
pub extern "C" fn ctrie_concurrent_drop(alloc: Global, held: &mut HeldCaller)
    ensures { held.new.state ≡ None }
{
    let _ = take_caller(alloc, held);
}

/// Makes a map where there is none.
fn open(alloc: Global, held: &mut HeldCaller, keys: u32, kind: HashKind, seats: u8) -> u32
    requires { held.old.state ≡ None }
    ensures { Threads (Some kind) keys seats result None held.new.state }
{
    match ConcurrentMap::new(alloc, keys, kind, seats) {
        Err(OpenError::BadSizes) => BAD_SIZES,
        Err(OpenError::Memory) => MEMORY,
        Ok((map, seats)) => hold(alloc, held, map, seats),
    }
}

/// Holds one of these seats at this map, which hands out the others.
fn hold(alloc: Global, held: &mut HeldCaller, map: ConcurrentMap, mut spare: Vec<MapSeat>) -> u32
    requires none { held.old.state ≡ None }
    requires seats { AreSeatsOf map spare.items }
    ensures { HoldsOne map spare.items result held.new.state }
{
    let Some(seat) = spare.pop() else {
        return NO_SEAT;
    };
    let Ok(map) = Arc::new(alloc, map) else {
        return MEMORY;
    };
    let at = At::Resting(seat);
    let Ok(seat) = Box::new(alloc, ThreadingSeat { map, at, spare }) else {
        return MEMORY;
    };
    give_caller(held, seat);
    NO
}

/// Holds another seat of the held one's map, where none is held.
fn split(alloc: Global, held: &mut HeldCaller, other: &mut HeldCaller) -> u32
    requires { other.old.state ≡ None }
    ensures { Splits result held.old.state None held.new.state other.new.state }
{
    let Some(mut seat) = take_caller(alloc, held) else {
        return NO_MAP;
    };
    let handed = seat.hand_out(alloc);
    give_caller(held, seat);
    match handed {
        Err(_) => MEMORY,
        Ok(None) => NO_SEAT,
        Ok(Some(handed)) => {
            give_caller(other, handed);
            NO
        }
    }
}
