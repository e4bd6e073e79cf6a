//! Calls that make a shared map, hand out its seats, and free them.

ghost use Rattle.std.specs.Prelude.{◌≡◌, Some, None};
ghost use Rattle.ctrie_c.specs.Calls.{kind_of};
ghost use Rattle.ctrie_c.specs.Sharing.{HoldsOne, Shares, Splits};
ghost use Rattle.shared_map.specs.Seats.{AreSeatsOf};

use crate::codes::{BAD_HASH, HAS_MAP, NO, NO_MAP, refusal};
use crate::held_seats::{HeldSeat, give_seat, take_seat};
use crate::making::kind_by;
use crate::sharing::{NO_SEAT, SharingSeat};
use shared_map::{HashKind, MapError, MapSeat, SharedMap};
use std::alloc::Global;
use std::sync::Arc;

/// Makes a shared map in this many shards, each with this many slots, whose keys are hashed so, and this many seats, where there is
/// none. One seat is held then, and hands out the others.
#[unsafe(no_mangle)]
pub extern "C" fn ctrie_shared_open(
    alloc: Global,
    held: &mut HeldSeat,
    slots: u32,
    hash: u32,
    seats: u8,
    shards: u8,
) -> u32
    ensures { Shares (kind_of hash) slots shards seats result held.old.state held.new.state }
{
    let Some(kind) = kind_by(hash) else {
        return BAD_HASH;
    };
    match take_seat(alloc, held) {
        None => open(alloc, held, slots, kind, seats, shards),
        Some(seat) => {
            give_seat(held, seat);
            HAS_MAP
        }
    }
}

/// Another seat of the held one's map, where none is held yet.
#[unsafe(no_mangle)]
pub extern "C" fn ctrie_shared_split(
    alloc: Global,
    held: &mut HeldSeat,
    other: &mut HeldSeat,
) -> u32
    ensures { Splits result held.old.state other.old.state held.new.state other.new.state }
{
    match take_seat(alloc, other) {
        None => split(alloc, held, other),
        Some(seat) => {
            give_seat(other, seat);
            HAS_MAP
        }
    }
}

/// Frees the seat and those that it has not handed out, if there is one; and the map, where it has no other seat.
#[unsafe(no_mangle)]
pub extern "C" fn ctrie_shared_free(alloc: Global, held: &mut HeldSeat)
    ensures { held.new.state ≡ None }
{
    let _ = take_seat(alloc, held);
}

/// Makes a shared map where there is none.
fn open(
    alloc: Global,
    held: &mut HeldSeat,
    slots: u32,
    kind: HashKind,
    seats: u8,
    shards: u8,
) -> u32
    requires { held.old.state ≡ None }
    ensures { Shares (Some kind) slots shards seats result None held.new.state }
{
    match SharedMap::new(alloc, slots, kind, seats, shards) {
        Err(error) => refusal(error),
        Ok((map, seats)) => hold(alloc, held, map, seats),
    }
}

/// Holds one of these seats at this map, which hands out the others.
fn hold(alloc: Global, held: &mut HeldSeat, map: SharedMap, mut spare: Vec<MapSeat>) -> u32
    requires none { held.old.state ≡ None }
    requires seats { AreSeatsOf map spare.items }
    ensures { HoldsOne map spare.items result held.new.state }
{
    let Some(seat) = spare.pop() else {
        return NO_SEAT;
    };
    let Ok(map) = Arc::new(alloc, map) else {
        return refusal(MapError::Memory);
    };
    let Ok(seat) = Box::new(alloc, SharingSeat { map, seat, spare }) else {
        return refusal(MapError::Memory);
    };
    give_seat(held, seat);
    NO
}

/// Holds another seat of the held one's map, where none is held.
fn split(alloc: Global, held: &mut HeldSeat, other: &mut HeldSeat) -> u32
    requires { other.old.state ≡ None }
    ensures { Splits result held.old.state None held.new.state other.new.state }
{
    let Some(mut seat) = take_seat(alloc, held) else {
        return NO_MAP;
    };
    let handed = seat.hand_out(alloc);
    give_seat(held, seat);
    match handed {
        Err(_) => refusal(MapError::Memory),
        Ok(None) => NO_SEAT,
        Ok(Some(handed)) => {
            give_seat(other, handed);
            NO
        }
    }
}
