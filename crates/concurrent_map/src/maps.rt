//! Maps.

ghost use Rattle.std.specs.Prelude.{◌≡◌, ◌≤◌, [], IfErr, IfOk, OnOk, vec_capacity};
ghost use Rattle.lock_free.specs.Opening.{Refuses};
ghost use Rattle.lock_free.specs.Places.{AreSizes};
ghost use Rattle.lock_free.specs.FirstViews.{first_view};
ghost use Rattle.lock_free.specs.Naming.{MapId};
ghost use Rattle.concurrent_map.specs.Room.{sizes_for};
ghost use Rattle.concurrent_map.specs.Seats.{AreNewSeats, AreSeatsOf};

use crate::room::sizes_for;
use crate::seats::{MapSeat, histories_stay};
use ctrie_base::HashKind;
use lock_free::{Board, OpenError, Seat, Words, first_seat_is_silent, open};
use std::alloc::{AllocError, Global};
use std::marker::Model;

/// A map that threads share. Handle 0 names it at first, and may be written; a copy of it gets a handle of its own.
#[derive(Drop)]
pub struct ConcurrentMap {
    pub(crate) board: Board,
}

impl Model for ConcurrentMap {
    ghost use Rattle.std.specs.Prelude.{◌≡◌};
    ghost use Rattle.lock_free.specs.Naming.{MapId};

    ghost Value = { MapId };

    ghost view = { λ m. record { table = m.board.shared.table_id; sizes = m.board.shared.key } };

    ghost invariant = { λ m. m.board.shared.table_id.slots ≡ 0 };
}

impl ConcurrentMap {
    /// A new map with room for this many keys, and this many seats, from 1 to 255, with the numbers 1 and on. It takes all its memory here.
    ///
    /// # Errors
    ///
    /// `BadSizes` exactly where there is no seat, or the map would have more than 2^28 words of 8 bytes; else `Memory`. Nothing is kept then.
    pub fn new(
        alloc: Global,
        keys: u32,
        hash: HashKind,
        seats: u8,
    ) -> Result<(ConcurrentMap, Vec<MapSeat>), OpenError>
        ensures sizes { IfOk result (λ made. made.0.sizes ≡ sizes_for keys hash seats) }
        ensures seats { IfOk result (λ made. AreSeatsOf made.0 made.1.items) }
        ensures silent { IfOk result (λ made. AreNewSeats made.0 1 made.1.items seats) }
        ensures in_range { OnOk result (AreSizes (sizes_for keys hash seats)) }
        ensures refused { IfErr result (Refuses (sizes_for keys hash seats)) }
    {
        let (board, first) = open(alloc, sizes_for(keys, hash, seats))?;
        let Ok(mut made) = Vec::with_capacity(alloc, usize::from(seats)) else {
            return Err(OpenError::Memory);
        };
        match seat_all(alloc, &board.shared, first, seats, &mut made) {
            Ok(()) => Ok((ConcurrentMap { board }, made)),
            Err(_) => Err(OpenError::Memory),
        }
    }
}

/// Each of the actors of this seat, which has all of them, gets a seat of its own.
fn seat_all(
    alloc: Global,
    words: &Words,
    mut first: Seat,
    seats: u8,
    made: &mut Vec<MapSeat>,
) -> Result<(), AllocError>
    requires table { first.table ≡ words.now.table_id }
    requires sizes { AreSizes words.now.key }
    requires first { first.view ≡ first_view words.now.key }
    requires seats { words.now.key.seats ≡ seats }
    requires room { (made.old.items ≡ []) × (seats ≤ vec_capacity made.old) }
    ensures seats { OnOk result (AreSeatsOf record { table = words.now.table_id; sizes = words.now.key } made.new.items) }
    ensures silent { OnOk result (AreNewSeats record { table = words.now.table_id; sizes = words.now.key } 1 made.new.items seats) }
{
    histories_stay();
    first_seat_is_silent();
    for _ in 1..seats {
        let seat = first.split(alloc, words)?;
        let _ = made.insert(0, MapSeat { seat });
    }
    let _ = made.insert(0, MapSeat { seat: first });
    Ok(())
}
