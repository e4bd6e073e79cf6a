//! Seats: what threads call a map with.

ghost use Rattle.std.specs.Prelude.{◌≡◌, ◌≤◌};
ghost use Rattle.lock_free.specs.Answers.{OthersTellNothing};
ghost use Rattle.lock_free.specs.Denials.{ClosesTellHandles, DenialsTellHandles};
ghost use Rattle.lock_free.specs.Telling.{HistoriesGoOn};

use lock_free::{
    Seat, closes_tell_handles, denials_tell_handles, histories_go_on, others_tell_nothing,
};
use std::marker::Model;

/// A seat at a map. Who has it makes its calls, one after another; those of different seats may overlap. A seat may go to another thread.
#[derive(Drop)]
pub struct MapSeat {
    pub(crate) seat: Seat,
}

impl Model for MapSeat {
    ghost use Rattle.lock_free.specs.Places.{AreSizes};
    ghost use Rattle.concurrent_map.specs.Seats.{SeatState, state_of_seat};

    ghost Value = { SeatState };

    ghost view = { λ s. state_of_seat s.seat };

    ghost invariant = { λ s. AreSizes s.seat.view.sizes };
}

impl MapSeat {
    /// Its number, from 1 on: no other seat of the map has it.
    pub fn number(&self) -> u8
        ensures number { result ≡ self.now.number }
        ensures low { 1 ≤ result }
    {
        self.seat.number()
    }
}

/// Laws: a history goes on; what others do in it tells a seat nothing; and what a call is denied for tells of its handle.
#[inline(always)]
pub(crate) fn histories_stay()
    ensures go_on { HistoriesGoOn }
    ensures others { OthersTellNothing }
    ensures denials { DenialsTellHandles }
    ensures closes { ClosesTellHandles }
{
    histories_go_on();
    others_tell_nothing();
    denials_tell_handles();
    closes_tell_handles();
}
