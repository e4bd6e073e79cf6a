//! The end of a map.

ghost use Rattle.std.specs.Prelude.{◌≡◌, IfErr, IfOk};
ghost use Rattle.concurrent_map.specs.Finishing.{AreInOneOrder};
ghost use Rattle.concurrent_map.specs.Seats.{AreSeatsOf, state_of_seat};

use crate::maps::ConcurrentMap;
use crate::seats::MapSeat;
use lock_free::{Seat, finish_map};
use std::alloc::Global;

impl ConcurrentMap {
    /// Ends the map with these seats of it. One order explains all calls that they were answered, in which a call that was answered before
    /// another one began comes first. Where memory is lacking the map and the seats come back.
    pub fn finish(
        self,
        alloc: Global,
        seats: Vec<MapSeat>,
    ) -> Result<(), (ConcurrentMap, Vec<MapSeat>)>
        requires { AreSeatsOf self seats.items }
        ensures order { IfOk result (λ done. AreInOneOrder self seats.items) }
        ensures back { IfErr result (λ back. (back.0 ≡ self) × (back.1.items ≡ seats.items)) }
    {
        let Ok(mut plain) = Vec::with_capacity(alloc, seats.len()) else {
            return Err((self, seats));
        };
        for seat in seats {
            let _ = plain.push(seat.into_seat());
        }
        finish_map(self.board, plain);
        Ok(())
    }
}

impl MapSeat {
    /// The seat of `lock_free`.
    fn into_seat(self) -> Seat
        ensures { state_of_seat result ≡ self }
    {
        self.seat
    }
}
