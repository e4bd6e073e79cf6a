//! Calls that have only so many tries, and seats whose call is under way.

ghost use Rattle.std.specs.Prelude.{◌≡◌, ◌⊎◌};
ghost use Rattle.history.specs.declared.calls.Call.{Call};
ghost use Rattle.lock_free.specs.Attempts.{IsTried};
ghost use Rattle.lock_free.specs.Seated.{Seated};
ghost use Rattle.lock_free.specs.declared.parked_seats.Tried.{Tried};
ghost use Rattle.concurrent_map.specs.Seats.{SeatState};
ghost use Rattle.concurrent_map.specs.Tries.{HasTried, IsTriedAt, NeverBegan};

use crate::maps::ConcurrentMap;
use crate::seats::{MapSeat, histories_stay};
use history::{Call, Reply};
use lock_free::{CallError, ParkedSeat, Tried};
use std::marker::Model;

/// A seat whose call has used up its tries while something of it is under way: it may make no other call before that one has come to its
/// end. Calls of other seats don't wait for it. Who drops it leaves its call under way for ever: its handle can't be closed any more, and
/// slots that are given up from then on aren't used again.
#[derive(Drop)]
pub struct ParkedMapSeat {
    seat: ParkedSeat,
}

impl Model for ParkedMapSeat {
    ghost use Rattle.lock_free.specs.Places.{AreSizes};
    ghost use Rattle.lock_free.specs.Seated.{Seated};

    ghost Value = { Seated };

    ghost view = { λ s. s.seat };

    ghost invariant = { λ s. AreSizes s.seat.view.sizes };
}

/// What comes of a call in a number of tries.
#[derive(Drop)]
pub enum MapTried {
    /// It is over.
    Answered(MapSeat, Result<Reply, CallError>),
    /// It is under way.
    Parked(ParkedMapSeat),
}

impl MapTried {
    ghost use Rattle.lock_free.specs.Places.{AreSizes};
    ghost use Rattle.concurrent_map.specs.Tries.{of_map, HasSizes};

    /// The same of a seat of a map.
    fn new(tried: Tried) -> MapTried
        requires sizes { HasSizes tried }
        ensures { result ≡ of_map tried }
    {
        match tried {
            Tried::Answered(seat, told) => MapTried::Answered(MapSeat { seat }, told),
            Tried::Parked(seat) => MapTried::Parked(ParkedMapSeat { seat }),
        }
    }
}

impl MapSeat {
    ghost use Rattle.concurrent_map.specs.Seats.{IsSeatOf};

    /// A call on a key, a clear, a snapshot or a freeze. Each of its loops takes so many tries at most, so it ends whatever other threads do.
    /// Where these are used up while something of it is under way, it goes on by `go_on`.
    /// The way down to a key is such a loop, with a try for each level: with fewer tries than that way has levels, at most 14, the call is
    /// `Spent` however often it is made. A get is better made by `glance` first, which moves no seat.
    ///
    /// # Errors
    ///
    /// As of the call itself; and `Spent`, where the tries are used up and nothing is under way, or no slot was free while some that the seat has
    /// retired are to be soon.
    pub fn try_call(self, map: &ConcurrentMap, tries: u64, call: Call) -> MapTried
        requires of_map { IsSeatOf map.now self }
        requires tried { IsTried call }
        ensures seat { IsTriedAt map.now result }
        ensures tried { HasTried self call result ⊎ NeverBegan self result }
    {
        histories_stay();
        let MapSeat { seat } = self;
        MapTried::new(seat.try_call(&map.board.shared, tries, call))
    }
}

impl ParkedMapSeat {
    ghost use Rattle.concurrent_map.specs.Seats.{state_of_seat, IsSeatOf};
    ghost use Rattle.concurrent_map.specs.Tries.{IsUnderWay};

    /// The call goes on in so many tries.
    ///
    /// # Errors
    ///
    /// As of `try_call`.
    pub fn go_on(self, map: &ConcurrentMap, tries: u64) -> MapTried
        requires { IsSeatOf map.now (state_of_seat self) }
        ensures seat { IsTriedAt map.now result }
        ensures tried { (before : SeatState) (call : Call) → IsTried call → IsUnderWay before call self → HasTried before call result }
    {
        histories_stay();
        let ParkedMapSeat { seat } = self;
        MapTried::new(seat.go_on(&map.board.shared, tries))
    }
}
