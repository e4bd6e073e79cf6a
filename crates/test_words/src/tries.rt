//! Calls in a number of tries.

ghost use Rattle.lock_free.specs.Attempts.{IsTried};

use history::{Call, Reply};
use lock_free::{CallError, MapName, NamedSeat, NamedTried, NamedWords};
use std::sync::Wait;

/// What is under way of a call goes on by one try after the other, until its seat is told.
fn end<N: MapName, R: Wait>(
    rt: &R,
    words: &NamedWords<N>,
    tried: NamedTried<N>,
) -> (NamedSeat<N>, Result<Reply, CallError>) {
    let mut tried = tried;
    for _ in rt.forever() {
        tried = match tried {
            NamedTried::Answered(seat, told) => return (seat, told),
            NamedTried::Parked(seat) => seat.go_on(words, 1),
        };
    }
    unreachable!()
}

/// Makes this call in so many tries; a get takes none, where it can be made at once. Returns the seat, and what it was told.
pub fn try_call<N: MapName, R: Wait>(
    rt: &R,
    words: &NamedWords<N>,
    seat: NamedSeat<N>,
    tries: u64,
    call: Call,
) -> (NamedSeat<N>, Result<Reply, CallError>)
    requires tried { IsTried call }
{
    let mut seat = seat;
    if let Call::Get { handle, key } = call {
        if let Some(value) = seat.glance(words, handle, key) {
            return (seat, Ok(Reply::Found(value)));
        }
    }
    end(rt, words, seat.try_call(words, tries, call))
}
