//! Calls that have only so many tries, and seats whose call is under way.

ghost use Rattle.std.specs.Prelude.{◌≡◌, ◌⊎◌};
ghost use Rattle.history.specs.declared.calls.Call.{Call};
ghost use Rattle.lock_free.specs.declared.rules.View.{View};
ghost use Rattle.lock_free.specs.Attempts.{IsTried};
ghost use Rattle.lock_free.specs.TriedCalls.{tried_by, IsParkedCall, IsSeatBy};

use crate::call_errors::CallError;
use crate::call_runs::Ran;
use crate::loads::{Actor, Words};
use crate::parking::Parked;
use crate::seating::Seat;
use crate::stock::Stock;
use crate::try_runs::{try_on, try_within};
use history::{Access, Call, Reply};
use std::marker::Model;

/// A seat whose call has used up its tries while something of it is under way: it may not be called, split or ended before that has come
/// to its end. Calls of other seats don't wait for it. Who drops it leaves its call under way for ever, and its seat pinned: its handle
/// can't be closed any more, and the epoch doesn't grow.
#[derive(Drop)]
pub struct ParkedSeat {
    actor: Actor,
    number: u8,
    last: u8,
    stock: Box<Stock>,
    call: Call,
    access: Access,
    parked: Parked,
}

impl Model for ParkedSeat {
    ghost use Rattle.lock_free.specs.Seated.{Seated};
    ghost use Rattle.lock_free.specs.UnderWay.{IsParkedSeat};

    ghost Value = { Seated };

    ghost view = { λ s. record { table = s.actor.table_id; view = s.actor.me.0 } };

    ghost invariant = { λ s. IsParkedSeat s.actor.table_id.words s.actor.me.0 s.number s.last s.stock.value s.call s.access s.parked };
}

/// What comes of a call in a number of tries.
#[derive(Drop)]
pub enum Tried {
    /// It is over.
    Answered(Seat, Result<Reply, CallError>),
    /// It is under way.
    Parked(ParkedSeat),
}

/// A seat of these parts whose call has come so far.
fn tried_by(actor: Actor, number: u8, last: u8, stock: Box<Stock>, call: Call, ran: Ran) -> Tried
    requires whole { IsSeatBy actor.table_id.words actor.me.0 number last stock.value call ran }
    ensures { result ≡ tried_by record { table = actor.table_id; view = actor.me.0 } ran }
{
    match ran {
        Ran::Told(told) => {
            let seat = Seat {
                actor,
                number,
                last,
                stock,
            };
            Tried::Answered(seat, told)
        }
        Ran::UnderWay(access, parked) => {
            let seat = ParkedSeat {
                actor,
                number,
                last,
                stock,
                call,
                access,
                parked,
            };
            Tried::Parked(seat)
        }
    }
}

impl Seat {
    ghost use Rattle.lock_free.specs.TriedCalls.{GoesOnAs, HasTriedCall, NeverBegan};

    /// A call on a key, a clear, a snapshot or a freeze. Each of its loops takes so many tries at most, so it ends whatever other threads do.
    /// Where these are used up while something of it is under way, it goes on by `go_on`.
    /// The way down to a key is such a loop, with a try for each level: with fewer tries than that way has levels, at most 14, the call is
    /// `Spent` however often it is made. A get is better made by `glance` first, which moves no seat.
    ///
    /// # Errors
    ///
    /// As of the call itself; and `Spent`, where the tries are used up and nothing is under way, or no slot was free while some that the seat has
    /// retired are to be soon.
    pub fn try_call(self, words: &Words, tries: u64, call: Call) -> Tried
        requires table { self.table ≡ words.now.table_id }
        requires tried { IsTried call }
        ensures seat { GoesOnAs self result }
        ensures tried { HasTriedCall self.view call result ⊎ NeverBegan self.view result }
    {
        let Seat {
            mut actor,
            number,
            last,
            mut stock,
        } = self;
        let ran = try_within(tries, words, &mut actor, &mut stock, number, call);
        tried_by(actor, number, last, stock, call, ran)
    }
}

impl ParkedSeat {
    ghost use Rattle.lock_free.specs.TriedCalls.{GoesOnAs, HasTriedCall};

    /// The call goes on in so many tries.
    ///
    /// # Errors
    ///
    /// As of `try_call`.
    pub fn go_on(self, words: &Words, tries: u64) -> Tried
        requires table { self.table ≡ words.now.table_id }
        ensures seat { GoesOnAs self result }
        ensures tried { (before : View) (call : Call) → IsTried call → IsParkedCall before call self.view → HasTriedCall before call result }
    {
        let ParkedSeat {
            mut actor,
            number,
            last,
            mut stock,
            call,
            access,
            parked,
        } = self;
        let ran = try_on(
            tries, words, &mut actor, &mut stock, number, call, access, parked,
        );
        tried_by(actor, number, last, stock, call, ran)
    }
}
