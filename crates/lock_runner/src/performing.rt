//! Whole calls of a seat.
ghost use Rattle.std.specs.Prelude.{◌≡◌, ◌<◌, ◌≤◌, ◌-◌, Some, length, slice_get};
ghost use Rattle.lock_runner.specs.Seats.{IsSeatOf};
ghost use Rattle.lock_runner.specs.Performing.{CarriesOut, CarriesOn};

use crate::between::Between;
use crate::runner::Runner;
use crate::seats::{Seat, Stop};
use history::{Call, Reply};
use std::sync::Wait;

impl Runner {
    /// Begins the call, and goes on until its operation has ended.
    pub(crate) fn carry_out<R: Wait, B: Between>(
        &self,
        rt: &R,
        seat: &mut Seat,
        call: Call,
        between: &B,
    ) -> Result<(), Stop>
        requires { IsSeatOf self.now seat.old }
        ensures { CarriesOut result seat.old call seat.new }
    {
        self.begin(rt, seat, call)?;
        between.between(seat.actor(), 1);
        self.carry_on(rt, seat, between, 1)
    }

    /// Goes on until the operation has ended. This many steps of the call were taken before.
    pub(crate) fn carry_on<R: Wait, B: Between>(
        &self,
        rt: &R,
        seat: &mut Seat,
        between: &B,
        before: u64,
    ) -> Result<(), Stop>
        requires { IsSeatOf self.now seat.old }
        ensures { CarriesOn result seat.old seat.new }
    {
        let mut taken = before;
        for _ in rt.forever() {
            if self.go(rt, seat)? {
                return Ok(());
            }
            taken = taken.saturating_add(1);
            between.between(seat.actor(), taken);
        }
        unreachable!()
    }
}

impl Seat {
    /// The actor whose seat it is.
    pub fn actor(&self) -> u8
        ensures number { result ≡ self.now.actor }
        ensures low { 1 ≤ result }
        ensures high { result ≤ self.now.seen.limits.actors }
    {
        self.pass.number()
    }

    /// The reply of the last answer.
    pub(crate) fn last_reply(&self) -> &Reply
        requires { 0 < length self.now.answers }
        ensures { (answer : _) × (slice_get self.now.answers (length self.now.answers - 1) ≡ Some answer) × (result.now ≡ answer.reply) }
    {
        &self.answers[self.answers.len() - 1].reply
    }
}
