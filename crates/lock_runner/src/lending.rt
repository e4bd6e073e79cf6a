//! Whole calls that lend their reply from the seat's answers.
ghost use Rattle.std.specs.Prelude.{◌≡◌, ⊤};
ghost use mathlib.Core.Option.{none};
ghost use types.Logic.{sem};
ghost use denote.Follow.{follows_so};
ghost use Rattle.lock_runner.specs.contracts.seats.Seat.{the_row};
ghost use Rattle.lock_runner.specs.Seats.{IsSeatOf};
ghost use Rattle.lock_runner.specs.Performing.{Performs, Resumes};

use crate::between::Between;
use crate::runner::Runner;
use crate::seats::{Seat, Stop};
use history::{Call, Reply};
use std::sync::Wait;

impl Seat {
    /// Performs a call of the seat's actor on the runner: begins it, and takes its steps until it ends, each
    /// by one hold of the gate. The reply is lent from the seat's answers, where it stands last. Nothing is
    /// answered where it stops: after `Ahead` nothing began; after `Memory`, and after `Denied(Spent)`, the
    /// operation may have begun and run still, which `resume` tells. Where an operation of the seat runs from
    /// an earlier call, it is `Denied(ActorBusy)`, and nothing is done; else `Memory` may stand in the place
    /// of `Ahead` or a denial.
    pub fn perform<R: Wait, B: Between>(
        &mut self,
        rt: &R,
        runner: &Runner,
        call: Call,
        between: &B,
    ) -> Result<&Reply, Stop>
        requires { IsSeatOf runner.now self.old }
        ensures* after { sem 𝓛 (follows_so the_row the_row self.entry.ghost_name none (λ _ _. ⊤) (λ after. Performs result self.old call after)) }
    {
        runner.carry_out(rt, self, call, between)?;
        Ok(self.last_reply())
    }

    /// Goes on with the operation that the seat's actor runs, until it ends. `Denied(Idle)` where it runs
    /// none; after `Memory` and `Denied(Spent)` it runs still.
    pub fn resume<R: Wait, B: Between>(
        &mut self,
        rt: &R,
        runner: &Runner,
        between: &B,
    ) -> Result<&Reply, Stop>
        requires { IsSeatOf runner.now self.old }
        ensures* after { sem 𝓛 (follows_so the_row the_row self.entry.ghost_name none (λ _ _. ⊤) (λ after. Resumes result self.old after)) }
    {
        runner.carry_on(rt, self, between, 0)?;
        Ok(self.last_reply())
    }
}
