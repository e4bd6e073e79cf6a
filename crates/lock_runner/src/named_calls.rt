//! Whole calls of a seat that bears its runner's name.
ghost use Rattle.std.specs.Prelude.{⊤};
ghost use mathlib.Core.Option.{none};
ghost use types.Logic.{sem};
ghost use denote.Follow.{follows_so};
ghost use Rattle.lock_runner.specs.contracts.naming.NamedSeat.{the_row};
ghost use Rattle.lock_runner.specs.Performing.{Performs, Resumes};

use crate::between::Between;
use crate::naming::{NamedRunner, NamedSeat};
use crate::seats::Stop;
use gate::Name;
use history::{Call, Reply};
use std::sync::Wait;

impl<N: Name> NamedSeat<N> {
    /// As `Seat::perform`, on the runner of this name.
    pub fn perform<R: Wait, B: Between>(
        &mut self,
        rt: &R,
        runner: &NamedRunner<N>,
        call: Call,
        between: &B,
    ) -> Result<&Reply, Stop>
        ensures* after { sem 𝓛 (follows_so (the_row N.row N.Name) (the_row N.row N.Name) self.entry.ghost_name none (λ _ _. ⊤) (λ after. Performs result self.old call after)) }
    {
        self.seat.perform(rt, &runner.runner, call, between)
    }

    /// As `Seat::resume`, on the runner of this name.
    pub fn resume<R: Wait, B: Between>(
        &mut self,
        rt: &R,
        runner: &NamedRunner<N>,
        between: &B,
    ) -> Result<&Reply, Stop>
        ensures* after { sem 𝓛 (follows_so (the_row N.row N.Name) (the_row N.row N.Name) self.entry.ghost_name none (λ _ _. ⊤) (λ after. Resumes result self.old after)) }
    {
        self.seat.resume(rt, &runner.runner, between)
    }
}
