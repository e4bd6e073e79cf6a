//! Runners and seats that bear a name.
//!
//! A name stands for one runner, so the type of a named seat says whose seat it is: it may lie in any
//! container, go through any channel, and be called without a premise. The name is one of the runner's gate.
ghost use Rattle.std.specs.Prelude.{◌≡◌, ◌≤◌, IfOk, IfErr, max};
ghost use Rattle.lock_runner.specs.Beneath.proof_runs.specs.Machines.{past_of};
ghost use Rattle.lock_runner.specs.ActorHistory.Answers.{AreAnswersOf, RunsJust};
ghost use Rattle.lock_runner.specs.Seats.{AreSeatsOf};
ghost use Rattle.lock_runner.specs.Stepping.{Sweeps};

use crate::accounts::Answer;
use crate::runner::Runner;
use crate::seats::{Seat, Stop};
use gate::Name;
use std::alloc::Global;
use std::marker::{Model, PhantomData};
use std::sync::Wait;
use step_machine::Swept;

/// The runner for which the name stands.
#[derive(Drop)]
pub struct NamedRunner<N: Name> {
    pub(crate) runner: Runner,
    name: PhantomData<N>,
}

impl<N: Name> Model for NamedRunner<N> {
    ghost use Rattle.std.specs.Prelude.{◌≡◌};
    ghost use Rattle.lock_runner.specs.Seats.{Room};

    ghost Value = { Room };

    ghost view = { λ r. r.runner };

    ghost invariant = { λ r. r.runner.id ≡ N.gate };
}

/// A seat of the runner for which the name stands.
#[derive(Drop)]
pub struct NamedSeat<N: Name> {
    pub(crate) seat: Seat,
    name: PhantomData<N>,
}

impl<N: Name> Model for NamedSeat<N> {
    ghost use Rattle.std.specs.Prelude.{◌≡◌};
    ghost use Rattle.lock_runner.specs.Seats.{Seated};

    ghost Value = { Seated };

    ghost view = { λ s. s.seat };

    ghost invariant = { λ s. s.seat.runner ≡ N.gate };
}

impl Runner {
    /// The runner and its seats under the name that stands for it. Where memory is wanting they come back.
    pub fn named<N: Name>(
        self,
        alloc: Global,
        seats: Vec<Seat>,
    ) -> Result<(NamedRunner<N>, Vec<NamedSeat<N>>), (Runner, Vec<Seat>)>
        requires name { self.id ≡ N.gate }
        requires seats { AreSeatsOf self seats.items }
        ensures same { IfOk result (λ named. (named.0 ≡ self) × (named.1.items ≡ seats.items)) }
        ensures back { IfErr result (λ back. (back.0 ≡ self) × (back.1.items ≡ seats.items)) }
    {
        let Ok(mut named) = Vec::with_capacity(alloc, seats.len()) else {
            return Err((self, seats));
        };
        for seat in seats {
            let _ = named.push(NamedSeat::new(seat));
        }
        let runner = NamedRunner {
            runner: self,
            name: PhantomData,
        };
        Ok((runner, named))
    }
}

impl<N: Name> NamedRunner<N> {
    /// The runner and these seats without the name, as `Runner::finish` takes them. Where memory is wanting they
    /// come back.
    pub fn unnamed(
        self,
        alloc: Global,
        seats: Vec<NamedSeat<N>>,
    ) -> Result<(Runner, Vec<Seat>), (NamedRunner<N>, Vec<NamedSeat<N>>)>
        ensures same { IfOk result (λ plain. (plain.0 ≡ self) × (plain.1.items ≡ seats.items)) }
        ensures seats { IfOk result (λ plain. AreSeatsOf plain.0 plain.1.items) }
        ensures back { IfErr result (λ back. (back.0 ≡ self) × (back.1.items ≡ seats.items)) }
    {
        let Ok(mut plain) = Vec::with_capacity(alloc, seats.len()) else {
            return Err((self, seats));
        };
        let NamedRunner { runner, name: _ } = self;
        for seat in seats {
            let _ = plain.push(seat.into_seat());
        }
        Ok((runner, plain))
    }
}

impl<N: Name> NamedSeat<N> {
    /// The seat under its runner's name.
    fn new(seat: Seat) -> NamedSeat<N>
        requires { seat.runner ≡ N.gate }
        ensures { result ≡ seat }
    {
        NamedSeat {
            seat,
            name: PhantomData,
        }
    }

    /// The seat without the name.
    fn into_seat(self) -> Seat
        ensures same { result ≡ self }
        ensures name { result.runner ≡ N.gate }
    {
        let NamedSeat { seat, name: _ } = self;
        seat
    }

    /// As `Runner::sweep`, on the runner of this name.
    pub fn sweep<R: Wait>(&mut self, rt: &R, runner: &NamedRunner<N>) -> Result<Swept, Stop>
        ensures { Sweeps result self.old self.new }
    {
        runner.runner.sweep(rt, &mut self.seat)
    }

    /// As `Seat::answers`.
    pub fn answers(&self) -> &[Answer]
        ensures { result.now ≡ self.now.answers }
    {
        self.seat.answers()
    }

    /// As `Seat::answers_are_all`.
    pub fn answers_are_all(&self)
        ensures answers { AreAnswersOf self.now.actor (past_of self.now.seen).events self.now.answers }
        ensures running { RunsJust self.now.actor (past_of self.now.seen).events self.now.running }
    {
        self.seat.answers_are_all();
    }

    /// As `Seat::actor`.
    pub fn actor(&self) -> u8
        ensures number { result ≡ self.now.actor }
        ensures low { 1 ≤ result }
        ensures high { result ≤ self.now.seen.limits.actors }
    {
        self.seat.actor()
    }

    /// As `Seat::sweeps`.
    pub fn sweeps(&self) -> u64
        ensures { result ≡ self.now.sweeps }
    {
        self.seat.sweeps()
    }

    /// As `Seat::hear`.
    pub fn hear(&mut self, events: u64)
        ensures { self.new ≡ record self.old { heard = max self.old.heard events } }
    {
        self.seat.hear(events);
    }

    /// As `Seat::heard`.
    pub fn heard(&self) -> u64
        ensures { result ≡ self.now.heard }
    {
        self.seat.heard()
    }
}
