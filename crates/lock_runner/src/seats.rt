//! Seats: what each thread keeps of its own calls.
ghost use Rattle.std.specs.Prelude.{◌≡◌, max};
ghost use Rattle.lock_runner.specs.Beneath.proof_runs.specs.Machines.{past_of};
ghost use Rattle.lock_runner.specs.ActorHistory.Answers.{AreAnswersOf, RunsJust};
ghost use Rattle.lock_runner.specs.declared.seats.Stop.TheVariants.{Memory};

use crate::accounts::{Answer, Running};
use crate::asks::{Ask, Pass, Shared, Told};
use ctrie_base::Refusal;
use gate::HoldsSeat;
use std::alloc::{AllocError, AllocFailed};
use std::marker::Model;

/// One actor's seat at a runner. A call that is made with it is that actor's.
#[derive(Drop)]
pub struct Seat {
    pub(crate) pass: Pass,
    pub(crate) answers: Vec<Answer>,
    pub(crate) running: Option<Running>,
    pub(crate) sweeps: u64,
    pub(crate) heard: u64,
}

impl Model for Seat {
    ghost use Rattle.lock_runner.specs.Seats.{Seated, seated, IsSeated};

    ghost Value = { Seated };

    ghost view = { λ s. seated s.pass s.answers.items s.running s.sweeps s.heard };

    ghost invariant = { λ s. IsSeated s.pass s.answers.items s.running s.sweeps };
}

impl HoldsSeat<Shared, Ask, Told> for Seat {
    ghost use Rattle.lock_runner.specs.Seats.{pass_of};

    ghost seat = { pass_of };

    fn seat_number(&self) -> u8 {
        self.pass.number()
    }

    fn into_seat(self) -> Pass {
        self.pass
    }
}

/// Why a call stopped.
#[derive(Clone, Copy, Debug, PartialEq, Eq)]
pub enum Stop {
    /// The machine denied the step.
    Denied(Refusal),
    /// A growth was refused.
    Memory,
    /// Fewer events are recorded than the seat has heard of.
    Ahead,
}

impl From<AllocError> for Stop {
    ghost from_gives = { λ _ s. s ≡ Memory };

    fn from(_e: AllocError) -> Stop {
        Stop::Memory
    }
}

impl Seat {
    /// The operations that the seat's calls ended, in the order of their ends.
    pub fn answers(&self) -> &[Answer]
        ensures { result.now ≡ self.now.answers }
    {
        self.answers.as_slice()
    }

    /// A law: these are all that the machine's history told of the seat's actor when the seat saw it last, and
    /// the actor ran just the operation that the seat has.
    pub fn answers_are_all(&self)
        ensures answers { AreAnswersOf self.now.actor (past_of self.now.seen).events self.now.answers }
        ensures running { RunsJust self.now.actor (past_of self.now.seen).events self.now.running }
    {
        let _ = &self.pass;
    }

    /// How many steps of the sweep were taken with this seat.
    pub fn sweeps(&self) -> u64
        ensures { result ≡ self.now.sweeps }
    {
        self.sweeps
    }

    /// Tells the seat that this many events are recorded. A call that finds fewer stops with `Ahead`.
    pub fn hear(&mut self, events: u64)
        ensures { self.new ≡ record self.old { heard = max self.old.heard events } }
    {
        self.heard = self.heard.max(events);
    }

    /// The greatest number of events of which the seat was told, 0 at first.
    pub fn heard(&self) -> u64
        ensures { result ≡ self.now.heard }
    {
        self.heard
    }
}
