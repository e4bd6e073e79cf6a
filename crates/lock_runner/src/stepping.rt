//! Single steps of a seat's calls.
ghost use Rattle.std.specs.Prelude.{◌≡◌};
ghost use Rattle.lock_runner.specs.Seats.{IsSeatOf};
ghost use Rattle.lock_runner.specs.Stepping.{Begins, Goes, Sweeps};

use crate::accounts::{Answer, Running};
use crate::asks::{Ask, Work};
use crate::runner::Runner;
use crate::seats::{Seat, Stop};
use ctrie_base::Refusal;
use history::Call;
use std::sync::Wait;
use step_machine::{Outcome, Swept};

impl Runner {
    /// Begins a call of the seat's actor, if the seat has not heard of more events than are recorded. A busy
    /// seat is told so before all else.
    pub(crate) fn begin<R: Wait>(&self, rt: &R, seat: &mut Seat, call: Call) -> Result<(), Stop>
        requires { IsSeatOf self.now seat.old }
        ensures { Begins result seat.old call seat.new }
    {
        if seat.running.is_some() {
            return Err(Stop::Denied(Refusal::ActorBusy));
        }
        seat.answers.reserve(1)?;
        let ask = Ask {
            work: Work::Begin(call),
            heard: seat.heard,
        };
        let (began, outcome) = self.gate.call(rt, &mut seat.pass, ask)?;
        let Outcome::Began(id) = outcome else {
            unreachable!()
        };
        seat.running = Some(Running { id, call, began });
        Ok(())
    }

    /// Takes the next step of the operation that the seat's actor runs, and returns whether it has ended. An
    /// idle seat is told so before memory is asked for.
    pub(crate) fn go<R: Wait>(&self, rt: &R, seat: &mut Seat) -> Result<bool, Stop>
        requires { IsSeatOf self.now seat.old }
        ensures { Goes result seat.old seat.new }
    {
        let Some(running) = seat.running else {
            return Err(Stop::Denied(Refusal::Idle));
        };
        seat.answers.reserve(1)?;
        let ask = Ask {
            work: Work::Go,
            heard: 0,
        };
        let (ended, outcome) = self.gate.call(rt, &mut seat.pass, ask)?;
        let Outcome::Ended(_, reply) = outcome else {
            return Ok(false);
        };
        let Running { id, call, began } = running;
        let _ = seat.answers.push(Answer {
            id,
            call,
            reply,
            began,
            ended,
        });
        seat.running = None;
        Ok(true)
    }

    /// Takes a step of the sweep. Where it stops nothing was swept: the machine denies the step, or a growth was
    /// refused.
    pub fn sweep<R: Wait>(&self, rt: &R, seat: &mut Seat) -> Result<Swept, Stop>
        requires { IsSeatOf self.now seat.old }
        ensures { Sweeps result seat.old seat.new }
    {
        let ask = Ask {
            work: Work::Sweep,
            heard: 0,
        };
        let (_, outcome) = self.gate.call(rt, &mut seat.pass, ask)?;
        let Outcome::Swept(swept) = outcome else {
            unreachable!()
        };
        seat.sweeps += 1;
        Ok(swept)
    }
}
