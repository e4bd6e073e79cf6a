//! One hold of the gate: one step of the machine at most.
ghost use Rattle.std.specs.Prelude.{◌≡◌};
ghost use Rattle.lock_runner.specs.Beneath.machine_core.specs.Asking.{asked};
ghost use Rattle.lock_runner.specs.Asks.{step_of};
ghost use Rattle.lock_runner.specs.Holds.{Answers, Worked};

use crate::asks::{Ask, Shared, Told, Work};
use crate::seats::Stop;
use ctrie_base::Refusal;
use gate::Object;
use step_machine::{Machine, Step};

impl Object<Ask, Told> for Shared {
    ghost answers = { Answers };

    /// Until an operation has ended the epoch waits for it.
    #[inline(always)]
    fn is_midway(ask: &Ask) -> bool {
        matches!(ask.work, Work::Go)
    }

    #[inline(always)]
    fn perform(&mut self, seat: u8, ask: Ask) -> Told {
        work(&mut self.machine, step_of(seat, ask.work), ask.heard)
    }
}

/// The step of the actor whose seat has this number.
#[inline(always)]
fn step_of(seat: u8, work: Work) -> Step
    ensures { asked result ≡ step_of seat work }
{
    match work {
        Work::Begin(call) => Step::Begin { actor: seat, call },
        Work::Go => Step::Go { actor: seat },
        Work::Sweep => Step::Sweep,
    }
}

/// A step on the machine, or none where fewer events are recorded than were heard of.
#[inline(always)]
fn work(machine: &mut Machine, step: Step, heard: u64) -> Told
    ensures { Worked result machine.old (asked step) heard machine.new }
{
    let place = machine.events().len() as u64;
    if place < heard {
        return Err(Stop::Ahead);
    }
    match machine.apply(step) {
        Ok(outcome) => Ok((place, outcome)),
        Err(Refusal::Memory) => Err(Stop::Memory),
        Err(refusal) => Err(Stop::Denied(refusal)),
    }
}
