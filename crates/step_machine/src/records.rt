//! Runs of steps and their records.

ghost use Rattle.std.specs.Prelude.{◌≡◌, IfOk, IfErr, OnOk};
ghost use Rattle.machine_model.specs.Limits.{AreLimits};
ghost use Rattle.machine_model.specs.Refusing.{RefusesLimits};
ghost use Rattle.machine_core.specs.Asking.{asked_all};
ghost use Rattle.proof_runs.specs.Machines.{AreTaken};
ghost use Rattle.step_machine.specs.Records.{IsAfter, IsRecordOf, IsRecord, IsLegalRecord};

use crate::machine::Machine;
use ctrie_base::Refusal;
use history::Event;
use machine_core::Step;
use machine_model::Limits;
use std::alloc::Global;

/// What is kept of a run.
#[derive(Debug, Drop)]
pub struct Record {
    pub limits: Limits,
    /// The steps that were taken.
    pub steps: Vec<Step>,
    /// The history.
    pub events: Vec<Event>,
    /// The ids of the operations in the order that explains their replies.
    pub order: Vec<u64>,
    /// How many slots are in use at the end, those in limbo too.
    pub used: u32,
    /// How many slots are free at the end.
    pub free: u32,
    /// How many slots are in limbo at the end.
    pub limbo: u32,
}

/// The record of a machine that takes these steps, those left out that are denied. Its order is legal for
/// its history. `BadLimits` exactly where a limit is out of range, and else only `Memory`.
pub fn run(alloc: Global, limits: Limits, steps: &[Step]) -> Result<Record, Refusal>
    ensures record { IfOk result (IsRecord limits (asked_all steps.now)) }
    ensures legal { IfOk result IsLegalRecord }
    ensures in_range { OnOk result (AreLimits limits) }
    ensures refused { IfErr result (λ refusal. RefusesLimits limits refusal) }
{
    let machine = machine_after(alloc, limits, steps)?;
    match machine.into_record() {
        Ok(record) => Ok(record),
        Err(_) => Err(Refusal::Memory),
    }
}

/// A machine that has taken these steps, but for those that are denied.
#[tactic(auto, using(crate::proofs::Recording::none_kept))]
fn machine_after(alloc: Global, limits: Limits, steps: &[Step]) -> Result<Machine, Refusal>
    ensures after { IfOk result (IsAfter limits (asked_all steps.now)) }
    ensures in_range { OnOk result (AreLimits limits) }
    ensures refused { IfErr result (λ refusal. RefusesLimits limits refusal) }
{
    let mut machine = Machine::new(alloc, limits)?;
    for step in steps {
        machine.take_unless_denied(*step)?;
    }
    Ok(machine)
}

impl Machine {
    /// What the machine has done. Its order is legal for its history. Where the order finds no memory the machine
    /// comes back as it was.
    pub fn into_record(self) -> Result<Record, Machine>
        ensures record { IfOk result (IsRecordOf self) }
        ensures taken { OnOk result (AreTaken self.limits self.steps) }
        ensures legal { IfOk result IsLegalRecord }
        ensures same { IfErr result (λ machine. machine ≡ self) }
    {
        self.explained();
        self.parts()
    }

    /// Its record, part by part.
    fn parts(self) -> Result<Record, Machine>
        ensures record { IfOk result (IsRecordOf self) }
        ensures taken { OnOk result (AreTaken self.limits self.steps) }
        ensures same { IfErr result (λ machine. machine ≡ self) }
    {
        let Ok(order) = self.order() else {
            return Err(self);
        };
        let limits = self.limits();
        let used = self.used();
        let free = self.free_slots();
        let limbo = self.limbo_len();
        let (steps, events) = self.into_parts();
        Ok(Record {
            limits,
            steps,
            events,
            order,
            used,
            free,
            limbo,
        })
    }
}
