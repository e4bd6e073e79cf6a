//! The machine behind its gate.

use crate::asks::{Ask, Shared, Told};
use gate::Gate;
use std::marker::Model;

/// A machine that many seats share. Each step is one hold of its gate, and all steps make one run.
#[derive(Drop)]
pub struct Runner {
    pub(crate) gate: Gate<Shared, Ask, Told>,
}

impl Model for Runner {
    ghost use Rattle.std.specs.Prelude.{◌≡◌};
    ghost use Rattle.lock_runner.specs.Beneath.proof_runs.specs.Machines.{fresh};
    ghost use Rattle.lock_runner.specs.Seats.{Room};

    ghost Value = { Room };

    ghost view = { λ r. record { id = r.gate.id; limits = r.gate.first.machine.limits; seats = r.gate.seats } };

    ghost invariant = { λ r. r.gate.first.machine ≡ fresh r.gate.first.machine.limits };
}
