//! What a seat asks of the machine behind the gate.
use crate::seats::Stop;
use history::Call;
use step_machine::{Machine, Outcome};

/// The machine that the gate keeps.
#[derive(Drop)]
pub struct Shared {
    pub machine: Machine,
}

/// The step that a seat asks for: of its actor's operations, or of the sweep.
#[derive(Clone, Copy)]
pub enum Work {
    Begin(Call),
    Go,
    Sweep,
}

/// What a seat asks in one hold of the gate.
#[derive(Clone, Copy)]
pub struct Ask {
    pub work: Work,
    /// No step is taken where fewer events than this are recorded.
    pub heard: u64,
}

/// The number of events before the step and its outcome, or why none was taken.
pub(crate) type Told = Result<(u64, Outcome), Stop>;

/// The seat at the gate.
pub(crate) type Pass = gate::Seat<Shared, Ask, Told>;
