//! The steps that programs ask for: all of the definition but the one by which an operation gives up.

use history::Call;

/// One atomic step.
#[derive(Clone, Copy, Debug, PartialEq, Eq)]
pub enum Step {
    /// The actor begins an operation.
    Begin { actor: u8, call: Call },
    /// The next step of the actor's operation.
    Go { actor: u8 },
    /// A step of the sweep.
    Sweep,
}
