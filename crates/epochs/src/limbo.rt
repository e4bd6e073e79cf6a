//! Slots that nothing refers to, and what a step of the sweep does.

use slot_arena::Ref;

/// A slot of limbo: in use, but nothing refers to it.
#[derive(Clone, Copy, Debug, PartialEq, Eq)]
pub struct Zeroed {
    pub at: Ref,
    /// The epoch in which its count became zero.
    pub epoch: u64,
}

/// What a step of the sweep did.
#[derive(Clone, Copy, Debug, PartialEq, Eq)]
pub enum Swept {
    /// Read an actor's record of the epoch, and passed it or not.
    Scanned { passed: bool },
    /// The epoch grew to this one.
    Advanced(u64),
    /// Freed a slot.
    Freed,
}
