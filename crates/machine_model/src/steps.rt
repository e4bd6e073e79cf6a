//! Steps and their outcomes.

use epochs::Swept;
use history::{Call, Reply};
use nodes::{HashKind, Kind};

/// The sizes of a machine that keeps its record.
#[derive(Clone, Copy, Debug, PartialEq, Eq)]
pub struct Limits {
    /// The number of slots, 2 to 65,536.
    pub slots: u32,
    /// The number of actors, 1 to 64.
    pub actors: u8,
    /// The hash of keys.
    pub hash: HashKind,
}

/// What bounds a machine: its sizes, and how long it lives.
#[derive(Clone, Copy)]
pub struct Bounds {
    /// The number of slots, 2 to 1,048,576.
    pub slots: u32,
    /// The number of actors, 1 to 255; a machine of a program has 64 at most.
    pub actors: u8,
    /// The hash of keys.
    pub hash: HashKind,
    /// How many steps it takes; a machine of a program takes 2^45 - 2^21 at most.
    pub steps: u64,
}

/// One atomic step.
#[derive(Clone, Copy, Debug, PartialEq, Eq)]
pub enum Step {
    /// The actor begins an operation. A handle that its call opens gets this number, or the least free one where
    /// none is chosen, as programs have it: threads on memory words reserve a number before they begin.
    Begin {
        actor: u8,
        call: Call,
        number: Option<u16>,
    },
    /// The next step of the actor's operation.
    Go {
        actor: u8,
    },
    /// A step of the sweep.
    Sweep,
    /// The actor's operation gives up, where it has published nothing of its own. No program asks for it: threads
    /// on memory words meet it.
    GiveUp {
        actor: u8,
    },
}

/// What a step did.
#[derive(Debug, Drop)]
pub enum Outcome {
    /// An operation with this id began.
    Began(u64),
    /// An operation went on, by a step of this kind.
    Went(Kind),
    /// The operation with this id ended with this reply.
    Ended(u64, Reply),
    /// A step of the sweep.
    Swept(Swept),
}
