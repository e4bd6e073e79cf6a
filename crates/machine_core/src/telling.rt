//! What steps tell beside what they do.

use ctrie_base::Kind;
use history::Reply;
use machine_model::{Entrant, Progress};

/// What a begin tells.
#[derive(Clone, Copy)]
pub struct Begun {
    /// The operation's id.
    pub id: u64,
    /// The handle that it is to open, if it is to open one.
    pub opens: Option<u16>,
}

/// What a step of an operation tells that goes on after it.
#[derive(Clone, Copy)]
pub struct Stepped {
    /// The step's kind.
    pub kind: Kind,
    /// What it read, committed, swapped in and carried out.
    pub progress: Progress,
}

/// What the end of an operation tells.
#[derive(Drop)]
pub struct Ended {
    /// The operation, as the order knows it.
    pub entrant: Entrant,
    /// Its reply.
    pub reply: Reply,
}
