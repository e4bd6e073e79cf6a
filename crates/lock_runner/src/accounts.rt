//! What is told of one operation.

use history::{Call, Reply};

/// An operation that has ended. Places are indexes of the history.
#[derive(Debug, Drop)]
pub struct Answer {
    /// The operation's id, by which the order names it.
    pub id: u64,
    /// What it was asked.
    pub call: Call,
    /// With what it ended.
    pub reply: Reply,
    /// The place of its begin.
    pub began: u64,
    /// The place of its end.
    pub ended: u64,
}

/// An operation that runs.
#[derive(Clone, Copy, Debug, PartialEq, Eq)]
pub(crate) struct Running {
    pub id: u64,
    pub call: Call,
    /// The place of its begin in the history.
    pub began: u64,
}
