//! Running operations.

use crate::lines::Line;
use history::{Access, Call};
use nodes::Refs;

/// An operation that an actor runs.
#[derive(Drop)]
pub struct Operation {
    pub id: u64,
    pub call: Call,
    /// Of the handle on which it was called.
    pub access: Access,
    /// The epoch at its begin.
    pub epoch: u64,
    /// The slots that it made in its running try.
    pub private: Refs,
    /// The handle that it opens, for a snapshot or a freeze: reserved until it is marked.
    pub opens: Option<u16>,
    /// How often it has offered.
    pub attempt: u64,
    /// Its last offer was carried out.
    pub is_marked: bool,
    /// The generation of the root that ROOT gave last in its first line, if it has got one.
    pub generation: Option<u64>,
    pub line: Line,
}
