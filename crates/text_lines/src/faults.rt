//! Why a text wasn't read.

use ctrie_base::Refusal;

/// Why a text wasn't read.
#[derive(Clone, Copy, Debug, PartialEq, Eq)]
pub enum Told {
    /// The first line with a fault, from 1, and the fault. Nothing is read.
    Line(u64, Refusal),
    /// A growth was really refused. Nothing is read.
    Memory,
}
