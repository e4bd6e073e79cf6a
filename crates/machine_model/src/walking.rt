//! Walks over all pairs of a read-only map.

use crate::reading::Read;
use history::Pairs;
use nodes::{Ref, Refs};

/// A line of WALK. `todo` has the entries that are still to be looked at, the next one first; `pairs` those
/// so far.
#[derive(Drop)]
pub enum WalkLine {
    /// Reads the root word.
    Root,
    /// Reads an indirection.
    Read {
        read: Read,
        todo: Refs,
        pairs: Pairs,
    },
    /// Looks at its main node.
    Main {
        main: Ref,
        todo: Refs,
        pairs: Pairs,
    },
    /// Looks at the next entry.
    Entry {
        todo: Refs,
        pairs: Pairs,
    },
}
