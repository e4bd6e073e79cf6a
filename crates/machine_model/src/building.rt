//! The nodes that a change of one key makes.

use nodes::{Ref, Refs};

/// Where the key's new single goes.
#[derive(Clone, Copy)]
pub enum Site {
    /// Nothing stands at its place.
    Absent,
    /// In the place of the entry or single at this position.
    At { position: usize },
    /// Beside the single of another key at this position of a branch.
    Beside { position: usize },
}

/// What becomes of the main node.
#[derive(Clone, Copy)]
pub enum Change {
    /// The node with this single, at the key's place or at the end of a list.
    Insert { single: Ref },
    /// The node with this entry at this position.
    Update { position: usize, entry: Ref },
    /// The node without the entry at this position.
    Remove { position: usize },
    /// A tomb of the single that is left.
    Entomb { single: Ref },
}

/// A step that makes a node for a change of one key. `former` is the key's value before the change. The
/// root's depth is 0; an indirection's level is five times its depth.
#[derive(Drop)]
pub enum BuildLine {
    /// Makes the new single.
    Single {
        path: Refs,
        main: Ref,
        site: Site,
        former: Option<u64>,
    },
    /// Makes the main node of the two singles, at the depth where their paths part or below all levels.
    Pair {
        path: Refs,
        main: Ref,
        position: usize,
        single: Ref,
        depth: usize,
    },
    /// Makes an indirection over the main node that was made for this depth.
    Link {
        path: Refs,
        main: Ref,
        position: usize,
        below: Ref,
        depth: usize,
    },
    /// Makes a branch for this depth whose one entry is the indirection that was made.
    Rung {
        path: Refs,
        main: Ref,
        position: usize,
        below: Ref,
        depth: usize,
    },
    /// Makes the new main node.
    Main {
        path: Refs,
        main: Ref,
        change: Change,
        former: Option<u64>,
    },
}
