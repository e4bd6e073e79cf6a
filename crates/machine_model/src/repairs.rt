//! Renewing, cleaning and climbing: changes of the trie that leave its content alone.

use crate::reading::Read;
use crate::roots::RootLine;
use nodes::{Ref, Refs};

/// A line of RENEW: the current indirection's branch gets indirections of the root's generation. `done`
/// has its new entries so far.
#[derive(Drop)]
pub enum RenewLine {
    /// Looks at the next entry.
    Entry {
        path: Refs,
        main: Ref,
        done: Refs,
    },
    /// The entry is an indirection of another generation: reads it.
    Read {
        path: Refs,
        main: Ref,
        done: Refs,
        read: Read,
    },
    /// Makes an indirection over the main node that it gave.
    Link {
        path: Refs,
        main: Ref,
        done: Refs,
        child: Ref,
    },
    /// Makes the branch.
    Branch {
        path: Refs,
        main: Ref,
        done: Refs,
    },
}

/// A line of CLEAN: tombs below an indirection, the last of the path, give way to their singles.
#[derive(Drop)]
pub enum CleanLine {
    /// Reads the indirection.
    Read {
        path: Refs,
        read: Read,
    },
    /// Looks at its main node.
    Main {
        path: Refs,
        main: Ref,
    },
    /// Looks at the next entry.
    Entry {
        path: Refs,
        main: Ref,
        done: Refs,
    },
    /// The entry is an indirection: reads it.
    Child {
        path: Refs,
        main: Ref,
        done: Refs,
        read: Read,
    },
    /// Looks at the main node that it gave.
    Tomb {
        path: Refs,
        main: Ref,
        done: Refs,
        child: Ref,
    },
    /// Makes the new main node.
    Contracted {
        path: Refs,
        main: Ref,
        done: Refs,
    },
}

/// What CLIMB carries: the path down to an indirection that was just tombed, the tomb's single, and the
/// value that the removed key had.
#[derive(Drop)]
pub struct Climb {
    pub path: Refs,
    pub single: Ref,
    pub former: Option<u64>,
}

/// A line of CLIMB: the tomb gives way to its single in the parent.
#[derive(Drop)]
pub enum ClimbLine {
    /// Reads the parent.
    Read { climb: Climb, read: Read },
    /// Looks at the parent's main node.
    Main { climb: Climb, main: Ref },
    /// Makes the parent's new main node.
    Contracted { climb: Climb, main: Ref },
    /// The swap failed: gives up unless the root is still of the same generation.
    Root { climb: Climb, root: RootLine },
}
