//! How a call on one key goes down the trie.

use crate::reading::Read;
use history::Reply;
use nodes::{Ref, Refs};

/// A line of KEY below its root. A path has the indirections from the root down; the last is the
/// current one.
#[derive(Drop)]
pub enum KeyLine {
    /// Reads the current indirection.
    Read {
        path: Refs,
        read: Read,
    },
    /// Looks at its main node.
    Main {
        path: Refs,
        main: Ref,
    },
    /// Looks at the branch's entry at this position.
    Entry {
        path: Refs,
        main: Ref,
        position: usize,
    },
    /// Looks at the single at this position of a list, or at a tomb's.
    Listed {
        path: Refs,
        main: Ref,
        position: usize,
    },
    /// The key at this position, with this value, is to be removed from a branch of two entries: looks at
    /// the other one.
    Sibling {
        path: Refs,
        main: Ref,
        position: usize,
        former: u64,
    },
}

/// What a call does where its key has a value.
#[derive(Drop)]
pub enum WhenFound {
    /// It answers this, and changes nothing.
    Answers(Reply),
    /// It sets another value.
    Sets,
    /// It removes the key.
    Removes,
}
