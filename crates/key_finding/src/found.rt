//! What a call found by a look.

use crate::calls::KeyReply;
use key_change::{ChangeAt, Ref};

/// What comes after a look at a main node, or at one of its entries that doesn't lead further down.
#[derive(Clone, Copy)]
pub enum Found {
    /// Looks at the branch's entry at this position.
    Entry { position: usize },
    /// Looks at the single at this position of a list, or at a tomb's.
    Listed { position: usize },
    /// Renews the branch: an indirection in it is of another generation than the root.
    Renew,
    /// Cleans the parent: a tomb stands here.
    Clean,
    /// Changes the main node, by a try that begins so.
    Change(ChangeAt),
    /// Answers.
    End(KeyReply),
    /// A node is of another kind than the program takes it for. No machine comes here.
    Impossible,
}

/// What comes after a look at an entry of a branch.
#[derive(Clone, Copy)]
pub enum Entered {
    /// Reads this indirection, one further down.
    Down { below: Ref },
    /// The call stays with the main node.
    Here(Found),
}
