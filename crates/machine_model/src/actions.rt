//! What a step does.

use crate::roots::Descriptor;
use history::Reply;
use nodes::{Node, Ref};

/// What one step of an operation does to the one word, slot or node that it touches.
#[derive(Drop)]
pub enum Action {
    /// Reads the root word.
    ReadRoot,
    /// Takes an offer back, if it still stands in the root word.
    Abort(Descriptor),
    /// Puts an offer into the root word, if the root that it is to swap still stands there.
    Offer(Descriptor),
    /// Carries an offer out if it still stands and `main` is the expected node, else takes it back.
    Complete {
        offer: Descriptor,
        main: Ref,
    },
    /// Reads the main word.
    ReadMain {
        indirection: Ref,
    },
    /// Swaps a fresh main node in, pending over the replaced one, if that one still stands there.
    Publish {
        indirection: Ref,
        replaced: Ref,
        fresh: Ref,
    },
    /// Puts `previous` in the place of a failed main node, if that one still stands there.
    Restore {
        indirection: Ref,
        main: Ref,
        previous: Ref,
    },
    /// Reads the `prev` word.
    ReadPrev {
        main: Ref,
    },
    /// Commits a pending main node where the root was told to have the indirection's generation, else
    /// makes it failed.
    Decide {
        indirection: Ref,
        main: Ref,
        previous: Ref,
        root_seen: Option<u64>,
    },
    /// Looks at a slot that never changes.
    Look {
        at: Ref,
    },
    /// Takes a slot for this node.
    Make(Node),
    /// Takes a slot for an indirection of a new generation with this main node.
    MakeRoot {
        main: Ref,
    },
    /// Ends with this reply.
    End(Reply),
}
