//! Reading and replacing the main node of an indirection.

use crate::roots::Descriptor;
use nodes::Ref;

/// What comes after a step of a program.
#[derive(Clone, Copy)]
pub enum After<L, R> {
    /// The program goes on with this line.
    Goes(L),
    /// The program ends and gives this.
    Gives(R),
}

/// The line on which a READ stands. It gives the decided main node of an indirection.
#[derive(Clone, Copy)]
pub enum ReadLine {
    /// Reads the main word.
    Main,
    /// Reads the `prev` word of this main node.
    Prev {
        main: Ref,
    },
    /// The node is pending over `previous`: reads the root, for its generation.
    AskRoot {
        main: Ref,
        previous: Ref,
    },
    /// An offer stands in the root: takes it back, and asks again.
    Abort {
        main: Ref,
        previous: Ref,
        offer: Descriptor,
    },
    /// Decides the node by the generation that the root had; by none on a read-only handle.
    Decide {
        main: Ref,
        previous: Ref,
        root_seen: Option<u64>,
    },
    /// The node has failed: puts `previous` back in its place.
    Restore {
        main: Ref,
        previous: Ref,
    },
}

/// A READ of an indirection.
#[derive(Clone, Copy)]
pub struct Read {
    pub indirection: Ref,
    pub line: ReadLine,
}

/// The line on which a SWAP stands.
#[derive(Clone, Copy)]
pub enum SwapLine {
    /// Swaps the fresh node into the main word, pending over the replaced one.
    Publish,
    /// Decides it, as a READ from its second line on does.
    Deciding(ReadLine),
    /// Reads how it was decided.
    Check,
}

/// A SWAP: puts a fresh main node in the place of another, if that one still stands there.
#[derive(Clone, Copy)]
pub struct Swap {
    pub indirection: Ref,
    pub replaced: Ref,
    pub fresh: Ref,
    pub line: SwapLine,
}
