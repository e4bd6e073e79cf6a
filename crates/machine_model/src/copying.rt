//! Snapshots, freezes and clears: calls that swap the root.

use crate::reading::Read;
use crate::roots::{Complete, Descriptor};
use nodes::Ref;

/// A line of COPY below its root.
#[derive(Clone, Copy)]
pub enum CopyLine {
    /// Reads the root.
    Read {
        root: Ref,
        read: Read,
    },
    /// Makes the new root over its main node.
    Successor {
        root: Ref,
        main: Ref,
    },
    /// Makes the root of a writable snapshot over the same main node.
    Second {
        root: Ref,
        main: Ref,
        successor: Ref,
    },
    /// For a clear: makes an empty branch.
    Empty {
        root: Ref,
        main: Ref,
    },
    /// For a clear: makes the new root over the empty branch.
    Cleared {
        root: Ref,
        main: Ref,
        branch: Ref,
    },
    /// Offers the swap.
    Offer(Descriptor),
    /// Completes the own offer.
    Complete(Complete),
}
