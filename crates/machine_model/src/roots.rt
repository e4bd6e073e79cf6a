//! The root words of handles, and how a root is swapped.

use crate::reading::ReadLine;
use history::Access;
use nodes::Ref;

/// An offer to swap a root for a new one, where the old one's main node is still the expected one. It
/// stands in the root word itself.
#[derive(Clone, Copy, PartialEq, Eq)]
pub struct Descriptor {
    /// The id of the operation that offers.
    pub operation: u64,
    /// Which of the operation's tries it is, from 1.
    pub attempt: u64,
    /// The root that is to be swapped.
    pub root: Ref,
    /// The main node that the root must have.
    pub expected: Ref,
    /// The root that is to stand in its place.
    pub successor: Ref,
    /// The root of the handle to open, for a writable snapshot.
    pub second: Option<Ref>,
    /// The handle to open, for a snapshot or a freeze.
    pub opens: Option<u16>,
}

/// What a root word holds.
#[derive(Clone, Copy, PartialEq, Eq)]
pub enum RootWord {
    /// This root indirection.
    Plain(Ref),
    /// An offer, with the root that still stands.
    Offer(Descriptor),
}

/// An open handle.
#[derive(Clone, Copy, PartialEq, Eq)]
pub struct Root {
    pub access: Access,
    pub word: RootWord,
}

/// The line on which a COMPLETE stands.
#[derive(Clone, Copy)]
pub enum CompleteLine {
    /// Reads the main node of the root that is to be swapped.
    Reading(ReadLine),
    /// That node is `main`: swaps the root where it is the expected one, else takes the offer back.
    Swap { main: Ref },
}

/// A COMPLETE: brings an offer to its end.
#[derive(Clone, Copy)]
pub struct Complete {
    pub offer: Descriptor,
    pub line: CompleteLine,
}

/// The line on which a ROOT stands. It gives the root indirection.
#[derive(Clone, Copy)]
pub enum RootLine {
    /// Reads the root word.
    Read,
    /// An offer stands there: completes it, and reads again.
    Completing(Complete),
}
