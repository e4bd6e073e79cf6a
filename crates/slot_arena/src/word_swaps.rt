//! The words of a slot that steps change.

ghost use Rattle.std.specs.Prelude.{◌≡◌};
ghost use Rattle.slot_arena.specs.WordSwaps.{coming, going};

use crate::nodes::{Prev, refs_of_prev};
use crate::refs::Ref;
use std::slice::from_ref;

/// A word of a slot: what stands there, and what is to stand there.
#[derive(Clone, Copy)]
pub(crate) enum WordSwap {
    /// The main word of an indirection.
    Main { from: Ref, to: Ref },
    /// The `prev` word of a main node.
    Prev { from: Prev, to: Prev },
}

impl WordSwap {
    /// The references that come.
    pub(crate) fn coming(&self) -> &[Ref]
        ensures { result.now ≡ coming self.now }
    {
        match self {
            WordSwap::Main { to, .. } => from_ref(to),
            WordSwap::Prev { to, .. } => refs_of_prev(to),
        }
    }

    /// The references that go.
    pub(crate) fn going(&self) -> &[Ref]
        ensures { result.now ≡ going self.now }
    {
        match self {
            WordSwap::Main { from, .. } => from_ref(from),
            WordSwap::Prev { from, .. } => refs_of_prev(from),
        }
    }
}
