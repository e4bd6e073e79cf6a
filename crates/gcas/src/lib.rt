//! GCAS, the generation compare-and-swap of Prokopec, Bronson, Bagwell and Odersky's Ctrie: how main nodes are read and
//! replaced. `Read` is their GCAS_READ with GCAS_COMMIT, `Swap` their GCAS; each call of `step` takes one atomic step, in place.
//!
//! A main node that is swapped in is pending over the one before it, in one step, so that nobody takes it for decided: until
//! it is committed the one before it counts. Whoever meets a pending node decides it, so that nobody waits. Before that, on a
//! writable handle, the root's generation is read: the node is committed only where that is the indirection's, in the step
//! that takes the `prev` word away; else the word becomes failed, since a snapshot was taken in between, and the one before
//! it has to be put back. A reader of a frozen map never asks, and refuses what it finds pending. The root's
//! generation is read by the caller, who knows the root word (ABORT), and handed in.
//!
//! Computed are the definition's `Reading`, and SWAP in its `Swapping`: `specs/Reads` and `specs/Swaps` say which line of
//! the definition the code's READ or SWAP stands for, and that a step leads to the line after it. A program in which a
//! READ runs says so by `ReadsAlong`. `specs/Acted` is what actions do to the heap.
#![tactic(auto)]

mod laws;
mod looks;
mod next;
mod read;
mod swap;

pub use laws::acts_on_heap;
pub use looks::{generation_at, main_at};
pub use machine_model::{
    Access, Change, Descriptor, Entrant, Heap, Publication, Root, RootWord, Site,
};
pub use next::Next;
pub use read::{Read, ReadAt};
pub use swap::{Swap, SwapAt};
