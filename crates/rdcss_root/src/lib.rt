//! RDCSS, the restricted double-compare single-swap of Harris, Fraser and Pratt, by which the Ctrie of Prokopec, Bronson,
//! Bagwell and Odersky swaps its root: `Offer` and `Complete` are their RDCSS and RDCSS_COMPLETE, `ReadRoot` is their
//! RDCSS_READ, and `AbortRead` that of one who aborts. Each call of `step` takes one atomic step, in place.
//!
//! A root gives way to one of a new generation only where its main node is still that over which the new one was made. Those
//! are two words, so the swap is offered first: in one step a descriptor comes to stand in the root word, which still counts
//! as the old root. Whoever meets it on the way to the root completes it, so that nobody waits: he reads the root's main node,
//! by which what is pending there is decided, and in one step swaps the root in where that node is the expected one, and else
//! takes the offer back. The same step opens the handle of a snapshot. Nothing is committed in between: whoever found a
//! pending node reads the root's generation before he commits it, and takes back the offer that he meets (ABORT).
//!
//! What stands in root words is held from outside the slots. `Roots` holds what comes to stand there before it releases what
//! stood there, so that nothing need be known of either. The actor whose offer was carried out is told by his mark: the table
//! knows by handle who offered, where the definition looks for the operation.
//!
//! Computed are COMPLETE and ROOT in the definition's `Swapping`, ABORT in its `Reading`, and OFFER in its `Copying`:
//! `specs/Programs` says which line the code's program stands for, and that a step leads to the line after it. `specs/Tables`
//! is what actions do to root words.
#![tactic(auto)]

mod abort;
mod complete;
mod holding;
mod laws;
mod offer;
mod root;
mod roots;
mod words;

pub use abort::AbortRead;
pub use complete::{Complete, CompleteAt};
pub use laws::acts_on_table;
pub use offer::Offer;
pub use root::ReadRoot;
pub use roots::{Roots, opened_root};
pub use trie_parts::{
    Descriptor, Heap, Kind, MOST_ENTRIES, Next, Node, NodeRef, Read, ReadAt, Ref, RootWord, Work,
    entries_at, generation_at, node_at, renewed,
};
