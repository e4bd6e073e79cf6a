//! One try of an update of a key, from what its last READ gave to the end of its SWAP.
//!
//! It is the insertion and removal of the concurrent trie with snapshots (Ctrie: A. Prokopec, N. G. Bronson,
//! P. Bagwell, M. Odersky): whatever the change, nodes are made that nobody else sees yet, the last of them a
//! main node with the change in it, and one GCAS puts that in the place of the node that READ gave. So the
//! change comes about in one atomic step, or not at all. Each step makes at most one slot, since each slot is
//! one word that others could look for; where two singles of one index are to stand beside each other, a chain
//! of branches of one entry leads down to where their hashes part, made from below so that no step makes a
//! reference to what isn't there yet. The look at the other one of two entries is a step too: a single that
//! would be left alone below the root becomes a tomb.
//!
//! It computes `Building` of `machine_model`, the line `Sibling` of its `Finding`, and the SWAP of an update.
#![tactic(auto)]

mod building;
mod change;

pub use building::Building;
pub use change::{Change, ChangeAt, Tried};
pub use trie_parts::{
    Access, Change as NodeChange, Heap, KeyCall, MOST_ENTRIES, NodeRef, Ref, Site, Task, entry_at,
    entry_count, has_flag, is_below_root, node_at, position_of,
};
