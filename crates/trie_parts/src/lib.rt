//! What the programs of the map share: look-ups in a heap, paths, and the main nodes that are made from the
//! one before.
//!
//! Each call computes the definition of the same name (`Heaps` of `slot_arena`, `Builders` of `nodes`,
//! `Paths` of `machine_model`), for every heap, path and position. Only those that build another branch, or
//! make a node, ask for anything. None takes memory.
#![tactic(auto)]

mod calls;
mod entries;
mod looking;
mod made;
mod paths;
mod private;
mod work;

pub use calls::{KeyCall, Task};
pub use gcas::{
    Access, Change, Descriptor, Entrant, Heap, Next, Publication, Read, ReadAt, Root, RootWord,
    Site, Swap, generation_at, main_at,
};
pub use looking::{bitmap_at, entries_at, entry_at, entry_count, is_single_at, key_at, node_at};
pub use made::{changed_at, contracted, contracted_at, make_changed, renewed};
pub use nodes::{
    Entries, HashKind, Kind, MOST_ENTRIES, Node, NodeRef, Ref, dual, flag_of, has_flag, list_depth,
    parting, position_of, rung,
};
pub use paths::{above, current, is_below_root};
pub use private::{Private, release_all};
pub use work::Work;
