//! The nodes that changes of a map make, built from the nodes before. None of the calls takes memory.
//!
//! Each gives exactly the node of the definition, and says what that does to a node's content, whatever finite
//! maps are held at its entries (clauses `content`).
#![tactic(auto)]

mod branches;
mod entries;
mod levels;
mod lists;
mod pairs;

pub use branches::{compressed, contracted, inserted, removed, renewed, updated};
pub use entries::has_room;
pub use levels::{flag_of, has_flag, index_in, list_depth, parting, position_of};
pub use lists::{list_inserted, list_removed, list_updated};
pub use pairs::{dual, rung};
pub use slot_arena::{
    Entries, EntryChange, HashKind, Kind, MOST_ENTRIES, Node, NodeRef, Prev, Ref, Refs,
};
