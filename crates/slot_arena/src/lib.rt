//! The arena of the map: what its slots hold, and the references that name them.
#![tactic(auto)]

mod arena;
mod cells;
mod entries;
mod free_slots;
mod ledger;
mod links;
mod lists;
mod loan;
mod nodes;
mod numbers;
mod refs;
mod rows;
mod stored_nodes;
mod tally;
mod word_swaps;

pub use arena::Arena;
pub use ctrie_base::{Change, HashKind, Kind, Refusal, Ticks, Trace};
pub use entries::{Entries, EntryChange, MOST_ENTRIES, joined};
pub use links::{Flags, Links};
pub use lists::Refs;
pub use nodes::{Node, NodeRef, Prev, Slot};
pub use refs::{MOST_SLOTS, Ref};
