//! Which slots may be freed, and when: limbo, epochs and the sweep.
#![tactic(auto)]

mod advancing;
mod fresh;
mod heap;
mod laws;
mod limbo;
mod ring;
mod settling;

pub use heap::Heap;
pub use laws::{counts_alone, freed_leaves, running_keeps};
pub use limbo::{Swept, Zeroed};
