//! A map of numbers with snapshots, for programs: each call's contract is that of the finite map.
#![tactic(auto)]

mod batches;
mod calling;
mod comparing;
mod copying;
mod drafts;
mod errors;
mod filling;
mod handle;
mod handles;
mod laws;
mod map;
mod named_calls;
mod names;
mod performing;
mod popping;
mod putting;
mod reading;
mod removing;
mod replacing;
mod restoring;
mod retaining;
mod sharding;
mod sizing;
pub mod telling;
mod updating;
mod walking;

pub use ctrie_base::HashKind;
pub use errors::MapError;
pub use handle::Handle;
pub use handles::OpenHandles;
pub use laws::{all_are_listed, one_handle_has_slots, parts_join};
pub use machine_core::Difference;
pub use map::Map;
pub use sizing::slots_for;
