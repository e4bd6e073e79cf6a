//! What each step does to the contents of generations and of handles, and what replies say of them.
//!
//! `specs/` says it over a run (`Updates`, with `Paths` and `Commits`), and as laws for every list of steps (`Laws`). `proofs/`
//! shows in this order: each step repairs a main node or updates a key in it, and leads contents on by that (`Tries`); the paths of operations
//! keep to their keys' paths (`Routes`); when an operation has its place (`Placed`); what its line says of the reply that it
//! leads to, and so of each answer (`Answers`); and the same seen from handles (`Handles`).
#![tactic(auto)]

mod laws;

pub use laws::handles::contents_of_handles;
pub use laws::tries::{
    contents_follow_updates, each_step_does, paths_lie_on_keys, replies_are_right,
};
pub use proof_shape::looking_finds;
