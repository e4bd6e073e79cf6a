//! What main nodes say of keys: the laws of the node builders, and how the contents of generations change over a run.
//!
//! A law here says what a builder does to the finite map that is a node's content. `specs/Nodes` and `proofs/Nodes` speak of
//! single nodes. The rest speaks of the trie of a run, with all nodes that were ever made (`specs/Tries`, `specs/Runs`): how values
//! are found, and that paths last (`Values`); what an update of a key, a repair and a new root do to contents (`Changes`); that the
//! builders keep the shape of nodes (`Shapes`); the pairs that are reached (`Pairs`); and what the lines of each program know of the
//! nodes that they have seen and made, and so answer (`Lines`).
#![tactic(auto)]

mod laws;

pub use laws::{
    branch_entombs_remove, branch_inserts_put, branch_removes_remove, branch_updates_put,
    contracted_keeps, list_entombs_remove, list_inserts_put, list_removes_remove, list_updates_put,
    pairs_put, renewed_keeps,
};
