//! Generations: roots, handles and offers, how generations fall along paths, and what of closed ones is final.
//!
//! `specs/Laws` has the laws: of roots, handles and offers (`Roots`), and along paths (`Falling`). `proofs/` shows in this order: all
//! generations are below the counter (`Counter`); whose handles are open (`Handles`), whose an offer is (`Offers`), and which
//! generations stand at roots (`Roots`); what the lines of each program know of generations (`Lines`); and that this holds at each time
//! of a run, with what follows for the trie, for swaps and for what is read (`Falling`).
#![tactic(auto)]

mod laws;

pub use laws::falling::{
    generations_fall, given_for_good, late_once, late_stood_before, read_for_good,
    swaps_in_own_generation,
};
pub use laws::roots::{
    generations_are_drawn, handles_of_operations, offers_are_their_operations,
    roots_have_own_generations,
};
