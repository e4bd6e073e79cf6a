//! A machine that is seen as the steps that it has taken: what many steps come to, and what the theorems say of it.
//!
//! Its own laws are those of the record (`specs/Laws`, `specs/Tellings`). `proofs/Lib` says what to cite. Handed on are the
//! laws that its lemmas take.
#![tactic(auto)]

mod laws;

pub use laws::{committed_are_newest, one_place_a_step, published_are_newest, tellings_fit};
pub use proof_linearizable::{
    alone_it_acts, contents_of_handles, every_order_is_legal, looking_finds,
};
pub use proof_memory::{
    freed_when_zero_for_two_epochs, reclaimed, references_in_use, sweep_leaves,
};
pub use proof_obstruction_free::{
    alone_it_ends, closes_end, each_step_leads_to_its_end, enough_slots_for_copies,
    enough_slots_for_tries,
};
