//! How facts about the contents of generations make the order legal that the machine hands out.
//!
//! `specs/Facts` is the record of these facts; from it follows that the order is legal (`specs/Laws/Orders`, the law `legal_by_facts`).
//! `proofs/` has what the history says of the running operations (`History`), of their offers (`Offers`), where places come from
//! and how they are sorted (`Places`), and the replay of the order by what a world shows (`Views`). Two of the facts are shown here: what
//! the swap of a root opens (`specs/Openings`, `proofs/Openings`), and in which phase an operation has its place (`specs/Phases` and
//! `Times`, `proofs/Phases`).
#![tactic(auto)]

mod laws;

pub use laws::openings::{
    closed_roots_stay, closings_differ, handles_rise, new_roots_follow, one_root,
    roots_swapped_as_expected,
};
pub use laws::orders::{
    answered_are_ordered, histories_well_formed, legal_by_facts, ordered_have_begun, places_past,
    places_stay, rising_sorts,
};
