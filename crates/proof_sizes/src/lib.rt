//! How many nodes a handle reaches: with the free slots no more than all slots, and a call that adds no key makes them no more.
//! Handed on are the laws below that a map's calls take.
#![tactic(auto)]

mod laws;

pub use laws::{
    calls_grow_little, copies_are_no_larger, empty_has_two, handles_use_slots, one_handle_uses_all,
    others_grow_nothing, sweeps_keep_nodes,
};
pub use proof_alone::{
    calls_begin, calls_do, calls_go_on, clean_is_reached, enough_slots_for_calls, refused_if_out,
    sweeps_leave,
};
