//! What a call comes to that runs alone from rest, and the sweep after it: its end, its effect on the maps of handles, its steps and its slots.
#![tactic(auto)]

mod laws;

pub use laws::{
    calls_begin, calls_do, calls_end, calls_go_on, clean_is_reached, enough_slots_for_calls,
    refused_if_out, sweeps_leave,
};
