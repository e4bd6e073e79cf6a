//! The world that a state shows: which handles are open, of which kind, and the finite map that each names.
#![tactic(auto)]

mod laws;

pub use laws::{first_is_shown, handles_at_rest, shown_is_one, shows_roots, states_show};
