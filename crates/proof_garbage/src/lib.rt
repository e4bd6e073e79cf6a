//! Laws of what is live: what roots and running operations reach through slots in use.
#![tactic(auto)]

mod laws;

pub use laws::{
    dead_after_grace, fresh_is_alone, garbage_stays, grace_alone_is_too_little, live_in_use,
    named_are_held, private_unknown, reached_is_never_private, two_epochs_are_grace,
};
