//! What is below a fresh main node that is about to be swapped in, and so what may put back what no root reaches.
#![tactic(auto)]

mod laws;

pub use laws::{dead_after_two_epochs, fresh_is_below, only_offers_put_back};
