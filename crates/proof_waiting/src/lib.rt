//! What an operation keeps while others take steps: laws of the machine.
#![tactic(auto)]

mod laws;

pub use laws::{actions_wait, operations_wait};
