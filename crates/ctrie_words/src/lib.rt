//! The words of the program `ctrie`: what they ask for.
#![tactic(auto)]

mod arguments;

pub use arguments::{Request, request_of};
