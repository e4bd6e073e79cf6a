//! Which handle numbers are taken, and how many running operations were called on each. No question is answered by a
//! search: the numbers stand in a bitmap of four words.
#![tactic(auto)]

mod numbers;
mod words;

pub use numbers::{HANDLE_LIMIT, Handles};
