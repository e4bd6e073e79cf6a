//! What the loads of maps have in common: the calls that are drawn, what these come to, the words that ask for them, and the time.
#![tactic(auto)]

mod balance;
mod drawing;
mod words;

pub use balance::Balance;
pub use drawing::{Drawn, Kind};
pub use words::{nanos_since, number};
