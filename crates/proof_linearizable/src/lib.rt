//! The order of every run is legal: the theorem, put together from the layers below it.
#![tactic(auto)]

mod laws;

pub use laws::{alone_it_acts, every_order_is_legal};
pub use proof_updates::{contents_of_handles, looking_finds};
