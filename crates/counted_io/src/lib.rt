//! Readers and writers whose failed calls are counted, so that a failure of reading or writing can be told
//! from a program that gives up; and reading or writing all of a text through them.
#![tactic(auto)]

mod counting;
mod failures;
mod reading;
mod writing;

pub use counting::Counted;
pub use failures::Failure;
pub use reading::read_all;
pub use writing::write_all;
