//! Texts of lines, read one line after the other with the first fault told: words, numbers, lines.
#![tactic(auto)]

mod faults;
mod lines;
mod reading;
mod words;

pub use faults::Told;
pub use reading::{LineReader, read_text};
pub use words::{both, number_from, number_of, number_word};
