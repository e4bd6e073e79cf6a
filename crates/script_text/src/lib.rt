//! Scripts for the map's machine, and those for threads: read exactly, by one reader, with the first fault
//! told.
#![tactic(auto)]

mod command_words;
mod commands;
mod headers;
mod names;
mod reading;
mod thread_lines;
mod thread_scripts;

pub use commands::Command;
pub use reading::{Script, read_script};
pub use text_lines::Told;
pub use thread_lines::ThreadLine;
pub use thread_scripts::read_thread_script;
