//! What the program `ctrie` does, as calls over any reader and writer: scripts for threads, carried out by many.
//! What it does with scripts for one thread and with histories is passed on.
#![tactic(auto)]

mod groups;
mod threads;
mod working;

pub use counted_io::Counted;
pub use lock_runner::{Between, Nothing};
pub use script_commands::{
    Fault, Search, check_history, draw_history, explain_history, order_history, run_script,
};
pub use threads::run_threads;
