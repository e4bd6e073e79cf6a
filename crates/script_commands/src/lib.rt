//! What the program `ctrie` does with a script for a map's machine, as a call over any reader and writer: one
//! thread takes its steps. And how what a run has to tell is written. What `ctrie_commands` wants of histories and of
//! scripts for threads is handed on.
#![tactic(auto)]

mod reports;
mod scripts;
mod stepping;

pub use history_commands::{
    Fault, Search, check_history, draw_history, explain_history, order_history,
};
pub use reports::{report_of_record, tell_denied};
pub use script_text::{Script, ThreadLine, read_thread_script};
pub use scripts::run_script;
