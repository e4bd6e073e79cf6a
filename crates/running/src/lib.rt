//! An actor's operation under way, changed in place: each call of `Programs::step` takes one atomic step of the machine.
//!
//! A program whose READ has to know the generation of the root before it decides a main node asks for it (`Next::AskRoot`)
//! and takes no step. Here ABORT's step stands in its place, so that a call is always a step, and the program is told at its
//! next one. Where a program has come to its end its reply waits for the operation's last step.
//!
//! Computed are the definition's `Operations`: the line of any operation, whatever its program, and what a step from it
//! comes to. `specs/Places` says which line that is, `specs/Steps` what a step does.
#![tactic(auto)]

mod asking;
mod beside;
mod job;
mod programs;
mod ran;
mod taken;
mod telling;
mod walking;

pub use job::{Job, Program};
pub use operate::{
    KeyCall, KeyReply, Todo, absent_reply, bitmap_at, changed_reply, entries_at, entry_at, flag_of,
    generation_at, inserts, key_at, main_at, make_changed, node_at, release_all, when_found,
};
pub use programs::{ProgramAt, Programs};
pub use snapshot::{CopyCall, Roots, WalkCall, opened_root, root_of};
pub use taken::Taken;
pub use telling::key_reply;
