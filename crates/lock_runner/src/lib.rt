//! The machine behind a gate: many threads, each step one hold of the gate, and at the end one record of
//! all steps.
#![tactic(auto)]

mod accounts;
mod asks;
mod between;
mod finishing;
mod holding;
mod laws;
mod lending;
mod named_calls;
mod naming;
mod opening;
mod performing;
mod runner;
mod seats;
mod stepping;

pub use accounts::Answer;
pub use between::{Between, Nothing};
pub use finishing::Unfinished;
pub use gate::Name;
pub use laws::{
    answers_are_those_of_the_history, others_leave_the_account, own_steps_make_the_account,
    running_ids_differ,
};
pub use naming::{NamedRunner, NamedSeat};
pub use runner::Runner;
pub use seats::{Seat, Stop};
pub use step_machine::{Limits, Machine, Record, Step, run};
