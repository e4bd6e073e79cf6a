//! The map's machine: its public calls. Each is the definition's, of the steps taken so far.
//!
//! Computed are `Machine`, `Acting`, `Operations`, `Records` and `Contents` of `machine_model`: one step by `machine_core`, what is
//! recorded of it by `chronicle`, and here the run of all that were taken.
#![tactic(auto)]

mod callers;
mod laws;
mod machine;
mod numbers;
mod records;
mod rooming;
mod sizes;
mod taking;

pub use callers::GO_LIMIT;
pub use epochs::Swept;
pub use machine::Machine;
pub use machine_core::Step;
pub use machine_model::{Limits, Outcome};
pub use proof_runs::{alone_it_ends, closes_end};
pub use records::{Record, run};
