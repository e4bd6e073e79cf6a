//! The program `ctrie`: scripts for a map, run, and histories of a map, judged, explained and drawn.
#![tactic(auto)]

mod outcomes;
mod program;

use crate::program::answer;
use std::process::ExitCode;

/// Ends with the exit status of what was asked for.
fn main(rt: HostRuntime) -> ExitCode {
    ExitCode::from(answer(&rt))
}
