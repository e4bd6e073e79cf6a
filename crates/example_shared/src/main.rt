//! A map that threads share, in three uses: a registry, a list of work and counters. What is printed is the same whatever
//! the schedule.
#![tactic(auto)]

mod counters;
mod registry;
mod work_list;

use shared_map::MapError;
use std::alloc::AllocGlobal;
use std::process::ExitCode;
use std::sync::Wait;
use std::thread::Threads;

/// Runs the three, one after another.
fn run<R: Print + Threads + Wait + Sync + AllocGlobal>(rt: &R) -> Result<(), MapError> {
    let exports = registry::run(rt)?;
    let _ = println!(rt; "the registry: {exports} exports, each of one moment");
    let worth = work_list::run(rt)?;
    let _ = println!(rt; "the list of work: each task done once, worth {worth} together");
    let count = counters::count(rt)?;
    let _ = println!(rt; "the counter: {count}");
    Ok(())
}

fn main(rt: HostRuntime) -> ExitCode {
    match run(&rt) {
        Ok(()) => ExitCode::SUCCESS,
        Err(error) => {
            let _ = eprintln!(rt; "{error}");
            ExitCode::FAILURE
        }
    }
}
