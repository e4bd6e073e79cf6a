//! Three uses of a map: a cache, an index that is exported while it changes, and undo.
#![tactic(auto)]

mod cache;
mod export;
mod undo;

use ctrie_map::MapError;
use std::process::ExitCode;

/// All three, one after the other.
fn run<R: Print + AllocGlobal>(rt: &R) -> Result<(), MapError> {
    cache::run(rt)?;
    export::run(rt)?;
    undo::run(rt)
}

fn main(rt: HostRuntime) -> ExitCode {
    match run(&rt) {
        Ok(()) => ExitCode::SUCCESS,
        Err(error) => {
            let _ = eprintln!(rt; "{error}");
            ExitCode::FAILURE
        }
    }
}
