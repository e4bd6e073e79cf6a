//! The speed of the machine, with its whole record and through the gate, and long runs of threads that are judged.
//!
//! `bench_machine record CALLS BEFORE COUNT KEYS SLOTS ACTORS [STEPS]` performs COUNT operations without a gate after BEFORE
//! others, over this many keys, and writes how many steps they took, how many nanoseconds, and how many found no free slot. CALLS is
//! `mix`, `get`, `put`, `insert` or `freeze`. Before gets alone each key is put. `bench_machine record order BEFORE ..` performs
//! those of `freeze` and writes how many nanoseconds their order takes. The memory that the record of STEPS steps takes is
//! reserved before.
//!
//! `bench_machine gate THREADS CALLS SLOTS` makes the same calls without the gate, and through it on this many threads, and writes
//! how many steps each took, and how many nanoseconds a step.
//!
//! `bench_machine judge THREADS CALLS SLOTS KEYS` judges what this many threads did, beside one more that sweeps. The exit status is
//! 3 where the record isn't right.
//!
//! Without words a little of each is done, and nothing written that hangs on time or schedule.
#![tactic(auto)]

mod callers;
mod calls;
mod gating;
mod judging;
mod recording;
mod words;

use ctrie_base::Refusal;
use std::env;
use std::process::ExitCode;
use std::sync::Wait;
use std::thread::Threads;
use std::time::Clock;

/// What the words ask for.
#[derive(Clone, Copy)]
enum Task {
    Record(recording::Load),
    Gate(gating::Load),
    Judge(judging::Load),
}

/// The task of these words.
fn task_of(words: &[String]) -> Option<Task> {
    let (name, others) = words.split_first()?;
    match name.as_str() {
        "record" => Some(Task::Record(recording::load_of(others)?)),
        "gate" => Some(Task::Gate(gating::load_of(others)?)),
        "judge" => Some(Task::Judge(judging::load_of(others)?)),
        _ => None,
    }
}

/// The task that the program's words ask for, if they do.
fn asked_for(rt: &HostRuntime) -> Option<Task> {
    let words = env::args(rt).ok()?.skip(1);
    task_of(words.collect::<Vec<String>>(rt.alloc()).ok()?.as_slice())
}

/// Carries the task out. Whether all is right.
fn carry_out<R: Threads + Wait + Sync + Clock + Print + AllocGlobal>(
    rt: &R,
    task: Task,
) -> Result<bool, Refusal> {
    match task {
        Task::Record(load) => recording::measure(rt, load).map(|_| true),
        Task::Gate(load) => gating::measure(rt, load).map(|_| true),
        Task::Judge(load) => judging::judge(rt, load),
    }
}

/// A little of each. Whether all is right.
fn little<R: Threads + Wait + Sync + Print + AllocGlobal>(rt: &R) -> Result<bool, Refusal> {
    recording::small(rt)?;
    gating::small(rt)?;
    judging::small(rt)
}

fn main(rt: HostRuntime) -> ExitCode {
    let done = match asked_for(&rt) {
        Some(task) => carry_out(&rt, task),
        None => little(&rt),
    };
    ExitCode::from(match done {
        Ok(true) => 0,
        Ok(false) => 3,
        Err(_) => 2,
    })
}
