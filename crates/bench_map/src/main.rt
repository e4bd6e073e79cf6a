//! The speed of a map for programs, alone and shared by threads: whole calls, with what is swept after each.
//!
//! `bench_map alone CALLS FILLED COUNT KEYS SLOTS` has one thread make COUNT operations over this many keys, on a map in which
//! FILLED keys were put, and writes how many steps they took, how many nanoseconds, and how many were refused. CALLS is `mix`,
//! `get`, `put`, `insert`, `freeze`, `copy`, `diff`, `count`, `part` or `scan`.
//!
//! `bench_map shared THREADS FILLED COUNT KEYS SLOTS SHARDS EVERY` has each thread make its share of COUNT calls of the mix (gets,
//! puts and removals, 6 : 6 : 4) over this many keys, the same for all, on a map in this many shards of SLOTS slots each, in which FILLED
//! keys were put; after every EVERY calls also a freeze, 100 gets of that, and a close (0: never). The first thread makes the calls of
//! `mix` alone. It writes how many nanoseconds they took, from the first call of the thread that begins first to the last one of that
//! which ends last: the map's making and the puts before aren't in it, nor the threads' start but that one begins after the other.
//! Then how many calls were refused, and how many of two sums are wrong: the keys, and the values, that came and didn't go by what
//! the threads were told are those that are found in the end, outside that time.
//!
//! Without words few operations of the first six loads alone are made, and few that are shared, and nothing is written that hangs
//! on time or schedule.
#![tactic(auto)]

mod alone;
mod shared;

use shared_map::MapError;
use std::env;
use std::process::ExitCode;
use std::sync::Wait;
use std::thread::Threads;
use std::time::Clock;

/// What the words ask for.
#[derive(Clone, Copy)]
enum Task {
    Alone(alone::Task),
    Shared(shared::Task),
}

/// The task of these words.
fn task_of(words: &[String]) -> Option<Task> {
    let (name, others) = words.split_first()?;
    match name.as_str() {
        "alone" => Some(Task::Alone(alone::Task::of(others)?)),
        "shared" => Some(Task::Shared(shared::Task::of(others)?)),
        _ => None,
    }
}

/// The task that the program's words ask for, if they do.
fn asked_for(rt: &HostRuntime) -> Option<Task> {
    let words = env::args(rt).ok()?.skip(1);
    task_of(words.collect::<Vec<String>>(rt.alloc()).ok()?.as_slice())
}

/// Carries the task out.
fn carry_out<R: Threads + Wait + Sync + Clock + Print + AllocGlobal>(
    rt: &R,
    task: Task,
) -> Result<(), MapError> {
    match task {
        Task::Alone(task) => alone::measure(rt, task),
        Task::Shared(task) => shared::measure(rt, task),
    }
}

/// A little of each.
fn little<R: Threads + Wait + Sync + Clock + Print + AllocGlobal>(rt: &R) -> Result<(), MapError> {
    alone::small(rt)?;
    shared::small(rt)
}

fn main(rt: HostRuntime) -> ExitCode {
    let done = match asked_for(&rt) {
        Some(task) => carry_out(&rt, task),
        None => little(&rt),
    };
    ExitCode::from(if done.is_ok() { 0 } else { 1 })
}
