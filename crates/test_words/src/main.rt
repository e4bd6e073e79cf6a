//! Threads that call one map on words.
//!
//! `test_words mixed THREADS CALLS KEYS HASH SEED` lets so many threads make so many calls each, of all kinds and on so many keys, and
//! writes the history of what they were told. One atomic count that they share says in which order the calls began and ended.
//!
//! `test_words tried ..` does the same in ever more tries, from one on; where these are used up a call goes on by one try after the other.
//!
//! `test_words chains THREADS ROUNDS HASH SEED` lets each of them write the keys of its chains in order, over and over, and look at
//! frozen copies of the map, in which each chain of any thread has to stand in order. The exit status is 3 where one doesn't.
//!
//! `test_words handed KEYS HASH` lets one thread put so many keys, and another one remove each, in a map of few slots. The exit status is 3
//! where a call is refused, or told something else.
//!
//! `test_words walk HASH` lists the pairs of a small map, by one thread.
//!
//! `test_words copies ROUNDS HASH` copies a map of few slots in so many rounds, by one thread: it takes a snapshot, freezes it and clears it.
//!
//! `test_words freezes ROUNDS CHANGES HASH` freezes a map of few slots in so many rounds, by one thread, after so many changes each, while
//! another one changes it. The exit status is 3 where a call is refused.
//!
//! The exit status is 1 where the words are none of these, and 2 where memory or the map is too small. Without words a little of each is
//! done, and nothing written that hangs on the schedule.
#![tactic(auto)]

mod callers;
mod calls;
mod chains;
mod copies;
mod freezes;
mod handed;
mod keys;
mod made;
mod maps;
mod mixed;
mod seats;
mod told;
mod tries;
mod walks;
mod words;

use crate::callers::Manner;
use crate::maps::Trouble;
use std::process::ExitCode;
use std::rt::Env;
use std::sync::Wait;
use std::thread::Threads;
use std::{env, io};

/// What the words ask for.
#[derive(Clone, Copy)]
enum Task {
    Mixed(mixed::Load),
    Chains(chains::Load),
    Handed(handed::Load),
    Walk(walks::Load),
    Copies(copies::Load),
    Freezes(freezes::Load),
}

/// The task of these words.
fn task_of(words: &[String]) -> Option<Task> {
    let (name, others) = words.split_first()?;
    match name.as_str() {
        "mixed" => Some(Task::Mixed(mixed::load_of(Manner::Waits, others)?)),
        "tried" => Some(Task::Mixed(mixed::load_of(Manner::Tries, others)?)),
        "chains" => Some(Task::Chains(chains::load_of(others)?)),
        "handed" => Some(Task::Handed(handed::load_of(others)?)),
        "walk" => Some(Task::Walk(walks::load_of(others)?)),
        "copies" => Some(Task::Copies(copies::load_of(others)?)),
        "freezes" => Some(Task::Freezes(freezes::load_of(others)?)),
        _ => None,
    }
}

/// Carries the task out. Whether all is right.
fn carry_out<R: Threads + Wait + Sync + Print + AllocGlobal>(
    rt: &R,
    task: Task,
) -> Result<bool, Trouble> {
    match task {
        Task::Mixed(load) => mixed::write(rt, load, io::writer(rt)).map(|_| true),
        Task::Chains(load) => chains::judge(rt, load),
        Task::Handed(load) => handed::judge(rt, load),
        Task::Walk(load) => walks::write(rt, load).map(|_| true),
        Task::Copies(load) => copies::write(rt, load).map(|_| true),
        Task::Freezes(load) => freezes::judge(rt, load),
    }
}

/// A little of each. Whether all is right.
fn little<R: Threads + Wait + Sync + Print + AllocGlobal>(rt: &R) -> Result<bool, Trouble> {
    mixed::small(rt, Manner::Waits)?;
    mixed::small(rt, Manner::Tries)?;
    walks::small(rt)?;
    copies::small(rt)?;
    chains::small(rt)
}

/// The program's words but its name.
fn words_of<R: Env + AllocGlobal>(rt: &R) -> Result<Vec<String>, Trouble> {
    match env::args(rt) {
        Ok(words) => match words.skip(1).collect::<Vec<String>>(rt.alloc()) {
            Ok(words) => Ok(words),
            Err(_) => Err(Trouble::Memory),
        },
        Err(_) => Err(Trouble::Memory),
    }
}

/// What the program's words ask for. Whether all is right; `None` where they ask for nothing.
fn answer<R: Env + Threads + Wait + Sync + Print + AllocGlobal>(
    rt: &R,
) -> Result<Option<bool>, Trouble> {
    let words = words_of(rt)?;
    if words.is_empty() {
        return Ok(Some(little(rt)?));
    }
    match task_of(words.as_slice()) {
        Some(task) => Ok(Some(carry_out(rt, task)?)),
        None => Ok(None),
    }
}

fn main(rt: HostRuntime) -> ExitCode {
    ExitCode::from(match answer(&rt) {
        Ok(Some(true)) => 0,
        Ok(Some(false)) => 3,
        Ok(None) => 1,
        Err(trouble) => {
            let _ = eprintln!(rt; "test_words: {trouble}");
            2
        }
    })
}
