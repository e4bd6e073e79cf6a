//! A map that one thread calls.

mod caller;
mod loads;

use self::caller::Caller;
use self::loads::Load;
use bench_calls::{nanos_since, number};
use shared_map::{HashKind, Map, MapError};
use std::alloc::Global;
use std::time::{Clock, Instant};

/// How many keys few operations are about.
const KEYS: u64 = 40;

/// What is done: this many operations of a load, after this many keys that are put.
#[derive(Clone, Copy)]
pub(crate) struct Task {
    load: Load,
    filled: u64,
    count: u64,
    keys: u64,
    slots: u32,
}

/// What came of it.
#[derive(Clone, Copy)]
struct Done {
    steps: u64,
    refused: u64,
}

impl Task {
    /// That of these words.
    pub(crate) fn of(words: &[String]) -> Option<Task> {
        Some(Task {
            load: Load::named(words.get(0)?.as_str())?,
            filled: number(words.get(1))?,
            count: number(words.get(2))?,
            keys: number(words.get(3))?,
            slots: u32::try_from(number(words.get(4))?).ok()?,
        })
    }
}

/// A map with this many keys.
fn filled_map(alloc: Global, task: Task) -> Result<Map, MapError> {
    let mut map = Map::new(alloc, task.slots, HashKind::Low)?;
    Caller::new(Load::Insert, task.filled).perform(&mut map, task.filled);
    Ok(map)
}

/// The task's operations.
fn operate(map: &mut Map, task: Task) -> Done {
    let before = map.steps_taken();
    let refused = Caller::new(task.load, task.keys).perform(map, task.count);
    Done {
        steps: map.steps_taken().saturating_sub(before),
        refused,
    }
}

/// The task, with its figures.
pub(crate) fn measure<R: Clock + Print + AllocGlobal>(rt: &R, task: Task) -> Result<(), MapError> {
    let mut map = filled_map(rt.alloc(), task)?;
    let start = Instant::now(rt).ok();
    let done = operate(&mut map, task);
    let nanos = nanos_since(rt, start);
    let _ = println!(rt;
        "{} operations, {} steps, {nanos} ns, {} refused",
        task.count, done.steps, done.refused
    );
    Ok(())
}

/// How many steps 300 operations of each load take: `get` and `copy` find each key, the others begin on an empty map.
pub(crate) fn small<R: Print + AllocGlobal>(rt: &R) -> Result<(), MapError> {
    for (name, filled) in [
        ("mix", 0),
        ("get", KEYS),
        ("put", 0),
        ("insert", 0),
        ("freeze", 0),
        ("copy", KEYS),
    ] {
        if let Some(load) = Load::named(name) {
            let done = few(rt.alloc(), load, filled)?;
            let _ = println!(rt; "{name}: {} steps, {} refused", done.steps, done.refused);
        }
    }
    Ok(())
}

/// Few operations of this load, after this many keys that are put.
fn few(alloc: Global, load: Load, filled: u64) -> Result<Done, MapError> {
    let task = Task {
        load,
        filled,
        count: 300,
        keys: KEYS,
        slots: 1_024,
    };
    Ok(operate(&mut filled_map(alloc, task)?, task))
}
