//! Operations on a machine with its whole record, without a gate.

use crate::callers::Caller;
use crate::calls::Calls;
use crate::words::{nanos_since, number};
use ctrie_base::{HashKind, Refusal};
use lock_runner::Machine;
use machine_model::Limits;
use std::alloc::Global;
use std::time::{Clock, Instant};

/// What is timed.
#[derive(Clone, Copy, Debug, PartialEq, Eq)]
enum Timed {
    Operations,
    Order,
}

/// What is done: this many operations of these calls, and others before.
#[derive(Clone, Copy)]
pub struct Load {
    timed: Timed,
    calls: Calls,
    before: u64,
    count: u64,
    keys: u64,
    limits: Limits,
    /// For how many steps the record's memory is reserved.
    reserved: u64,
}

/// A machine that is at work, and who calls it.
#[derive(Drop)]
struct Work {
    machine: Machine,
    caller: Caller,
}

/// What came of a load.
#[derive(Clone, Copy)]
struct Done {
    steps: u64,
    refused: u64,
}

/// A machine after what comes before the load.
fn prepared(alloc: Global, load: Load) -> Result<Work, Refusal> {
    let mut machine = Machine::new(alloc, load.limits)?;
    machine.reserve(load.reserved)?;
    if load.calls == Calls::Get {
        let mut putter = Caller::new(Calls::Insert, load.keys, load.limits.actors);
        putter.perform(&mut machine, load.keys)?;
    }
    let mut caller = Caller::new(load.calls, load.keys, load.limits.actors);
    caller.perform(&mut machine, load.before)?;
    Ok(Work { machine, caller })
}

/// The load's operations.
fn operate(work: &mut Work, count: u64) -> Result<Done, Refusal> {
    let before = work.machine.steps_taken();
    let refused = work.caller.perform(&mut work.machine, count)?;
    Ok(Done {
        steps: work.machine.steps_taken().saturating_sub(before),
        refused,
    })
}

/// The load, with its figures.
pub fn measure<R: Clock + Print + AllocGlobal>(rt: &R, load: Load) -> Result<(), Refusal> {
    let mut work = prepared(rt.alloc(), load)?;
    let start = Instant::now(rt).ok();
    let done = operate(&mut work, load.count)?;
    let nanos = nanos_since(rt, start);
    let _ = println!(rt;
        "{} operations, {} steps, {nanos} ns, {} refused",
        load.count, done.steps, done.refused
    );
    if load.timed == Timed::Order {
        measure_order(rt, &work.machine)?;
    }
    Ok(())
}

/// How long the order takes.
fn measure_order<R: Clock + Print>(rt: &R, machine: &Machine) -> Result<(), Refusal> {
    let start = Instant::now(rt).ok();
    let places = machine.order()?.len();
    let nanos = nanos_since(rt, start);
    let _ = println!(rt; "{places} places, {nanos} ns");
    Ok(())
}

/// The load of these words.
pub fn load_of(words: &[String]) -> Option<Load> {
    let name = words.get(0)?.as_str();
    let (timed, calls) = if name == "order" {
        (Timed::Order, Calls::Freeze)
    } else {
        (Timed::Operations, Calls::named(name)?)
    };
    Some(Load {
        timed,
        calls,
        before: number(words.get(1))?,
        count: number(words.get(2))?,
        keys: number(words.get(3))?,
        limits: Limits {
            slots: u32::try_from(number(words.get(4))?).ok()?,
            actors: u8::try_from(number(words.get(5))?).ok()?,
            hash: HashKind::Low,
        },
        reserved: number(words.get(6)).unwrap_or(0),
    })
}

/// How many steps 300 operations of each kind take.
pub fn small<R: Print + AllocGlobal>(rt: &R) -> Result<(), Refusal> {
    for name in ["mix", "get", "put", "insert", "freeze"] {
        if let Some(calls) = Calls::named(name) {
            let done = few(rt.alloc(), calls)?;
            let _ = println!(rt; "{name}: {} steps, {} refused", done.steps, done.refused);
        }
    }
    Ok(())
}

/// Few operations of these calls.
fn few(alloc: Global, calls: Calls) -> Result<Done, Refusal> {
    let load = Load {
        timed: Timed::Operations,
        calls,
        before: 0,
        count: 300,
        keys: 40,
        limits: Limits {
            slots: 512,
            actors: 2,
            hash: HashKind::Low,
        },
        reserved: 0,
    };
    operate(&mut prepared(alloc, load)?, load.count)
}
