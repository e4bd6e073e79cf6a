//! Many calls of many threads, judged: the order of their record is legal, and its steps run again give it
//! again.

ghost use Rattle.lock_runner.specs.Seats.{IsSeatOf};

use crate::words::number;
use ctrie_base::{HashKind, Refusal};
use history::{Call, Event, is_order};
use lock_runner::{Nothing, Record, Runner, Seat, run};
use machine_model::Limits;
use std::alloc::Global;
use std::sync::Wait;
use std::thread;
use std::thread::Threads;

/// What is done: this many calls by each of this many threads, over this many keys; one thread more sweeps.
#[derive(Clone, Copy)]
pub struct Load {
    threads: u8,
    calls: u64,
    limits: Limits,
    keys: u64,
}

/// Gets, puts, removals; now and then a snapshot, a freeze, a clear, a count, and closes of both.
fn call(n: u64, keys: u64) -> Call {
    let mixed = n.wrapping_mul(0x9E37_79B9_7F4A_7C15) >> 20;
    let key = mixed % keys.max(1);
    let handle = if mixed % 8 == 0 {
        (mixed >> 8 & 0xFF) as u16 % 6
    } else {
        0
    };
    let other = (mixed >> 8 & 0xFF) as u16 % 6;
    match n % 64 {
        0 => Call::Snapshot { handle: 0 },
        1 => Call::Freeze { handle: 0 },
        2 => Call::Clear { handle },
        3..6 => Call::Close {
            handle: other.max(1),
        },
        6 => Call::Count { handle: other },
        7 => Call::Entries { handle: other },
        8..32 => Call::Get { handle, key },
        32..52 => Call::Put {
            handle,
            key,
            value: n,
        },
        52..56 => Call::PutIfAbsent {
            handle,
            key,
            value: n,
        },
        _ => Call::Remove { handle, key },
    }
}

/// A thread's calls; the last one's sweeps.
fn work<R: Wait>(rt: &R, runner: &Runner, seat: &mut Seat, load: Load, thread: usize)
    requires { IsSeatOf runner.now seat.old }
    ensures { IsSeatOf runner.now seat.new }
{
    let is_sweeper = thread >= usize::from(load.threads);
    let from = (thread as u64).wrapping_mul(1_000_003);
    for n in 0..load.calls {
        if is_sweeper {
            let _ = runner.sweep(rt, seat).is_ok();
        } else {
            let made = call(from.wrapping_add(n), load.keys);
            let _ = seat.perform(rt, runner, made, &Nothing).is_ok();
            let _ = runner.sweep(rt, seat).is_ok();
        }
    }
}

/// Whether the order is legal, and the steps run again give the record again.
fn is_right(alloc: Global, record: &Record) -> Result<bool, Refusal> {
    let hash = record.limits.hash;
    let again = run(alloc, record.limits, record.steps.as_slice())?;
    Ok(
        is_order(
            alloc,
            record.events.as_slice(),
            record.order.as_slice(),
            hash,
        )? && again.steps.as_slice() == record.steps.as_slice()
            && again.order.as_slice() == record.order.as_slice()
            && again.events.len() == record.events.len()
            && (again.used, again.free, again.limbo) == (record.used, record.free, record.limbo),
    )
}

/// What came of a load.
#[derive(Clone, Copy)]
struct Judged {
    is_right: bool,
    operations: usize,
    steps: usize,
}

/// Performs the load, and judges its record.
fn stress<R: Threads + Wait + Sync>(rt: &R, alloc: Global, load: Load) -> Result<Judged, Refusal> {
    let count = load.limits.actors;
    let (runner, mut seats) = Runner::new(alloc, load.limits, count)?;
    thread::for_each_mut(
        rt,
        seats.as_mut_slice(),
        usize::from(count),
        &|k, seat| work(rt, &runner, seat, load, k),
    );
    match runner.finish(seats) {
        Ok(record) => Ok(Judged {
            is_right: is_right(alloc, &record)?,
            operations: begins(record.events.as_slice()),
            steps: record.steps.len(),
        }),
        Err(_) => Err(Refusal::Memory),
    }
}

/// How many operations began.
fn begins(events: &[Event]) -> usize {
    events
        .iter()
        .filter(|event| matches!(event, Event::Begin { .. }))
        .count()
}

/// The load of these words.
pub fn load_of(words: &[String]) -> Option<Load> {
    let threads = u8::try_from(number(words.get(0))?).ok()?;
    Some(Load {
        threads,
        calls: number(words.get(1))?,
        limits: Limits {
            slots: u32::try_from(number(words.get(2))?).ok()?,
            actors: threads.checked_add(1)?,
            hash: HashKind::Fold,
        },
        keys: number(words.get(3))?,
    })
}

/// A few calls.
pub fn small<R: Threads + Wait + Sync + Print + AllocGlobal>(rt: &R) -> Result<bool, Refusal> {
    let load = Load {
        threads: 2,
        calls: 200,
        limits: Limits {
            slots: 256,
            actors: 3,
            hash: HashKind::Fold,
        },
        keys: 16,
    };
    let judged = stress(rt, rt.alloc(), load)?;
    tell(rt, load, judged);
    Ok(judged.is_right)
}

/// The load, and how many operations began in how many steps: this hangs on the schedule. Whether the record is right.
pub fn judge<R: Threads + Wait + Sync + Print + AllocGlobal>(
    rt: &R,
    load: Load,
) -> Result<bool, Refusal> {
    let judged = stress(rt, rt.alloc(), load)?;
    let _ = println!(rt;
        "{} operations in {} steps",
        judged.operations, judged.steps
    );
    tell(rt, load, judged);
    Ok(judged.is_right)
}

/// What the record is.
fn tell<R: Print>(rt: &R, load: Load, judged: Judged) {
    let told = if judged.is_right {
        "legal, and the same when run again"
    } else {
        "wrong"
    };
    let _ = println!(rt;
        "{} threads, {} calls each on {} keys: {told}",
        load.threads, load.calls, load.keys
    );
}
