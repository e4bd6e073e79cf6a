//! The same calls on a machine without the gate, and through it on this many threads.

ghost use Rattle.lock_runner.specs.Seats.{IsSeatOf};

use crate::words::{nanos_since, number};
use ctrie_base::{HashKind, Refusal};
use history::Call;
use lock_runner::{Machine, Nothing, Runner, Seat, Step};
use machine_model::Limits;
use std::alloc::Global;
use std::sync::Wait;
use std::thread;
use std::thread::Threads;
use std::time::{Clock, Instant};

/// How many keys the calls are about.
const KEYS: u64 = 16;

/// How many steps of the sweep follow each call.
const SWEEPS: u32 = 6;

/// What is done: this many calls in all, by this many threads.
#[derive(Clone, Copy)]
pub struct Load {
    threads: u8,
    calls: u64,
    limits: Limits,
}

/// Six gets, six puts and four removals in turn, over the keys.
fn call(n: u64) -> Call {
    let key = n.wrapping_mul(0x9E37_79B9_7F4A_7C15) % KEYS;
    match n % 16 {
        0..6 => Call::Get { handle: 0, key },
        6..12 => Call::Put {
            handle: 0,
            key,
            value: n,
        },
        _ => Call::Remove { handle: 0, key },
    }
}

/// The calls on a machine, by one actor; how many steps it took.
fn plain(alloc: Global, load: Load) -> Result<u64, Refusal> {
    let mut machine = Machine::new(alloc, load.limits)?;
    for n in 0..load.calls {
        machine.complete(1, call(n))?;
        sweep_alone(&mut machine)?;
    }
    Ok(machine.steps_taken())
}

/// The steps of the sweep after a call.
fn sweep_alone(machine: &mut Machine) -> Result<(), Refusal> {
    for _ in 0..SWEEPS {
        machine.apply(Step::Sweep)?;
    }
    Ok(())
}

/// A thread's share of the calls.
fn work<R: Wait>(rt: &R, runner: &Runner, seat: &mut Seat, calls: u64)
    requires { IsSeatOf runner.now seat.old }
    ensures { IsSeatOf runner.now seat.new }
{
    for n in 0..calls {
        let _ = seat.perform(rt, runner, call(n), &Nothing).is_ok();
        sweep_through(rt, runner, seat);
    }
}

/// The steps of the sweep after a call, through the gate.
fn sweep_through<R: Wait>(rt: &R, runner: &Runner, seat: &mut Seat)
    requires { IsSeatOf runner.now seat.old }
    ensures { IsSeatOf runner.now seat.new }
{
    for _ in 0..SWEEPS {
        let _ = runner.sweep(rt, seat);
    }
}

/// The calls through the gate; how many steps they took.
fn through<R: Threads + Wait + Sync>(rt: &R, alloc: Global, load: Load) -> Result<u64, Refusal> {
    let (runner, mut seats) = Runner::new(alloc, load.limits, load.threads)?;
    let calls = load.calls / u64::from(load.threads.max(1));
    thread::for_each_mut(
        rt,
        seats.as_mut_slice(),
        usize::from(load.threads),
        &|_, seat| work(rt, &runner, seat, calls),
    );
    match runner.finish(seats) {
        Ok(record) => Ok(record.steps.len() as u64),
        Err(_) => Err(Refusal::Memory),
    }
}

/// Nanoseconds a step.
fn speed(steps: u64, nanos: u128) -> u128 {
    nanos / u128::from(steps.max(1))
}

/// Both, one after the other, with their figures.
pub fn measure<R: Threads + Wait + Sync + Clock + Print + AllocGlobal>(
    rt: &R,
    load: Load,
) -> Result<(), Refusal> {
    let start = Instant::now(rt).ok();
    let steps = plain(rt.alloc(), load)?;
    let nanos = nanos_since(rt, start);
    let _ = println!(rt;
        "without the gate: {steps} steps, {} ns a step",
        speed(steps, nanos)
    );
    let start = Instant::now(rt).ok();
    let steps = through(rt, rt.alloc(), load)?;
    let nanos = nanos_since(rt, start);
    let _ = println!(rt;
        "{} threads through it: {steps} steps, {} ns a step",
        load.threads,
        speed(steps, nanos)
    );
    Ok(())
}

/// The load of these words.
pub fn load_of(words: &[String]) -> Option<Load> {
    let threads = u8::try_from(number(words.get(0))?).ok()?;
    let calls = number(words.get(1))?;
    let slots = u32::try_from(number(words.get(2))?).ok()?;
    Some(Load {
        threads,
        calls,
        limits: limits(slots, threads),
    })
}

fn limits(slots: u32, actors: u8) -> Limits {
    Limits {
        slots,
        actors,
        hash: HashKind::Low,
    }
}

/// Few calls, whose number is written.
pub fn small<R: Threads + Wait + Sync + Print + AllocGlobal>(rt: &R) -> Result<(), Refusal> {
    let load = Load {
        threads: 2,
        calls: 64,
        limits: limits(64, 2),
    };
    plain(rt.alloc(), load)?;
    through(rt, rt.alloc(), load)?;
    let _ = println!(rt; "{} calls without the gate and through it", load.calls);
    Ok(())
}
