//! Seats on threads of their own.

ghost use Rattle.gate.specs.Seats.{IsSeatOf};

use crate::counters::{Counter, Urgent};
use gate::{Gate, Object, Seat};
use std::alloc::{AllocGlobal, Global};
use std::process::Abort;
use std::sync::Wait;
use std::sync::atomic::{AtomicU64, Ordering};
use std::test::Fail;
use std::thread;

/// How many calls each thread makes.
const CALLS: u64 = 2_000;

/// Draws this many tickets; their sum.
fn draw<O: Object<u64, u64> + Drop, R: Wait>(
    rt: &R,
    gate: &Gate<O, u64, u64>,
    seat: &mut Seat<O, u64, u64>,
) -> u64
    requires { IsSeatOf gate.now seat.old }
    ensures { IsSeatOf gate.now seat.new }
{
    let mut sum = 0u64;
    for _ in 0..CALLS {
        sum = sum.wrapping_add(gate.call(rt, seat, 1));
    }
    sum
}

/// Four threads draw 8,000 tickets, each another one: the numbers below 8,000, whose sum is 31,996,000.
#[test]
fn each_call_draws_another_ticket(rt: HostRuntime) -> Result<(), Fail> {
    let Ok((gate, mut seats)) = Gate::new(rt.alloc(), Counter { count: 0 }, 4) else {
        panic!(rt; "there is memory")
    };
    let sum = AtomicU64::new(0);
    thread::for_each_mut(
        &rt,
        seats.as_mut_slice(),
        4,
        &|_, seat| {
            sum.fetch_add(draw(&rt, &gate, seat), Ordering::SeqCst);
        },
    );
    assert_eq!(rt; sum.load(Ordering::SeqCst), 31_996_000);
    let Ok(counter) = gate.finish(seats) else {
        panic!(rt; "all seats are there")
    };
    assert_eq!(rt; counter.count, 8_000);
    Ok(())
}

/// The same where the callers are always in the midst of something, and wait less long.
#[test]
fn who_is_midway_comes_in_too(rt: HostRuntime) -> Result<(), Fail> {
    let Ok((gate, mut seats)) = Gate::new(rt.alloc(), Urgent { count: 0 }, 4) else {
        panic!(rt; "there is memory")
    };
    thread::for_each_mut(
        &rt,
        seats.as_mut_slice(),
        4,
        &|_, seat| {
            draw(&rt, &gate, seat);
        },
    );
    let Ok(counter) = gate.finish(seats) else {
        panic!(rt; "all seats are there")
    };
    assert_eq!(rt; counter.count, 8_000);
    Ok(())
}
