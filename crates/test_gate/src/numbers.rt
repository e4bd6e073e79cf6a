//! Numbers of calls, and who is told of them.

ghost use Rattle.std.specs.Prelude.{◌<◌, ◌^◌, IsTrue, length};
ghost use Rattle.gate.specs.Seats.{IsSeatOf};
ghost use Rattle.test_gate.specs.Numbers.{StandsBefore};

use crate::counters::Counter;
use gate::{Gate, Seat, logs_go_on, told_calls_stand_before};
use std::alloc::AllocGlobal;
use std::process::Abort;
use std::sync::Wait;
use std::sync::atomic::{AtomicU64, Ordering};
use std::test::Fail;
use std::thread;

/// How often the one who is told looks for the number.
const TURNS: u32 = 1_000_000;

/// A gate counts its calls, whichever seat makes them, and a seat knows of those that stood there when it called or
/// heard last.
#[test]
fn calls_have_numbers(rt: HostRuntime) -> Result<(), Fail> {
    let Ok((gate, mut seats)) = Gate::new(rt.alloc(), Counter { count: 0 }, 2) else {
        panic!(rt; "there is memory")
    };
    let (Some(mut two), Some(mut one)) = (seats.pop(), seats.pop()) else {
        panic!(rt; "there are two")
    };
    assert_eq!(rt; (one.last(), two.last()), (0, 0));
    assert_eq!(rt; gate.call(&rt, &mut one, 10), 0);
    assert_eq!(rt; gate.call(&rt, &mut one, 20), 10);
    assert_eq!(rt; (one.last(), two.last()), (2, 0));
    assert!(rt; gate.hear(&rt, &mut two, 1));
    assert_eq!(rt; two.last(), 2);
    assert!(rt; !gate.hear(&rt, &mut two, 3));
    assert_eq!(rt; gate.call(&rt, &mut two, 30), 30);
    assert_eq!(rt; (one.last(), two.last()), (2, 3));
    assert!(rt; gate.hear(&rt, &mut one, 3));
    assert!(rt; call_again(&rt, &gate, &mut one, &mut two));
    Ok(())
}

/// Seat one adds 1, and adds 2 then; the other one is told the number of the first call, and adds 3: whether it heard of
/// the number. If so it stands after that call, though seat one has called again.
fn call_again<R: Wait>(
    rt: &R,
    gate: &Gate<Counter, u64, u64>,
    one: &mut Seat<Counter, u64, u64>,
    other: &mut Seat<Counter, u64, u64>,
) -> bool
    requires one { IsSeatOf gate.now one.old }
    requires other { IsSeatOf gate.now other.old }
    ensures { IsTrue result → length one.new.seen.log < 2 ^ 64 → StandsBefore one.old.number 1 other.old.number 3 one.new.seen other.new.seen }
{
    logs_go_on::<Counter, u64, u64>();
    told_calls_stand_before::<Counter, u64, u64>();
    gate.call(rt, one, 1);
    let number = one.last();
    gate.call(rt, one, 2);
    let heard = gate.hear(rt, other, number);
    gate.call(rt, other, 3);
    heard
}

/// The number that was told, once it is.
fn awaited(told: &AtomicU64) -> Option<u64> {
    for _ in 0..TURNS {
        let number = told.load(Ordering::SeqCst);
        if number > 0 {
            return Some(number);
        }
        thread::yield_now();
    }
    None
}

/// Seat 1 adds 1, and tells the number of that call. The other one waits for the number, hears of it, and is answered
/// after it: whether it was.
fn tell<R: Wait>(
    rt: &R,
    gate: &Gate<Counter, u64, u64>,
    seat: &mut Seat<Counter, u64, u64>,
    told: &AtomicU64,
) -> bool
    requires { IsSeatOf gate.now seat.old }
{
    if seat.number() == 1 {
        gate.call(rt, seat, 1);
        told.store(seat.last(), Ordering::SeqCst);
        return true;
    }
    match awaited(told) {
        Some(number) => gate.hear(rt, seat, number) && gate.call(rt, seat, 0) == 1,
        None => false,
    }
}

#[test]
fn who_is_told_comes_behind(rt: HostRuntime) -> Result<(), Fail> {
    let Ok((gate, mut seats)) = Gate::new(rt.alloc(), Counter { count: 0 }, 2) else {
        panic!(rt; "there is memory")
    };
    let told = AtomicU64::new(0);
    let right = AtomicU64::new(0);
    thread::for_each_mut(
        &rt,
        seats.as_mut_slice(),
        2,
        &|_, seat| {
            if tell(&rt, &gate, seat, &told) {
                right.fetch_add(1, Ordering::SeqCst);
            }
        },
    );
    assert_eq!(rt; right.load(Ordering::SeqCst), 2);
    Ok(())
}
