//! Calls that don't wait, on threads.

ghost use Rattle.gate.specs.Seats.{IsSeatOf};

use crate::counters::Counter;
use gate::{Gate, Seat};
use std::alloc::AllocGlobal;
use std::hint::spin_loop;
use std::process::Abort;
use std::sync::atomic::{AtomicU64, Ordering};
use std::test::Fail;
use std::thread;

/// How many calls each thread makes.
const CALLS: u64 = 2_000;

/// Draws a ticket, by as many tries as it takes.
fn draw_one(gate: &Gate<Counter, u64, u64>, seat: &mut Seat<Counter, u64, u64>) -> u64
    requires { IsSeatOf gate.now seat.old }
    ensures { IsSeatOf gate.now seat.new }
{
    for _ in 0..u64::MAX {
        if let Some(ticket) = gate.try_call(seat, 1) {
            return ticket;
        }
        spin_loop();
    }
    0
}

/// Draws this many; their sum.
fn draw(gate: &Gate<Counter, u64, u64>, seat: &mut Seat<Counter, u64, u64>) -> u64
    requires { IsSeatOf gate.now seat.old }
    ensures { IsSeatOf gate.now seat.new }
{
    let mut sum = 0u64;
    for _ in 0..CALLS {
        sum = sum.wrapping_add(draw_one(gate, seat));
    }
    sum
}

/// Four threads draw 8,000 tickets, each another one: the numbers below 8,000, whose sum is 31,996,000.
#[test]
fn each_try_that_came_in_draws_another_ticket(rt: HostRuntime) -> Result<(), Fail> {
    let Ok((gate, mut seats)) = Gate::new(rt.alloc(), Counter { count: 0 }, 4) else {
        panic!(rt; "there is memory")
    };
    let sum = AtomicU64::new(0);
    thread::for_each_mut(
        &rt,
        seats.as_mut_slice(),
        4,
        &|_, seat| {
            sum.fetch_add(draw(&gate, seat), Ordering::SeqCst);
        },
    );
    assert_eq!(rt; sum.load(Ordering::SeqCst), 31_996_000);
    let Ok(counter) = gate.finish(seats) else {
        panic!(rt; "all seats are there")
    };
    assert_eq!(rt; counter.count, 8_000);
    Ok(())
}

/// Nobody keeps a seat out that is alone.
#[test]
fn a_seat_alone_comes_in(rt: HostRuntime) -> Result<(), Fail> {
    let Ok((gate, mut seats)) = Gate::new(rt.alloc(), Counter { count: 7 }, 1) else {
        panic!(rt; "there is memory")
    };
    let Some(mut seat) = seats.pop() else {
        panic!(rt; "there is one")
    };
    assert_eq!(rt; gate.try_call(&mut seat, 3), Some(7));
    assert_eq!(rt; gate.try_hear(&mut seat, 1), Some(true));
    assert_eq!(rt; gate.try_hear(&mut seat, 2), Some(false));
    assert_eq!(rt; gate.try_call(&mut seat, 1), Some(10));
    assert_eq!(rt; seat.last(), 2);
    Ok(())
}
