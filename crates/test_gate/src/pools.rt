//! Seats that lie in a container between their calls.

ghost use Rattle.std.specs.Prelude.{◌≡◌};
ghost use Rattle.gate.specs.Seats.{AreSeatsOf};

use crate::counters::Counter;
use gate::{Gate, Name, NamedGate, NamedSeat, Seat};
use std::alloc::AllocGlobal;
use std::marker::Brand;
use std::process::Abort;
use std::sync::{Mutex, Wait};
use std::test::Fail;
use std::thread;
use std::thread::Threads;

/// The seats that nobody calls just now.
type Pool<N> = Mutex<Vec<NamedSeat<N, Counter, u64, u64>>>;

/// Forty calls, each with a seat that is taken out of the pool and put back; how many were made.
fn work<N: Name, R: Wait>(rt: &R, gate: &NamedGate<N, Counter, u64, u64>, pool: &Pool<N>) -> u64 {
    for made in 0..40u64 {
        let taken = pool.lock(rt).pop();
        let Some(mut seat) = taken else {
            return made;
        };
        gate.call(rt, &mut seat, 1);
        let last = seat.last();
        if !gate.hear(rt, &mut seat, last) || seat.number() > 3 {
            return made;
        }
        let _ = pool.lock(rt).push(seat).is_ok();
    }
    40
}

/// Three threads call with whatever seat lies in the pool. Then the seats finish the gate.
fn pooled<N: Name + Send + Sync, R: Threads + Wait + Sync + AllocGlobal + Abort>(
    rt: &R,
    gate: Gate<Counter, u64, u64>,
    seats: Vec<Seat<Counter, u64, u64>>,
) -> Result<(), Fail>
    requires name { gate.id ≡ N.gate }
    requires seats { AreSeatsOf gate seats.items }
{
    let Ok((gate, seats)) = gate.named::<N>(rt.alloc(), seats) else {
        panic!(rt; "there is memory")
    };
    let pool = Mutex::new(seats);
    let made = thread::map_indices(rt, rt.alloc(), 3, &|_| work(rt, &gate, &pool))?;
    assert!(rt; made.iter().all(|calls| *calls == 40));
    let Ok(counter) = gate.finish(pool.into_inner()) else {
        panic!(rt; "all seats are there")
    };
    assert_eq!(rt; counter.count, 120);
    Ok(())
}

#[test]
fn seats_lie_in_a_pool(rt: HostRuntime) -> Result<(), Fail> {
    let Ok((gate, seats)) = Gate::new(rt.alloc(), Counter { count: 0 }, 3) else {
        panic!(rt; "there is memory")
    };
    pooled::<Brand, HostRuntime>(&rt, gate, seats)
}
