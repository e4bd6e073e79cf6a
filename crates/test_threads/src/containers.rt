//! Seats that lie in a container between their calls.

ghost use Rattle.std.specs.Prelude.{◌≡◌};
ghost use Rattle.lock_runner.specs.Seats.{AreSeatsOf};

use crate::records::is_right;
use crate::support::{limits, put};
use ctrie_base::Refusal;
use lock_runner::{Name, NamedRunner, NamedSeat, Nothing, Runner, Seat, Stop};
use std::alloc::AllocGlobal;
use std::marker::Brand;
use std::process::Abort;
use std::sync::{Mutex, Wait};
use std::test::Fail;
use std::thread;
use std::thread::Threads;

/// The seats that nobody calls just now.
type Pool<N> = Mutex<Vec<NamedSeat<N>>>;

/// Forty calls, each with a seat that is taken out of the pool and put back; how many were answered.
fn work<N: Name, R: Wait>(rt: &R, runner: &NamedRunner<N>, pool: &Pool<N>, n: u64) -> u64 {
    let mut answered = 0u64;
    for k in 0..40u64 {
        let taken = pool.lock(rt).pop();
        let Some(mut seat) = taken else {
            return answered;
        };
        if seat.perform(rt, runner, put(n, k), &Nothing).is_ok() {
            answered = answered.wrapping_add(1);
        }
        let is_swept = seat.sweep(rt, runner).is_ok();
        if !(is_swept && tells_of_itself(rt, runner, &mut seat)) {
            return answered;
        }
        let _ = pool.lock(rt).push(seat).is_ok();
    }
    answered
}

/// Whether the seat between two calls is idle and one of three, and tells what it heard.
fn tells_of_itself<N: Name, R: Wait>(
    rt: &R,
    runner: &NamedRunner<N>,
    seat: &mut NamedSeat<N>,
) -> bool {
    let calls = seat.answers().len() as u64;
    seat.hear(calls);
    let again = seat.resume(rt, runner, &Nothing).err();
    again == Some(Stop::Denied(Refusal::Idle))
        && seat.heard() == calls
        && seat.sweeps() == calls
        && seat.actor() <= 3
}

/// Three threads call with whatever seat lies in the pool. Then the seats finish the runner.
fn pooled<N: Name + Send + Sync, R: Threads + Wait + Sync + AllocGlobal + Abort>(
    rt: &R,
    runner: Runner,
    seats: Vec<Seat>,
) -> Result<(), Fail>
    requires name { runner.id ≡ N.gate }
    requires seats { AreSeatsOf runner seats.items }
{
    let Ok((runner, seats)) = runner.named::<N>(rt.alloc(), seats) else {
        panic!(rt; "there is memory")
    };
    let pool = Mutex::new(seats);
    let answered = thread::map_indices(rt, rt.alloc(), 3, &|n| work(rt, &runner, &pool, n as u64))?;
    assert!(rt; answered.iter().all(|calls| *calls == 40));
    let Ok((runner, seats)) = runner.unnamed(rt.alloc(), pool.into_inner()) else {
        panic!(rt; "there is memory")
    };
    let Ok(record) = runner.finish(seats) else {
        panic!(rt; "all seats are there")
    };
    assert_eq!(rt; record.events.len(), 240);
    assert!(rt; is_right(rt.alloc(), &record)?);
    Ok(())
}

#[test]
fn seats_lie_in_a_pool(rt: HostRuntime) -> Result<(), Fail> {
    let (runner, seats) = Runner::new(rt.alloc(), limits(512, 3), 3)?;
    pooled::<Brand, HostRuntime>(&rt, runner, seats)
}
