//! Seats on threads of their own.

ghost use Rattle.lock_runner.specs.Seats.{IsSeatOf};

use crate::support::{put, two_seats};
use lock_runner::{Between, Nothing};
use std::process::Abort;
use std::sync::Wait;
use std::sync::atomic::{AtomicBool, Ordering};
use std::test::Fail;
use std::thread;

/// How often a thread looks for another one.
const TURNS: u32 = 1_000_000;

/// Holds the first call until another one is answered.
#[derive(Drop)]
struct Holder {
    entered: AtomicBool,
    answered: AtomicBool,
    gave_up: AtomicBool,
}

impl Holder {
    fn new() -> Holder {
        Holder {
            entered: AtomicBool::new(false),
            answered: AtomicBool::new(false),
            gave_up: AtomicBool::new(false),
        }
    }
}

impl Between for Holder {
    fn between(&self, _seat: u8, _taken: u64) {
        self.entered.store(true, Ordering::SeqCst);
        if !is_soon(&self.answered) {
            self.gave_up.store(true, Ordering::SeqCst);
        }
    }
}

/// Waits for this many turns until it is told.
fn is_soon(told: &AtomicBool) -> bool {
    for _ in 0..TURNS {
        if told.load(Ordering::SeqCst) {
            return true;
        }
        thread::yield_now();
    }
    false
}

/// A call is answered between two steps of another one: the gate is open then.
#[test]
fn between_holds_call_one(rt: HostRuntime) -> Result<(), Fail> {
    let (runner, mut one, mut two) = two_seats(rt.alloc())?;
    let runs = AtomicBool::new(false);
    let holder = Holder::new();
    let (first, second) = thread::join(
        &rt,
        || -> bool
            requires { IsSeatOf runner one }
        { is_soon(&runs) && one.perform(&rt, &runner, put(1, 10), &holder).is_ok() },
        || -> bool
            requires { IsSeatOf runner two }
        {
            runs.store(true, Ordering::SeqCst);
            let done = is_soon(&holder.entered)
                && two.perform(&rt, &runner, put(2, 20), &Nothing).is_ok();
            holder.answered.store(true, Ordering::SeqCst);
            done
        },
    );
    assert!(rt; first && second);
    assert!(rt; !holder.gave_up.load(Ordering::SeqCst));
    Ok(())
}
