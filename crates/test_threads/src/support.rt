//! What the tests share.

ghost use Rattle.std.specs.Prelude.{IfOk};
ghost use Rattle.lock_runner.specs.Seats.{IsSeatOf};

use ctrie_base::{HashKind, Refusal};
use history::{Call, Reply};
use lock_runner::{Between, Nothing, Runner, Seat};
use machine_model::Limits;
use std::alloc::Global;
use std::cell::Cell;
use std::process::Abort;
use std::sync::Wait;

pub(crate) fn limits(slots: u32, actors: u8) -> Limits {
    Limits {
        slots,
        actors,
        hash: HashKind::Low,
    }
}

pub(crate) fn get(key: u64) -> Call {
    Call::Get { handle: 0, key }
}

pub(crate) fn put(key: u64, value: u64) -> Call {
    Call::Put {
        handle: 0,
        key,
        value,
    }
}

/// Whether the reply is the value that the key had.
pub(crate) fn is_found(reply: &Reply, value: Option<u64>) -> bool {
    match reply {
        Reply::Found(found) => *found == value,
        _ => false,
    }
}

/// The seat's call is answered.
pub(crate) fn perform(rt: &(impl Abort + Wait), runner: &Runner, seat: &mut Seat, call: Call)
    requires { IsSeatOf runner.now seat.old }
    ensures { IsSeatOf runner.now seat.new }
{
    assert!(rt; seat.perform(rt, runner, call, &Nothing).is_ok());
}

/// A runner of two actors, and their seats.
pub(crate) fn two_seats(alloc: Global) -> Result<(Runner, Seat, Seat), Refusal>
    ensures { IfOk result (λ made. IsSeatOf made.0 made.1 × IsSeatOf made.0 made.2) }
{
    let (runner, mut seats) = Runner::new(alloc, limits(64, 2), 2)?;
    let Some(two) = seats.pop() else {
        return Err(Refusal::BadLimits);
    };
    let Some(one) = seats.pop() else {
        return Err(Refusal::BadLimits);
    };
    Ok((runner, one, two))
}

/// Counts how often it is called, and notes whether it is told so, by this seat.
#[derive(Drop)]
pub(crate) struct Counting {
    seat: u8,
    calls: Cell<u64>,
    is_told: Cell<bool>,
}

impl Counting {
    pub(crate) fn new(seat: u8) -> Counting {
        Counting {
            seat,
            calls: Cell::new(0),
            is_told: Cell::new(true),
        }
    }

    pub(crate) fn calls(&self) -> u64 {
        self.calls.get()
    }

    pub(crate) fn is_told(&self) -> bool {
        self.is_told.get()
    }
}

impl Between for Counting {
    fn between(&self, seat: u8, taken: u64) {
        let calls = self.calls.get().saturating_add(1);
        self.calls.set(calls);
        if (seat, taken) != (self.seat, calls) {
            self.is_told.set(false);
        }
    }
}
