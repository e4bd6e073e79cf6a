//! A growth that is refused. Alone these tests meet none; `tests/growths` runs them with each allocation
//! failing in turn.

ghost use Rattle.std.specs.Prelude.{IfOk};
ghost use Rattle.lock_runner.specs.Seats.{IsSeatOf};

use crate::records::is_right;
use crate::support::{Counting, get, put, two_seats};
use ctrie_base::Refusal;
use history::Event;
use lock_runner::{Nothing, Record, Runner, Seat, Stop, Unfinished};
use std::alloc::{AllocError, AllocGlobal};
use std::process::Abort;
use std::sync::Wait;

/// What came of a seat's calls.
#[derive(Clone, Copy, PartialEq, Eq)]
enum Came {
    /// All were answered.
    Answered,
    /// A growth was refused.
    Refused,
    /// Something else stopped one.
    Wrong,
}

/// Puts and gets, until one stops.
fn write<R: Wait>(rt: &R, runner: &Runner, seat: &mut Seat, calls: u64) -> Came
    requires { IsSeatOf runner.now seat.old }
    ensures { IsSeatOf runner.now seat.new }
{
    for k in 0..calls {
        let call = if k % 2 == 0 {
            put(k % 8, k)
        } else {
            get(k % 8)
        };
        match seat.perform(rt, runner, call, &Nothing).err() {
            None => {}
            Some(Stop::Memory) => return Came::Refused,
            Some(_) => return Came::Wrong,
        }
    }
    Came::Answered
}

/// The record, though the order finds no memory the first time.
fn finished(
    rt: &(impl AllocGlobal + Print),
    runner: Runner,
    one: Seat,
    two: Seat,
) -> Result<Option<Record>, AllocError>
    requires one { IsSeatOf runner one }
    requires two { IsSeatOf runner two }
{
    let mut seats = Vec::with_capacity(rt.alloc(), 2)?;
    seats.push(one)?;
    seats.push(two)?;
    match runner.finish(seats) {
        Ok(record) => Ok(Some(record)),
        Err(Unfinished::Missing(_, _)) => Ok(None),
        Err(Unfinished::Memory(machine)) => {
            let _ = println!(rt; "the order found no memory");
            Ok(machine.into_record().ok())
        }
    }
}

/// How many operations haven't ended.
fn unended(events: &[Event]) -> usize {
    let begun = events
        .iter()
        .filter(|event| matches!(event, Event::Begin { .. }))
        .count();
    begun.saturating_sub(events.len().saturating_sub(begun))
}

/// A refused growth stops one call; the other seat's calls are answered all the same.
#[test]
fn a_refused_growth_stops_one_seat(rt: HostRuntime) {
    let Ok((runner, mut one, mut two)) = two_seats(rt.alloc()) else {
        return;
    };
    let first = write(&rt, &runner, &mut one, 60);
    let second = write(&rt, &runner, &mut two, 100);
    assert!(rt; first != Came::Wrong && second != Came::Wrong);
    assert!(rt; first == Came::Answered || second == Came::Answered);
    if let Ok(Some(record)) = finished(&rt, runner, one, two) {
        judge(&rt, &record, 1);
        if unended(record.events.as_slice()) == 1 {
            let _ = println!(rt; "an operation is left in its middle");
        }
    }
}

/// At most this many operations haven't ended, and the record is right.
fn judge(rt: &(impl Abort + AllocGlobal), record: &Record, most: usize) {
    assert!(rt; unended(record.events.as_slice()) <= most);
    if let Ok(right) = is_right(rt.alloc(), record) {
        assert!(rt; right);
    }
}

/// A call that a refused growth stopped goes on, or had not begun.
#[test]
fn a_refused_growth_is_made_good(rt: HostRuntime) {
    let Ok((runner, mut one, mut two)) = two_seats(rt.alloc()) else {
        return;
    };
    if write(&rt, &runner, &mut one, 60) == Came::Refused {
        go_on(&rt, &runner, &mut one);
        assert!(rt; write(&rt, &runner, &mut two, 100) == Came::Answered);
    }
    if let Ok(Some(record)) = finished(&rt, runner, one, two) {
        judge(&rt, &record, 0);
    }
}

/// The seat's call ends, or it runs none. What it is told between its further steps goes up by one from 1.
fn go_on(rt: &(impl Abort + Wait + Print), runner: &Runner, seat: &mut Seat)
    requires { IsSeatOf runner.now seat.old }
    ensures { IsSeatOf runner.now seat.new }
{
    let counting = Counting::new(1);
    let again = seat.resume(rt, runner, &counting).err();
    assert!(rt; again == None || again == Some(Stop::Denied(Refusal::Idle)));
    assert!(rt; counting.is_told());
    if counting.calls() > 0 {
        let _ = println!(rt; "an operation went on");
    }
}
