//! One thread with two seats.

ghost use Rattle.lock_runner.specs.Seats.{IsSeatOf};

use crate::support::{Counting, get, is_found, perform, put, two_seats};
use lock_runner::{Answer, Nothing, Runner, Seat, Stop};
use std::process::Abort;
use std::sync::Wait;
use std::test::Fail;

/// The seat's get finds what was put.
fn finds(rt: &(impl Abort + Wait), runner: &Runner, seat: &mut Seat)
    requires { IsSeatOf runner.now seat.old }
    ensures { IsSeatOf runner.now seat.new }
{
    let Ok(reply) = seat.perform(rt, runner, get(5), &Nothing) else {
        panic!(rt; "the seat was stopped")
    };
    assert!(rt; is_found(reply, Some(50)));
}

/// The seat's get finds fewer events than it has heard of.
fn is_ahead(rt: &(impl Abort + Wait), runner: &Runner, seat: &mut Seat)
    requires { IsSeatOf runner.now seat.old }
{
    let stop = seat.perform(rt, runner, get(5), &Nothing).err();
    assert!(rt; stop == Some(Stop::Ahead));
}

/// The answers began and ended at these places.
fn stand_at(rt: &impl Abort, answers: &[Answer], places: &[(u64, u64)]) {
    assert_eq!(rt; answers.len(), places.len());
    for (answer, place) in answers.iter().zip(places) {
        assert!(rt; (answer.began, answer.ended) == *place);
    }
}

/// A seat sees what another one was answered; one that has heard of more events than there are is ahead.
#[test]
fn other_seat_reads_back(rt: HostRuntime) -> Result<(), Fail> {
    let (runner, mut one, mut two) = two_seats(rt.alloc())?;
    perform(&rt, &runner, &mut one, put(5, 50));
    finds(&rt, &runner, &mut two);
    one.hear(4);
    finds(&rt, &runner, &mut one);
    one.hear(7);
    is_ahead(&rt, &runner, &mut one);
    assert_eq!(rt; one.heard(), 7);
    stand_at(&rt, one.answers(), &[(0, 1), (4, 5)]);
    stand_at(&rt, two.answers(), &[(2, 3)]);
    Ok(())
}

/// After each step of a call but its last it is told how many were taken.
#[test]
fn between_counts_the_steps(rt: HostRuntime) -> Result<(), Fail> {
    let (runner, one, mut two) = two_seats(rt.alloc())?;
    let counting = Counting::new(2);
    assert!(rt; two.perform(&rt, &runner, put(5, 50), &counting).is_ok());
    let mut seats = Vec::with_capacity(rt.alloc(), 2)?;
    seats.push(one)?;
    seats.push(two)?;
    let Ok(record) = runner.finish(seats) else {
        panic!(rt; "all seats are there")
    };
    assert!(rt; counting.is_told());
    assert_eq!(rt;
        counting.calls().saturating_add(1),
        record.steps.len() as u64
    );
    Ok(())
}
