//! How a runner ends.

ghost use Rattle.std.specs.Prelude.{◌≡◌, IfOk};
ghost use Rattle.lock_runner.specs.Seats.{IsSeatOf, AreSeatsOf};

use crate::records::is_right;
use crate::support::{perform, put, two_seats};
use lock_runner::{Runner, Seat, Unfinished};
use std::alloc::{AllocError, AllocGlobal};
use std::process::Abort;
use std::test::Fail;

/// The runner and the one seat, with which alone it can't be finished.
fn handed_back(
    rt: &(impl Abort + AllocGlobal),
    runner: Runner,
    seat: Seat,
) -> Result<(Runner, Vec<Seat>), AllocError>
    requires { IsSeatOf runner seat }
    ensures { IfOk result (λ back. (back.0 ≡ runner) × AreSeatsOf runner back.1.items) }
{
    let mut seats = Vec::with_capacity(rt.alloc(), 1)?;
    seats.push(seat)?;
    match runner.finish(seats) {
        Err(Unfinished::Missing(runner, seats)) => Ok((runner, seats)),
        _ => panic!(rt; "a seat is missing"),
    }
}

/// Without one seat nothing is lost: the runner and the seats come back, and can be finished.
#[test]
fn finishes_with_all_seats_alone(rt: HostRuntime) -> Result<(), Fail> {
    let (runner, mut one, two) = two_seats(rt.alloc())?;
    perform(&rt, &runner, &mut one, put(5, 50));
    let (runner, mut seats) = handed_back(&rt, runner, one)?;
    assert_eq!(rt; seats.len(), 1);
    seats.push(two)?;
    let Ok(record) = runner.finish(seats) else {
        panic!(rt; "all seats are there")
    };
    assert_eq!(rt; record.events.len(), 2);
    assert!(rt; is_right(rt.alloc(), &record)?);
    Ok(())
}
