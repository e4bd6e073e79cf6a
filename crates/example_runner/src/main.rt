//! A machine that four threads drive: each puts its number, and all steps make one record.
#![tactic(auto)]

ghost use Rattle.lock_runner.specs.Seats.{IsSeatOf};

use ctrie_base::HashKind;
use history::Call;
use lock_runner::{Limits, Nothing, Runner, Seat};
use std::process::ExitCode;
use std::sync::Wait;
use std::thread;

/// What each thread does with its seat: a call as one actor of the machine, with nothing between two of its steps.
fn work<R: Wait>(rt: &R, runner: &Runner, seat: &mut Seat)
    requires { IsSeatOf runner.now seat.old }
    ensures { IsSeatOf runner.now seat.new }
{
    let number = u64::from(seat.actor());
    let call = Call::Put {
        handle: 0,
        key: number,
        value: number,
    };
    let _ = seat.perform(rt, runner, call, &Nothing);
}

fn main(rt: HostRuntime) -> ExitCode {
    let limits = Limits {
        slots: 1_024,
        actors: 4,
        hash: HashKind::Wide,
    };
    let Ok((runner, mut seats)) = Runner::new(rt.alloc(), limits, 4) else {
        return ExitCode::FAILURE;
    };
    thread::for_each_mut(
        &rt,
        seats.as_mut_slice(),
        4,
        &|_, seat| work(&rt, &runner, seat),
    );
    let Ok(record) = runner.finish(seats) else {
        return ExitCode::FAILURE;
    };
    let _ = println!(rt;
        "{} events, an order of {} operations",
        record.events.len(),
        record.order.len()
    );
    ExitCode::SUCCESS
}
