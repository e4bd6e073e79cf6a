//! The end of a gate.

use crate::counters::Counter;
use gate::Gate;
use std::alloc::AllocGlobal;
use std::process::Abort;
use std::test::Fail;

/// Without one of its seats a gate gives all back, and with it the object.
#[test]
fn each_seat_has_to_be_there(rt: HostRuntime) -> Result<(), Fail> {
    let Ok((gate, mut seats)) = Gate::new(rt.alloc(), Counter { count: 5 }, 3) else {
        panic!(rt; "there is memory")
    };
    let Some(last) = seats.pop() else {
        panic!(rt; "there are three")
    };
    assert_eq!(rt; last.number(), 3);
    let Err((gate, mut seats)) = gate.finish(seats) else {
        panic!(rt; "the third seat isn't there")
    };
    assert_eq!(rt; seats.len(), 2);
    seats.push(last)?;
    let Ok(counter) = gate.finish(seats) else {
        panic!(rt; "all seats are there")
    };
    assert_eq!(rt; counter.count, 5);
    Ok(())
}

/// A gate without a seat gives the object too.
#[test]
fn a_gate_may_have_no_seat(rt: HostRuntime) -> Result<(), Fail> {
    let Ok((gate, seats)) = Gate::new(rt.alloc(), Counter { count: 7 }, 0) else {
        panic!(rt; "there is memory")
    };
    let Ok(counter) = gate.finish(seats) else {
        panic!(rt; "no seat is wanting")
    };
    assert_eq!(rt; counter.count, 7);
    Ok(())
}
