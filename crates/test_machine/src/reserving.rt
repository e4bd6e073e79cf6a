//! Room in the record, made ahead.

use ctrie_base::{HashKind, Refusal};
use history::{Call, Reply};
use std::alloc::{AllocGlobal, Global};
use std::process::Abort;
use std::test::Fail;
use step_machine::{Limits, Machine};

const PUT: Call = Call::Put {
    handle: 0,
    key: 5,
    value: 50,
};

const GET: Call = Call::Get { handle: 0, key: 5 };

/// A machine that has put a pair.
fn filled(alloc: Global) -> Result<Machine, Refusal> {
    let limits = Limits {
        slots: 64,
        actors: 2,
        hash: HashKind::Low,
    };
    let mut machine = Machine::new(alloc, limits)?;
    machine.complete(1, PUT)?;
    Ok(machine)
}

/// What the put did is told, and a get finds the pair: its steps come after those of the put.
fn goes_on(rt: &(impl Abort + AllocGlobal), machine: &mut Machine) -> Result<(), Fail> {
    assert_eq!(rt; machine.steps().len(), 13);
    assert_eq!(rt; machine.events().len(), 2);
    let reply = machine.complete(2, GET)?;
    let found = match &reply {
        Some(Reply::Found(value)) => *value,
        _ => None,
    };
    assert!(rt; found == Some(50));
    assert_eq!(rt; machine.steps().len(), 20);
    assert!(rt; machine.order()?.as_slice() == [0, 1].as_slice());
    Ok(())
}

/// Room for many steps changes nothing.
#[test]
fn reserves(rt: HostRuntime) -> Result<(), Fail> {
    let mut machine = filled(rt.alloc())?;
    machine.reserve(10_000)?;
    machine.reserve(0)?;
    goes_on(&rt, &mut machine)
}

/// Nor is anything changed where there is no memory for the room.
#[test]
fn refuses_room(rt: HostRuntime) -> Result<(), Fail> {
    let mut machine = filled(rt.alloc())?;
    for steps in [u64::MAX, u64::MAX / 64] {
        assert!(rt; machine.reserve(steps) == Err(Refusal::Memory));
    }
    goes_on(&rt, &mut machine)
}
