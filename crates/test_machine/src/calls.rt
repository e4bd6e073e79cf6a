//! The public calls on small machines, with the answers that are known of them.

use ctrie_base::{HashKind, Kind, Refusal};
use history::Call;
use std::alloc::{AllocError, AllocGlobal, Global};
use std::fmt::Debug;
use std::process::Abort;
use std::test::Fail;
use step_machine::{Limits, Machine, Outcome, Step, run};

const LIMITS: Limits = Limits {
    slots: 64,
    actors: 2,
    hash: HashKind::Low,
};

const GET: Call = Call::Get { handle: 0, key: 5 };

const PUT: Call = Call::Put {
    handle: 0,
    key: 5,
    value: 50,
};

const PUT_AGAIN: Call = Call::Put {
    handle: 0,
    key: 5,
    value: 51,
};

const REMOVE: Call = Call::Remove { handle: 0, key: 5 };

const FREEZE: Call = Call::Freeze { handle: 0 };

/// Calls of one actor on one key, each with its reply as `Debug` writes it.
const CALLS: [(Call, &str); 6] = [
    (GET, "Some(Found(None))"),
    (PUT, "Some(Found(None))"),
    (GET, "Some(Found(Some(50)))"),
    (PUT_AGAIN, "Some(Found(Some(50)))"),
    (REMOVE, "Some(Found(Some(51)))"),
    (REMOVE, "Some(Found(None))"),
];

/// The value is written so by `Debug`.
fn is_told(rt: &(impl Abort + AllocGlobal), value: &impl Debug, wanted: &str) -> Result<(), Fail> {
    let told = format!(in rt.alloc(); "{value:?}")?;
    assert_eq!(rt; told.as_str(), wanted);
    Ok(())
}

/// A machine of one actor that has completed the calls, each with its reply.
fn completed(rt: &(impl Abort + AllocGlobal)) -> Result<Machine, Fail> {
    let limits = Limits {
        actors: 1,
        ..LIMITS
    };
    let mut machine = Machine::new(rt.alloc(), limits)?;
    for (call, wanted) in &CALLS {
        let reply = machine.complete(1, *call)?;
        is_told(rt, &reply, wanted)?;
    }
    Ok(machine)
}

/// This many slots are in use and free, and this many nodes are in limbo.
fn has_slots(rt: &impl Abort, machine: &Machine, used: u32, free: u32, limbo: u32) {
    assert_eq!(rt; machine.used(), used);
    assert_eq!(rt; machine.free_slots(), free);
    assert_eq!(rt; machine.limbo_len(), limbo);
}

/// The sweep frees what calls left in limbo.
#[test]
fn reclaims(rt: HostRuntime) -> Result<(), Fail> {
    let mut machine = completed(&rt)?;
    let taken = machine.steps_taken();
    machine.reclaim()?;
    // Five slots are freed, and four times the actor is scanned and the epoch grows.
    assert!(rt; machine.steps_taken().checked_sub(taken) == Some(13));
    assert_eq!(rt; machine.epoch(), 4);
    has_slots(&rt, &machine, 2, 62, 0);
    assert!(rt; machine.content(0)?.is_empty());
    assert_eq!(rt; machine.events().len(), 12);
    Ok(())
}

/// The kinds of the steps after the begin of a put into the empty map.
const PUT_KINDS: [Kind; 12] = [
    Kind::ReadRoot,
    Kind::ReadMain,
    Kind::ReadPrev,
    Kind::Look,
    Kind::Make,
    Kind::Make,
    Kind::SwapMain,
    Kind::ReadPrev,
    Kind::ReadRoot,
    Kind::SwapPrev,
    Kind::ReadPrev,
    Kind::End,
];

/// The same of a get that finds its key in the root's branch.
const GET_KINDS: [Kind; 6] = [
    Kind::ReadRoot,
    Kind::ReadMain,
    Kind::ReadPrev,
    Kind::Look,
    Kind::Look,
    Kind::End,
];

/// The same of a freeze of the map.
const FREEZE_KINDS: [Kind; 9] = [
    Kind::ReadRoot,
    Kind::ReadMain,
    Kind::ReadPrev,
    Kind::Make,
    Kind::SwapRoot,
    Kind::ReadMain,
    Kind::ReadPrev,
    Kind::SwapRoot,
    Kind::End,
];

/// Whether the actor's next step is of the kind, and goes by that kind too.
fn goes(machine: &mut Machine, actor: u8, kind: Kind) -> Result<bool, Refusal> {
    let next = machine.next_kind(actor);
    let went = match machine.apply(Step::Go { actor })? {
        Outcome::Went(kind) => Some(kind),
        Outcome::Ended(_, _) => Some(Kind::End),
        _ => None,
    };
    Ok(next == Some(kind) && went == next)
}

/// Actor 2 runs, and alone.
fn one_runs(rt: &impl Abort, machine: &Machine) {
    assert!(rt; machine.is_running(2) && !machine.is_running(1) && machine.is_busy());
    assert!(rt; machine.runs_on(0) && !machine.runs_on(1));
}

fn none_runs(rt: &impl Abort, machine: &Machine) {
    assert!(rt; !machine.is_busy() && !machine.runs_on(0));
    assert!(rt; machine.next_kind(2) == None);
}

/// Actor 2's call takes steps of these kinds and ends.
fn goes_by(
    rt: &impl Abort,
    machine: &mut Machine,
    call: Call,
    kinds: &[Kind],
) -> Result<(), Refusal> {
    machine.apply(Step::Begin { actor: 2, call })?;
    one_runs(rt, machine);
    for kind in kinds {
        assert!(rt; goes(machine, 2, *kind)?, "{kind}");
    }
    none_runs(rt, machine);
    Ok(())
}

/// A machine on which actor 2 has put a value, got it, and frozen the map.
fn frozen(rt: &(impl Abort + AllocGlobal)) -> Result<Machine, Refusal> {
    let mut machine = Machine::new(rt.alloc(), LIMITS)?;
    goes_by(rt, &mut machine, PUT, PUT_KINDS.as_slice())?;
    goes_by(rt, &mut machine, GET, GET_KINDS.as_slice())?;
    goes_by(rt, &mut machine, FREEZE, FREEZE_KINDS.as_slice())?;
    Ok(machine)
}

/// Operations take steps of the kinds that are known of them.
#[test]
fn takes_steps(rt: HostRuntime) -> Result<(), Fail> {
    let machine = frozen(&rt)?;
    // A step for each kind, and three begins.
    assert_eq!(rt; machine.steps_taken(), 30);
    assert_eq!(rt; machine.steps().len(), 30);
    Ok(())
}

/// The actor takes this many steps.
fn push_steps(steps: &mut Vec<Step>, actor: u8, times: u32) -> Result<(), AllocError> {
    for _ in 0..times {
        steps.push(Step::Go { actor })?;
    }
    Ok(())
}

/// A put between the steps of a freeze, which is then begun anew, and a get on the copy; with more steps
/// of each than there are.
fn overlapping(alloc: Global) -> Result<Vec<Step>, AllocError> {
    let mut steps = Vec::new(alloc);
    steps.push(Step::Begin {
        actor: 1,
        call: FREEZE,
    })?;
    push_steps(&mut steps, 1, 4)?;
    steps.push(Step::Begin {
        actor: 2,
        call: PUT,
    })?;
    push_steps(&mut steps, 2, 40)?;
    push_steps(&mut steps, 1, 40)?;
    steps.push(Step::Begin {
        actor: 1,
        call: Call::Get { handle: 1, key: 5 },
    })?;
    push_steps(&mut steps, 1, 40)?;
    Ok(steps)
}

/// What is kept of a run, and of the same run without the steps that were denied.
#[test]
fn records_runs(rt: HostRuntime) -> Result<(), Fail> {
    let steps = overlapping(rt.alloc())?;
    let record = run(rt.alloc(), LIMITS, steps.as_slice())?;
    assert!(rt; record.limits == LIMITS);
    assert!(rt; record.steps.len() < steps.len());
    assert_eq!(rt; record.events.len(), 6);
    assert!(rt; record.order.as_slice() == [1, 0, 2].as_slice());
    assert_eq!(rt; (record.used, record.free, record.limbo), (6, 58, 1));
    let again = run(rt.alloc(), LIMITS, record.steps.as_slice())?;
    assert!(rt; again.steps.as_slice() == record.steps.as_slice());
    assert!(rt; again.order.as_slice() == record.order.as_slice());
    Ok(())
}
