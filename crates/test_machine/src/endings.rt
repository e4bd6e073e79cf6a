//! Operations that are left alone, in states on the way of runs: each ends.

use ctrie_base::{HashKind, Kind, Refusal};
use history::Call;
use std::alloc::Global;
use step_machine::{GO_LIMIT, Limits, Machine, Step};

/// What is done in a run.
#[derive(Clone, Copy)]
enum Act {
    /// The actor begins the call, and goes on until it has ended.
    Do(u8, Call),
    /// The actor begins the call.
    Begin(u8, Call),
    /// The actor goes on until its next step is of this kind.
    Until(u8, Kind),
    /// The actor goes on until its operation has ended.
    Finish(u8),
    /// This many steps of the sweep.
    Sweep(u32),
}

fn put(key: u64, value: u64) -> Call {
    Call::Put {
        handle: 0,
        key,
        value,
    }
}

fn get(handle: u16, key: u64) -> Call {
    Call::Get { handle, key }
}

fn remove(key: u64) -> Call {
    Call::Remove { handle: 0, key }
}

const FREEZE: Call = Call::Freeze { handle: 0 };

/// A remove cleans a long path.
fn long_path() -> [Act; 4] {
    [
        Act::Do(1, put(1, 10)),
        Act::Do(1, put(4_294_967_297, 20)),
        Act::Do(1, remove(4_294_967_297)),
        Act::Do(1, get(0, 1)),
    ]
}

/// A put whose node is pending is overtaken by a freeze.
fn overtaken() -> [Act; 8] {
    [
        Act::Do(1, put(1, 10)),
        Act::Do(1, put(33, 330)),
        Act::Begin(1, put(65, 650)),
        Act::Until(1, Kind::SwapPrev),
        Act::Do(2, FREEZE),
        Act::Finish(1),
        Act::Do(1, get(1, 65)),
        Act::Do(1, get(0, 65)),
    ]
}

/// The same, where a get on the copy fails that node.
fn failed() -> [Act; 9] {
    [
        Act::Do(1, put(1, 10)),
        Act::Do(1, put(33, 330)),
        Act::Begin(1, put(65, 650)),
        Act::Until(1, Kind::SwapPrev),
        Act::Do(2, FREEZE),
        Act::Do(2, get(1, 65)),
        Act::Finish(1),
        Act::Do(1, get(0, 65)),
        Act::Do(1, get(1, 65)),
    ]
}

/// With nine slots: a remove finds no slot for its cleaning.
fn starved() -> [Act; 8] {
    [
        Act::Do(1, put(1, 10)),
        Act::Do(1, put(33, 330)),
        Act::Do(1, remove(33)),
        Act::Do(1, get(0, 1)),
        Act::Sweep(5),
        Act::Do(1, FREEZE),
        Act::Do(1, get(1, 1)),
        Act::Do(1, get(1, 33)),
    ]
}

fn sizes(slots: u32, actors: u8) -> Limits {
    Limits {
        slots,
        actors,
        hash: HashKind::Low,
    }
}

/// A call of each kind on one key, and those that swap the root.
const CALLS: [Call; 10] = [
    Call::Get { handle: 0, key: 1 },
    Call::Put {
        handle: 0,
        key: 65,
        value: 1,
    },
    Call::PutIfAbsent {
        handle: 0,
        key: 97,
        value: 1,
    },
    Call::Replace {
        handle: 0,
        key: 5,
        value: 1,
    },
    Call::ReplaceIf {
        handle: 0,
        key: 1,
        old: 10,
        new: 1,
    },
    Call::Remove { handle: 0, key: 33 },
    Call::RemoveIf {
        handle: 0,
        key: 1,
        value: 1,
    },
    Call::Snapshot { handle: 0 },
    Call::Freeze { handle: 0 },
    Call::Clear { handle: 0 },
];

/// Carries out one act. What is denied is left out.
fn carry_out(machine: &mut Machine, act: Act) -> Result<(), Refusal> {
    match act {
        Act::Do(actor, call) => {
            machine.complete(actor, call)?;
        }
        Act::Begin(actor, call) => {
            machine.apply(Step::Begin { actor, call })?;
        }
        Act::Until(actor, kind) => {
            for _ in 0..GO_LIMIT {
                if machine.next_kind(actor) == Some(kind) {
                    break;
                }
                machine.apply(Step::Go { actor })?;
            }
        }
        Act::Finish(actor) => {
            machine.resume(actor)?;
        }
        Act::Sweep(times) => {
            for _ in 0..times {
                machine.apply(Step::Sweep)?;
            }
        }
    }
    Ok(())
}

/// A machine that has carried out these acts.
fn machine_of(alloc: Global, limits: Limits, acts: &[Act]) -> Result<Machine, Refusal> {
    let mut machine = Machine::new(alloc, limits)?;
    for act in acts {
        carry_out(&mut machine, *act)?;
    }
    Ok(machine)
}

/// A machine that has taken these steps.
fn machine_after(alloc: Global, limits: Limits, steps: &[Step]) -> Result<Machine, Refusal> {
    let mut machine = Machine::new(alloc, limits)?;
    for step in steps {
        machine.apply(*step)?;
    }
    Ok(machine)
}

/// Whether the actor's operation ends after these steps; where it runs none, whether a new one of each call does.
fn actor_ends(alloc: Global, limits: Limits, steps: &[Step], actor: u8) -> Result<bool, Refusal> {
    let mut machine = machine_after(alloc, limits, steps)?;
    if machine.is_running(actor) {
        return Ok(machine.resume(actor)?.is_some());
    }
    for call in &CALLS {
        let mut machine = machine_after(alloc, limits, steps)?;
        if machine.complete(actor, *call)?.is_none() {
            return Ok(false);
        }
    }
    Ok(true)
}

/// Whether that is so of each actor.
fn each_ends(alloc: Global, limits: Limits, steps: &[Step]) -> Result<bool, Refusal> {
    for actor in 1..=limits.actors {
        if !actor_ends(alloc, limits, steps, actor)? {
            return Ok(false);
        }
    }
    Ok(true)
}

/// The runs are cut after each step.
#[test]
fn end_on_the_way(rt: HostRuntime) -> Result<(), Refusal> {
    let (long_path, overtaken, failed, starved) = (long_path(), overtaken(), failed(), starved());
    let runs = [
        (sizes(64, 1), long_path.as_slice()),
        (sizes(64, 2), overtaken.as_slice()),
        (sizes(64, 2), failed.as_slice()),
        (sizes(9, 1), starved.as_slice()),
    ];
    for (limits, acts) in &runs {
        let (steps, _) = machine_of(rt.alloc(), *limits, acts)?.into_parts();
        for taken in 0..=steps.len() {
            assert!(rt;
                each_ends(rt.alloc(), *limits, &steps[..taken])?,
                "{taken} of {}",
                steps.len()
            );
        }
    }
    Ok(())
}

/// A put halts after each number of its steps, and another actor gets and puts.
#[test]
fn end_behind_a_halted_put(rt: HostRuntime) -> Result<(), Refusal> {
    for halted in 0..13 {
        let mut machine = Machine::new(rt.alloc(), sizes(64, 2))?;
        carry_out(&mut machine, Act::Begin(1, put(5, 50)))?;
        for _ in 0..halted {
            if machine.is_running(1) {
                machine.apply(Step::Go { actor: 1 })?;
            }
        }
        carry_out(&mut machine, Act::Do(2, get(0, 5)))?;
        carry_out(&mut machine, Act::Do(2, put(5, 51)))?;
        let limits = machine.limits();
        let (steps, _) = machine.into_parts();
        assert!(rt;
            each_ends(rt.alloc(), limits, &steps)?,
            "after {halted} steps"
        );
    }
    Ok(())
}
