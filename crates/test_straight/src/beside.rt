//! Two machines take the same calls: one carries out at once what goes at once, the other takes all their steps.

use crate::draws::Draws;
use crate::kinds::Kinds;
use ctrie_base::{HashKind, Refusal};
use history::{Call, Reply};
use machine_core::{Core, Step, Stepped};
use machine_model::Bounds;
use std::test::Fail;

/// The actor who calls.
const ACTOR: u8 = 1;

/// No call takes this many steps.
const MOST_STEPS: u64 = 4096;

/// No sweep takes this many.
const MOST_SWEEPS: u64 = 1 << 20;

/// How many calls are made in each test.
const CALLS: u64 = 250_000;

/// How many calls went at once, how many of these renewed a branch, and of which kinds they were.
#[derive(Clone, Copy)]
struct Counts {
    at_once: u64,
    renewing: u64,
    kinds: Kinds,
}

/// A call from its begin to its end, step by step; and whether it swapped a node in that is no change of its key.
fn step_through(core: &mut Core, call: Call) -> Result<(Reply, bool), Refusal> {
    let Ok(_) = core.begin(ACTOR, call) else {
        return Err(Refusal::ActorBusy);
    };
    let mut repairs = false;
    for _ in 0..MOST_STEPS {
        if !core.goes_on(ACTOR) {
            break;
        }
        let Ok(stepped) = core.go(ACTOR) else {
            return Err(Refusal::Memory);
        };
        repairs |= is_repair(stepped);
    }
    if core.goes_on(ACTOR) {
        return Err(Refusal::Spent);
    }
    let Ok(ended) = core.end(ACTOR) else {
        return Err(Refusal::Idle);
    };
    Ok((ended.reply, repairs))
}

/// The step swapped a node in that is no change of a key.
fn is_repair(stepped: Stepped) -> bool {
    match stepped.progress.published {
        Some(publication) => publication.changer.is_none(),
        None => false,
    }
}

/// The same at once; none where that doesn't go.
fn at_once(core: &mut Core, call: Call) -> Result<Option<Reply>, Refusal> {
    if core.is_busy() {
        return Err(Refusal::Busy);
    }
    match core.denial(Step::Begin { actor: ACTOR, call }) {
        Some(refusal) => Err(refusal),
        None => Ok(core.at_once(call)),
    }
}

/// Steps of the sweep until limbo is empty.
fn sweep(core: &mut Core) -> Result<(), Refusal> {
    for _ in 0..MOST_SWEEPS {
        if core.limbo_len() == 0 {
            break;
        }
        core.sweep()?;
    }
    Ok(())
}

/// The two don't differ in what they tell of their slots, steps and handles, nor in a key's value.
fn are_alike(one: &Core, other: &Core, handle: u16, key: u64) -> bool {
    one.used() == other.used()
        && one.free_slots() == other.free_slots()
        && one.limbo_len() == other.limbo_len()
        && one.epoch() == other.epoch()
        && one.generations() == other.generations()
        && one.steps_taken() == other.steps_taken()
        && one.handles_taken() == other.handles_taken()
        && is_same_value(one, other, handle, key)
}

fn is_same_value(one: &Core, other: &Core, handle: u16, key: u64) -> bool {
    match (one.value_at(handle, key), other.value_at(handle, key)) {
        (Ok(value), Ok(same)) => value == same,
        (Err(_), Err(_)) => true,
        _ => false,
    }
}

/// Nor in what the handle's map holds.
fn hold_the_same(one: &Core, other: &Core, handle: u16) -> Result<bool, Refusal> {
    match (one.content(handle), other.content(handle)) {
        (Ok(pairs), Ok(same)) => Ok(pairs.is_same(&same)),
        (Err(Refusal::NoHandle), Err(Refusal::NoHandle)) => Ok(true),
        (Err(refusal), _) | (_, Err(refusal)) => Err(refusal),
    }
}

/// One call of both, and a sweep after it now and then; counts it where it went at once. It returns whether the two are alike
/// after it.
fn call_both(
    one: &mut Core,
    other: &mut Core,
    draws: &mut Draws,
    counts: &mut Counts,
) -> Result<bool, Refusal> {
    let call = draws.call(one.handles_taken() < 4);
    let step = Step::Begin { actor: ACTOR, call };
    if one.denial(step) != other.denial(step) {
        return Ok(false);
    }
    if one.denial(step).is_some() {
        return Ok(true);
    }
    let (reply, repairs) = step_through(other, call)?;
    let same = match at_once(one, call)? {
        Some(reply) => {
            counts.kinds.add(call);
            counts.at_once = counts.at_once.saturating_add(1);
            counts.renewing = counts.renewing.saturating_add(u64::from(repairs));
            reply
        }
        None => step_through(one, call)?.0,
    };
    if draws.below(2) == 0 {
        one.reclaim();
        sweep(other)?;
    }
    Ok(reply.is_same(&same) && are_alike(one, other, call.handle(), draws.key()))
}

/// Calls of both, counted; none where the two differ.
fn call_often(
    one: &mut Core,
    other: &mut Core,
    draws: &mut Draws,
) -> Result<Option<Counts>, Refusal> {
    let mut counts = Counts {
        at_once: 0,
        renewing: 0,
        kinds: Kinds::new(),
    };
    for n in 0..CALLS {
        if !call_both(one, other, draws, &mut counts)? {
            return Ok(None);
        }
        if n % 500 == 0 && !hold_the_same(one, other, draws.handle())? {
            return Ok(None);
        }
    }
    Ok(Some(counts))
}

fn bounds(slots: u32, hash: HashKind) -> Bounds {
    Bounds {
        slots,
        actors: 2,
        hash,
        steps: 1 << 40,
    }
}

/// Where the keys are their own hashes.
#[test]
fn wide(rt: HostRuntime) -> Result<(), Fail> {
    let mut one = Core::new(rt.alloc(), bounds(4096, HashKind::Wide))?;
    let mut other = Core::new(rt.alloc(), bounds(4096, HashKind::Wide))?;
    let counts = call_often(&mut one, &mut other, &mut Draws::new(1))?;
    assert!(rt; counts.is_some_and(|c| c.at_once > CALLS / 2 && c.renewing > CALLS / 100));
    assert!(rt; counts.is_some_and(|c| c.kinds.are_all()));
    Ok(())
}

/// Where their ways part further up.
#[test]
fn fold(rt: HostRuntime) -> Result<(), Fail> {
    let mut one = Core::new(rt.alloc(), bounds(2048, HashKind::Fold))?;
    let mut other = Core::new(rt.alloc(), bounds(2048, HashKind::Fold))?;
    let counts = call_often(&mut one, &mut other, &mut Draws::new(2))?;
    assert!(rt; counts.is_some_and(|c| c.at_once > CALLS / 2 && c.renewing > CALLS / 100));
    assert!(rt; counts.is_some_and(|c| c.kinds.are_all()));
    Ok(())
}

/// Where six keys have one hash, so that lists come about, which are left to steps.
#[test]
fn low(rt: HostRuntime) -> Result<(), Fail> {
    let mut one = Core::new(rt.alloc(), bounds(2048, HashKind::Low))?;
    let mut other = Core::new(rt.alloc(), bounds(2048, HashKind::Low))?;
    let counts = call_often(&mut one, &mut other, &mut Draws::new(3))?;
    assert!(rt; counts.is_some_and(|c| c.at_once > CALLS / 50));
    Ok(())
}

/// Where slots run short, so that some calls don't go at once.
#[test]
fn scarce(rt: HostRuntime) -> Result<(), Fail> {
    let mut one = Core::new(rt.alloc(), bounds(160, HashKind::Wide))?;
    let mut other = Core::new(rt.alloc(), bounds(160, HashKind::Wide))?;
    let counts = call_often(&mut one, &mut other, &mut Draws::new(4))?;
    assert!(rt; counts.is_some());
    Ok(())
}
