//! Operations that alone take steps: how many, and a long run of them in a state made for it.

ghost use Rattle.std.specs.Prelude.{◌<◌};

use ctrie_base::{HashKind, Kind, Refusal};
use history::Call;
use std::test::Fail;
use step_machine::{Limits, Machine, Step};

/// A hash of 64 bits, which is the key itself: so the keys' paths can be read off.
const LIMITS: Limits = Limits {
    slots: 704,
    actors: 64,
    hash: HashKind::Wide,
};

/// The key of the long path, and the one with which it shares all levels but the lowest.
const KEY: u64 = 0;

const PARTNER: u64 = 1 << 60;

fn put(key: u64) -> Call {
    Call::Put {
        handle: 0,
        key,
        value: 1,
    }
}

/// The first calls on an empty map, each with the number of its steps after its begin.
#[test]
fn takes_few_steps(rt: HostRuntime) -> Result<(), Fail> {
    let calls = [
        (put(u64::MAX), 12),
        (Call::Freeze { handle: 0 }, 9),
        (Call::Clear { handle: 0 }, 10),
    ];
    for (call, steps) in &calls {
        let mut machine = Machine::new(rt.alloc(), LIMITS)?;
        machine.complete(1, *call)?;
        assert!(rt; machine.steps_taken().checked_sub(1) == Some(*steps));
    }
    Ok(())
}

/// The key whose path leaves the long one at this level by this index, and goes on by the next one.
fn key_beside(level: u32, index: u64, next: u64) -> u64
    requires level { level < 12 }
{
    (index | next << 5) << (5 * level)
}

/// Two keys below each place beside the long path on three levels: so an indirection stands there.
fn fill(machine: &mut Machine) -> Result<(), Refusal> {
    machine.complete(1, put(KEY))?;
    machine.complete(1, put(PARTNER))?;
    for level in 0..3 {
        fill_level(machine, level)?;
    }
    Ok(())
}

fn fill_level(machine: &mut Machine, level: u32) -> Result<(), Refusal>
    requires level { level < 12 }
{
    for index in 1..32 {
        machine.complete(1, put(key_beside(level, index, 1)))?;
        machine.complete(1, put(key_beside(level, index, 2)))?;
    }
    machine.reclaim()
}

/// The actor's call begins and stops before a step of this kind.
fn stop_before(machine: &mut Machine, actor: u8, call: Call, kind: Kind) -> Result<(), Refusal> {
    machine.apply(Step::Begin { actor, call })?;
    go_until(machine, actor, kind)
}

/// The actor goes on until its next step is of this kind.
fn go_until(machine: &mut Machine, actor: u8, kind: Kind) -> Result<(), Refusal> {
    for _ in 0..1000 {
        if machine.next_kind(actor) == Some(kind) {
            break;
        }
        machine.apply(Step::Go { actor })?;
    }
    Ok(())
}

/// A remove stops after its commit, before the tomb gives way: the long path ends in a tomb.
fn leave_a_tomb(machine: &mut Machine) -> Result<(), Refusal> {
    let remove = Call::Remove {
        handle: 0,
        key: PARTNER,
    };
    stop_before(machine, 64, remove, Kind::SwapPrev)?;
    go_until(machine, 64, Kind::Make)
}

/// Puts of 30 actors stop once their nodes are pending, each in a place beside the long path.
fn leave_pending(machine: &mut Machine, first: u8, level: u32) -> Result<(), Refusal>
    requires first { first < 64 }
    requires level { level < 12 }
{
    for place in 1..31u8 {
        let key = key_beside(level, u64::from(place), 3);
        stop_before(machine, first + place, put(key), Kind::SwapPrev)?;
    }
    Ok(())
}

/// A put is stopped by its fourth step, a freeze closes its generation, and the next one has made its offer.
fn overtake(machine: &mut Machine) -> Result<(), Refusal> {
    let freeze = Call::Freeze { handle: 0 };
    stop_before(machine, 1, put(KEY), Kind::Look)?;
    machine.complete(63, freeze)?;
    stop_before(machine, 63, freeze, Kind::SwapRoot)?;
    machine.apply(Step::Go { actor: 63 })?;
    Ok(())
}

/// A put that is left alone: its generation is closed, an offer stands in the word, three levels of its path
/// have 31 indirections beside it, 60 of them with a pending node, and its path ends in a tomb.
#[test]
fn ends_alone(rt: HostRuntime) -> Result<(), Fail> {
    let mut machine = Machine::new(rt.alloc(), LIMITS)?;
    fill(&mut machine)?;
    leave_a_tomb(&mut machine)?;
    leave_pending(&mut machine, 1, 2)?;
    leave_pending(&mut machine, 31, 1)?;
    overtake(&mut machine)?;
    let before = machine.steps_taken();
    let reply = machine.resume(1)?;
    let told = format!(in rt.alloc(); "{reply:?}")?;
    assert_eq!(rt; told.as_str(), "Some(Found(Some(1)))");
    assert!(rt; machine.steps_taken().checked_sub(before) == Some(1522));
    Ok(())
}
