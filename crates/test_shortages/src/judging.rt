//! Whether a machine's order explains its history, and leads to the contents of its handles.

use ctrie_base::{HashKind, Refusal};
use history::{Access, Call, Event, Reply, World, is_order, reply_of};
use std::alloc::Global;
use step_machine::Machine;

/// A machine has no more handles.
pub const HANDLES: u16 = 256;

/// The key of a call on one key.
fn key_of(call: Call) -> Option<u64> {
    match call {
        Call::Get { key, .. }
        | Call::Put { key, .. }
        | Call::PutIfAbsent { key, .. }
        | Call::Replace { key, .. }
        | Call::ReplaceIf { key, .. }
        | Call::Remove { key, .. } => Some(key),
        _ => None,
    }
}

/// The keys of all calls that began.
fn keys_in(alloc: Global, events: &[Event]) -> Result<Vec<u64>, Refusal> {
    let mut keys = Vec::new(alloc);
    for event in events {
        if let Event::Begin { call, .. } = event
            && let Some(key) = key_of(*call)
        {
            keys.push(key)?;
        }
    }
    Ok(keys)
}

/// The world to which the calls lead, one after the other.
fn world_behind(
    alloc: Global,
    events: &[Event],
    order: &[u64],
    hash: HashKind,
) -> Result<World, Refusal> {
    let mut world = World::new(alloc)?;
    for placed in order {
        for event in events {
            if let Event::Begin {
                id,
                call,
                opens,
                ..
            } = event
                && id == placed
            {
                reply_of(&mut world, call, *opens, hash)?;
            }
        }
    }
    Ok(world)
}

/// The value of a key in these pairs.
fn value_in(pairs: &[(u64, u64)], key: u64) -> Option<u64> {
    pairs.iter().find(|pair| pair.0 == key).map(|pair| pair.1)
}

/// Whether the handle names a map with just these pairs in the world; all keys are among those given.
fn has_pairs(
    world: &mut World,
    handle: u16,
    pairs: &[(u64, u64)],
    keys: &[u64],
    hash: HashKind,
) -> Result<bool, Refusal> {
    for key in keys {
        let call = Call::Get { handle, key: *key };
        match reply_of(world, &call, None, hash)? {
            Some(Reply::Found(value)) if value == value_in(pairs, *key) => {}
            _ => return Ok(false),
        }
    }
    Ok(pairs.iter().all(|pair| keys.contains(&pair.0)))
}

/// Whether the handle names the machine's map in the world, or nothing in both.
fn is_shown(
    machine: &Machine,
    world: &mut World,
    handle: u16,
    keys: &[u64],
    hash: HashKind,
) -> Result<bool, Refusal> {
    let writable = world
        .access(handle)
        .map(|access| access == Access::Writable);
    if writable != machine.is_writable(handle) {
        return Ok(false);
    }
    match machine.content(handle) {
        Ok(pairs) => has_pairs(world, handle, pairs.as_slice(), keys, hash),
        Err(Refusal::NoHandle) => Ok(writable.is_none()),
        Err(refusal) => Err(refusal),
    }
}

/// Whether the order is legal, and each open handle has the content that it has after the last of the order.
pub fn is_explained(alloc: Global, machine: &Machine) -> Result<bool, Refusal> {
    let hash = machine.limits().hash;
    let order = machine.order()?;
    if !is_order(alloc, machine.events(), order.as_slice(), hash)? {
        return Ok(false);
    }
    let keys = keys_in(alloc, machine.events())?;
    let mut world = world_behind(alloc, machine.events(), order.as_slice(), hash)?;
    for handle in 0..HANDLES {
        if !is_shown(machine, &mut world, handle, keys.as_slice(), hash)? {
            return Ok(false);
        }
    }
    Ok(true)
}
