//! Calls that ask a closure. Each answer tells besides how often it was asked, and whether what was done took a step.

use crate::calling::{Line, debug};
use ctrie_map::{Handle, Map, MapError};
use std::alloc::{AllocError, Global};

/// What an update makes of a value.
#[derive(Clone, Copy)]
enum Change {
    /// So much more, of none so much.
    Add(u64),
    /// None.
    Out,
    /// The value that there is, or none.
    Same,
}

/// Which pairs are retained.
#[derive(Clone, Copy)]
enum Wanted {
    /// Those of even keys.
    Even,
    /// Those whose value is at least so much.
    From(u64),
}

/// What the call answers, if it is one of these.
pub fn ask(alloc: Global, map: &mut Map, line: &Line<'_>) -> Result<Option<String>, AllocError> {
    let (all, key, value) = (line.handle(0), line.number(1), line.number(2));
    let told = match line.name {
        "update_add" => debug(alloc, &update(map, all, key, Change::Add(value)))?,
        "update_out" => debug(alloc, &update(map, all, key, Change::Out))?,
        "update_same" => debug(alloc, &update(map, all, key, Change::Same))?,
        "get_or_put_with" => debug(alloc, &get_or_put_with(map, all, key, value))?,
        "retain_even" => debug(alloc, &retain(map, all, Wanted::Even))?,
        "retain_from" => debug(alloc, &retain(map, all, Wanted::From(key)))?,
        _ => return Ok(None),
    };
    Ok(Some(told))
}

fn update(
    map: &mut Map,
    all: Handle,
    key: u64,
    change: Change,
) -> (Result<Option<u64>, MapError>, u64, bool) {
    let steps = map.steps_taken();
    let mut asked = 0_u64;
    let told = map.update(all, key, |value| {
        asked = asked.wrapping_add(1);
        match change {
            Change::Add(more) => Some(value.unwrap_or(0).wrapping_add(more)),
            Change::Out => None,
            Change::Same => value,
        }
    });
    let is_work = told.is_ok() && map.steps_taken() > steps;
    (told, asked, is_work)
}

fn get_or_put_with(
    map: &mut Map,
    all: Handle,
    key: u64,
    value: u64,
) -> (Result<u64, MapError>, u64, bool) {
    let steps = map.steps_taken();
    let mut asked = 0_u64;
    let told = map.get_or_put_with(all, key, || {
        asked = asked.wrapping_add(1);
        value
    });
    let is_work = told.is_ok() && map.steps_taken() > steps;
    (told, asked, is_work)
}

/// Tells too how many of the keys were asked of that are asked of in their turn, where all are 0, 1, 2, ..
fn retain(map: &mut Map, all: Handle, wanted: Wanted) -> (Result<(), MapError>, u64, u64, bool) {
    let steps = map.steps_taken();
    let mut asked = 0_u64;
    let mut in_turn = 0_u64;
    let told = map.retain(all, |key, value| {
        if key == asked {
            in_turn = in_turn.wrapping_add(1);
        }
        asked = asked.wrapping_add(1);
        match wanted {
            Wanted::Even => key.is_multiple_of(2),
            Wanted::From(least) => value >= least,
        }
    });
    let is_work = told.is_ok() && map.steps_taken() > steps;
    (told, asked, in_turn, is_work)
}
