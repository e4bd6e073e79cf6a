//! Calls that change keys.

use crate::calling::{Line, debug};
use ctrie_map::{Handle, Map, MapError};
use std::alloc::{AllocError, Global};

/// What the call answers, if it is one of these.
pub fn change(alloc: Global, map: &mut Map, line: &Line<'_>) -> Result<Option<String>, AllocError> {
    let (all, key, value) = (line.handle(0), line.number(1), line.number(2));
    let told = match line.name {
        "put" => debug(alloc, &map.put(all, key, value))?,
        "put_if_absent" => debug(alloc, &map.put_if_absent(all, key, value))?,
        "put_all" => debug(alloc, &map.put_all(all, pairs_of(alloc, line)?.as_slice()))?,
        "replace" => debug(alloc, &map.replace(all, key, value))?,
        "replace_if" => debug(alloc, &map.replace_if(all, key, value, line.number(3)))?,
        "remove" => debug(alloc, &map.remove(all, key))?,
        "remove_if" => debug(alloc, &map.remove_if(all, key, value))?,
        "pop" => debug(alloc, &map.pop(all))?,
        "clear" => debug(alloc, &map.clear(all))?,
        "put_squares" => debug(alloc, &put_squares(map, all, key, value))?,
        "pop_squares" => debug(alloc, &pop_squares(map, all))?,
        _ => return Ok(None),
    };
    Ok(Some(told))
}

/// The pairs of which the numbers after the handle are.
fn pairs_of(alloc: Global, line: &Line<'_>) -> Result<Vec<(u64, u64)>, AllocError> {
    let mut pairs = Vec::new(alloc);
    for pair in 0..line.numbers().len() / 2 {
        let place = pair.wrapping_mul(2).wrapping_add(1);
        pairs.push((line.number(place), line.number(place.wrapping_add(1))))?;
    }
    Ok(pairs)
}

/// Keys from this one up to another one, which isn't among them, each with its square.
fn put_squares(map: &mut Map, all: Handle, first: u64, behind: u64) -> Result<(), MapError> {
    for key in first..behind {
        map.put(all, key, key.wrapping_mul(key))?;
    }
    Ok(())
}

/// Takes all keys out, one after the other. How many were the first one just before, had their square, and were gone after it.
fn pop_squares(map: &mut Map, all: Handle) -> Result<u64, MapError> {
    let mut right = 0_u64;
    for _ in 0..map.count(all)? {
        let first = map.first(all)?;
        let popped = map.pop(all)?;
        let Some((key, value)) = popped else {
            return Ok(right);
        };
        if popped == first && value == key.wrapping_mul(key) && !map.contains(all, key)? {
            right = right.wrapping_add(1);
        }
    }
    Ok(right)
}
