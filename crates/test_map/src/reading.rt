//! Calls that read keys.

use crate::calling::{Line, debug};
use ctrie_map::{Handle, Map, MapError};
use std::alloc::{AllocError, Global};

/// What the call answers, if it is one of these.
pub fn read(alloc: Global, map: &Map, line: &Line<'_>) -> Result<Option<String>, AllocError> {
    let (all, key) = (line.handle(0), line.number(1));
    let told = match line.name {
        "get" => debug(alloc, &map.get(all, key))?,
        "contains" => debug(alloc, &map.contains(all, key))?,
        "first" => debug(alloc, &map.first(all))?,
        "entries" => debug(alloc, &map.entries(all))?,
        "entries_from" => debug(alloc, &part(map, all, Some(key), line.number(2)))?,
        "entries_from_start" => debug(alloc, &part(map, all, None, key))?,
        "scan" => debug(alloc, &scan(map, all, Some(key), line.number(2)))?,
        "scan_start" => debug(alloc, &scan(map, all, None, key))?,
        "diff" => debug(alloc, &map.diff(all, line.handle(1)))?,
        "count" => debug(alloc, &map.count(all))?,
        "is_empty" => debug(alloc, &map.is_empty(all))?,
        "is_writable" => debug(alloc, &map.is_writable(all))?,
        _ => return Ok(None),
    };
    Ok(Some(told))
}

fn part(
    map: &Map,
    all: Handle,
    after: Option<u64>,
    room: u64,
) -> Result<Vec<(u64, u64)>, MapError> {
    map.entries_from(all, after, usize::try_from(room).unwrap_or(0))
}

fn scan(
    map: &Map,
    all: Handle,
    after: Option<u64>,
    room: u64,
) -> Result<Vec<(u64, u64)>, MapError> {
    map.scan(all, after, usize::try_from(room).unwrap_or(0))
}
