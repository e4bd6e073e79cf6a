//! Calls that make maps and copies.

use crate::calling::{Line, debug};
use ctrie_map::{Handle, HashKind, Map, MapError};
use std::alloc::{AllocError, Global};

/// What the call answers, if it is one of these.
pub fn copy(alloc: Global, map: &mut Map, line: &Line<'_>) -> Result<Option<String>, AllocError> {
    let (all, other) = (line.handle(0), line.handle(1));
    let told = match line.name {
        "new_low" => debug(alloc, &renew(alloc, map, line, HashKind::Low))?,
        "new_fold" => debug(alloc, &renew(alloc, map, line, HashKind::Fold))?,
        "new_wide" => debug(alloc, &renew(alloc, map, line, HashKind::Wide))?,
        "new_block" => debug(alloc, &renew(alloc, map, line, HashKind::Block))?,
        "snapshot" => debug(alloc, &map.snapshot(all))?,
        "freeze" => debug(alloc, &map.freeze(all))?,
        "restore" => debug(alloc, &map.restore(all, other))?,
        "close" => debug(alloc, &map.close(all))?,
        "freeze_times" => debug(alloc, &freeze_times(map, all, line.number(1)))?,
        "freeze_and_close_times" => debug(alloc, &freeze_and_close(map, all, line.number(1)))?,
        _ => return Ok(None),
    };
    Ok(Some(told))
}

/// A new map with this many slots.
fn renew(alloc: Global, map: &mut Map, line: &Line<'_>, hash: HashKind) -> Result<(), MapError> {
    let slots = u32::try_from(line.number(0)).unwrap_or(u32::MAX);
    *map = Map::new(alloc, slots, hash)?;
    Ok(())
}

/// This many copies.
fn freeze_times(map: &mut Map, all: Handle, times: u64) -> Result<(), MapError> {
    for _ in 0..times {
        map.freeze(all)?;
    }
    Ok(())
}

/// This many copies, each closed before the next one. The last one's handle.
fn freeze_and_close(map: &mut Map, all: Handle, times: u64) -> Result<Handle, MapError> {
    let mut last = all;
    for _ in 0..times {
        last = map.freeze(all)?;
        map.close(last)?;
    }
    Ok(last)
}
