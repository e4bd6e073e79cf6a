//! Calls that tell of the map as a whole, and the messages of refusals.

use crate::calling::{Line, debug};
use ctrie_map::{Handle, Map, MapError};
use std::alloc::{AllocError, Global};

/// What the call answers.
pub fn tell(alloc: Global, map: &Map, line: &Line<'_>) -> Result<String, AllocError> {
    match line.name {
        "is_open" => debug(alloc, &map.is_open(line.handle(0))),
        "open_handles" => debug(alloc, &map.open_handles().collect::<Vec<Handle>>(alloc)?),
        "handles" => debug(alloc, &map.handles()),
        "slots" => debug(alloc, &map.slots()),
        "free" => debug(alloc, &map.free()),
        "has_room" => debug(alloc, &map.has_room()),
        "steps_taken" => debug(alloc, &map.steps_taken()),
        "life" => debug(alloc, &map.life_left().wrapping_add(map.steps_taken())),
        "message" => message(alloc, line.number(0)),
        _ => String::from_str(alloc, "no such call"),
    }
}

/// The message of a refusal, by its place among all.
fn message(alloc: Global, place: u64) -> Result<String, AllocError> {
    match place {
        0 => MapError::NoHandle.to_string(alloc),
        1 => MapError::ReadOnly.to_string(alloc),
        2 => MapError::HandlesFull.to_string(alloc),
        3 => MapError::Crowded.to_string(alloc),
        4 => MapError::Full.to_string(alloc),
        5 => MapError::BadSizes.to_string(alloc),
        6 => MapError::WornOut.to_string(alloc),
        _ => MapError::Memory.to_string(alloc),
    }
}
