//! One map, and a seat at it for each thread.

use crate::maps::Trouble;
use lock_free::{MapName, NamedSeat, NamedWords};
use std::alloc::Global;

/// So many seats, by their numbers, the first of which is this one. There are fewer where the map has fewer.
pub fn seats_of<N: MapName>(
    alloc: Global,
    words: &NamedWords<N>,
    first: NamedSeat<N>,
    count: u8,
) -> Result<Vec<NamedSeat<N>>, Trouble> {
    let mut first = first;
    let mut seats = Vec::new(alloc);
    for _ in 1..count {
        if let Some(seat) = first.split(alloc, words)? {
            seats.push(seat)?;
        }
    }
    seats.push(first)?;
    seats.reverse();
    Ok(seats)
}
