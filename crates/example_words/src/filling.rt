//! Maps are filled with as many keys as they were made for.

ghost use Rattle.concurrent_map.specs.Seats.{IsSeatOf};

use crate::Trouble;
use concurrent_map::{ConcurrentMap, Handle, HashKind, MapSeat};
use std::alloc::Global;
use std::sync::Wait;

/// A random number for this one, another one for each.
fn random(number: u64) -> u64 {
    let mixed = number.wrapping_mul(0x9E37_79B9_7F4A_7C15);
    let mixed = (mixed ^ (mixed >> 30)).wrapping_mul(0xBF58_476D_1CE4_E5B9);
    let mixed = (mixed ^ (mixed >> 27)).wrapping_mul(0x94D0_49BB_1331_11EB);
    mixed ^ (mixed >> 31)
}

/// Puts so many keys, which follow one another or are random, and then puts each anew. Returns whether all were put.
fn put_all<R: Wait>(
    rt: &R,
    map: &ConcurrentMap,
    seat: &mut MapSeat,
    keys: u32,
    in_order: bool,
) -> bool
    requires { IsSeatOf map.now seat.old }
{
    for n in 0..2 * u64::from(keys) {
        let number = n % u64::from(keys).max(1);
        let key = if in_order { number } else { random(number) };
        if seat.put(rt, map, Handle::first(), key, n).is_err() {
            return false;
        }
    }
    true
}

/// Whether a map for so many keys has room for them.
pub(crate) fn has_room<R: Wait>(
    rt: &R,
    alloc: Global,
    keys: u32,
    in_order: bool,
) -> Result<bool, Trouble> {
    let (map, mut seats) = ConcurrentMap::new(alloc, keys, HashKind::Wide, 1)?;
    match seats.pop() {
        Some(mut seat) => Ok(put_all(rt, &map, &mut seat, keys, in_order)),
        None => Err(Trouble::Memory),
    }
}
