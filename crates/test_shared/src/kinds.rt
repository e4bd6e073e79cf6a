//! A program over any kind of seat.

use shared_map::{Handle, MapCalls, MapError};
use std::sync::Wait;

/// Puts 52 at the key 5, and reads it again.
pub(crate) fn put_and_get<M, S: MapCalls<M>, R: Wait>(
    rt: &R,
    map: &M,
    seat: &mut S,
) -> Result<Option<u64>, MapError>
    requires { S.fits map.now seat.old }
    ensures { S.fits map.now seat.new }
{
    seat.put(rt, map, Handle::first(), 5, 52)?;
    seat.get(rt, map, Handle::first(), 5)
}
