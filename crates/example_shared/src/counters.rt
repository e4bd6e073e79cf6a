//! Counters that threads raise: by `get`, and `replace_if` where nobody came between.

ghost use Rattle.std.specs.Prelude.{◌≡◌};
ghost use Rattle.shared_map.specs.Seats.{AreSeatsOf};

use shared_map::{
    Handle, HashKind, Map, MapCalls, MapError, MapName, MapSeat, NamedMap, NamedMapSeat, SharedMap,
    only_shard,
};
use std::alloc::AllocGlobal;
use std::marker::Brand;
use std::sync::Wait;
use std::sync::atomic::{AtomicU64, Ordering};
use std::thread;
use std::thread::Threads;

/// The counter's key.
const COUNTER: u64 = 7;

/// How often each thread raises it.
const TIMES: u64 = 250;

/// Raises the counter by one.
fn raise<N: MapName, R: Wait>(
    rt: &R,
    map: &NamedMap<N>,
    seat: &mut NamedMapSeat<N>,
) -> Result<(), MapError> {
    let all = Handle::first();
    for _ in rt.forever() {
        let was = seat.get(rt, map, all, COUNTER)?.unwrap_or(0);
        if seat.replace_if(rt, map, all, COUNTER, was, was.wrapping_add(1))? {
            return Ok(());
        }
    }
    unreachable!()
}

/// Raises it again and again.
fn raise_often<N: MapName, R: Wait>(
    rt: &R,
    map: &NamedMap<N>,
    seat: &mut NamedMapSeat<N>,
) -> Result<(), MapError> {
    for _ in 0..TIMES {
        raise(rt, map, seat)?;
    }
    Ok(())
}

/// What the counter has, once four threads have raised it 250 times each.
pub(crate) fn count<R: Threads + Wait + Sync + AllocGlobal>(rt: &R) -> Result<u64, MapError> {
    let mut map = Map::new(rt.alloc(), 1_024, HashKind::Wide)?;
    map.put(Handle::first(), COUNTER, 0)?;
    let Ok((map, seats)) = SharedMap::of(rt.alloc(), map, 4) else {
        return Err(MapError::Memory);
    };
    count_by::<Brand, R>(rt, map, seats)
}

/// What it has, once each of these seats has raised it on a thread of its own.
fn count_by<N: MapName + Send + Sync, R: Threads + Wait + Sync + AllocGlobal>(
    rt: &R,
    map: SharedMap,
    seats: Vec<MapSeat>,
) -> Result<u64, MapError>
    requires name { map ≡ N.map }
    requires seats { AreSeatsOf map seats.items }
{
    let Ok((map, mut seats)) = map.named::<N>(rt.alloc(), seats) else {
        return Err(MapError::Memory);
    };
    let refused = AtomicU64::new(0);
    thread::for_each_mut(
        rt,
        seats.as_mut_slice(),
        4,
        &|_, seat| {
            if raise_often(rt, &map, seat).is_err() {
                refused.fetch_add(1, Ordering::SeqCst);
            }
        },
    );
    let Ok(shards) = map.finish(seats) else {
        // It never comes to this: all seats are there.
        return Err(MapError::Memory);
    };
    let Ok(map) = only_shard(shards) else {
        // Nor to this: it is in one shard.
        return Err(MapError::Memory);
    };
    if refused.load(Ordering::SeqCst) > 0 {
        return Err(MapError::Full);
    }
    Ok(map.get(Handle::first(), COUNTER)?.unwrap_or(0))
}
