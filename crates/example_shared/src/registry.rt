//! A registry that threads change while one of them exports it: each export is of one moment. It lies in eight shards, so threads
//! that change keys of different ones don't wait for each other.

ghost use Rattle.std.specs.Prelude.{◌≡◌};
ghost use Rattle.shared_map.specs.Seats.{AreSeatsOf};

use shared_map::{
    Handle, HashKind, MapCalls, MapError, MapName, MapSeat, NamedMap, NamedMapSeat, SharedMap,
};
use std::alloc::AllocGlobal;
use std::marker::Brand;
use std::sync::Wait;
use std::sync::atomic::{AtomicU64, Ordering};
use std::thread;
use std::thread::Threads;

/// How often each thread registers, and how often one exports.
const CHANGES: u64 = 400;

const EXPORTS: u64 = 40;

/// This many keys are read at once: a shard is held for these alone.
const PART: usize = 16;

/// Where the confirmed numbers stand: that many keys above those that were announced.
const CONFIRMED: u64 = 100;

/// Announces a number under the seat's key, then confirms it under another one; again and again.
fn register<N: MapName, R: Wait>(
    rt: &R,
    map: &NamedMap<N>,
    seat: &mut NamedMapSeat<N>,
) -> Result<(), MapError> {
    let key = u64::from(seat.number());
    for number in 1..CHANGES + 1 {
        seat.put(rt, map, Handle::first(), key, number)?;
        seat.put(rt, map, Handle::first(), key + CONFIRMED, number)?;
    }
    Ok(())
}

/// The value of a key.
fn value(pairs: &[(u64, u64)], key: u64) -> u64 {
    for (other, value) in pairs {
        if *other == key {
            return *value;
        }
    }
    0
}

/// Whether each number that was announced is the one confirmed last, or the one after it.
fn is_of_one_moment(pairs: &[(u64, u64)]) -> bool {
    for key in 2..5 {
        let announced = value(pairs, key);
        let confirmed = value(pairs, key + CONFIRMED);
        if announced != confirmed && announced.checked_sub(1) != Some(confirmed) {
            return false;
        }
    }
    true
}

/// Adds what a shard has of the copy, in parts.
fn read_shard<N: MapName, R: Wait>(
    rt: &R,
    map: &NamedMap<N>,
    seat: &mut NamedMapSeat<N>,
    (copy, shard): (Handle, usize),
    pairs: &mut Vec<(u64, u64)>,
) -> Result<(), MapError> {
    let mut after = None;
    for _ in rt.forever() {
        let part = seat.scan(rt, map, copy, shard, after, PART)?;
        let Some((last, _)) = part.last() else {
            break;
        };
        after = Some(*last);
        if pairs.extend_from_slice(part.as_slice()).is_err() {
            return Err(MapError::Memory);
        }
    }
    Ok(())
}

/// Exports the registry: a read-only copy, which is read while others go on, and closed then.
fn export<N: MapName, R: Wait + AllocGlobal>(
    rt: &R,
    map: &NamedMap<N>,
    seat: &mut NamedMapSeat<N>,
) -> Result<Vec<(u64, u64)>, MapError> {
    let copy = seat.freeze(rt, map, Handle::first())?;
    let mut pairs = Vec::new(rt.alloc());
    for shard in 0..map.shards() {
        read_shard(rt, map, seat, (copy, shard), &mut pairs)?;
    }
    seat.close(rt, map, copy)?;
    Ok(pairs)
}

/// Exports again and again: how many exports were of one moment.
fn export_often<N: MapName, R: Wait + AllocGlobal>(
    rt: &R,
    map: &NamedMap<N>,
    seat: &mut NamedMapSeat<N>,
) -> Result<u64, MapError> {
    let mut right = 0u64;
    for _ in 0..EXPORTS {
        let pairs = export(rt, map, seat)?;
        if is_of_one_moment(pairs.as_slice()) {
            right = right.wrapping_add(1);
        }
    }
    Ok(right)
}

/// Three threads register while the one with seat 1 exports: how many exports were of one moment.
pub(crate) fn run<R: Threads + Wait + Sync + AllocGlobal>(rt: &R) -> Result<u64, MapError> {
    let (map, seats) = SharedMap::new(rt.alloc(), 1_024, HashKind::Wide, 4, 8)?;
    run_by::<Brand, R>(rt, map, seats)
}

/// The same, each of these seats on a thread of its own.
fn run_by<N: MapName + Send + Sync, R: Threads + Wait + Sync + AllocGlobal>(
    rt: &R,
    map: SharedMap,
    seats: Vec<MapSeat>,
) -> Result<u64, MapError>
    requires name { map ≡ N.map }
    requires seats { AreSeatsOf map seats.items }
{
    let Ok((map, mut seats)) = map.named::<N>(rt.alloc(), seats) else {
        return Err(MapError::Memory);
    };
    let right = AtomicU64::new(0);
    let refused = AtomicU64::new(0);
    thread::for_each_mut(
        rt,
        seats.as_mut_slice(),
        4,
        &|_, seat| {
            if seat.number() == 1 {
                match export_often(rt, &map, seat) {
                    Ok(exports) => right.store(exports, Ordering::SeqCst),
                    Err(_) => {
                        refused.fetch_add(1, Ordering::SeqCst);
                    }
                }
            } else if register(rt, &map, seat).is_err() {
                refused.fetch_add(1, Ordering::SeqCst);
            }
        },
    );
    let handles = match seats.first_mut() {
        Some(seat) => seat.handles(rt, &map),
        None => 0,
    };
    if refused.load(Ordering::SeqCst) > 0 || handles != 1 {
        return Err(MapError::Full);
    }
    Ok(right.load(Ordering::SeqCst))
}
