//! Seats that lie in a container between their calls.

ghost use Rattle.std.specs.Prelude.{◌≡◌};
ghost use Rattle.shared_map.specs.Seats.{AreSeatsOf};

use crate::shards::count;
use shared_map::{Handle, HashKind, MapCalls, MapName, MapSeat, NamedMap, NamedMapSeat, SharedMap};
use std::alloc::AllocGlobal;
use std::marker::Brand;
use std::process::Abort;
use std::sync::{Mutex, Wait};
use std::test::Fail;
use std::thread;
use std::thread::Threads;

/// The seats that nobody calls just now.
type Pool<N> = Mutex<Vec<NamedMapSeat<N>>>;

/// Forty puts of keys of this worker, each with a seat that is taken out of the pool and put back; how many were made.
fn work<N: MapName, R: Wait>(rt: &R, map: &NamedMap<N>, pool: &Pool<N>, worker: u64) -> u64 {
    for made in 0..40u64 {
        let taken = pool.lock(rt).pop();
        let Some(mut seat) = taken else {
            return made;
        };
        let key = worker.wrapping_mul(1_000).wrapping_add(made);
        let put = seat.put(rt, map, Handle::first(), key, made);
        let last = seat.last();
        if put.is_err() || !seat.hear(rt, map, last) || seat.number() > 3 {
            return made;
        }
        let _ = pool.lock(rt).push(seat).is_ok();
    }
    40
}

/// Three threads call with whatever seat lies in the pool. Then the seats finish the shared map.
fn pooled<N: MapName + Send + Sync, R: Threads + Wait + Sync + AllocGlobal + Abort>(
    rt: &R,
    map: SharedMap,
    seats: Vec<MapSeat>,
) -> Result<(), Fail>
    requires name { map ≡ N.map }
    requires seats { AreSeatsOf map seats.items }
{
    let Ok((map, seats)) = map.named::<N>(rt.alloc(), seats) else {
        panic!(rt; "there is memory")
    };
    assert_eq!(rt; map.slots(), 16_384);
    let pool = Mutex::new(seats);
    let made = thread::map_indices(
        rt,
        rt.alloc(),
        3,
        &|worker| work(rt, &map, &pool, worker as u64),
    )?;
    assert!(rt; made.iter().all(|calls| *calls == 40));
    let Ok(shards) = map.finish(pool.into_inner()) else {
        panic!(rt; "all seats are there")
    };
    assert_eq!(rt; count(shards.as_slice())?, 120);
    Ok(())
}

#[test]
fn seats_lie_in_a_pool(rt: HostRuntime) -> Result<(), Fail> {
    let (map, seats) = SharedMap::new(rt.alloc(), 2_048, HashKind::Fold, 3, 8)?;
    pooled::<Brand, HostRuntime>(&rt, map, seats)
}
