//! The end of a shared map.

ghost use Rattle.std.specs.Prelude.{◌≡◌};
ghost use Rattle.shared_map.specs.Seats.{AreSeatsOf};

use crate::kinds::put_and_get;
use shared_map::{Handle, HashKind, Map, MapCalls, MapName, MapSeat, SharedMap, only_shard};
use std::alloc::AllocGlobal;
use std::marker::Brand;
use std::process::Abort;
use std::sync::Wait;
use std::test::Fail;

/// Without one of its seats a shared map gives all back, and with it the map.
fn finish_without_one<N: MapName, R: Wait + AllocGlobal + Abort>(
    rt: &R,
    map: SharedMap,
    seats: Vec<MapSeat>,
) -> Result<(), Fail>
    requires name { map ≡ N.map }
    requires seats { AreSeatsOf map seats.items }
{
    let Ok((map, mut seats)) = map.named::<N>(rt.alloc(), seats) else {
        panic!(rt; "there is memory")
    };
    let Some(mut last) = seats.pop() else {
        panic!(rt; "there are two")
    };
    assert_eq!(rt; last.put(rt, &map, Handle::first(), 5, 51), Ok(Some(50)));
    assert_eq!(rt; put_and_get(rt, &map, &mut last), Ok(Some(52)));
    let Err((map, mut seats)) = map.finish(seats) else {
        panic!(rt; "the second seat isn't there")
    };
    assert_eq!(rt; seats.len(), 1);
    seats.push(last)?;
    let Ok(shards) = map.finish(seats) else {
        panic!(rt; "all seats are there")
    };
    let Ok(plain) = only_shard(shards) else {
        panic!(rt; "there is one")
    };
    assert_eq!(rt; plain.get(Handle::first(), 5), Ok(Some(52)));
    Ok(())
}

#[test]
fn each_seat_has_to_be_there(rt: HostRuntime) -> Result<(), Fail> {
    let mut plain = Map::new(rt.alloc(), 64, HashKind::Fold)?;
    plain.put(Handle::first(), 5, 50)?;
    let Ok((map, seats)) = SharedMap::of(rt.alloc(), plain, 2) else {
        panic!(rt; "there is memory")
    };
    finish_without_one::<Brand, HostRuntime>(&rt, map, seats)
}

/// What came out of one shared map is shared once more.
#[test]
fn shards_are_shared_again(rt: HostRuntime) -> Result<(), Fail> {
    let (map, mut seats) = SharedMap::new(rt.alloc(), 64, HashKind::Fold, 1, 8)?;
    let Some(mut seat) = seats.pop() else {
        panic!(rt; "there is one")
    };
    assert_eq!(rt; seat.put(&rt, &map, Handle::first(), 5, 50), Ok(None));
    seats.push(seat)?;
    let Ok(shards) = map.finish(seats) else {
        panic!(rt; "all seats are there")
    };
    let Ok((map, mut seats)) = SharedMap::of_shards(rt.alloc(), HashKind::Fold, shards, 2) else {
        panic!(rt; "there is memory")
    };
    let Some(mut seat) = seats.pop() else {
        panic!(rt; "there are two")
    };
    assert_eq!(rt; (map.slots(), map.shards(), seat.number()), (512, 8, 2));
    assert_eq!(rt; seat.get(&rt, &map, Handle::first(), 5), Ok(Some(50)));
    Ok(())
}
