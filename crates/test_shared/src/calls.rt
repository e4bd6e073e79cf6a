//! Each call of a seat, with what a finite map answers.

ghost use Rattle.shared_map.specs.Seats.{IsSeatOf};

use crate::kinds::put_and_get;
use shared_map::{Handle, HashKind, MapCalls, MapError, MapSeat, SharedMap};
use std::alloc::AllocGlobal;
use std::process::Abort;
use std::sync::Wait;
use std::test::Fail;

/// What changes of one key answer.
fn change<R: Wait>(rt: &R, map: &SharedMap, seat: &mut MapSeat) -> Result<bool, MapError>
    requires { IsSeatOf map.now seat.old }
    ensures { IsSeatOf map.now seat.new }
{
    let all = Handle::first();
    let put = seat.put(rt, map, all, 5, 50)?;
    let put_if_absent = seat.put_if_absent(rt, map, all, 5, 51)?;
    let replaced = seat.replace(rt, map, all, 5, 52)?;
    let replaced_if = seat.replace_if(rt, map, all, 5, 52, 53)?;
    let removed_if = seat.remove_if(rt, map, all, 5, 52)?;
    let removed = seat.remove(rt, map, all, 5)?;
    Ok(
        (put, put_if_absent, replaced) == (None, Some(50), Some(50))
            && (replaced_if, removed_if, removed) == (true, false, Some(53)),
    )
}

/// What is left behind a clear.
fn clear<R: Wait>(rt: &R, map: &SharedMap, seat: &mut MapSeat) -> Result<(u64, u64, bool), MapError>
    requires { IsSeatOf map.now seat.old }
    ensures { IsSeatOf map.now seat.new }
{
    let all = Handle::first();
    seat.put(rt, map, all, 6, 60)?;
    seat.clear(rt, map, all)?;
    let count = seat.count(rt, map, all)?;
    let free = seat.free(rt, map);
    Ok((count, free, seat.has_room(rt, map)))
}

/// Opens a read-only and a writable copy of two keys, and changes the writable one and the map itself then.
fn copy<R: Wait>(rt: &R, map: &SharedMap, seat: &mut MapSeat) -> Result<(Handle, Handle), MapError>
    requires { IsSeatOf map.now seat.old }
    ensures { IsSeatOf map.now seat.new }
{
    let all = Handle::first();
    seat.put(rt, map, all, 6, 60)?;
    seat.put(rt, map, all, 5, 50)?;
    let frozen = seat.freeze(rt, map, all)?;
    let copy = seat.snapshot(rt, map, all)?;
    seat.put(rt, map, copy, 7, 70)?;
    seat.remove(rt, map, all, 5)?;
    Ok((frozen, copy))
}

/// Whether the three maps are read as they were changed.
fn read<R: Wait>(
    rt: &R,
    map: &SharedMap,
    seat: &mut MapSeat,
    frozen: Handle,
    copy: Handle,
) -> Result<bool, MapError>
    requires { IsSeatOf map.now seat.old }
    ensures { IsSeatOf map.now seat.new }
{
    let entries = seat.entries(rt, map, frozen)?;
    let are_listed = entries.as_slice() == [(5, 50), (6, 60)].as_slice();
    let count = seat.count(rt, map, copy)?;
    let gone = seat.get(rt, map, Handle::first(), 5)?;
    let is_kept = seat.contains(rt, map, frozen, 5)?;
    Ok(are_listed && is_kept && count == 3 && gone.is_none())
}

#[test]
fn changes(rt: HostRuntime) -> Result<(), Fail> {
    let (map, mut seats) = SharedMap::new(rt.alloc(), 64, HashKind::Fold, 1, 1)?;
    let Some(mut seat) = seats.pop() else {
        panic!(rt; "there is one")
    };
    assert_eq!(rt; map.slots(), 64);
    assert_eq!(rt; change(&rt, &map, &mut seat), Ok(true));
    assert_eq!(rt; clear(&rt, &map, &mut seat), Ok((0, 62, true)));
    Ok(())
}

/// Reads and copies a map in this many shards.
fn read_and_copy<R: Wait + AllocGlobal + Abort>(rt: &R, shards: u8) -> Result<(), Fail> {
    let (map, mut seats) = SharedMap::new(rt.alloc(), 4_096, HashKind::Fold, 1, shards)?;
    let Some(mut seat) = seats.pop() else {
        panic!(rt; "there is one")
    };
    let Ok((frozen, copy)) = copy(rt, &map, &mut seat) else {
        panic!(rt; "there is room")
    };
    assert_eq!(rt; (frozen.number(), copy.number()), (1, 2));
    assert_eq!(rt; read(rt, &map, &mut seat, frozen, copy), Ok(true));
    assert_eq!(rt; seat.handles(rt, &map), 3);
    assert_eq!(rt; seat.close(rt, &map, frozen), Ok(()));
    assert_eq!(rt; seat.get(rt, &map, frozen, 5), Err(MapError::NoHandle));
    assert!(rt; seat.has_room(rt, &map));
    assert_eq!(rt; seat.freeze(rt, &map, copy), Ok(Handle::new(3)));
    assert_eq!(rt; put_and_get(rt, &map, &mut seat), Ok(Some(52)));
    Ok(())
}

/// Puts this many keys, as far as there are slots.
fn put_each<R: Wait>(rt: &R, map: &SharedMap, seat: &mut MapSeat, keys: u64)
    requires { IsSeatOf map.now seat.old }
    ensures { IsSeatOf map.now seat.new }
{
    for key in 0..keys {
        let _ = seat.put(rt, map, Handle::first(), key, key);
    }
}

/// A freeze of a map in two shards, each of three slots, in which this many keys are to be put; and after it a clear.
fn freeze_two_shards<R: Wait + AllocGlobal>(
    rt: &R,
    keys: u64,
) -> Result<(Result<Handle, MapError>, Result<(), MapError>), MapError> {
    let (map, mut seats) = SharedMap::new(rt.alloc(), 3, HashKind::Fold, 1, 2)?;
    let Some(mut seat) = seats.pop() else {
        return Err(MapError::BadSizes);
    };
    put_each(rt, &map, &mut seat, keys);
    let copy = seat.freeze(rt, &map, Handle::first());
    let cleared = seat.clear(rt, &map, Handle::first());
    Ok((copy, cleared))
}

/// A new map takes two slots of each shard, and a key the third one: then no copy is made, and a clear is done.
#[test]
fn a_copy_is_full_where_a_shard_is(rt: HostRuntime) -> Result<(), Fail> {
    assert_eq!(rt; freeze_two_shards(&rt, 0), Ok((Ok(Handle::new(1)), Ok(()))));
    assert_eq!(rt;
        freeze_two_shards(&rt, 40),
        Ok((Err(MapError::Full), Ok(())))
    );
    Ok(())
}

#[test]
fn reads_and_copies(rt: HostRuntime) -> Result<(), Fail> {
    read_and_copy(&rt, 1)?;
    read_and_copy(&rt, 8)
}
