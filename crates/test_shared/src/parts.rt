//! Parts of the entries, one key, and a restore, of a map in eight shards.

ghost use Rattle.shared_map.specs.Seats.{IsSeatOf};

use shared_map::{Handle, HashKind, MapCalls, MapError, MapSeat, SharedMap};
use std::alloc::AllocGlobal;
use std::process::Abort;
use std::sync::Wait;
use std::test::Fail;

/// Puts the keys 693, 686, .. down to 0, with the values 0, 1, .. up to 99.
fn fill<R: Wait>(rt: &R, map: &SharedMap, seat: &mut MapSeat) -> Result<(), MapError>
    requires { IsSeatOf map.now seat.old }
    ensures { IsSeatOf map.now seat.new }
{
    for n in 0u64..100 {
        seat.put(
            rt,
            map,
            Handle::first(),
            7u64.wrapping_mul(99u64.wrapping_sub(n)),
            n,
        )?;
    }
    Ok(())
}

/// Whether the parts are what comes next, wherever the keys lie.
fn parts<R: Wait>(rt: &R, map: &SharedMap, seat: &mut MapSeat) -> Result<bool, MapError>
    requires { IsSeatOf map.now seat.old }
    ensures { IsSeatOf map.now seat.new }
{
    let all = Handle::first();
    let first = seat.entries_from(rt, map, all, None, 3)?;
    let next = seat.entries_from(rt, map, all, Some(14), 4)?;
    let last = seat.entries_from(rt, map, all, Some(680), 10)?;
    let none = seat.entries_from(rt, map, all, Some(693), 10)?;
    let are_first = first.as_slice() == [(0, 99), (7, 98), (14, 97)].as_slice();
    let are_next = next.as_slice() == [(21, 96), (28, 95), (35, 94), (42, 93)].as_slice();
    let are_last = last.as_slice() == [(686, 1), (693, 0)].as_slice();
    Ok(are_first && are_next && are_last && none.is_empty())
}

/// Whether a cleared map has the frozen one's keys again, and the frozen one stays read-only.
fn restored<R: Wait>(rt: &R, map: &SharedMap, seat: &mut MapSeat) -> Result<bool, MapError>
    requires { IsSeatOf map.now seat.old }
    ensures { IsSeatOf map.now seat.new }
{
    let all = Handle::first();
    let copy = seat.freeze(rt, map, all)?;
    seat.clear(rt, map, all)?;
    let none = seat.first(rt, map, all)?;
    seat.restore(rt, map, all, copy)?;
    let one = seat.first(rt, map, all)?;
    let count = seat.count(rt, map, all)?;
    let writable = seat.is_writable(rt, map, copy)?;
    Ok(none.is_none() && one.is_some() && count == 100 && !writable)
}

#[test]
fn parts_and_restores(rt: HostRuntime) -> Result<(), Fail> {
    let (map, mut seats) = SharedMap::new(rt.alloc(), 2_048, HashKind::Fold, 1, 8)?;
    let Some(mut seat) = seats.pop() else {
        panic!(rt; "there is one")
    };
    assert_eq!(rt; fill(&rt, &map, &mut seat), Ok(()));
    assert_eq!(rt; parts(&rt, &map, &mut seat), Ok(true));
    assert_eq!(rt; restored(&rt, &map, &mut seat), Ok(true));
    Ok(())
}
