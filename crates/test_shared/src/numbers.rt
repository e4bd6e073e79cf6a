//! Numbers of calls, and who is told of them.

ghost use Rattle.std.specs.Prelude.{◌≤◌, ◌↔◌, IsTrue, length};
ghost use Rattle.shared_map.specs.Beneath.gate.specs.Logs.{saturated};
ghost use Rattle.shared_map.specs.Beneath.sharded_gate.specs.Shards.{calls_about};
ghost use Rattle.shared_map.specs.Asks.{about};
ghost use Rattle.shared_map.specs.Seats.{IsSeatOf};

use shared_map::{Handle, HashKind, MapCalls, MapError, MapSeat, ShardCount, SharedMap};
use std::alloc::AllocGlobal;
use std::process::Abort;
use std::sync::Wait;
use std::test::Fail;

/// Makes a call that is done and one that is refused.
fn call_twice<R: Wait>(rt: &R, map: &SharedMap, seat: &mut MapSeat) -> bool
    requires { IsSeatOf map.now seat.old }
    ensures { IsSeatOf map.now seat.new }
{
    seat.put(rt, map, Handle::first(), 6, 60) == Ok(None)
        && seat.get(rt, map, Handle::new(9), 6) == Err(MapError::NoHandle)
}

/// Whether the seat hears of this many calls about a shard, and not of one more.
fn hears_of<R: Wait>(rt: &R, map: &SharedMap, seat: &mut MapSeat, count: ShardCount) -> bool
    requires { IsSeatOf map.now seat.old }
    ensures { IsSeatOf map.now seat.new }
{
    let more = ShardCount {
        shard: count.shard,
        calls: count.calls.saturating_add(1),
    };
    seat.hear(rt, map, count) && !seat.hear(rt, map, more)
}

/// Whether the other seat hears of the calls that this one has counted.
fn tell<R: Wait>(rt: &R, map: &SharedMap, seat: &MapSeat, other: &mut MapSeat) -> bool
    requires seat { IsSeatOf map.now seat.now }
    requires other { IsSeatOf map.now other.old }
    ensures told { IsTrue result ↔ saturated (length (calls_about (about (length map.now.room.first)) seat.now.shard seat.now.seat.seen.log))
        ≤ length (calls_about (about (length map.now.room.first)) seat.now.shard other.new.seat.seen.log) }
    ensures seat { IsSeatOf map.now other.new }
{
    other.hear(rt, map, seat.last())
}

/// The key 6 is in the shard 5 of 8: 6 over the golden ratio is 3.708.., and 0.708.. lies between 5/8 and 6/8. All calls about
/// it count, those that are refused too; a seat knows of those that stood there when it called or heard last.
#[test]
fn calls_have_numbers(rt: HostRuntime) -> Result<(), Fail> {
    let (map, mut seats) = SharedMap::new(rt.alloc(), 64, HashKind::Fold, 2, 8)?;
    let (Some(mut two), Some(mut one)) = (seats.pop(), seats.pop()) else {
        panic!(rt; "there are two")
    };
    assert_eq!(rt; (one.number(), two.number()), (1, 2));
    assert!(rt; call_twice(&rt, &map, &mut one));
    let second = ShardCount { shard: 5, calls: 2 };
    assert_eq!(rt;
        (one.last(), two.last()),
        (second, ShardCount { shard: 0, calls: 0 })
    );
    assert!(rt; hears_of(&rt, &map, &mut two, second));
    assert!(rt; tell(&rt, &map, &one, &mut two));
    assert!(rt; !two.hear(&rt, &map, ShardCount { shard: 8, calls: 0 }));
    assert_eq!(rt; two.get(&rt, &map, Handle::first(), 6), Ok(Some(60)));
    assert_eq!(rt;
        (one.last(), two.last()),
        (second, ShardCount { shard: 5, calls: 3 })
    );
    Ok(())
}
