//! A map that four threads share: each puts its number.
#![tactic(auto)]

ghost use Rattle.shared_map.specs.Seats.{IsSeatOf};

use shared_map::{Handle, HashKind, MapCalls, MapError, MapSeat, SharedMap, slots_for};
use std::sync::Wait;
use std::thread;

/// What each thread does with its seat, whose number is from 1 to 4.
fn work<R: Wait>(rt: &R, map: &SharedMap, seat: &mut MapSeat)
    requires { IsSeatOf map.now seat.old }
    ensures { IsSeatOf map.now seat.new }
{
    let number = u64::from(seat.number());
    let _ = seat.put(rt, map, Handle::first(), number, number);
}

fn main(rt: HostRuntime) -> Result<(), MapError> {
    let (map, mut seats) = SharedMap::new(rt.alloc(), slots_for(300), HashKind::Wide, 4, 8)?;
    thread::for_each_mut(
        &rt,
        seats.as_mut_slice(),
        4,
        &|_, seat| work(&rt, &map, seat),
    );
    let Ok(shards) = map.finish(seats) else {
        // It never comes to this: all seats are there.
        return Err(MapError::Memory);
    };
    let mut keys: u64 = 0;
    for shard in shards.as_slice() {
        keys = keys.saturating_add(shard.count(Handle::first())?);
    }
    let _ = println!(rt; "{keys} keys in {} shards", shards.len());
    Ok(())
}
