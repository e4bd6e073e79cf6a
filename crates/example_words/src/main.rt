//! A map that four threads share, under no lock: each puts the keys of its number, and then each counts a copy of all. Then maps are filled.
#![tactic(auto)]

mod filling;

ghost use Rattle.concurrent_map.specs.Seats.{IsSeatOf};

use crate::filling::has_room;
use concurrent_map::{CallError, ConcurrentMap, Handle, HashKind, MapSeat, OpenError};
use std::alloc::Global;
use std::sync::Wait;
use std::sync::atomic::{AtomicU64, Ordering};
use std::thread;

/// Why there is no answer.
#[derive(Clone, Copy, Debug)]
enum Trouble {
    Memory,
    Refused,
}

impl From<OpenError> for Trouble {
    fn from(_: OpenError) -> Trouble {
        Trouble::Memory
    }
}

impl From<CallError> for Trouble {
    fn from(_: CallError) -> Trouble {
        Trouble::Refused
    }
}

/// What each thread does with its seat, whose number is from 1 to 4.
fn work<R: Wait>(rt: &R, map: &ConcurrentMap, seat: &mut MapSeat)
    requires { IsSeatOf map.now seat.old }
    ensures { IsSeatOf map.now seat.new }
{
    let number = u64::from(seat.number());
    for n in 0..25 {
        let _ = seat.put(rt, map, Handle::first(), n << 8 | number, n);
    }
}

/// How many keys a copy of the map has.
fn count<R: Wait>(
    rt: &R,
    alloc: Global,
    map: &ConcurrentMap,
    seat: &mut MapSeat,
) -> Result<u64, CallError>
    requires { IsSeatOf map.now seat.old }
    ensures { IsSeatOf map.now seat.new }
{
    let copy = seat.freeze(rt, map, Handle::first())?;
    let keys = seat.count(alloc, rt, map, copy)?;
    seat.close(map, copy)?;
    Ok(keys)
}

/// Notes how many keys a copy of the map has.
fn note_count<R: Wait>(
    rt: &R,
    alloc: Global,
    map: &ConcurrentMap,
    seat: &mut MapSeat,
    keys: &AtomicU64,
)
    requires { IsSeatOf map.now seat.old }
    ensures { IsSeatOf map.now seat.new }
{
    if let Ok(found) = count(rt, alloc, map, seat) {
        keys.store(found, Ordering::SeqCst);
    }
}

fn main(rt: HostRuntime) -> Result<(), Trouble> {
    let alloc = rt.alloc();
    let (map, mut seats) = ConcurrentMap::new(alloc, 1000, HashKind::Wide, 4)?;
    thread::for_each_mut(
        &rt,
        seats.as_mut_slice(),
        4,
        &|_, seat| work(&rt, &map, seat),
    );
    let keys = AtomicU64::new(0);
    thread::for_each_mut(
        &rt,
        seats.as_mut_slice(),
        4,
        &|_, seat| note_count(&rt, alloc, &map, seat, &keys),
    );
    let _ = println!(rt; "{} keys", keys.load(Ordering::SeqCst));
    if map.finish(alloc, seats).is_err() {
        return Err(Trouble::Memory);
    }
    for keys in [8, 100, 1000, 5000] {
        let in_order = has_room(&rt, alloc, keys, true)?;
        let at_random = has_room(&rt, alloc, keys, false)?;
        let _ = println!(rt;
            "a map for {keys} keys has room for them in order: {in_order}, at random: {at_random}"
        );
    }
    Ok(())
}
