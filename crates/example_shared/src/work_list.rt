//! A list of work: who is free finds a task by `first` and takes it by `remove_if`, which one of them does alone.

ghost use Rattle.std.specs.Prelude.{◌≡◌};
ghost use Rattle.shared_map.specs.Seats.{AreSeatsOf};

use shared_map::{
    Handle, HashKind, Map, MapCalls, MapError, MapName, MapSeat, NamedMap, NamedMapSeat, SharedMap,
};
use std::alloc::AllocGlobal;
use std::marker::Brand;
use std::sync::Wait;
use std::sync::atomic::{AtomicU64, Ordering};
use std::thread;
use std::thread::Threads;

/// How many tasks there are at first. Each of them adds another one.
const TASKS: u64 = 50;

/// What the tasks that were done are worth together, and how many calls were refused.
#[derive(Drop)]
struct Done {
    worth: AtomicU64,
    refused: AtomicU64,
}

/// Takes any one task: its number and what it is worth. None where the list is empty.
fn take<N: MapName, R: Wait>(
    rt: &R,
    map: &NamedMap<N>,
    seat: &mut NamedMapSeat<N>,
) -> Result<Option<(u64, u64)>, MapError> {
    let all = Handle::first();
    for _ in rt.forever() {
        let Some((task, worth)) = seat.first(rt, map, all)? else {
            return Ok(None);
        };
        if seat.remove_if(rt, map, all, task, worth)? {
            return Ok(Some((task, worth)));
        }
    }
    unreachable!()
}

/// Does tasks while there are any, and adds those that come of them.
fn work<N: MapName, R: Wait>(
    rt: &R,
    map: &NamedMap<N>,
    seat: &mut NamedMapSeat<N>,
    done: &Done,
) -> Result<(), MapError> {
    for _ in rt.forever() {
        let Some((task, worth)) = take(rt, map, seat)? else {
            return Ok(());
        };
        done.worth.fetch_add(worth, Ordering::SeqCst);
        if task < TASKS {
            seat.put(rt, map, Handle::first(), task.wrapping_add(TASKS), 10)?;
        }
    }
    unreachable!()
}

/// What all tasks are worth that four threads do: 50 of 1, and 50 of 10 that come of them.
pub(crate) fn run<R: Threads + Wait + Sync + AllocGlobal>(rt: &R) -> Result<u64, MapError> {
    let mut map = Map::new(rt.alloc(), 1_024, HashKind::Wide)?;
    for task in 0..TASKS {
        map.put(Handle::first(), task, 1)?;
    }
    let Ok((map, seats)) = SharedMap::of(rt.alloc(), map, 4) else {
        return Err(MapError::Memory);
    };
    run_by::<Brand, R>(rt, map, seats)
}

/// What they are worth, each of these seats on a thread of its own.
fn run_by<N: MapName + Send + Sync, R: Threads + Wait + Sync + AllocGlobal>(
    rt: &R,
    map: SharedMap,
    seats: Vec<MapSeat>,
) -> Result<u64, MapError>
    requires name { map ≡ N.map }
    requires seats { AreSeatsOf map seats.items }
{
    let Ok((map, mut seats)) = map.named::<N>(rt.alloc(), seats) else {
        return Err(MapError::Memory);
    };
    let done = Done {
        worth: AtomicU64::new(0),
        refused: AtomicU64::new(0),
    };
    thread::for_each_mut(
        rt,
        seats.as_mut_slice(),
        4,
        &|_, seat| {
            if work(rt, &map, seat, &done).is_err() {
                done.refused.fetch_add(1, Ordering::SeqCst);
            }
        },
    );
    let left = match seats.first_mut() {
        Some(seat) => seat.count(rt, &map, Handle::first())?,
        None => 0,
    };
    if done.refused.load(Ordering::SeqCst) > 0 || left > 0 {
        return Err(MapError::Full);
    }
    Ok(done.worth.load(Ordering::SeqCst))
}
