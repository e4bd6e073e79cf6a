//! A map that threads share.

ghost use Rattle.std.specs.Prelude.{◌≡◌};
ghost use Rattle.shared_map.specs.Seats.{AreSeatsOf};

mod caller;
mod member;

use self::caller::Share;
use self::member::Member;
use bench_calls::{Balance, number};
use shared_map::{HashKind, MapError, MapName, MapSeat, NamedMap, NamedMapSeat, SharedMap};
use std::alloc::{AllocError, Global};
use std::marker::Brand;
use std::sync::Wait;
use std::thread;
use std::thread::Threads;
use std::time::{Clock, Instant};

/// What is done: this many calls in all, after this many keys that are put.
#[derive(Clone, Copy)]
pub(crate) struct Task {
    threads: u8,
    filled: u64,
    count: u64,
    keys: u64,
    /// How many slots each shard has.
    slots: u32,
    shards: u8,
    /// After this many calls of a thread a copy is frozen, read and closed; 0 for never.
    every: u64,
}

/// What came of it.
#[derive(Clone, Copy)]
struct Done {
    nanos: u128,
    refused: u64,
    wrong: u64,
}

impl Task {
    /// That of these words.
    pub(crate) fn of(words: &[String]) -> Option<Task> {
        Some(Task {
            threads: u8::try_from(number(words.get(0))?).ok()?,
            filled: number(words.get(1))?,
            count: number(words.get(2))?,
            keys: number(words.get(3))?,
            slots: u32::try_from(number(words.get(4))?).ok()?,
            shards: u8::try_from(number(words.get(5))?).ok()?,
            every: number(words.get(6))?,
        })
    }

    /// What each thread does.
    fn share(self) -> Share {
        Share {
            calls: self.count / u64::from(self.threads.max(1)),
            keys: self.keys,
            every: self.every,
        }
    }
}

/// Each seat, as that of a thread that has made no call.
fn seated<N: MapName>(
    alloc: Global,
    seats: Vec<NamedMapSeat<N>>,
) -> Result<Vec<Member<N>>, AllocError> {
    seats
        .into_iter()
        .map(|seat| Member::new(seat))
        .collect(alloc)
}

/// What came of the calls of all, where this is left in the map.
fn sum<N: MapName>(members: &[Member<N>], found: Balance) -> Done {
    let (mut balance, mut refused) = (Balance::nothing(), 0u64);
    let (mut began, mut ended) = (u128::MAX, 0u128);
    for member in members {
        balance.join(member.caller.balance);
        refused = refused.wrapping_add(member.caller.refused);
        began = began.min(member.began);
        ended = ended.max(member.ended);
    }
    Done {
        nanos: ended.saturating_sub(began),
        refused,
        wrong: balance.differences(found),
    }
}

/// Has the task done on a new map.
fn run<R: Threads + Wait + Sync + Clock + AllocGlobal>(
    rt: &R,
    task: Task,
) -> Result<Done, MapError> {
    let (map, seats) = SharedMap::new(
        rt.alloc(),
        task.slots,
        HashKind::Low,
        task.threads,
        task.shards,
    )?;
    run_by::<Brand, R>(rt, map, seats, task)
}

/// The same, by these seats.
fn run_by<N: MapName + Send + Sync, R: Threads + Wait + Sync + Clock + AllocGlobal>(
    rt: &R,
    map: SharedMap,
    seats: Vec<MapSeat>,
    task: Task,
) -> Result<Done, MapError>
    requires name { map ≡ N.map }
    requires seats { AreSeatsOf map seats.items }
{
    let Ok((map, seats)) = map.named::<N>(rt.alloc(), seats) else {
        return Err(MapError::Memory);
    };
    let mut members = seated(rt.alloc(), seats)?;
    perform(rt, &map, members.as_mut_slice(), task)
}

/// The same, each of these on a thread of its own. The first one puts keys before, and reads what is left behind it.
fn perform<N: MapName + Send + Sync, R: Threads + Wait + Sync + Clock>(
    rt: &R,
    map: &NamedMap<N>,
    members: &mut [Member<N>],
    task: Task,
) -> Result<Done, MapError> {
    if let Some(first) = members.first_mut() {
        first.fill(rt, map, task.filled);
    }
    let start = Instant::now(rt).ok();
    thread::for_each_mut(
        rt,
        members,
        usize::from(task.threads.max(1)),
        &|_, member| member.work(rt, map, task.share(), start),
    );
    let found = match members.first_mut() {
        Some(first) => first.found(rt, map, task.keys.max(task.filled))?,
        None => Balance::nothing(),
    };
    Ok(sum(members, found))
}

/// The task, with its figures.
pub(crate) fn measure<R: Threads + Wait + Sync + Clock + Print + AllocGlobal>(
    rt: &R,
    task: Task,
) -> Result<(), MapError> {
    let done = run(rt, task)?;
    let _ = println!(rt;
        "{} calls by {} threads, {} ns, {} refused, {} wrong",
        task.count, task.threads, done.nanos, done.refused, done.wrong
    );
    Ok(())
}

/// Few calls, of which it is written what came of them.
pub(crate) fn small<R: Threads + Wait + Sync + Clock + Print + AllocGlobal>(
    rt: &R,
) -> Result<(), MapError> {
    let task = Task {
        threads: 4,
        filled: 40,
        count: 2_000,
        keys: 40,
        slots: 4_096,
        shards: 8,
        every: 100,
    };
    let done = run(rt, task)?;
    let _ = println!(rt;
        "{} calls by {} threads, {} refused, {} wrong",
        task.count, task.threads, done.refused, done.wrong
    );
    Ok(())
}
