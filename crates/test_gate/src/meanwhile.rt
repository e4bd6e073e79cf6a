//! A call about one shard, made while another seat stands inside of its call about another one.

ghost use Rattle.std.specs.Prelude.{if◌then◌else◌, nat_lt, None, Some, ⊤};
ghost use Rattle.gate.specs.Seats.{IsSeatOf};

use sharded_gate::{Sharded, ShardedGate, ShardedSeat, Shards};
use std::alloc::{AllocGlobal, Global};
use std::process::Abort;
use std::sync::atomic::{AtomicU64, Ordering};
use std::sync::{Arc, Wait};
use std::test::Fail;
use std::thread;

/// How often who waits looks.
const TURNS: u32 = 10_000_000;

/// A seat stands inside of its call about the first room.
const INSIDE: u64 = 1;

/// Meanwhile another one was answered by the second room.
const ANSWERED: u64 = 2;

/// How far the two seats are.
type Stage = Arc<AtomicU64, Global>;

/// A room. Who calls the first one stays there until another seat was answered. What is about no room is about all.
#[derive(Drop)]
struct Room {
    stage: Stage,
}

impl Sharded<usize, bool> for Room {
    ghost answers = { λ _ _ _ _ _. ⊤ };

    ghost about = { λ rooms room. if nat_lt room rooms then Some room else None };

    fn shard_about(room: &usize, rooms: usize) -> Option<usize> {
        if *room < rooms {
            return Some(*room);
        }
        None
    }

    fn perform(&mut self, _seat: u8, room: usize) -> bool {
        if room > 0 {
            return true;
        }
        self.stage.store(INSIDE, Ordering::SeqCst);
        is_reached(&self.stage, ANSWERED)
    }

    fn perform_all<S: Shards<Room>>(_rooms: &mut S, _seat: u8, _room: usize) -> bool {
        false
    }
}

/// Waits for this stage: whether it came.
fn is_reached(stage: &AtomicU64, wanted: u64) -> bool {
    for _ in 0..TURNS {
        if stage.load(Ordering::SeqCst) == wanted {
            return true;
        }
        thread::yield_now();
    }
    false
}

/// Seat 1 calls the first room; the other one waits until it stands inside, and calls the second room then. Whether the
/// call was made as it should be.
fn work<R: Wait>(
    rt: &R,
    rooms: &ShardedGate<Room, usize, bool>,
    seat: &mut ShardedSeat<Room, usize, bool>,
    stage: &Stage,
) -> bool
    requires { IsSeatOf rooms.now seat.old.seat }
{
    if seat.number() == 1 {
        return rooms.call(rt, seat, 0);
    }
    if !is_reached(stage, INSIDE) {
        return false;
    }
    let answered = rooms.call(rt, seat, 1);
    stage.store(ANSWERED, Ordering::SeqCst);
    answered
}

/// Who calls one shard doesn't wait for who is inside of another.
#[test]
fn other_shards_are_called_meanwhile(rt: HostRuntime) -> Result<(), Fail> {
    let stage = Arc::new(rt.alloc(), AtomicU64::new(0))?;
    let mut rooms = Vec::new(rt.alloc());
    for _ in 0..2u8 {
        rooms.push(Room {
            stage: Arc::try_clone(&stage)?,
        })?;
    }
    if rooms.is_empty() {
        panic!(rt; "there are two");
    }
    let Ok((rooms, mut seats)) = ShardedGate::new(rt.alloc(), rooms, 2) else {
        panic!(rt; "there is memory")
    };
    let right = AtomicU64::new(0);
    thread::for_each_mut(
        &rt,
        seats.as_mut_slice(),
        2,
        &|_, seat| {
            if work(&rt, &rooms, seat, &stage) {
                right.fetch_add(1, Ordering::SeqCst);
            }
        },
    );
    assert_eq!(rt; right.load(Ordering::SeqCst), 2);
    Ok(())
}
