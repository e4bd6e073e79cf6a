//! A load on a new map.

ghost use Rattle.std.specs.Prelude.{◌≡◌};

use crate::caller::Share;
use crate::loads::Load;
use crate::member::{Member, found};
use bench_calls::{Balance, number};
use lock_free::{
    Board, CallError, MapName, NamedSeat, NamedWords, OpenError, Seat, Sizes, named, open,
};
use nodes::HashKind;
use std::alloc::{AllocError, Global};
use std::marker::Brand;
use std::sync::Wait;
use std::sync::atomic::{AtomicBool, Ordering};
use std::thread::Threads;
use std::time::{Clock, Instant};
use std::{fmt, thread};

/// What is done: this many calls of a load in all, after this many keys that are put.
#[derive(Clone, Copy)]
pub(crate) struct Task {
    load: Load,
    filled: u64,
    count: u64,
    keys: u64,
    /// Those of the map, with a seat for each thread.
    sizes: Sizes,
}

/// What a thread does.
#[derive(Clone, Copy)]
enum Part {
    /// Its calls are counted.
    Counted(Share),
    /// It calls until those are over.
    Beside(Share),
}

/// What came of it.
#[derive(Clone, Copy)]
struct Done {
    nanos: u128,
    refused: u64,
    wrong: u64,
}

/// Why nothing came of it.
#[derive(Clone, Copy, Debug)]
pub(crate) enum Trouble {
    /// No map has these sizes.
    BadSizes,
    /// Memory was refused.
    Memory,
    /// What is left in the map couldn't be read.
    Unread(CallError),
}

impl fmt::Display for Trouble {
    fn fmt<W: fmt::Write>(&self, f: &mut fmt::Formatter<W>) -> fmt::Result {
        match self {
            Trouble::BadSizes => f.write_str("no map has these sizes"),
            Trouble::Memory => f.write_str("no memory"),
            Trouble::Unread(why) => write!(f, "the map can't be read: {why:?}"),
        }
    }
}

impl From<AllocError> for Trouble {
    fn from(_: AllocError) -> Trouble {
        Trouble::Memory
    }
}

impl From<CallError> for Trouble {
    fn from(why: CallError) -> Trouble {
        Trouble::Unread(why)
    }
}

impl From<OpenError> for Trouble {
    fn from(error: OpenError) -> Trouble {
        match error {
            OpenError::BadSizes => Trouble::BadSizes,
            OpenError::Memory => Trouble::Memory,
        }
    }
}

/// The number that a word is, below 2^32.
fn size(word: Option<&String>) -> Option<u32> {
    u32::try_from(number(word)?).ok()
}

impl Task {
    /// That of these words.
    pub(crate) fn of(words: &[String]) -> Option<Task> {
        Some(Task {
            load: Load::named(words.get(0)?.as_str())?,
            filled: number(words.get(2))?,
            count: number(words.get(3))?,
            keys: number(words.get(4))?,
            sizes: Sizes {
                seats: u8::try_from(number(words.get(1))?).ok()?,
                hash: HashKind::Low,
                small: size(words.get(5))?,
                medium: size(words.get(6))?,
                wide: size(words.get(7))?,
            },
        })
    }

    /// What the thread at this place among all does.
    fn part(self, place: usize) -> Part {
        match self.load.beside() {
            None => Part::Counted(self.share(
                self.load,
                self.count / u64::from(self.sizes.seats.max(1)),
            )),
            Some(_) if place == 0 => Part::Counted(self.share(self.load, self.count)),
            Some(other) => Part::Beside(self.share(other, u64::MAX)),
        }
    }

    fn share(self, load: Load, calls: u64) -> Share {
        Share {
            load,
            calls,
            keys: self.keys,
        }
    }
}

/// This many threads that have made no call: that of the first seat, and of those that are split off.
fn members<N: MapName>(
    alloc: Global,
    words: &NamedWords<N>,
    first: NamedSeat<N>,
    count: u8,
) -> Result<Vec<Member<N>>, AllocError> {
    let mut first = first;
    let mut members = Vec::with_capacity(alloc, usize::from(count))?;
    for _ in 1..count {
        if let Some(seat) = first.split(alloc, words)? {
            members.push(Member::new(seat))?;
        }
    }
    members.push(Member::new(first))?;
    Ok(members)
}

/// What came of the calls of all, where this is left in the map.
fn sum<N: MapName>(members: &[Member<N>], found: Balance) -> Done {
    let (mut balance, mut refused) = (Balance::nothing(), 0u64);
    let mut nanos = 0u128;
    for member in members {
        balance.join(member.caller.balance);
        refused = refused.wrapping_add(member.caller.refused);
        nanos = nanos.max(member.ended);
    }
    Done {
        nanos,
        refused,
        wrong: balance.differences(found),
    }
}

/// Has the task done on a new map.
fn run<R: Threads + Wait + Sync + Clock + AllocGlobal>(
    rt: &R,
    task: Task,
) -> Result<Done, Trouble> {
    let (board, seat) = open(rt.alloc(), task.sizes)?;
    run_by::<Brand, R>(rt, board, seat, task)
}

/// The same on this map.
fn run_by<N: MapName + Send + Sync, R: Threads + Wait + Sync + Clock + AllocGlobal>(
    rt: &R,
    board: Board,
    seat: Seat,
    task: Task,
) -> Result<Done, Trouble>
    requires name { N.map_id ≡ record { table = board.shared.table_id; sizes = board.shared.key } }
    requires slots { board.shared.table_id.slots ≡ 0 }
    requires seat { (seat.table ≡ board.shared.table_id) × (seat.view.sizes ≡ board.shared.key) }
{
    let (words, first) = named::<N>(board, seat);
    let mut members = members(rt.alloc(), &words, first, task.sizes.seats)?;
    perform(rt, &words, members.as_mut_slice(), task)
}

/// The same, each of these on a thread of its own. Before it each puts the keys, one after the other, and after it one reads what is left.
fn perform<N: MapName + Send + Sync, R: Threads + Wait + Sync + Clock + AllocGlobal>(
    rt: &R,
    words: &NamedWords<N>,
    members: &mut [Member<N>],
    task: Task,
) -> Result<Done, Trouble> {
    for one in members.iter_mut() {
        one.fill(rt, words, task.filled);
    }
    let are_over = AtomicBool::new(false);
    let start = Instant::now(rt).ok();
    thread::for_each_mut(
        rt,
        members,
        usize::from(task.sizes.seats.max(1)),
        &|place, member| match task.part(place) {
            Part::Counted(share) => {
                member.work(rt, words, share, start);
                are_over.store(true, Ordering::SeqCst);
            }
            Part::Beside(share) => member.accompany(rt, words, share, &are_over),
        },
    );
    let keys = task.keys.max(task.filled);
    let found = found(rt, words, members, task.load, keys)?;
    Ok(sum(members, found))
}

/// The task, with its figures.
pub(crate) fn measure<R: Threads + Wait + Sync + Clock + Print + AllocGlobal>(
    rt: &R,
    task: Task,
) -> Result<(), Trouble> {
    let done = run(rt, task)?;
    let _ = println!(rt;
        "{} calls by {} threads, {} ns, {} refused, {} wrong, {} words",
        task.count,
        task.sizes.seats,
        done.nanos,
        done.refused,
        done.wrong,
        task.sizes.words()
    );
    Ok(())
}

/// Few calls of each load, of which it is written what came of them.
pub(crate) fn small<R: Threads + Wait + Sync + Clock + Print + AllocGlobal>(
    rt: &R,
) -> Result<(), Trouble> {
    for name in [
        "mix", "get", "put", "insert", "spread", "copies", "copy", "reading", "counted",
    ] {
        if let Some(load) = Load::named(name) {
            let done = run(rt, few(load))?;
            let _ = println!(rt; "{name}: {} wrong", done.wrong);
        }
    }
    let done = run(rt, tight())?;
    let _ = println!(rt; "tight: {} refused, {} wrong", done.refused, done.wrong);
    let done = run(rt, shared())?;
    let _ = println!(rt; "shared: {} wrong", done.wrong);
    Ok(())
}

/// A map that grows, by one thread, in so few slots that those of replaced nodes have to become free in between, wide ones too, while more
/// medium ones are free than the thread wants: all keys have room in it.
fn tight() -> Task {
    Task {
        load: Load::Spread,
        filled: 0,
        count: 6_000,
        keys: 6_000,
        sizes: Sizes {
            seats: 1,
            hash: HashKind::Low,
            small: 20_000,
            medium: 2_000,
            wide: 400,
        },
    }
}

/// Puts over values by two threads, in so few slots that one that waits for its processor in the midst of a call holds back those that the
/// other one has retired: that one waits for it then.
fn shared() -> Task {
    Task {
        load: Load::Put,
        filled: 40,
        count: 40_000,
        keys: 40,
        sizes: Sizes {
            seats: 2,
            hash: HashKind::Low,
            small: 300,
            medium: 80,
            wide: 80,
        },
    }
}

/// Few calls of this load, by two threads.
fn few(load: Load) -> Task {
    Task {
        load,
        filled: match load {
            Load::Spread => 0,
            _ => 40,
        },
        count: match load {
            Load::Reading => 40,
            _ => 4_000,
        },
        keys: 40,
        sizes: Sizes {
            seats: 2,
            hash: HashKind::Low,
            small: 400_000,
            medium: 10_000,
            wide: 30_000,
        },
    }
}
