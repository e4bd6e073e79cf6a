//! Calls of all kinds by many threads, as a history.

ghost use Rattle.std.specs.Prelude.{◌≡◌};

use crate::callers::{Caller, Manner};
use crate::calls::Drawing;
use crate::maps::{Trouble, sizes_for};
use crate::seats::seats_of;
use crate::told::write_history;
use crate::words::{hash, number, threads};
use ctrie_base::HashKind;
use lock_free::{Board, MapName, NamedSeat, NamedWords, Seat, named, open};
use std::alloc::Global;
use std::io::{BufWriter, Write};
use std::marker::Brand;
use std::sync::Wait;
use std::sync::atomic::{AtomicU64, Ordering};
use std::thread;
use std::thread::Threads;

/// What is done: so many calls by each of so many threads, on so many keys.
#[derive(Clone, Copy)]
pub struct Load {
    manner: Manner,
    threads: u8,
    calls: u64,
    keys: u64,
    hash: HashKind,
    seed: u64,
}

/// How often a thread looks whether the others are there.
const TURNS: u32 = 100_000;

/// What all threads share beside the map: the order of begins and ends, and how many threads are there.
#[derive(Drop)]
struct Shared {
    count: AtomicU64,
    there: AtomicU64,
}

/// Waits for all threads, or a while.
fn meet(shared: &Shared, threads: u8) {
    shared.there.fetch_add(1, Ordering::SeqCst);
    for _ in 0..TURNS {
        if shared.there.load(Ordering::SeqCst) >= u64::from(threads) {
            return;
        }
        thread::yield_now();
    }
}

/// A thread's calls.
fn work<N: MapName, R: Wait>(
    rt: &R,
    alloc: Global,
    words: &NamedWords<N>,
    shared: &Shared,
    load: Load,
    seat: NamedSeat<N>,
) -> Result<Caller<N>, Trouble> {
    let mut drawing = Drawing::new(load.seed, seat.number(), load.keys, load.hash);
    let mut caller = Caller::new(alloc, seat);
    meet(shared, load.threads);
    for _ in 0..load.calls {
        let call = drawing.call();
        caller = caller.call_so(rt, alloc, words, &shared.count, load.manner, call)?;
        if let Some(reply) = caller.reply() {
            drawing.learn(&call, reply);
        }
    }
    Ok(caller)
}

/// Lists what each handle names, and closes those that are read-only.
fn list_all<N: MapName, R: Wait>(
    rt: &R,
    alloc: Global,
    words: &NamedWords<N>,
    shared: &Shared,
    caller: Caller<N>,
) -> Result<Caller<N>, Trouble> {
    let mut caller = caller;
    for handle in 0..256 {
        caller = caller.list(rt, alloc, words, &shared.count, handle)?;
    }
    Ok(caller)
}

/// The load's calls on this map, as a history.
fn write_calls<N: MapName + Send + Sync, R: Threads + Wait + Sync + AllocGlobal, W: Write + Drop>(
    rt: &R,
    board: Board,
    seat: Seat,
    load: Load,
    output: &mut W,
) -> Result<(), Trouble>
    requires name { N.map_id ≡ record { table = board.shared.table_id; sizes = board.shared.key } }
    requires slots { board.shared.table_id.slots ≡ 0 }
    requires seat { (seat.table ≡ board.shared.table_id) × (seat.view.sizes ≡ board.shared.key) }
{
    let alloc = rt.alloc();
    let (words, first) = named::<N>(board, seat);
    let seats = seats_of(alloc, &words, first, load.threads)?;
    let shared = Shared {
        count: AtomicU64::new(0),
        there: AtomicU64::new(0),
    };
    let callers = thread::map_vec(
        rt,
        seats,
        &|seat: NamedSeat<N>| work(rt, alloc, &words, &shared, load, seat),
    )?;
    let mut seats = Vec::new(alloc);
    let mut histories = Vec::new(alloc);
    for caller in callers {
        let mut caller = caller?;
        if caller.number() == load.threads {
            caller = list_all(rt, alloc, &words, &shared, caller)?;
        }
        let (seat, told) = caller.into_parts();
        seats.push(seat)?;
        histories.push(told)?;
    }
    if words.finish(alloc, seats).is_err() {
        return Err(Trouble::Memory);
    }
    let count = shared.count.load(Ordering::SeqCst);
    write_history(alloc, output, histories, count)
}

/// The load's calls, as a history.
pub fn write<R: Threads + Wait + Sync + AllocGlobal, W: Write + Drop>(
    rt: &R,
    load: Load,
    output: W,
) -> Result<(), Trouble> {
    let calls = load.calls.saturating_mul(u64::from(load.threads));
    let (board, seat) = open(rt.alloc(), sizes_for(load.threads, load.hash, calls))?;
    let mut output = BufWriter::new(rt.alloc(), output)?;
    writeln!(output, "hash {}", load.hash)?;
    write_calls::<Brand, R, BufWriter<W>>(rt, board, seat, load, &mut output)?;
    output.flush()?;
    Ok(())
}

/// The load of these words, in which calls are made in this manner.
pub fn load_of(manner: Manner, words: &[String]) -> Option<Load> {
    Some(Load {
        manner,
        threads: threads(words.get(0))?,
        calls: number(words.get(1))?,
        keys: number(words.get(2))?,
        hash: hash(words.get(3))?,
        seed: number(words.get(4))?,
    })
}

/// Few calls, made in this manner.
pub fn small<R: Threads + Wait + Sync + Print + AllocGlobal>(
    rt: &R,
    manner: Manner,
) -> Result<(), Trouble> {
    let load = Load {
        manner,
        threads: 2,
        calls: 200,
        keys: 12,
        hash: HashKind::Fold,
        seed: 1,
    };
    let mut text = Vec::new(rt.alloc());
    write(rt, load, &mut text)?;
    let lines = text.iter().filter(|byte| **byte == b'\n').count();
    if lines > 1 {
        let _ = println!(rt; "the calls of {} threads have a history", load.threads);
    }
    Ok(())
}
