//! The speed of the lower crates of the fast body.
//!
//! `bench_heap COUNT EVERY SLOTS` writes how many nanoseconds each of these takes: a changed branch of 16
//! entries; a place, where a generation is closed after each EVERY of them, and a place in the order; in an
//! arena and a heap of SLOTS slots, all but a few of them in use, a branch of 16 entries made and
//! freed, a look, a swap of a main word, a main node published, and a settling. Without words few are done, and just written
//! that they were.
#![tactic(auto)]

ghost use Rattle.std.specs.Prelude.{◌≡◌, []};
ghost use Rattle.slot_arena.specs.Arenas.{AreLive};

mod arenas;
mod builders;
mod heaps;
mod placing;

use crate::arenas::{make_and_free, new_arena};
use crate::builders::branches;
use crate::heaps::{
    MainChange, change_main, hold_and_release, look, look_stored, new_heap, settle,
};
use crate::placing::places;
use ctrie_base::Refusal;
use epochs::Heap;
use slot_arena::Ref;
use std::alloc::Global;
use std::env;
use std::process::ExitCode;
use std::time::{Clock, Instant};

/// How many slots are few: those that a cache holds.
const FEW: usize = 512;

/// What is done: `count` of each kind, with a closing after each `every` places, on this many slots.
#[derive(Clone, Copy)]
struct Load {
    count: u32,
    every: u32,
    slots: u32,
}

/// Nanoseconds since then for each of this many.
fn each<C: Clock>(rt: &C, start: Instant, count: u32) -> u128 {
    start.elapsed(rt).map_or(0, |time| time.as_nanos()) / u128::from(count.max(1))
}

/// Writes how long each of this many took, where the clock told the start.
fn tell<R: Clock + Print>(rt: &R, what: &str, start: Option<Instant>, count: u32) {
    if let Some(start) = start {
        let nanos = each(rt, start, count);
        let _ = println!(rt; "{what}: {nanos} ns");
    }
}

/// The figures of builders and places.
fn measure_parts<R: Clock + Print + AllocGlobal>(rt: &R, load: Load) -> Result<(), Refusal> {
    let start = Instant::now(rt).ok();
    let sum = branches(load.count);
    tell(rt, "a changed branch", start, load.count);
    let start = Instant::now(rt).ok();
    let places = places(rt.alloc(), load.count, load.every)?;
    tell(rt, "a place", start, load.count);
    let start = Instant::now(rt).ok();
    let order = places.order()?;
    tell(rt, "a place in the order", start, load.count);
    let _ = println!(rt; "({sum}, {})", order.len());
    Ok(())
}

/// The figures of the arena.
fn measure_arena<R: Clock + Print + AllocGlobal>(rt: &R, load: Load) -> Result<(), Refusal> {
    let (mut arena, refs) = new_arena(rt.alloc(), load.slots)?;
    let start = Instant::now(rt).ok();
    let made = make_and_free(&mut arena, refs.as_slice(), load.count);
    tell(rt, "a branch made and freed", start, load.count);
    let _ = println!(rt; "({made})");
    Ok(())
}

/// The figures of the heap.
fn measure_heap<R: Clock + Print + AllocGlobal>(rt: &R, load: Load) -> Result<(), Refusal> {
    let (mut heap, refs) = new_heap(rt.alloc(), load.slots)?;
    measure_looks(rt, &heap, refs.as_slice(), load.count);
    measure_changes(rt, &mut heap, refs.as_slice(), load.count);
    Ok(())
}

/// The figures of looks at a heap.
fn measure_looks<R: Clock + Print>(rt: &R, heap: &Heap, refs: &[Ref], count: u32)
    requires { AreLive heap.now.heap refs.now }
{
    let few = &refs[..refs.len().min(FEW)];
    let start = Instant::now(rt).ok();
    let few_sum = look(heap, few, count);
    tell(rt, "a look at one of few slots", start, count);
    let start = Instant::now(rt).ok();
    let sum = look(heap, refs, count);
    tell(rt, "a look at one of all slots", start, count);
    let start = Instant::now(rt).ok();
    let stored_sum = look_stored(heap, few, count);
    tell(rt, "a look that asks for nothing", start, count);
    let _ = println!(rt; "({few_sum}, {sum}, {stored_sum})");
}

/// The figures of what changes a heap.
fn measure_changes<R: Clock + Print>(rt: &R, heap: &mut Heap, refs: &[Ref], count: u32)
    requires live { AreLive heap.old.heap refs.now }
    requires free { heap.old.outside ≡ [] }
{
    let start = Instant::now(rt).ok();
    let settled = hold_and_release(heap, refs, count);
    tell(rt, "four slots out of limbo and into it", start, count);
    let start = Instant::now(rt).ok();
    settle(heap, count);
    tell(rt, "a settling of nothing", start, count);
    let start = Instant::now(rt).ok();
    let swapped = change_main(heap, refs, count, MainChange::Swap);
    tell(rt, "a swap of a main word", start, count);
    let start = Instant::now(rt).ok();
    let published = change_main(heap, refs, count, MainChange::Publish);
    tell(rt, "a main node published", start, count);
    let _ = println!(rt; "({settled}, {swapped}, {published})");
}

/// All figures, one after the other.
fn measure<R: Clock + Print + AllocGlobal>(rt: &R, load: Load) -> Result<(), Refusal> {
    measure_parts(rt, load)?;
    measure_arena(rt, load)?;
    measure_heap(rt, load)
}

/// The number that a word is.
fn number(word: Option<&String>) -> Option<u32> {
    word.and_then(|word| word.as_str().parse().ok())
}

/// The load of these words.
fn load_of(words: &[String]) -> Option<Load> {
    let count = number(words.get(0))?;
    let every = number(words.get(1))?;
    let slots = number(words.get(2))?;
    Some(Load {
        count,
        every,
        slots,
    })
}

/// The load that the program's words ask for, if they do.
fn asked_for(rt: &HostRuntime) -> Option<Load> {
    let words = env::args(rt).ok()?.skip(1);
    load_of(words.collect::<Vec<String>>(rt.alloc()).ok()?.as_slice())
}

/// Few of each, whose numbers are written.
fn small<R: Print + AllocGlobal>(rt: &R) -> Result<(), Refusal> {
    let sum = branches(100);
    let order = places(rt.alloc(), 100, 10)?.order()?;
    let _ = println!(rt; "100 branches with the sum {sum}, {} places", order.len());
    small_heap(rt)
}

/// The same of an arena and a heap.
fn small_heap<R: Print + AllocGlobal>(rt: &R) -> Result<(), Refusal> {
    let (mut arena, refs) = new_arena(rt.alloc(), 64)?;
    let made = make_and_free(&mut arena, refs.as_slice(), 100);
    let (mut heap, refs) = new_heap(rt.alloc(), 64)?;
    let sum = look(&heap, refs.as_slice(), 100);
    let settled = hold_and_release(&mut heap, refs.as_slice(), 100);
    settle(&mut heap, 100);
    let swapped = change_main(&mut heap, refs.as_slice(), 100, MainChange::Swap);
    let published = change_main(&mut heap, refs.as_slice(), 100, MainChange::Publish);
    let _ = println!(rt;
        "branches made and freed: {made}, looks with the sum {sum}, slots settled: {settled}, words swapped: {swapped}, nodes published: {published}"
    );
    Ok(())
}

fn main(rt: HostRuntime) -> ExitCode {
    let done = match asked_for(&rt) {
        Some(load) => measure(&rt, load),
        None => small(&rt),
    };
    ExitCode::from(if done.is_ok() { 0 } else { 1 })
}
