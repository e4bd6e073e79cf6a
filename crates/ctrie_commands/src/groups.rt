//! Which seats share a thread, and what their threads do.

ghost use Rattle.std.specs.Prelude.{◌≡◌, ◌↔◌, All, IfOk, IsTrue};
ghost use Rattle.lock_runner.specs.Seats.{IsSeatOf, AreSeatsOf};
ghost use Rattle.ctrie_commands.specs.Beneath.script_text.specs.Views.{read};
ghost use Rattle.ctrie_commands.specs.Working.{IsUnused, HasWorked, HaveWorked, GroupsHaveWorked, NamesCall, HasWork, IsGroup, all_seats, AreJoined};

use crate::working::Worker;
use lock_runner::{Between, Runner, Seat};
use script_commands::{Script, ThreadLine};
use std::alloc::{AllocError, Global};
use std::sync::Wait;
use std::thread;
use std::thread::Threads;

/// Each actor that has lines, and the one that takes the steps of the sweep, is a thread that carries them
/// out. Where no thread can be made, the caller does.
pub(crate) fn work_all<R: Threads + Wait + Sync, B: Between + Sync>(
    rt: &R,
    alloc: Global,
    runner: &Runner,
    script: &Script<ThreadLine>,
    between: &B,
    seats: Vec<Seat>,
) -> Result<Vec<Worker>, AllocError>
    requires seats { AreSeatsOf runner.now seats.items }
    requires unused { All IsUnused seats.items }
    ensures { IfOk result (λ workers. HaveWorked (read script.now) seats.items workers.items) }
{
    let groups = grouped(alloc, script, seats)?;
    let results = work_groups(rt, alloc, runner, script, between, groups)?;
    joined(alloc, results)
}

/// A thread for each group.
fn work_groups<R: Threads + Wait + Sync, B: Between + Sync>(
    rt: &R,
    alloc: Global,
    runner: &Runner,
    script: &Script<ThreadLine>,
    between: &B,
    groups: Vec<Vec<Seat>>,
) -> Result<Vec<Result<Vec<Worker>, AllocError>>, AllocError>
    requires seats { All (λ group. AreSeatsOf runner.now group.items) groups.items }
    requires unused { All (λ group. All IsUnused group.items) groups.items }
    ensures { IfOk result (λ results. GroupsHaveWorked (read script.now) groups.items results.items) }
{
    thread::map_vec(
        rt,
        groups,
        &|group: Vec<Seat>| work_group(rt, alloc, runner, script, between, group),
    )
}

/// The seats in their order, a group for each thread: a seat that has something to do, and before it those
/// that have nothing.
fn grouped(
    alloc: Global,
    script: &Script<ThreadLine>,
    seats: Vec<Seat>,
) -> Result<Vec<Vec<Seat>>, AllocError>
    ensures seats { IfOk result (λ groups. seats.items ≡ all_seats groups.items) }
    ensures apart { IfOk result (λ groups. All (λ group. IsGroup (read script.now) group.items) groups.items) }
{
    let mut groups = Vec::new(alloc);
    let mut group = Vec::new(alloc);
    for seat in seats {
        let is_last = has_work(script, seat.actor());
        group.push(seat)?;
        if is_last {
            groups.push(group)?;
            group = Vec::new(alloc);
        }
    }
    if !group.is_empty() {
        groups.push(group)?;
    }
    Ok(groups)
}

/// Whether the actor has lines, or takes the steps of the sweep.
fn has_work(script: &Script<ThreadLine>, actor: u8) -> bool
    ensures { IsTrue result ↔ HasWork (read script.now) actor }
{
    actor > script.limits.actors || names_call(&script.lines, actor)
}

/// Whether one of these lines names a call for the actor.
fn names_call(lines: &[ThreadLine], actor: u8) -> bool
    ensures { IsTrue result ↔ NamesCall actor lines.now }
{
    for line in lines {
        if matches!(line, ThreadLine::Do { actor: owner, .. } if *owner == actor) {
            return true;
        }
    }
    false
}

/// What one thread does: what is to be done with each of its seats, one after the other.
fn work_group<R: Wait, B: Between>(
    rt: &R,
    alloc: Global,
    runner: &Runner,
    script: &Script<ThreadLine>,
    between: &B,
    group: Vec<Seat>,
) -> Result<Vec<Worker>, AllocError>
    requires seats { AreSeatsOf runner.now group.items }
    requires unused { All IsUnused group.items }
    ensures { IfOk result (λ workers. HaveWorked (read script.now) group.items workers.items) }
{
    let mut workers = Vec::new(alloc);
    for seat in group {
        workers.push(work(rt, alloc, runner, script, between, seat)?)?;
    }
    Ok(workers)
}

/// Performs the calls that the lines name for the seat's actor, or for the last actor the steps of the sweep.
fn work<R: Wait, B: Between>(
    rt: &R,
    alloc: Global,
    runner: &Runner,
    script: &Script<ThreadLine>,
    between: &B,
    seat: Seat,
) -> Result<Worker, AllocError>
    requires seat { IsSeatOf runner.now seat }
    requires unused { IsUnused seat }
    ensures { IfOk result (HasWorked (read script.now) seat) }
{
    let performs = seat.actor() <= script.limits.actors;
    let mut worker = Worker {
        seat,
        denied: Vec::new(alloc),
    };
    if performs {
        worker.perform_lines(rt, runner, &script.lines, between)?;
    } else {
        worker.sweep_lines(rt, runner, &script.lines)?;
    }
    Ok(worker)
}

/// The workers of all groups, in their order, unless a growth was refused to one.
fn joined(
    alloc: Global,
    results: Vec<Result<Vec<Worker>, AllocError>>,
) -> Result<Vec<Worker>, AllocError>
    ensures { IfOk result (λ workers. AreJoined results.items workers.items) }
{
    let mut workers = Vec::new(alloc);
    for result in results {
        let mut group = result?;
        workers.append(&mut group)?;
    }
    Ok(workers)
}
