//! Calls on keys as a whole: straight where nothing stands in the way, else as calls of any kind.

ghost use Rattle.std.specs.Prelude.{◌≡◌, ◌≤◌, ◌<◌, ◌^◌, ◌∷◌, [], None, length};
ghost use Rattle.machine_model.specs.Calls.{handle_of};
ghost use Rattle.machine_model.specs.Lines.{new_try};
ghost use Rattle.lock_free.specs.declared.rules.View.{View};
ghost use Rattle.lock_free.specs.Attempts.{IsKeyed};
ghost use Rattle.lock_free.specs.BegunCalls.{StillBegins};
ghost use Rattle.lock_free.specs.Descending.{IsAtOne, IsFoundAt, IsHere, IsOnPath, IsRemovingAt, IsTask};
ghost use Rattle.lock_free.specs.Holding.{IsOn};
ghost use Rattle.lock_free.specs.KeyRuns.{IsBeside, IsCalling, IsDone};
ghost use Rattle.lock_free.specs.LinkReads.{IsThere};
ghost use Rattle.lock_free.specs.Loading.{IsSound};
ghost use Rattle.lock_free.specs.Reaching.{IsAtPlace};
ghost use Rattle.lock_free.specs.Stocks.{IsStock};
ghost use Rattle.lock_free.specs.TriedCalls.{HasTold};
ghost use Rattle.lock_free.specs.WholeCalls.{HasLeft, RestsWith};

use crate::attempts::{Attempt, give_value, take_out};
use crate::beginning::begin_call;
use crate::call_errors::CallError;
use crate::call_runs::HANDLES;
use crate::calling::start_within;
use crate::descending::{Path, Rest, rest_in};
use crate::finding::{Met, meet_single};
use crate::key_ends::{answer, end_change};
use crate::lacks::Manner;
use crate::loads::{Actor, Words};
use crate::reaching::{Place, Reached, go_down_within};
use crate::reading::{Given, Way};
use crate::rooting::seek_root_within;
use crate::slow_ends::{call_on, reached_on, removal_on, spent_on};
use crate::stock::Stock;
use crate::tasks::{Task, absent_reply, inserts, when_found};
use crate::ways_down::see_given;
use history::{Access, Call, Reply};
use machine_model::{Site, WhenFound};
use std::sync::Wait;

/// A call by this seat, `seat`, that removes its key, which stands at this position with this value.
#[inline(always)]
fn call_removes<R: Wait>(
    rt: &R,
    words: &Words,
    actor: &mut Actor,
    stock: &mut Stock,
    seat: u8,
    task: &Task,
    path: &mut Path,
    given: Given,
    position: usize,
    former: u64,
) -> Result<Reply, CallError>
    requires table { actor.old.table_id ≡ words.now.table_id }
    requires sound { IsSound words.now.table_id.words actor.old.me.0 }
    requires stock { IsStock stock.old actor.old.me.0 }
    requires its { actor.old.me.0.actor ≡ seat }
    requires few { actor.old.me.0.actor ≤ actor.old.me.0.sizes.seats }
    requires task { IsTask actor.old.me.0 task.now }
    requires small { task.now.start < 2 ^ 36 }
    requires calling { IsCalling actor.old.me.0 task.now.call task.now.access }
    requires some { 0 < length path.old.items }
    requires at { IsHere actor.old.me.0 path.old.items given (IsRemovingAt actor.old.me.0 position former) }
    ensures table { actor.new.table_id ≡ actor.old.table_id }
    ensures sound { IsSound words.now.table_id.words actor.new.me.0 }
    ensures stock { IsStock stock.new actor.new.me.0 }
    ensures out { IsDone actor.old.me.0 task.now.call result actor.new.me.0 }
{
    match rest_in(given.header.shape, path.len()) {
        Rest::Any => {
            let path = path.as_slice();
            let tries = u64::MAX;
            let swapped = take_out(
                tries, words, actor, stock, task, path, given, position, former,
            );
            end_change(rt, words, actor, stock, seat, task, Some(former), swapped)
        }
        Rest::Entry | Rest::Single => removal_on(
            rt, words, actor, stock, seat, task, path, given, position, former,
        ),
    }
}

/// A call on a key by this seat, `seat`, whose key stands at this position with this value.
#[inline(always)]
fn call_at_key<R: Wait>(
    rt: &R,
    words: &Words,
    actor: &mut Actor,
    stock: &mut Stock,
    seat: u8,
    task: &Task,
    path: &mut Path,
    given: Given,
    position: usize,
    value: u64,
) -> Result<Reply, CallError>
    requires table { actor.old.table_id ≡ words.now.table_id }
    requires sound { IsSound words.now.table_id.words actor.old.me.0 }
    requires stock { IsStock stock.old actor.old.me.0 }
    requires its { actor.old.me.0.actor ≡ seat }
    requires few { actor.old.me.0.actor ≤ actor.old.me.0.sizes.seats }
    requires task { IsTask actor.old.me.0 task.now }
    requires small { task.now.start < 2 ^ 36 }
    requires calling { IsCalling actor.old.me.0 task.now.call task.now.access }
    requires some { 0 < length path.old.items }
    requires at { IsHere actor.old.me.0 path.old.items given (IsFoundAt actor.old.me.0 task.now.call position value) }
    ensures table { actor.new.table_id ≡ actor.old.table_id }
    ensures sound { IsSound words.now.table_id.words actor.new.me.0 }
    ensures stock { IsStock stock.new actor.new.me.0 }
    ensures out { IsDone actor.old.me.0 task.now.call result actor.new.me.0 }
{
    let (call, access) = (task.call, task.access);
    match when_found(call, value) {
        WhenFound::Answers(reply) => answer(words, actor, stock, seat, call, access, reply),
        WhenFound::Sets => {
            let path = path.as_slice();
            let site = Site::At { position };
            let former = Some(value);
            let tries = u64::MAX;
            let swapped = give_value(tries, words, actor, stock, task, path, given, site, former);
            end_change(rt, words, actor, stock, seat, task, former, swapped)
        }
        WhenFound::Removes => call_removes(
            rt, words, actor, stock, seat, task, path, given, position, value,
        ),
    }
}

/// A call by this seat, `seat`, whose key is absent: another one stands at this position.
#[inline(always)]
fn call_beside<R: Wait>(
    rt: &R,
    words: &Words,
    actor: &mut Actor,
    stock: &mut Stock,
    seat: u8,
    task: &Task,
    path: &mut Path,
    given: Given,
    position: usize,
) -> Result<Reply, CallError>
    requires table { actor.old.table_id ≡ words.now.table_id }
    requires sound { IsSound words.now.table_id.words actor.old.me.0 }
    requires stock { IsStock stock.old actor.old.me.0 }
    requires its { actor.old.me.0.actor ≡ seat }
    requires few { actor.old.me.0.actor ≤ actor.old.me.0.sizes.seats }
    requires task { IsTask actor.old.me.0 task.now }
    requires small { task.now.start < 2 ^ 36 }
    requires calling { IsCalling actor.old.me.0 task.now.call task.now.access }
    requires some { 0 < length path.old.items }
    requires at { IsHere actor.old.me.0 path.old.items given (IsBeside actor.old.me.0 task.now.call position) }
    ensures table { actor.new.table_id ≡ actor.old.table_id }
    ensures sound { IsSound words.now.table_id.words actor.new.me.0 }
    ensures stock { IsStock stock.new actor.new.me.0 }
    ensures out { IsDone actor.old.me.0 task.now.call result actor.new.me.0 }
{
    let (call, access) = (task.call, task.access);
    if !inserts(call) {
        let reply = absent_reply(call);
        return answer(words, actor, stock, seat, call, access, reply);
    }
    let path = path.as_slice();
    let site = Site::Beside { position };
    let swapped = give_value(u64::MAX, words, actor, stock, task, path, given, site, None);
    end_change(rt, words, actor, stock, seat, task, None, swapped)
}

/// A call by this seat, `seat`, whose way has ended at the single in this slot, the entry at this position of the branch that was given.
#[inline(always)]
fn call_at_single<R: Wait>(
    rt: &R,
    words: &Words,
    actor: &mut Actor,
    stock: &mut Stock,
    seat: u8,
    task: &Task,
    path: &mut Path,
    given: Given,
    position: usize,
    slot: u32,
) -> Result<Reply, CallError>
    requires table { actor.old.table_id ≡ words.now.table_id }
    requires sound { IsSound words.now.table_id.words actor.old.me.0 }
    requires stock { IsStock stock.old actor.old.me.0 }
    requires its { actor.old.me.0.actor ≡ seat }
    requires few { actor.old.me.0.actor ≤ actor.old.me.0.sizes.seats }
    requires task { IsTask actor.old.me.0 task.now }
    requires small { task.now.start < 2 ^ 36 }
    requires calling { IsCalling actor.old.me.0 task.now.call task.now.access }
    requires some { 0 < length path.old.items }
    requires at { IsHere actor.old.me.0 path.old.items given (IsAtOne actor.old.me.0 position slot) }
    ensures table { actor.new.table_id ≡ actor.old.table_id }
    ensures sound { IsSound words.now.table_id.words actor.new.me.0 }
    ensures stock { IsStock stock.new actor.new.me.0 }
    ensures out { IsDone actor.old.me.0 task.now.call result actor.new.me.0 }
{
    match meet_single(words, actor, task.key, slot) {
        Met::Found(value) => call_at_key(
            rt, words, actor, stock, seat, task, path, given, position, value,
        ),
        Met::Other => call_beside(rt, words, actor, stock, seat, task, path, given, position),
    }
}

/// The same of one whose way has ended there.
#[inline(always)]
fn call_there<R: Wait>(
    rt: &R,
    words: &Words,
    actor: &mut Actor,
    stock: &mut Stock,
    seat: u8,
    task: &Task,
    path: &mut Path,
    reached: Reached,
) -> Result<Reply, CallError>
    requires table { actor.old.table_id ≡ words.now.table_id }
    requires sound { IsSound words.now.table_id.words actor.old.me.0 }
    requires stock { IsStock stock.old actor.old.me.0 }
    requires its { actor.old.me.0.actor ≡ seat }
    requires few { actor.old.me.0.actor ≤ actor.old.me.0.sizes.seats }
    requires task { IsTask actor.old.me.0 task.now }
    requires small { task.now.start < 2 ^ 36 }
    requires calling { IsCalling actor.old.me.0 task.now.call task.now.access }
    requires some { 0 < length path.old.items }
    requires at { IsThere actor.old.me.0 path.old.items reached.link (IsAtPlace actor.old.me.0 task.now reached.place) }
    ensures table { actor.new.table_id ≡ actor.old.table_id }
    ensures sound { IsSound words.now.table_id.words actor.new.me.0 }
    ensures stock { IsStock stock.new actor.new.me.0 }
    ensures out { IsDone actor.old.me.0 task.now.call result actor.new.me.0 }
{
    let (call, access, link) = (task.call, task.access, reached.link);
    match reached.place {
        Place::Single { position, slot } => {
            let given = see_given(words, actor, link);
            call_at_single(
                rt, words, actor, stock, seat, task, path, given, position, slot,
            )
        }
        Place::Absent => {
            if !inserts(call) {
                let reply = absent_reply(call);
                return answer(words, actor, stock, seat, call, access, reply);
            }
            let given = see_given(words, actor, link);
            let path = path.as_slice();
            let site = Site::Absent;
            let swapped = give_value(u64::MAX, words, actor, stock, task, path, given, site, None);
            end_change(rt, words, actor, stock, seat, task, None, swapped)
        }
        Place::List | Place::Tomb(_) | Place::Renews => {
            reached_on(rt, words, actor, stock, seat, task, path, reached)
        }
    }
}

/// A call on a key by this seat, `seat`, which has come to the root of its handle, in this slot.
#[inline(always)]
fn call_rooted<R: Wait>(
    rt: &R,
    words: &Words,
    actor: &mut Actor,
    stock: &mut Stock,
    seat: u8,
    task: &Task,
    root: u32,
) -> Result<Reply, CallError>
    requires table { actor.old.table_id ≡ words.now.table_id }
    requires sound { IsSound words.now.table_id.words actor.old.me.0 }
    requires stock { IsStock stock.old actor.old.me.0 }
    requires its { actor.old.me.0.actor ≡ seat }
    requires few { actor.old.me.0.actor ≤ actor.old.me.0.sizes.seats }
    requires task { IsTask actor.old.me.0 task.now }
    requires small { task.now.start < 2 ^ 36 }
    requires calling { IsCalling actor.old.me.0 task.now.call task.now.access }
    requires at { IsOnPath actor.old.me.0 (root ∷ []) }
    ensures table { actor.new.table_id ≡ actor.old.table_id }
    ensures sound { IsSound words.now.table_id.words actor.new.me.0 }
    ensures stock { IsStock stock.new actor.new.me.0 }
    ensures out { IsDone actor.old.me.0 task.now.call result actor.new.me.0 }
{
    let mut path = Path::new();
    path.push(root);
    let Some(reached) = go_down_within(u64::MAX, words, actor, task, &mut path) else {
        return spent_on(rt, words, actor, stock, seat, task.call, task.access);
    };
    call_there(rt, words, actor, stock, seat, task, &mut path, reached)
}

/// A call on a key by this seat, `seat`, which has begun on a handle that allows this.
#[inline(always)]
fn call_begun<R: Wait>(
    rt: &R,
    words: &Words,
    actor: &mut Actor,
    stock: &mut Stock,
    seat: u8,
    call: Call,
    access: Access,
) -> Result<Reply, CallError>
    requires table { actor.old.table_id ≡ words.now.table_id }
    requires sound { IsSound words.now.table_id.words actor.old.me.0 }
    requires stock { IsStock stock.old actor.old.me.0 }
    requires its { actor.old.me.0.actor ≡ seat }
    requires few { actor.old.me.0.actor ≤ actor.old.me.0.sizes.seats }
    requires calling { IsCalling actor.old.me.0 call access }
    requires at { IsOn actor.old.me.0 new_try }
    ensures table { actor.new.table_id ≡ actor.old.table_id }
    ensures sound { IsSound words.now.table_id.words actor.new.me.0 }
    ensures stock { IsStock stock.new actor.new.me.0 }
    ensures out { IsDone actor.old.me.0 call result actor.new.me.0 }
{
    let handle = call.handle();
    let way = Way { handle, access };
    let Some(rooted) = seek_root_within(u64::MAX, words, actor, way) else {
        return spent_on(rt, words, actor, stock, seat, call, access);
    };
    let task = Task::new(call, access, stock.sizes().hash, rooted.generation);
    call_rooted(rt, words, actor, stock, seat, &task, rooted.slot)
}

/// A call on a key by this seat, `seat`, which hasn't begun in ever so many looks: it begins as often as it takes, and goes on as one of any kind.
#[cold]
#[inline(never)]
pub(crate) fn call_late<R: Wait>(
    rt: &R,
    words: &Words,
    actor: &mut Actor,
    stock: &mut Stock,
    seat: u8,
    call: Call,
) -> Result<Reply, CallError>
    requires table { actor.old.table_id ≡ words.now.table_id }
    requires sound { IsSound words.now.table_id.words actor.old.me.0 }
    requires stock { IsStock stock.old actor.old.me.0 }
    requires its { actor.old.me.0.actor ≡ seat }
    requires few { actor.old.me.0.actor ≤ actor.old.me.0.sizes.seats }
    requires keyed { IsKeyed call }
    requires low { handle_of call < 256 }
    requires ready { RestsWith actor.old.me.0 None }
    ensures table { actor.new.table_id ≡ actor.old.table_id }
    ensures sound { IsSound words.now.table_id.words actor.new.me.0 }
    ensures stock { IsStock stock.new actor.new.me.0 }
    ensures left { HasLeft actor.old.me.0 actor.new.me.0 }
    ensures told { (before : View) → StillBegins words.now.table_id.words before call actor.old.me.0 → HasTold before call result actor.new.me.0 }
{
    let way = begin_call(rt, words, actor, stock, seat, call)?;
    call_on(
        rt,
        words,
        actor,
        stock,
        seat,
        call,
        way.access,
        Attempt::Again,
    )
}

/// A call on a key by this seat, `seat`, as long as it takes.
#[inline(always)]
pub(crate) fn run_call<R: Wait>(
    rt: &R,
    words: &Words,
    actor: &mut Actor,
    stock: &mut Stock,
    seat: u8,
    call: Call,
) -> Result<Reply, CallError>
    requires table { actor.old.table_id ≡ words.now.table_id }
    requires sound { IsSound words.now.table_id.words actor.old.me.0 }
    requires stock { IsStock stock.old actor.old.me.0 }
    requires its { actor.old.me.0.actor ≡ seat }
    requires few { actor.old.me.0.actor ≤ actor.old.me.0.sizes.seats }
    requires keyed { IsKeyed call }
    requires ready { RestsWith actor.old.me.0 None }
    ensures table { actor.new.table_id ≡ actor.old.table_id }
    ensures sound { IsSound words.now.table_id.words actor.new.me.0 }
    ensures stock { IsStock stock.new actor.new.me.0 }
    ensures left { HasLeft actor.old.me.0 actor.new.me.0 }
    ensures told { HasTold actor.old.me.0 call result actor.new.me.0 }
{
    if call.handle() >= HANDLES {
        return Err(CallError::NoHandle);
    }
    stock.begin(Manner::Waits);
    let way = match start_within(u64::MAX, words, actor, seat, stock.epoch(), &call) {
        Ok(Some(way)) => way,
        Ok(None) => return call_late(rt, words, actor, stock, seat, call),
        Err(denial) => return Err(CallError::from(denial)),
    };
    call_begun(rt, words, actor, stock, seat, call, way.access)
}
