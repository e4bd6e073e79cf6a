//! How a call on a key goes on that can't end at once: as a call of any kind.

ghost use Rattle.std.specs.Prelude.{◌≡◌, ◌≤◌, ◌<◌, ◌^◌};
ghost use Rattle.history.specs.declared.replies.Reply.TheVariants as reply;
ghost use Rattle.machine_model.specs.Lines.{new_try};
ghost use Rattle.lock_free.specs.declared.parking.Parked.TheVariants as parked;
ghost use Rattle.lock_free.specs.Attempts.{IsAttempted};
ghost use Rattle.lock_free.specs.Descending.{IsHere, IsRemovingAt, IsTask};
ghost use Rattle.lock_free.specs.Holding.{IsOn};
ghost use Rattle.lock_free.specs.KeyRuns.{IsCalling, IsDone, IsFoundAs};
ghost use Rattle.lock_free.specs.LinkReads.{IsThere};
ghost use Rattle.lock_free.specs.Loading.{IsSound};
ghost use Rattle.lock_free.specs.Parking.{HasRunTo, IsParked};
ghost use Rattle.lock_free.specs.Reaching.{IsAtPlace};
ghost use Rattle.lock_free.specs.RunningOn.{MayAnswer};
ghost use Rattle.lock_free.specs.Stocks.{IsStock};

use crate::attempts::{Attempt, run_key};
use crate::call_errors::CallError;
use crate::descending::{Found, Path, remove};
use crate::finds::{attempt_of, found_on_within};
use crate::leaving::Swapping;
use crate::loads::{Actor, Words};
use crate::parking::{Came, Parked};
use crate::reaching::Reached;
use crate::reading::Given;
use crate::stock::Stock;
use crate::tasks::Task;
use crate::try_runs::end_call;
use crate::ways_down::find_there;
use history::{Access, Call, Reply};
use std::sync::Wait;

/// What a call on a key comes to whose try has come to this.
fn came_of(
    words: &Words,
    actor: &mut Actor,
    stock: &mut Stock,
    call: Call,
    access: Access,
    attempt: Attempt,
) -> Came
    requires table { actor.old.table_id ≡ words.now.table_id }
    requires sound { IsSound words.now.table_id.words actor.old.me.0 }
    requires stock { IsStock stock.old actor.old.me.0 }
    requires calling { IsCalling actor.old.me.0 call access }
    requires at { IsAttempted actor.old.me.0 attempt }
    ensures table { actor.new.table_id ≡ actor.old.table_id }
    ensures sound { IsSound words.now.table_id.words actor.new.me.0 }
    ensures stock { IsStock stock.new actor.new.me.0 }
    ensures run { HasRunTo actor.old.me.0 result actor.new.me.0 }
{
    match attempt {
        Attempt::Again => run_key(u64::MAX, words, actor, stock, call, access),
        Attempt::Comes(came) => came,
    }
}

/// Goes on with a call on a key by this seat, `seat`, whose try has come to this, as with a call of any kind.
#[cold]
#[inline(never)]
pub(crate) fn call_on<R: Wait>(
    rt: &R,
    words: &Words,
    actor: &mut Actor,
    stock: &mut Stock,
    seat: u8,
    call: Call,
    access: Access,
    attempt: Attempt,
) -> Result<Reply, CallError>
    requires table { actor.old.table_id ≡ words.now.table_id }
    requires sound { IsSound words.now.table_id.words actor.old.me.0 }
    requires stock { IsStock stock.old actor.old.me.0 }
    requires its { actor.old.me.0.actor ≡ seat }
    requires few { actor.old.me.0.actor ≤ actor.old.me.0.sizes.seats }
    requires calling { IsCalling actor.old.me.0 call access }
    requires at { IsAttempted actor.old.me.0 attempt }
    ensures table { actor.new.table_id ≡ actor.old.table_id }
    ensures sound { IsSound words.now.table_id.words actor.new.me.0 }
    ensures stock { IsStock stock.new actor.new.me.0 }
    ensures out { IsDone actor.old.me.0 call result actor.new.me.0 }
{
    let came = came_of(words, actor, stock, call, access, attempt);
    end_call(rt, words, actor, stock, seat, call, access, came)
}

/// The same of one whose SWAP is under way, and whose key had this value before, or none.
#[cold]
#[inline(never)]
pub(crate) fn left_on<R: Wait>(
    rt: &R,
    words: &Words,
    actor: &mut Actor,
    stock: &mut Stock,
    seat: u8,
    task: &Task,
    former: Option<u64>,
    left: Swapping,
) -> Result<Reply, CallError>
    requires table { actor.old.table_id ≡ words.now.table_id }
    requires sound { IsSound words.now.table_id.words actor.old.me.0 }
    requires stock { IsStock stock.old actor.old.me.0 }
    requires its { actor.old.me.0.actor ≡ seat }
    requires few { actor.old.me.0.actor ≤ actor.old.me.0.sizes.seats }
    requires calling { IsCalling actor.old.me.0 task.now.call task.now.access }
    requires at { IsParked actor.old.me.0 (parked.Changes left former) }
    ensures table { actor.new.table_id ≡ actor.old.table_id }
    ensures sound { IsSound words.now.table_id.words actor.new.me.0 }
    ensures stock { IsStock stock.new actor.new.me.0 }
    ensures out { IsDone actor.old.me.0 task.now.call result actor.new.me.0 }
{
    let attempt = Attempt::Comes(Came::Parked(Parked::Changes(left, former)));
    let (call, access) = (task.call, task.access);
    call_on(rt, words, actor, stock, seat, call, access, attempt)
}

/// The same of one that begins a new try.
#[cold]
#[inline(never)]
pub(crate) fn again_on<R: Wait>(
    rt: &R,
    words: &Words,
    actor: &mut Actor,
    stock: &mut Stock,
    seat: u8,
    task: &Task,
) -> Result<Reply, CallError>
    requires table { actor.old.table_id ≡ words.now.table_id }
    requires sound { IsSound words.now.table_id.words actor.old.me.0 }
    requires stock { IsStock stock.old actor.old.me.0 }
    requires its { actor.old.me.0.actor ≡ seat }
    requires few { actor.old.me.0.actor ≤ actor.old.me.0.sizes.seats }
    requires calling { IsCalling actor.old.me.0 task.now.call task.now.access }
    requires at { IsOn actor.old.me.0 new_try }
    ensures table { actor.new.table_id ≡ actor.old.table_id }
    ensures sound { IsSound words.now.table_id.words actor.new.me.0 }
    ensures stock { IsStock stock.new actor.new.me.0 }
    ensures out { IsDone actor.old.me.0 task.now.call result actor.new.me.0 }
{
    let (call, access) = (task.call, task.access);
    call_on(rt, words, actor, stock, seat, call, access, Attempt::Again)
}

/// The same of one that is out of tries.
#[cold]
#[inline(never)]
pub(crate) fn spent_on<R: Wait>(
    rt: &R,
    words: &Words,
    actor: &mut Actor,
    stock: &mut Stock,
    seat: u8,
    call: Call,
    access: Access,
) -> Result<Reply, CallError>
    requires table { actor.old.table_id ≡ words.now.table_id }
    requires sound { IsSound words.now.table_id.words actor.old.me.0 }
    requires stock { IsStock stock.old actor.old.me.0 }
    requires its { actor.old.me.0.actor ≡ seat }
    requires few { actor.old.me.0.actor ≤ actor.old.me.0.sizes.seats }
    requires calling { IsCalling actor.old.me.0 call access }
    requires may { MayAnswer actor.old.me.0 reply.NoSlots }
    ensures table { actor.new.table_id ≡ actor.old.table_id }
    ensures sound { IsSound words.now.table_id.words actor.new.me.0 }
    ensures stock { IsStock stock.new actor.new.me.0 }
    ensures out { IsDone actor.old.me.0 call result actor.new.me.0 }
{
    let attempt = Attempt::Comes(Came::Spent);
    call_on(rt, words, actor, stock, seat, call, access, attempt)
}

/// Goes on with a call on a key by this seat, `seat`, which has come to this at the end of the path, as with a call of any kind.
fn found_on<R: Wait>(
    rt: &R,
    words: &Words,
    actor: &mut Actor,
    stock: &mut Stock,
    seat: u8,
    task: &Task,
    path: &mut Path,
    found: Found,
) -> Result<Reply, CallError>
    requires table { actor.old.table_id ≡ words.now.table_id }
    requires sound { IsSound words.now.table_id.words actor.old.me.0 }
    requires stock { IsStock stock.old actor.old.me.0 }
    requires its { actor.old.me.0.actor ≡ seat }
    requires few { actor.old.me.0.actor ≤ actor.old.me.0.sizes.seats }
    requires task { IsTask actor.old.me.0 task.now }
    requires small { task.now.start < 2 ^ 36 }
    requires calling { IsCalling actor.old.me.0 task.now.call task.now.access }
    requires at { IsFoundAs actor.old.me.0 path.old.items found }
    ensures table { actor.new.table_id ≡ actor.old.table_id }
    ensures sound { IsSound words.now.table_id.words actor.new.me.0 }
    ensures stock { IsStock stock.new actor.new.me.0 }
    ensures out { IsDone actor.old.me.0 task.now.call result actor.new.me.0 }
{
    let tried = found_on_within(u64::MAX, words, actor, stock, task, path, found);
    let attempt = attempt_of(words, actor, stock, path, tried);
    let (call, access) = (task.call, task.access);
    call_on(rt, words, actor, stock, seat, call, access, attempt)
}

/// The same of one whose way has ended there.
#[cold]
#[inline(never)]
pub(crate) fn reached_on<R: Wait>(
    rt: &R,
    words: &Words,
    actor: &mut Actor,
    stock: &mut Stock,
    seat: u8,
    task: &Task,
    path: &mut Path,
    reached: Reached,
) -> Result<Reply, CallError>
    requires table { actor.old.table_id ≡ words.now.table_id }
    requires sound { IsSound words.now.table_id.words actor.old.me.0 }
    requires stock { IsStock stock.old actor.old.me.0 }
    requires its { actor.old.me.0.actor ≡ seat }
    requires few { actor.old.me.0.actor ≤ actor.old.me.0.sizes.seats }
    requires task { IsTask actor.old.me.0 task.now }
    requires small { task.now.start < 2 ^ 36 }
    requires calling { IsCalling actor.old.me.0 task.now.call task.now.access }
    requires at { IsThere actor.old.me.0 path.old.items reached.link (IsAtPlace actor.old.me.0 task.now reached.place) }
    ensures table { actor.new.table_id ≡ actor.old.table_id }
    ensures sound { IsSound words.now.table_id.words actor.new.me.0 }
    ensures stock { IsStock stock.new actor.new.me.0 }
    ensures out { IsDone actor.old.me.0 task.now.call result actor.new.me.0 }
{
    let found = find_there(words, actor, task, path.as_slice(), reached);
    found_on(rt, words, actor, stock, seat, task, path, found)
}

/// The same of one that removes its key, which stands at this position with this value.
#[cold]
#[inline(never)]
pub(crate) fn removal_on<R: Wait>(
    rt: &R,
    words: &Words,
    actor: &mut Actor,
    stock: &mut Stock,
    seat: u8,
    task: &Task,
    path: &mut Path,
    given: Given,
    position: usize,
    former: u64,
) -> Result<Reply, CallError>
    requires table { actor.old.table_id ≡ words.now.table_id }
    requires sound { IsSound words.now.table_id.words actor.old.me.0 }
    requires stock { IsStock stock.old actor.old.me.0 }
    requires its { actor.old.me.0.actor ≡ seat }
    requires few { actor.old.me.0.actor ≤ actor.old.me.0.sizes.seats }
    requires task { IsTask actor.old.me.0 task.now }
    requires small { task.now.start < 2 ^ 36 }
    requires calling { IsCalling actor.old.me.0 task.now.call task.now.access }
    requires at { IsHere actor.old.me.0 path.old.items given (IsRemovingAt actor.old.me.0 position former) }
    ensures table { actor.new.table_id ≡ actor.old.table_id }
    ensures sound { IsSound words.now.table_id.words actor.new.me.0 }
    ensures stock { IsStock stock.new actor.new.me.0 }
    ensures out { IsDone actor.old.me.0 task.now.call result actor.new.me.0 }
{
    let found = remove(words, actor, path.as_slice(), given, position, former);
    found_on(rt, words, actor, stock, seat, task, path, found)
}
