//! How a call on a key ends: at once, or as a call of any kind.

ghost use Rattle.std.specs.Prelude.{◌≡◌, ◌≤◌, Some};
ghost use Rattle.lock_free.specs.Attempts.{IsAttempted, IsEnding, attempted_by};
ghost use Rattle.lock_free.specs.KeyRuns.{IsCalling, IsDone};
ghost use Rattle.lock_free.specs.Loading.{IsSound};
ghost use Rattle.lock_free.specs.Stocks.{IsStock};

use crate::call_errors::CallError;
use crate::call_runs::finish_call;
use crate::laws::seats_are_explained;
use crate::leaving::Swapping;
use crate::loads::{Actor, Words};
use crate::slow_ends::{again_on, left_on, spent_on};
use crate::stock::Stock;
use crate::swapping::Swapped;
use crate::tasks::{Task, changed_reply};
use history::{Access, Call, Reply};
use std::sync::Wait;

/// Ends a call on a key by this seat, `seat`, with this reply.
#[inline(always)]
pub(crate) fn answer(
    words: &Words,
    actor: &mut Actor,
    stock: &mut Stock,
    seat: u8,
    call: Call,
    access: Access,
    reply: Reply,
) -> Result<Reply, CallError>
    requires table { actor.old.table_id ≡ words.now.table_id }
    requires sound { IsSound words.now.table_id.words actor.old.me.0 }
    requires stock { IsStock stock.old actor.old.me.0 }
    requires its { actor.old.me.0.actor ≡ seat }
    requires few { actor.old.me.0.actor ≤ actor.old.me.0.sizes.seats }
    requires calling { IsCalling actor.old.me.0 call access }
    requires ending { IsEnding actor.old.me.0 (Some reply) }
    ensures table { actor.new.table_id ≡ actor.old.table_id }
    ensures sound { IsSound words.now.table_id.words actor.new.me.0 }
    ensures stock { IsStock stock.new actor.new.me.0 }
    ensures out { IsDone actor.old.me.0 call result actor.new.me.0 }
{
    seats_are_explained();
    finish_call(words, actor, stock, seat, call, Some(reply))
}

/// Ends one whose SWAP came to this, and whose key had this value before, or none.
#[inline(always)]
pub(crate) fn end_change<R: Wait>(
    rt: &R,
    words: &Words,
    actor: &mut Actor,
    stock: &mut Stock,
    seat: u8,
    task: &Task,
    former: Option<u64>,
    swapped: Result<Option<Swapped>, Swapping>,
) -> Result<Reply, CallError>
    requires table { actor.old.table_id ≡ words.now.table_id }
    requires sound { IsSound words.now.table_id.words actor.old.me.0 }
    requires stock { IsStock stock.old actor.old.me.0 }
    requires its { actor.old.me.0.actor ≡ seat }
    requires few { actor.old.me.0.actor ≤ actor.old.me.0.sizes.seats }
    requires calling { IsCalling actor.old.me.0 task.now.call task.now.access }
    requires at { IsAttempted actor.old.me.0 (attempted_by swapped task.now.call former) }
    ensures table { actor.new.table_id ≡ actor.old.table_id }
    ensures sound { IsSound words.now.table_id.words actor.new.me.0 }
    ensures stock { IsStock stock.new actor.new.me.0 }
    ensures out { IsDone actor.old.me.0 task.now.call result actor.new.me.0 }
{
    match swapped {
        Ok(Some(Swapped::Commits(_))) => {
            let reply = changed_reply(task.call, former);
            answer(words, actor, stock, seat, task.call, task.access, reply)
        }
        Ok(Some(Swapped::Fails(_))) => again_on(rt, words, actor, stock, seat, task),
        Ok(Some(Swapped::Misses)) => again_on(rt, words, actor, stock, seat, task),
        Ok(None) => spent_on(rt, words, actor, stock, seat, task.call, task.access),
        Err(left) => left_on(rt, words, actor, stock, seat, task, former, left),
    }
}
