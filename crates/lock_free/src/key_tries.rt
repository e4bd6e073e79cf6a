//! A try of a call on a key, within a number of tries of each of its loops.

ghost use Rattle.std.specs.Prelude.{◌≡◌, ◌<◌, ◌^◌, IfErr, IfOk, false, length};
ghost use Rattle.history.specs.declared.replies.Reply.TheVariants as reply;
ghost use Rattle.machine_model.specs.Calls.{copies};
ghost use Rattle.machine_model.specs.Lines.{new_try};
ghost use Rattle.lock_free.specs.Descending.{IsHere, IsOnPath, IsTask};
ghost use Rattle.lock_free.specs.Holding.{IsOn};
ghost use Rattle.lock_free.specs.Leaving.{IsRepair, Leaves, LeavesSwap};
ghost use Rattle.lock_free.specs.Loading.{IsSound};
ghost use Rattle.lock_free.specs.Seeking.{HasRenewedLast, HasSought, HasTried, IsCalled, IsToClean, IsToRenew};
ghost use Rattle.lock_free.specs.Stocks.{IsStock};

use crate::cleans::clean_below_within;
use crate::descending::{Found, Path};
use crate::leaving::{Left, Swapping};
use crate::loads::{Actor, Words};
use crate::reading::{Given, Way};
use crate::renewing::{Renewed, renew_within};
use crate::rooting::root_within;
use crate::seeking::Sought;
use crate::stock::Stock;
use crate::tasks::Task;
use crate::ways_down::descend_within;
use history::{Access, Call};
use nodes::HashKind;
use trie_words::Shape;

/// Renews the branch that was given at the end of the path.
#[cold]
#[inline(never)]
pub(crate) fn renew_last_within(
    tries: u64,
    words: &Words,
    actor: &mut Actor,
    stock: &mut Stock,
    task: &Task,
    path: &[u32],
    given: Given,
) -> Result<Renewed, Swapping>
    requires table { actor.old.table_id ≡ words.now.table_id }
    requires sound { IsSound words.now.table_id.words actor.old.me.0 }
    requires stock { IsStock stock.old actor.old.me.0 }
    requires task { IsTask actor.old.me.0 task.now }
    requires small { task.now.start < 2 ^ 36 }
    requires some { 0 < length path.now }
    requires at { IsHere actor.old.me.0 path.now given (IsToRenew actor.old.me.0) }
    ensures table { actor.new.table_id ≡ actor.old.table_id }
    ensures sound { IsSound words.now.table_id.words actor.new.me.0 }
    ensures stock { IsStock stock.new actor.new.me.0 }
    ensures renewed { IfOk result (λ renewed. HasRenewedLast actor.old.me.0 path.now renewed actor.new.me.0) }
    ensures left { IfErr result (λ left. LeavesSwap IsRepair actor.old.me.0 left actor.new.me.0) }
{
    let last = path[path.len() - 1];
    match given.header.shape {
        Shape::Branch(bitmap) => renew_within(
            tries,
            words,
            actor,
            stock,
            task.way(),
            task.start,
            last,
            given.link,
            bitmap,
        ),
        Shape::Tomb(_) | Shape::List(_) => unreachable!(),
    }
}

/// Cleans the last indirection but one of the path.
#[cold]
#[inline(never)]
pub(crate) fn clean_parent_within(
    tries: u64,
    words: &Words,
    actor: &mut Actor,
    stock: &mut Stock,
    task: &Task,
    path: &[u32],
) -> Result<Sought, Swapping>
    requires table { actor.old.table_id ≡ words.now.table_id }
    requires sound { IsSound words.now.table_id.words actor.old.me.0 }
    requires stock { IsStock stock.old actor.old.me.0 }
    requires task { IsTask actor.old.me.0 task.now }
    requires some { 1 < length path.now }
    requires at { IsToClean actor.old.me.0 path.now }
    ensures table { actor.new.table_id ≡ actor.old.table_id }
    ensures sound { IsSound words.now.table_id.words actor.new.me.0 }
    ensures stock { IsStock stock.new actor.new.me.0 }
    ensures sought { IfOk result (λ sought. HasSought actor.old.me.0 path.now sought actor.new.me.0) }
    ensures left { IfErr result (λ left. LeavesSwap IsRepair actor.old.me.0 left actor.new.me.0) }
{
    let parent = path[path.len() - 2];
    let is_below_root = path.len() > 2;
    let way = task.way();
    match clean_below_within(
        tries,
        words,
        actor,
        stock,
        way,
        task.start,
        parent,
        is_below_root,
    ) {
        Ok(done) => {
            if done {
                Ok(Sought::Again)
            } else {
                Ok(Sought::Full)
            }
        }
        Err(swapping) => Err(swapping),
    }
}

/// A try of the call from the last indirection of the path, with what stands in its way repaired. The path has each further indirection
/// then to which the way has come. Out of tries it is as where no slot is had, or the SWAP of a repair is under way and is returned.
#[inline(always)]
pub fn seek_within(
    tries: u64,
    words: &Words,
    actor: &mut Actor,
    stock: &mut Stock,
    task: &Task,
    path: &mut Path,
) -> Result<Sought, Swapping>
    requires table { actor.old.table_id ≡ words.now.table_id }
    requires sound { IsSound words.now.table_id.words actor.old.me.0 }
    requires stock { IsStock stock.old actor.old.me.0 }
    requires task { IsTask actor.old.me.0 task.now }
    requires small { task.now.start < 2 ^ 36 }
    requires at { IsOnPath actor.old.me.0 path.old.items }
    ensures table { actor.new.table_id ≡ actor.old.table_id }
    ensures sound { IsSound words.now.table_id.words actor.new.me.0 }
    ensures stock { IsStock stock.new actor.new.me.0 }
    ensures sought { IfOk result (λ sought. HasSought actor.old.me.0 path.new.items sought actor.new.me.0) }
    ensures left { IfErr result (λ left. LeavesSwap IsRepair actor.old.me.0 left actor.new.me.0) }
{
    for _ in 0..tries {
        let Some(found) = descend_within(tries, words, actor, task, path) else {
            return Ok(Sought::Full);
        };
        match found {
            Found::Answers(reply) => return Ok(Sought::Answers(reply)),
            Found::Changes { update, given } => return Ok(Sought::Changes { update, given }),
            Found::Cleans => {
                return clean_parent_within(tries, words, actor, stock, task, path.as_slice());
            }
            Found::Renews(given) => {
                let renewed = match renew_last_within(
                    tries,
                    words,
                    actor,
                    stock,
                    task,
                    path.as_slice(),
                    given,
                ) {
                    Ok(renewed) => renewed,
                    Err(swapping) => return Err(swapping),
                };
                match renewed {
                    Renewed::Reads => {}
                    Renewed::Again => return Ok(Sought::Again),
                    Renewed::Full => return Ok(Sought::Full),
                }
            }
        }
    }
    Ok(Sought::Full)
}

/// A try of this call on a key, from the root of its handle. Returns what it goes by, and what it comes to; the path has the way to where
/// that is. Out of tries it may give up, as one that comes to no slot may, or the SWAP of a repair is under way.
#[inline(always)]
pub fn try_key_within(
    tries: u64,
    words: &Words,
    actor: &mut Actor,
    stock: &mut Stock,
    call: Call,
    access: Access,
    hashes: HashKind,
    path: &mut Path,
) -> Result<(Task, Sought), Left>
    requires table { actor.old.table_id ≡ words.now.table_id }
    requires sound { IsSound words.now.table_id.words actor.old.me.0 }
    requires stock { IsStock stock.old actor.old.me.0 }
    requires keyed { copies call ≡ false }
    requires called { IsCalled actor.old.me.0 call access }
    requires hashes { hashes ≡ actor.old.me.0.sizes.hash }
    requires at { IsOn actor.old.me.0 new_try }
    ensures table { actor.new.table_id ≡ actor.old.table_id }
    ensures sound { IsSound words.now.table_id.words actor.new.me.0 }
    ensures stock { IsStock stock.new actor.new.me.0 }
    ensures small { IfOk result (λ tried. tried.0.start < 2 ^ 36) }
    ensures tried { IfOk result (λ tried. HasTried actor.old.me.0 path.new.items tried actor.new.me.0) }
    ensures left { IfErr result (λ left. Leaves (λ called. reply.NoSlots) IsRepair actor.old.me.0 left actor.new.me.0) }
{
    let way = Way {
        handle: call.handle(),
        access,
    };
    let rooted = match root_within(tries, words, actor, way) {
        Ok(rooted) => rooted,
        Err(left) => return Err(left),
    };
    let task = Task::new(call, access, hashes, rooted.generation);
    path.clear();
    path.push(rooted.slot);
    match seek_within(tries, words, actor, stock, &task, path) {
        Ok(sought) => Ok((task, sought)),
        Err(swapping) => Err(Left::Swapping(swapping)),
    }
}
