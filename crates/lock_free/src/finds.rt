//! A try of a call on a key that has come to the end of its way.

ghost use Rattle.std.specs.Prelude.{◌≡◌, ◌<◌, ◌^◌, IfErr, IfOk, length};
ghost use Rattle.lock_free.specs.Attempts.{HasAttempted};
ghost use Rattle.lock_free.specs.Descending.{IsHere, IsTask};
ghost use Rattle.lock_free.specs.GetRuns.{IsGotten};
ghost use Rattle.lock_free.specs.KeyRuns.{IsFoundAs};
ghost use Rattle.lock_free.specs.Leaving.{IsRepair, LeavesSwap};
ghost use Rattle.lock_free.specs.Loading.{IsSound};
ghost use Rattle.lock_free.specs.RunningOn.{RunsOn};
ghost use Rattle.lock_free.specs.Seeking.{HasSought, IsToRenew};
ghost use Rattle.lock_free.specs.Stocks.{IsStock};

use crate::attempts::{Attempt, conclude};
use crate::descending::{Found, Path};
use crate::key_tries::{clean_parent_within, renew_last_within, seek_within};
use crate::leaving::{Left, Swapping};
use crate::loads::{Actor, Words};
use crate::parking::left_so;
use crate::reading::Given;
use crate::renewing::Renewed;
use crate::seeking::Sought;
use crate::stock::Stock;
use crate::tasks::Task;

/// Renews the branch that was given at the end of the path, and goes on as a call of any kind. Out of tries it is as where no slot is had, or
/// the SWAP of a repair is under way and is returned.
fn renew_and_seek_within(
    tries: u64,
    words: &Words,
    actor: &mut Actor,
    stock: &mut Stock,
    task: &Task,
    path: &mut Path,
    given: Given,
) -> Result<Sought, Swapping>
    requires table { actor.old.table_id ≡ words.now.table_id }
    requires sound { IsSound words.now.table_id.words actor.old.me.0 }
    requires stock { IsStock stock.old actor.old.me.0 }
    requires task { IsTask actor.old.me.0 task.now }
    requires small { task.now.start < 2 ^ 36 }
    requires some { 0 < length path.old.items }
    requires at { IsHere actor.old.me.0 path.old.items given (IsToRenew actor.old.me.0) }
    ensures table { actor.new.table_id ≡ actor.old.table_id }
    ensures sound { IsSound words.now.table_id.words actor.new.me.0 }
    ensures stock { IsStock stock.new actor.new.me.0 }
    ensures sought { IfOk result (λ sought. HasSought actor.old.me.0 path.new.items sought actor.new.me.0) }
    ensures left { IfErr result (λ left. LeavesSwap IsRepair actor.old.me.0 left actor.new.me.0) }
{
    match renew_last_within(tries, words, actor, stock, task, path.as_slice(), given) {
        Ok(Renewed::Reads) => seek_within(tries, words, actor, stock, task, path),
        Ok(Renewed::Again) => Ok(Sought::Again),
        Ok(Renewed::Full) => Ok(Sought::Full),
        Err(swapping) => Err(swapping),
    }
}

/// What a try of a call on a key comes to that has come to this at the end of the path. Out of tries it may give up, or the SWAP of a repair is
/// under way.
pub(crate) fn found_on_within(
    tries: u64,
    words: &Words,
    actor: &mut Actor,
    stock: &mut Stock,
    task: &Task,
    path: &mut Path,
    found: Found,
) -> Result<(Task, Sought), Left>
    requires table { actor.old.table_id ≡ words.now.table_id }
    requires sound { IsSound words.now.table_id.words actor.old.me.0 }
    requires stock { IsStock stock.old actor.old.me.0 }
    requires task { IsTask actor.old.me.0 task.now }
    requires small { task.now.start < 2 ^ 36 }
    requires at { IsFoundAs actor.old.me.0 path.old.items found }
    ensures table { actor.new.table_id ≡ actor.old.table_id }
    ensures sound { IsSound words.now.table_id.words actor.new.me.0 }
    ensures stock { IsStock stock.new actor.new.me.0 }
    ensures runs { RunsOn actor.old.me.0 actor.new.me.0 }
    ensures gotten { IsGotten actor.new.me.0 path.new.items result }
{
    match found {
        Found::Answers(reply) => Ok((*task, Sought::Answers(reply))),
        Found::Changes { update, given } => Ok((*task, Sought::Changes { update, given })),
        Found::Cleans => {
            match clean_parent_within(tries, words, actor, stock, task, path.as_slice()) {
                Ok(sought) => Ok((*task, sought)),
                Err(swapping) => Err(Left::Swapping(swapping)),
            }
        }
        Found::Renews(given) => {
            match renew_and_seek_within(tries, words, actor, stock, task, path, given) {
                Ok(sought) => Ok((*task, sought)),
                Err(swapping) => Err(Left::Swapping(swapping)),
            }
        }
    }
}

/// What comes of a try whose way has come to this.
pub(crate) fn attempt_of(
    words: &Words,
    actor: &mut Actor,
    stock: &mut Stock,
    path: &Path,
    tried: Result<(Task, Sought), Left>,
) -> Attempt
    requires table { actor.old.table_id ≡ words.now.table_id }
    requires sound { IsSound words.now.table_id.words actor.old.me.0 }
    requires stock { IsStock stock.old actor.old.me.0 }
    requires at { IsGotten actor.old.me.0 path.now.items tried }
    ensures table { actor.new.table_id ≡ actor.old.table_id }
    ensures sound { IsSound words.now.table_id.words actor.new.me.0 }
    ensures stock { IsStock stock.new actor.new.me.0 }
    ensures attempted { HasAttempted actor.old.me.0 result actor.new.me.0 }
{
    match tried {
        Ok((task, sought)) => conclude(u64::MAX, words, actor, stock, path, &task, sought),
        Err(left) => Attempt::Comes(left_so(left)),
    }
}
