//! Calls on keys: tries, one after another, until one answers, no slot is had, or so many were made.

ghost use Rattle.std.specs.Prelude.{◌≡◌, ◌<◌, ◌≤◌, ◌^◌, Some, false, length};
ghost use Rattle.machine_model.specs.Calls.{changed_reply, copies};
ghost use Rattle.machine_model.specs.Lines.{new_try};
ghost use Rattle.lock_free.specs.Descending.{IsTask};
ghost use Rattle.lock_free.specs.Holding.{IsOn};
ghost use Rattle.lock_free.specs.declared.attempts.Attempt.TheVariants as attempt;
ghost use Rattle.lock_free.specs.declared.descending.Update.TheVariants as update;
ghost use Rattle.lock_free.specs.declared.parking.Came.TheVariants as came;
ghost use Rattle.lock_free.specs.Attempts.{attempted_by, HasAttempted, IsSought, IsToChange, IsToClimb};
ghost use Rattle.lock_free.specs.Loading.{IsSound};
ghost use Rattle.lock_free.specs.Parking.{HasRunTo};
ghost use Rattle.lock_free.specs.RunningOn.{MayAnswer};
ghost use Rattle.lock_free.specs.Seeking.{IsCalled};
ghost use Rattle.lock_free.specs.Stocks.{IsStock};

use crate::building::Builder;
use crate::changing::Edit;
use crate::cleaning::single_in;
use crate::climbs::climb_within;
use crate::descending::{Path, Update};
use crate::giving_up::give_all_up;
use crate::key_tries::try_key_within;
use crate::leaving::Swapping;
use crate::loads::{Actor, Words};
use crate::parking::{Came, Parked, left_so};
use crate::reading::Given;
use crate::seeking::Sought;
use crate::stock::Stock;
use crate::swapping::Swapped;
use crate::tasks::{Task, changed_reply, value_of};
use crate::updating::{attempted_by, change_main_within, update_within};
use history::{Access, Call, Reply};
use machine_model::Site;
use nodes::flag_of;
use trie_words::{Entry, Name};

/// What a whole try of a call on a key comes to.
#[derive(Drop)]
pub enum Attempt {
    /// The operation begins a new try.
    Again,
    /// It has come to this.
    Comes(Came),
}

/// Gives the key its new value, in a single that is made for this site. An `Err` has its SWAP that is under way.
#[inline(always)]
pub(crate) fn give_value(
    tries: u64,
    words: &Words,
    actor: &mut Actor,
    stock: &mut Stock,
    task: &Task,
    path: &[u32],
    given: Given,
    site: Site,
    former: Option<u64>,
) -> Result<Option<Swapped>, Swapping>
    requires table { actor.old.table_id ≡ words.now.table_id }
    requires sound { IsSound words.now.table_id.words actor.old.me.0 }
    requires stock { IsStock stock.old actor.old.me.0 }
    requires task { IsTask actor.old.me.0 task.now }
    requires small { task.now.start < 2 ^ 36 }
    requires some { 0 < length path.now }
    requires short { length path.now ≤ 14 }
    requires at { IsToChange actor.old.me.0 path.now given (update.Builds site former) }
    ensures table { actor.new.table_id ≡ actor.old.table_id }
    ensures sound { IsSound words.now.table_id.words actor.new.me.0 }
    ensures stock { IsStock stock.new actor.new.me.0 }
    ensures attempted { HasAttempted actor.old.me.0 (attempted_by result task.now.call former) actor.new.me.0 }
{
    let last = path.len() - 1;
    let by = Builder {
        key: task.key,
        value: value_of(task.call),
        hashes: stock.sizes().hash,
        hash: task.hash,
        start: task.start,
        depth: last,
    };
    let way = task.way();
    update_within(
        tries, words, actor, stock, way, path[last], by, given, site, former,
    )
}

/// Takes the entry at this position out of the main node at the end of the path. An `Err` has its SWAP that is under way.
#[inline(always)]
pub(crate) fn take_out(
    tries: u64,
    words: &Words,
    actor: &mut Actor,
    stock: &mut Stock,
    task: &Task,
    path: &[u32],
    given: Given,
    position: usize,
    former: u64,
) -> Result<Option<Swapped>, Swapping>
    requires table { actor.old.table_id ≡ words.now.table_id }
    requires sound { IsSound words.now.table_id.words actor.old.me.0 }
    requires stock { IsStock stock.old actor.old.me.0 }
    requires task { IsTask actor.old.me.0 task.now }
    requires small { task.now.start < 2 ^ 36 }
    requires some { 0 < length path.now }
    requires at { IsToChange actor.old.me.0 path.now given (update.Removes position former) }
    ensures table { actor.new.table_id ≡ actor.old.table_id }
    ensures sound { IsSound words.now.table_id.words actor.new.me.0 }
    ensures stock { IsStock stock.new actor.new.me.0 }
    ensures attempted { HasAttempted actor.old.me.0 (attempted_by result task.now.call (Some former)) actor.new.me.0 }
{
    let last = path.len() - 1;
    let flag = flag_of(task.hash, last);
    let change = Edit::Remove(position);
    change_main_within(
        tries,
        words,
        actor,
        stock,
        task.way(),
        path[last],
        given,
        flag,
        change,
    )
}

/// Lets an operation give its climb up, and be answered so.
fn leave_climb(words: &Words, actor: &mut Actor, stock: &mut Stock, reply: Reply) -> Came
    requires table { actor.old.table_id ≡ words.now.table_id }
    requires sound { IsSound words.now.table_id.words actor.old.me.0 }
    requires stock { IsStock stock.old actor.old.me.0 }
    requires may { MayAnswer actor.old.me.0 reply }
    ensures table { actor.new.table_id ≡ actor.old.table_id }
    ensures sound { IsSound words.now.table_id.words actor.new.me.0 }
    ensures stock { IsStock stock.new actor.new.me.0 }
    ensures left { HasRunTo actor.old.me.0 result actor.new.me.0 }
{
    give_all_up(words, actor, stock);
    Came::Answered(reply)
}

/// Climbs from the end of the path, which was tombed with this single by the removal of a key that had this value. Where no slot is had, or
/// it is out of tries, the climb is given up, and the removal answered all the same.
fn climb_out(
    tries: u64,
    words: &Words,
    actor: &mut Actor,
    stock: &mut Stock,
    task: &Task,
    path: &Path,
    single: Entry,
    former: Option<u64>,
) -> Came
    requires table { actor.old.table_id ≡ words.now.table_id }
    requires sound { IsSound words.now.table_id.words actor.old.me.0 }
    requires stock { IsStock stock.old actor.old.me.0 }
    requires task { IsTask actor.old.me.0 task.now }
    requires small { task.now.start < 2 ^ 36 }
    requires at { IsToClimb actor.old.me.0 path.now.items task.now.hash single former }
    ensures table { actor.new.table_id ≡ actor.old.table_id }
    ensures sound { IsSound words.now.table_id.words actor.new.me.0 }
    ensures stock { IsStock stock.new actor.new.me.0 }
    ensures climbed { HasRunTo actor.old.me.0 result actor.new.me.0 }
{
    let way = task.way();
    let reply = changed_reply(task.call, former);
    match climb_within(
        tries, words, actor, stock, way, task.start, path, task.hash, single,
    ) {
        Ok(true) => Came::Answered(reply),
        Ok(false) => leave_climb(words, actor, stock, reply),
        Err(left) => Came::Parked(Parked::Climbs(left, former)),
    }
}

/// Puts a tomb of this single, the only other entry, in the place of the main node at the end of the path, and climbs.
#[cold]
#[inline(never)]
fn entomb(
    tries: u64,
    words: &Words,
    actor: &mut Actor,
    stock: &mut Stock,
    task: &Task,
    path: &Path,
    given: Given,
    single: Entry,
    former: u64,
) -> Attempt
    requires table { actor.old.table_id ≡ words.now.table_id }
    requires sound { IsSound words.now.table_id.words actor.old.me.0 }
    requires stock { IsStock stock.old actor.old.me.0 }
    requires task { IsTask actor.old.me.0 task.now }
    requires small { task.now.start < 2 ^ 36 }
    requires some { 0 < length path.now.items }
    requires at { IsToChange actor.old.me.0 path.now.items given (update.Entombs single former) }
    ensures table { actor.new.table_id ≡ actor.old.table_id }
    ensures sound { IsSound words.now.table_id.words actor.new.me.0 }
    ensures stock { IsStock stock.new actor.new.me.0 }
    ensures attempted { HasAttempted actor.old.me.0 result actor.new.me.0 }
{
    let last = path.len() - 1;
    let flag = flag_of(task.hash, last);
    let single = single_in(given.link, single, task.start);
    let change = Edit::Entomb(Name {
        slot: single.slot,
        own: single.own,
    });
    let swapped = match change_main_within(
        tries,
        words,
        actor,
        stock,
        task.way(),
        path[last],
        given,
        flag,
        change,
    ) {
        Ok(swapped) => swapped,
        Err(left) => return Attempt::Comes(Came::Parked(Parked::Changes(left, Some(former)))),
    };
    let Some(swapped) = swapped else {
        return Attempt::Comes(Came::Spent);
    };
    match swapped {
        Swapped::Commits(_) => Attempt::Comes(climb_out(
            tries,
            words,
            actor,
            stock,
            task,
            path,
            single,
            Some(former),
        )),
        Swapped::Fails(_) => Attempt::Again,
        Swapped::Misses => Attempt::Again,
    }
}

/// Makes this change of the main node that READ gave at the end of the path.
#[inline(always)]
fn change(
    tries: u64,
    words: &Words,
    actor: &mut Actor,
    stock: &mut Stock,
    task: &Task,
    path: &Path,
    given: Given,
    update: Update,
) -> Attempt
    requires table { actor.old.table_id ≡ words.now.table_id }
    requires sound { IsSound words.now.table_id.words actor.old.me.0 }
    requires stock { IsStock stock.old actor.old.me.0 }
    requires task { IsTask actor.old.me.0 task.now }
    requires small { task.now.start < 2 ^ 36 }
    requires some { 0 < length path.now.items }
    requires at { IsToChange actor.old.me.0 path.now.items given update }
    ensures table { actor.new.table_id ≡ actor.old.table_id }
    ensures sound { IsSound words.now.table_id.words actor.new.me.0 }
    ensures stock { IsStock stock.new actor.new.me.0 }
    ensures attempted { HasAttempted actor.old.me.0 result actor.new.me.0 }
{
    match update {
        Update::Builds { site, former } => {
            let path = path.as_slice();
            let swapped = give_value(tries, words, actor, stock, task, path, given, site, former);
            attempted_by(swapped, task.call, former)
        }
        Update::Removes { position, former } => {
            let path = path.as_slice();
            let swapped = take_out(
                tries, words, actor, stock, task, path, given, position, former,
            );
            attempted_by(swapped, task.call, Some(former))
        }
        Update::Entombs { single, former } => entomb(
            tries, words, actor, stock, task, path, given, single, former,
        ),
    }
}

/// Makes of a try what its way has come to, at the end of this path.
#[inline(always)]
pub(crate) fn conclude(
    tries: u64,
    words: &Words,
    actor: &mut Actor,
    stock: &mut Stock,
    path: &Path,
    task: &Task,
    sought: Sought,
) -> Attempt
    requires table { actor.old.table_id ≡ words.now.table_id }
    requires sound { IsSound words.now.table_id.words actor.old.me.0 }
    requires stock { IsStock stock.old actor.old.me.0 }
    requires small { task.now.start < 2 ^ 36 }
    requires at { IsSought actor.old.me.0 path.now.items task.now sought }
    ensures table { actor.new.table_id ≡ actor.old.table_id }
    ensures sound { IsSound words.now.table_id.words actor.new.me.0 }
    ensures stock { IsStock stock.new actor.new.me.0 }
    ensures attempted { HasAttempted actor.old.me.0 result actor.new.me.0 }
{
    match sought {
        Sought::Answers(reply) => Attempt::Comes(Came::Answered(reply)),
        Sought::Changes { update, given } => change(
            tries, words, actor, stock, task, path, given, update,
        ),
        Sought::Again => Attempt::Again,
        Sought::Full => Attempt::Comes(Came::Spent),
    }
}

/// A whole try of the call, from the root of its handle, with the change that it comes to.
#[inline(always)]
fn try_once(
    tries: u64,
    words: &Words,
    actor: &mut Actor,
    stock: &mut Stock,
    call: Call,
    access: Access,
    path: &mut Path,
) -> Attempt
    requires table { actor.old.table_id ≡ words.now.table_id }
    requires sound { IsSound words.now.table_id.words actor.old.me.0 }
    requires stock { IsStock stock.old actor.old.me.0 }
    requires keyed { copies call ≡ false }
    requires called { IsCalled actor.old.me.0 call access }
    requires at { IsOn actor.old.me.0 new_try }
    ensures table { actor.new.table_id ≡ actor.old.table_id }
    ensures sound { IsSound words.now.table_id.words actor.new.me.0 }
    ensures stock { IsStock stock.new actor.new.me.0 }
    ensures attempted { HasAttempted actor.old.me.0 result actor.new.me.0 }
{
    let hashes = stock.sizes().hash;
    match try_key_within(tries, words, actor, stock, call, access, hashes, path) {
        Ok((task, sought)) => conclude(tries, words, actor, stock, path, &task, sought),
        Err(left) => Attempt::Comes(left_so(left)),
    }
}

/// Tries the operation of this call on a key, which has begun on a handle that allows this, so often at most.
#[inline(always)]
pub(crate) fn run_key(
    tries: u64,
    words: &Words,
    actor: &mut Actor,
    stock: &mut Stock,
    call: Call,
    access: Access,
) -> Came
    requires table { actor.old.table_id ≡ words.now.table_id }
    requires sound { IsSound words.now.table_id.words actor.old.me.0 }
    requires stock { IsStock stock.old actor.old.me.0 }
    requires keyed { copies call ≡ false }
    requires called { IsCalled actor.old.me.0 call access }
    requires at { IsOn actor.old.me.0 new_try }
    ensures table { actor.new.table_id ≡ actor.old.table_id }
    ensures sound { IsSound words.now.table_id.words actor.new.me.0 }
    ensures stock { IsStock stock.new actor.new.me.0 }
    ensures run { HasRunTo actor.old.me.0 result actor.new.me.0 }
{
    let mut path = Path::new();
    for _ in 0..tries {
        match try_once(tries, words, actor, stock, call, access, &mut path) {
            Attempt::Again => {}
            Attempt::Comes(came) => return came,
        }
    }
    Came::Spent
}
