//! Gets of pinned seats as a whole: straight where nothing stands in the way, else as calls of any kind.

ghost use Rattle.std.specs.Prelude.{◌≡◌, ◌≤◌, ◌<◌, ◌^◌, ◌∷◌, [], None};
ghost use Rattle.history.specs.declared.calls.Call.TheVariants.{Get};
ghost use Rattle.history.specs.declared.replies.Reply.TheVariants as reply;
ghost use Rattle.machine_model.specs.Lines.{new_try};
ghost use Rattle.lock_free.specs.declared.descending.Found.TheVariants as found;
ghost use Rattle.lock_free.specs.declared.rules.View.{View};
ghost use Rattle.lock_free.specs.BegunCalls.{StillBegins};
ghost use Rattle.lock_free.specs.Descending.{HasFound, IsAtOne, IsOnPath, IsTask};
ghost use Rattle.lock_free.specs.GetRuns.{HasGotten, HasToldGet, IsLookup};
ghost use Rattle.lock_free.specs.Holding.{IsOn};
ghost use Rattle.lock_free.specs.KeyReplies.{TellsValue};
ghost use Rattle.lock_free.specs.KeyRuns.{IsCalling};
ghost use Rattle.lock_free.specs.LinkReads.{IsThere};
ghost use Rattle.lock_free.specs.Loading.{IsSound};
ghost use Rattle.lock_free.specs.Reaching.{IsAtPlace};
ghost use Rattle.lock_free.specs.RunningOn.{MayAnswer};
ghost use Rattle.lock_free.specs.Stocks.{IsStock};
ghost use Rattle.lock_free.specs.UnderWay.{IsUnderWay};
ghost use Rattle.lock_free.specs.WholeCalls.{HasLeft, RestsWith};

use crate::call_errors::CallError;
use crate::call_runs::HANDLES;
use crate::calling::start_within;
use crate::descending::Path;
use crate::finding::{Met, meet_single};
use crate::key_runs::call_late;
use crate::lacks::Manner;
use crate::loads::{Actor, Words};
use crate::reaching::{Place, Reached, go_down_within};
use crate::reading::Way;
use crate::rooting::seek_root_within;
use crate::seating::end;
use crate::slow_ends::{reached_on, spent_on};
use crate::stock::Stock;
use crate::tasks::Task;
use history::{Access, Call, Reply};
use std::sync::Wait;
use trie_words::Link;

/// The value in the reply to a call on a key that is answered by one.
pub(crate) fn value_in(answer: Reply) -> Option<u64>
    requires { TellsValue answer }
    ensures { answer ≡ reply.Found result }
{
    match answer {
        Reply::Found(value) => value,
        _ => unreachable!(),
    }
}

/// The value of the key at the single in this slot, the entry at this position of a branch.
#[inline(always)]
fn value_at(
    words: &Words,
    actor: &mut Actor,
    task: &Task,
    path: &[u32],
    link: Link,
    position: usize,
    single: u32,
) -> Option<u64>
    requires table { actor.old.table_id ≡ words.now.table_id }
    requires sound { IsSound words.now.table_id.words actor.old.me.0 }
    requires task { IsLookup actor.old.me.0 task.now }
    requires at { IsThere actor.old.me.0 path.now link (IsAtOne actor.old.me.0 position single) }
    ensures table { actor.new.table_id ≡ actor.old.table_id }
    ensures sound { IsSound words.now.table_id.words actor.new.me.0 }
    ensures found { HasFound actor.old.me.0 path.now (found.Answers (reply.Found result)) actor.new.me.0 }
{
    match meet_single(words, actor, task.key, single) {
        Met::Found(value) => Some(value),
        Met::Other => None,
    }
}

/// Goes on with a get of this seat, `seat`, whose way has ended there, as with a call of any kind.
#[cold]
#[inline(never)]
fn get_on<R: Wait>(
    rt: &R,
    words: &Words,
    actor: &mut Actor,
    stock: &mut Stock,
    seat: u8,
    handle: u16,
    key: u64,
    task: &Task,
    path: &mut Path,
    reached: Reached,
) -> Result<Option<u64>, CallError>
    requires table { actor.old.table_id ≡ words.now.table_id }
    requires sound { IsSound words.now.table_id.words actor.old.me.0 }
    requires stock { IsStock stock.old actor.old.me.0 }
    requires its { actor.old.me.0.actor ≡ seat }
    requires few { actor.old.me.0.actor ≤ actor.old.me.0.sizes.seats }
    requires task { IsTask actor.old.me.0 task.now }
    requires small { task.now.start < 2 ^ 36 }
    requires calling { IsCalling actor.old.me.0 task.now.call task.now.access }
    requires asked { task.now.call ≡ Get handle key }
    requires under { (before : View) × IsUnderWay before (Get handle key) None actor.old.me.0 }
    requires at { IsThere actor.old.me.0 path.old.items reached.link (IsAtPlace actor.old.me.0 task.now reached.place) }
    ensures table { actor.new.table_id ≡ actor.old.table_id }
    ensures sound { IsSound words.now.table_id.words actor.new.me.0 }
    ensures stock { IsStock stock.new actor.new.me.0 }
    ensures told { HasGotten actor.old.me.0 (Get handle key) result actor.new.me.0 }
    ensures left { HasLeft actor.old.me.0 actor.new.me.0 }
{
    match reached_on(rt, words, actor, stock, seat, task, path, reached) {
        Ok(reply) => Ok(value_in(reply)),
        Err(error) => Err(error),
    }
}

/// The same of one that is out of tries.
#[cold]
#[inline(never)]
fn get_spent<R: Wait>(
    rt: &R,
    words: &Words,
    actor: &mut Actor,
    stock: &mut Stock,
    seat: u8,
    handle: u16,
    key: u64,
    access: Access,
) -> Result<Option<u64>, CallError>
    requires table { actor.old.table_id ≡ words.now.table_id }
    requires sound { IsSound words.now.table_id.words actor.old.me.0 }
    requires stock { IsStock stock.old actor.old.me.0 }
    requires its { actor.old.me.0.actor ≡ seat }
    requires few { actor.old.me.0.actor ≤ actor.old.me.0.sizes.seats }
    requires calling { IsCalling actor.old.me.0 (Get handle key) access }
    requires under { (before : View) × IsUnderWay before (Get handle key) None actor.old.me.0 }
    requires may { MayAnswer actor.old.me.0 reply.NoSlots }
    ensures table { actor.new.table_id ≡ actor.old.table_id }
    ensures sound { IsSound words.now.table_id.words actor.new.me.0 }
    ensures stock { IsStock stock.new actor.new.me.0 }
    ensures told { HasGotten actor.old.me.0 (Get handle key) result actor.new.me.0 }
    ensures left { HasLeft actor.old.me.0 actor.new.me.0 }
{
    let call = Call::Get { handle, key };
    match spent_on(rt, words, actor, stock, seat, call, access) {
        Ok(reply) => Ok(value_in(reply)),
        Err(error) => Err(error),
    }
}

/// A get of this seat, `seat`, whose way has ended there.
#[inline(always)]
fn get_there<R: Wait>(
    rt: &R,
    words: &Words,
    actor: &mut Actor,
    stock: &mut Stock,
    seat: u8,
    handle: u16,
    key: u64,
    task: &Task,
    path: &mut Path,
    reached: Reached,
) -> Result<Option<u64>, CallError>
    requires table { actor.old.table_id ≡ words.now.table_id }
    requires sound { IsSound words.now.table_id.words actor.old.me.0 }
    requires stock { IsStock stock.old actor.old.me.0 }
    requires its { actor.old.me.0.actor ≡ seat }
    requires few { actor.old.me.0.actor ≤ actor.old.me.0.sizes.seats }
    requires task { IsLookup actor.old.me.0 task.now }
    requires small { task.now.start < 2 ^ 36 }
    requires calling { IsCalling actor.old.me.0 task.now.call task.now.access }
    requires asked { task.now.call ≡ Get handle key }
    requires under { (before : View) × IsUnderWay before (Get handle key) None actor.old.me.0 }
    requires at { IsThere actor.old.me.0 path.old.items reached.link (IsAtPlace actor.old.me.0 task.now reached.place) }
    ensures table { actor.new.table_id ≡ actor.old.table_id }
    ensures sound { IsSound words.now.table_id.words actor.new.me.0 }
    ensures stock { IsStock stock.new actor.new.me.0 }
    ensures told { HasGotten actor.old.me.0 (Get handle key) result actor.new.me.0 }
    ensures left { HasLeft actor.old.me.0 actor.new.me.0 }
{
    match reached.place {
        Place::Single { position, slot } => {
            let path = path.as_slice();
            let link = reached.link;
            let value = value_at(words, actor, task, path, link, position, slot);
            end(words, actor, stock, seat);
            Ok(value)
        }
        Place::Absent => {
            end(words, actor, stock, seat);
            Ok(None)
        }
        Place::List | Place::Tomb(_) | Place::Renews => get_on(
            rt, words, actor, stock, seat, handle, key, task, path, reached,
        ),
    }
}

/// A get of this seat, `seat`, which has come to the root of its handle, in this slot.
#[inline(always)]
fn get_rooted<R: Wait>(
    rt: &R,
    words: &Words,
    actor: &mut Actor,
    stock: &mut Stock,
    seat: u8,
    handle: u16,
    key: u64,
    task: &Task,
    root: u32,
) -> Result<Option<u64>, CallError>
    requires table { actor.old.table_id ≡ words.now.table_id }
    requires sound { IsSound words.now.table_id.words actor.old.me.0 }
    requires stock { IsStock stock.old actor.old.me.0 }
    requires its { actor.old.me.0.actor ≡ seat }
    requires few { actor.old.me.0.actor ≤ actor.old.me.0.sizes.seats }
    requires task { IsLookup actor.old.me.0 task.now }
    requires small { task.now.start < 2 ^ 36 }
    requires calling { IsCalling actor.old.me.0 task.now.call task.now.access }
    requires asked { task.now.call ≡ Get handle key }
    requires under { (before : View) × IsUnderWay before (Get handle key) None actor.old.me.0 }
    requires at { IsOnPath actor.old.me.0 (root ∷ []) }
    ensures table { actor.new.table_id ≡ actor.old.table_id }
    ensures sound { IsSound words.now.table_id.words actor.new.me.0 }
    ensures stock { IsStock stock.new actor.new.me.0 }
    ensures told { HasGotten actor.old.me.0 (Get handle key) result actor.new.me.0 }
    ensures left { HasLeft actor.old.me.0 actor.new.me.0 }
{
    let mut path = Path::new();
    path.push(root);
    let Some(reached) = go_down_within(u64::MAX, words, actor, task, &mut path) else {
        return get_spent(rt, words, actor, stock, seat, handle, key, task.access);
    };
    get_there(
        rt, words, actor, stock, seat, handle, key, task, &mut path, reached,
    )
}

/// A get of this seat, `seat`, which has begun on a handle that allows this.
#[inline(always)]
fn get_begun<R: Wait>(
    rt: &R,
    words: &Words,
    actor: &mut Actor,
    stock: &mut Stock,
    seat: u8,
    handle: u16,
    key: u64,
    access: Access,
) -> Result<Option<u64>, CallError>
    requires table { actor.old.table_id ≡ words.now.table_id }
    requires sound { IsSound words.now.table_id.words actor.old.me.0 }
    requires stock { IsStock stock.old actor.old.me.0 }
    requires its { actor.old.me.0.actor ≡ seat }
    requires few { actor.old.me.0.actor ≤ actor.old.me.0.sizes.seats }
    requires calling { IsCalling actor.old.me.0 (Get handle key) access }
    requires under { (before : View) × IsUnderWay before (Get handle key) None actor.old.me.0 }
    requires at { IsOn actor.old.me.0 new_try }
    ensures table { actor.new.table_id ≡ actor.old.table_id }
    ensures sound { IsSound words.now.table_id.words actor.new.me.0 }
    ensures stock { IsStock stock.new actor.new.me.0 }
    ensures told { HasGotten actor.old.me.0 (Get handle key) result actor.new.me.0 }
    ensures left { HasLeft actor.old.me.0 actor.new.me.0 }
{
    let way = Way { handle, access };
    let Some(rooted) = seek_root_within(u64::MAX, words, actor, way) else {
        return get_spent(rt, words, actor, stock, seat, handle, key, access);
    };
    let call = Call::Get { handle, key };
    let task = Task::new(call, access, stock.sizes().hash, rooted.generation);
    let root = rooted.slot;
    get_rooted(rt, words, actor, stock, seat, handle, key, &task, root)
}

/// A get by this seat, `seat`, which hasn't begun in ever so many looks.
#[cold]
#[inline(never)]
fn get_late<R: Wait>(
    rt: &R,
    words: &Words,
    actor: &mut Actor,
    stock: &mut Stock,
    seat: u8,
    handle: u16,
    key: u64,
) -> Result<Option<u64>, CallError>
    requires table { actor.old.table_id ≡ words.now.table_id }
    requires sound { IsSound words.now.table_id.words actor.old.me.0 }
    requires stock { IsStock stock.old actor.old.me.0 }
    requires its { actor.old.me.0.actor ≡ seat }
    requires few { actor.old.me.0.actor ≤ actor.old.me.0.sizes.seats }
    requires low { handle < 256 }
    requires ready { RestsWith actor.old.me.0 None }
    ensures table { actor.new.table_id ≡ actor.old.table_id }
    ensures sound { IsSound words.now.table_id.words actor.new.me.0 }
    ensures stock { IsStock stock.new actor.new.me.0 }
    ensures left { HasLeft actor.old.me.0 actor.new.me.0 }
    ensures told { (before : View) → StillBegins words.now.table_id.words before (Get handle key) actor.old.me.0 → HasToldGet before (Get handle key) result actor.new.me.0 }
{
    match call_late(rt, words, actor, stock, seat, Call::Get { handle, key }) {
        Ok(reply) => Ok(value_in(reply)),
        Err(error) => Err(error),
    }
}

/// A get by this seat, `seat`, as long as it takes, which pins itself for it.
#[inline(always)]
pub(crate) fn get_pinned<R: Wait>(
    rt: &R,
    words: &Words,
    actor: &mut Actor,
    stock: &mut Stock,
    seat: u8,
    handle: u16,
    key: u64,
) -> Result<Option<u64>, CallError>
    requires table { actor.old.table_id ≡ words.now.table_id }
    requires sound { IsSound words.now.table_id.words actor.old.me.0 }
    requires stock { IsStock stock.old actor.old.me.0 }
    requires its { actor.old.me.0.actor ≡ seat }
    requires few { actor.old.me.0.actor ≤ actor.old.me.0.sizes.seats }
    requires low { handle < 256 }
    requires ready { RestsWith actor.old.me.0 None }
    ensures table { actor.new.table_id ≡ actor.old.table_id }
    ensures sound { IsSound words.now.table_id.words actor.new.me.0 }
    ensures stock { IsStock stock.new actor.new.me.0 }
    ensures left { HasLeft actor.old.me.0 actor.new.me.0 }
    ensures told { (before : View) → StillBegins words.now.table_id.words before (Get handle key) actor.old.me.0 → HasToldGet before (Get handle key) result actor.new.me.0 }
{
    stock.begin(Manner::Waits);
    let call = Call::Get { handle, key };
    let way = match start_within(u64::MAX, words, actor, seat, stock.epoch(), &call) {
        Ok(Some(way)) => way,
        Ok(None) => return get_late(rt, words, actor, stock, seat, handle, key),
        Err(denial) => return Err(CallError::from(denial)),
    };
    get_begun(rt, words, actor, stock, seat, handle, key, way.access)
}
