//! Calls about all shards of a map.

ghost use Rattle.std.specs.Prelude.{◌≡◌, ◌<◌, ◌≤◌, None, length};
ghost use Rattle.history.specs.declared.calls.Call.TheVariants.{Count, Entries};
ghost use Rattle.ctrie_map.specs.Performing.{copy_call};
ghost use Rattle.shared_map.specs.Asking.{IsKnown};
ghost use Rattle.shared_map.specs.Asks.{key_in};
ghost use Rattle.shared_map.specs.Shards.{worlds_of};
ghost use Rattle.shared_map.specs.Turning.{HasNext, call_of};
ghost use Rattle.shared_map.specs.Uniting.{pairs_at};
ghost use Rattle.shared_map.specs.Wholes.{RepliesIf, IsCalledAlone, TurnsAll};

use crate::asking::{Calling, Knowing, Measuring};
use crate::asks::Replied;
use crate::listing::{Listed, list_all};
use crate::reading::Counting;
use crate::turning::{Turn, Turning};
use crate::visits::visit_each;
use ctrie_map::{Map, MapError};
use history::{Access, Call, Pairs, Reply};
use sharded_gate::Shards;

/// What is told of a call about all shards: of one that names no key.
pub(crate) fn call_all<S: Shards<Map>>(shards: &mut S, first: &Knowing, call: Call) -> Replied
    requires any { 0 < length (S.items shards.old) }
    requires about { key_in call ≡ None }
    ensures answered { RepliesIf first.now (S.items shards.old) call result (S.items shards.new) }
    ensures rest { S.rest shards.new ≡ S.rest shards.old }
{
    if shards.count() == 1 {
        return call_one(shards, call);
    }
    match call {
        Call::Entries { handle } => entries_of_all(shards, first, handle),
        Call::Count { handle } => count_of_all(shards, first, handle),
        Call::Clear { handle } => change_all(shards, first, Turn::Clear { handle }),
        Call::Close { handle } => change_all(shards, first, Turn::Close { handle }),
        Call::Snapshot { handle } => copy_all(shards, first, handle, Access::Writable),
        Call::Freeze { handle } => copy_all(shards, first, handle, Access::ReadOnly),
        Call::Get { .. }
        | Call::Put { .. }
        | Call::PutIfAbsent { .. }
        | Call::Replace { .. }
        | Call::ReplaceIf { .. }
        | Call::Remove { .. }
        | Call::RemoveIf { .. } => unreachable!(),
    }
}

/// The same, where there is one shard.
fn call_one<S: Shards<Map>>(shards: &mut S, call: Call) -> Replied
    requires { length (S.items shards.old) ≡ 1 }
    ensures called { IsCalledAlone call (S.items shards.old) result (S.items shards.new) }
    ensures rest { S.rest shards.new ≡ S.rest shards.old }
{
    let mut calling = Calling {
        call,
        told: Err(MapError::Memory),
    };
    shards.visit(0, &mut calling);
    let Calling { call: _, told } = calling;
    told
}

/// A copy of the whole, under the next number of the first shard.
fn copy_all<S: Shards<Map>>(shards: &mut S, first: &Knowing, handle: u16, access: Access) -> Replied
    requires { 1 < length (S.items shards.old) }
    ensures answered { RepliesIf first.now (S.items shards.old) (copy_call access handle) result (S.items shards.new) }
    ensures rest { S.rest shards.new ≡ S.rest shards.old }
{
    match first.next {
        Some(number) => change_all(
            shards,
            first,
            Turn::Copy {
                handle,
                number,
                access,
            },
        ),
        None => match first.denial(false, true) {
            Some(denial) => Err(denial),
            None => Err(MapError::HandlesFull),
        },
    }
}

/// A change of all shards, unless something denies it.
fn change_all<S: Shards<Map>>(shards: &mut S, first: &Knowing, turn: Turn) -> Replied
    requires many { 1 < length (S.items shards.old) }
    requires next { (shard : _) → IsKnown first.now shard → HasNext turn shard }
    ensures answered { RepliesIf first.now (S.items shards.old) (call_of turn) result (S.items shards.new) }
    ensures rest { S.rest shards.new ≡ S.rest shards.old }
{
    match first.denial(turn.writes(), turn.opens()) {
        Some(denial) => Err(denial),
        None => turn_all(shards, turn),
    }
}

/// A change of all shards: each is asked before, so that none refuses it once another has changed.
fn turn_all<S: Shards<Map>>(shards: &mut S, turn: Turn) -> Replied
    ensures turns { TurnsAll turn (S.items shards.old) result (S.items shards.new) }
    ensures rest { S.rest shards.new ≡ S.rest shards.old }
{
    let mut measuring = Measuring {
        call: turn.call(),
        restores: false,
        is_worn_out: false,
        is_tight: false,
    };
    visit_each(shards, &mut measuring);
    if measuring.is_worn_out {
        return Err(MapError::WornOut);
    }
    if measuring.is_tight {
        return Ok(Reply::NoSlots);
    }
    visit_each(shards, &mut Turning { turn });
    Ok(turn.reply())
}

/// The pairs of the handle, if it is open.
fn entries_of_all<S: Shards<Map>>(shards: &mut S, first: &Knowing, handle: u16) -> Replied
    ensures answered { RepliesIf first.now (S.items shards.old) (Entries handle) result (S.items shards.new) }
    ensures rest { S.rest shards.new ≡ S.rest shards.old }
{
    match first.writable {
        Ok(_) => match list_all(shards, handle, Listed::All) {
            Ok(pairs) => Ok(Reply::Pairs(Pairs::from_vec(pairs))),
            Err(error) => Err(error),
        },
        Err(_) => Err(MapError::NoHandle),
    }
}

/// How many keys the handle has, if it is open.
fn count_of_all<S: Shards<Map>>(shards: &mut S, first: &Knowing, handle: u16) -> Replied
    ensures answered { RepliesIf first.now (S.items shards.old) (Count handle) result (S.items shards.new) }
    ensures rest { S.rest shards.new ≡ S.rest shards.old }
{
    match first.writable {
        Ok(_) => Ok(Reply::Count(count_all(shards, handle))),
        Err(_) => Err(MapError::NoHandle),
    }
}

/// How many keys of the handle there are.
fn count_all<S: Shards<Map>>(shards: &mut S, handle: u16) -> u64
    ensures counted { length (S.items shards.old) ≤ 64 → result ≡ length (pairs_at handle (worlds_of (S.items shards.old))) }
    ensures same { S.items shards.new ≡ S.items shards.old }
    ensures rest { S.rest shards.new ≡ S.rest shards.old }
{
    let mut counting = Counting { handle, keys: 0 };
    visit_each(shards, &mut counting);
    counting.keys
}
