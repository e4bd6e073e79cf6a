//! Gets of seats that glance first, and wait for slots where they have found none.

ghost use Rattle.std.specs.Prelude.{◌≡◌, ◌≤◌, ◌<◌, IsTrue, None};
ghost use Rattle.history.specs.declared.calls.Call.TheVariants.{Get};
ghost use Rattle.lock_free.specs.GetRuns.{HasGivenUp, HasGottenAtLast, HasToldGetAtLast, IsToldAtOnce};
ghost use Rattle.lock_free.specs.Loading.{IsSound};
ghost use Rattle.lock_free.specs.Stocks.{IsStock};
ghost use Rattle.lock_free.specs.WholeCalls.{HasLeft, RestsWith};

use crate::call_errors::CallError;
use crate::call_runs::HANDLES;
use crate::get_runs::{get_pinned, value_in};
use crate::glance_gets::glance;
use crate::loads::{Actor, Words};
use crate::slot_waits::key_at_last;
use crate::stock::Stock;
use history::Call;
use std::sync::Wait;

/// Whether a get that was told this has given up: it has found no slot, or came to nothing.
#[inline(always)]
fn gave_up(told: &Result<Option<u64>, CallError>) -> bool
    ensures { IsTrue result → HasGivenUp told.now }
{
    matches!(told, Err(CallError::Full | CallError::Spent))
}

/// A get by this seat, `seat`, that has given up: it is made anew as calls that change the map are, which wait for slots.
#[cold]
#[inline(never)]
fn get_anew<R: Wait>(
    rt: &R,
    words: &Words,
    actor: &mut Actor,
    stock: &mut Stock,
    seat: u8,
    handle: u16,
    key: u64,
) -> Result<Option<u64>, CallError>
    requires table { actor.old.table_id ≡ words.now.table_id }
    requires sound { IsSound words.now.table_id.words actor.old.me.0 }
    requires stock { IsStock stock.old actor.old.me.0 }
    requires its { actor.old.me.0.actor ≡ seat }
    requires few { actor.old.me.0.actor ≤ actor.old.me.0.sizes.seats }
    requires ready { RestsWith actor.old.me.0 None }
    ensures table { actor.new.table_id ≡ actor.old.table_id }
    ensures sound { IsSound words.now.table_id.words actor.new.me.0 }
    ensures stock { IsStock stock.new actor.new.me.0 }
    ensures left { HasLeft actor.old.me.0 actor.new.me.0 }
    ensures told { HasToldGetAtLast actor.old.me.0 (Get handle key) result actor.new.me.0 }
{
    match key_at_last(rt, words, actor, stock, seat, Call::Get { handle, key }) {
        Ok(reply) => Ok(value_in(reply)),
        Err(error) => Err(error),
    }
}

/// The same of one that is to pin itself yet.
#[inline(never)]
fn get_at_last<R: Wait>(
    rt: &R,
    words: &Words,
    actor: &mut Actor,
    stock: &mut Stock,
    seat: u8,
    handle: u16,
    key: u64,
) -> Result<Option<u64>, CallError>
    requires table { actor.old.table_id ≡ words.now.table_id }
    requires sound { IsSound words.now.table_id.words actor.old.me.0 }
    requires stock { IsStock stock.old actor.old.me.0 }
    requires its { actor.old.me.0.actor ≡ seat }
    requires few { actor.old.me.0.actor ≤ actor.old.me.0.sizes.seats }
    requires low { handle < 256 }
    requires ready { RestsWith actor.old.me.0 None }
    ensures table { actor.new.table_id ≡ actor.old.table_id }
    ensures sound { IsSound words.now.table_id.words actor.new.me.0 }
    ensures stock { IsStock stock.new actor.new.me.0 }
    ensures left { HasLeft actor.old.me.0 actor.new.me.0 }
    ensures told { HasGottenAtLast words.now.table_id.words actor.old.me.0 (Get handle key) result actor.new.me.0 }
{
    let told = get_pinned(rt, words, actor, stock, seat, handle, key);
    if gave_up(&told) {
        get_anew(rt, words, actor, stock, seat, handle, key)
    } else {
        told
    }
}

/// A get by this seat, `seat`, as long as it takes. It glances first, and pins itself only if its glance was for nothing; it waits for slots then.
#[inline(always)]
pub(crate) fn run_get<R: Wait>(
    rt: &R,
    words: &Words,
    actor: &mut Actor,
    stock: &mut Stock,
    seat: u8,
    handle: u16,
    key: u64,
) -> Result<Option<u64>, CallError>
    requires table { actor.old.table_id ≡ words.now.table_id }
    requires sound { IsSound words.now.table_id.words actor.old.me.0 }
    requires stock { IsStock stock.old actor.old.me.0 }
    requires its { actor.old.me.0.actor ≡ seat }
    requires few { actor.old.me.0.actor ≤ actor.old.me.0.sizes.seats }
    requires ready { RestsWith actor.old.me.0 None }
    ensures table { actor.new.table_id ≡ actor.old.table_id }
    ensures sound { IsSound words.now.table_id.words actor.new.me.0 }
    ensures stock { IsStock stock.new actor.new.me.0 }
    ensures left { HasLeft actor.old.me.0 actor.new.me.0 }
    ensures told { HasToldGetAtLast actor.old.me.0 (Get handle key) result actor.new.me.0 }
{
    if handle >= HANDLES {
        return Err(CallError::NoHandle);
    }
    let sizes = stock.sizes();
    match glance(words, actor, &sizes, handle, key) {
        Some(value) => Ok(value),
        None => get_at_last(rt, words, actor, stock, seat, handle, key),
    }
}

/// A get by a seat that glances, and does no more.
#[inline(always)]
pub(crate) fn glance_alone(
    words: &Words,
    actor: &mut Actor,
    stock: &Stock,
    handle: u16,
    key: u64,
) -> Option<Option<u64>>
    requires table { actor.old.table_id ≡ words.now.table_id }
    requires sound { IsSound words.now.table_id.words actor.old.me.0 }
    requires stock { IsStock stock.now actor.old.me.0 }
    requires ready { RestsWith actor.old.me.0 None }
    ensures table { actor.new.table_id ≡ actor.old.table_id }
    ensures sound { IsSound words.now.table_id.words actor.new.me.0 }
    ensures stock { IsStock stock.now actor.new.me.0 }
    ensures left { HasLeft actor.old.me.0 actor.new.me.0 }
    ensures told { IsToldAtOnce actor.old.me.0 (Get handle key) result actor.new.me.0 }
{
    if handle >= HANDLES {
        return None;
    }
    let sizes = stock.sizes();
    glance(words, actor, &sizes, handle, key)
}
