//! A seat's calls that ask what a handle allows.

ghost use Rattle.std.specs.Prelude.{◌≡◌, ◌≤◌, ◌⊎◌, None};
ghost use Rattle.lock_free.specs.Accesses.{access_denied, IsToldAccess};
ghost use Rattle.lock_free.specs.Loading.{IsSound};
ghost use Rattle.lock_free.specs.SeatCalls.{RanOut};
ghost use Rattle.lock_free.specs.Stocks.{IsStock};
ghost use Rattle.lock_free.specs.WholeCalls.{HasLeft, RestsWith};

use crate::beginning::{begin_call, begin_call_within};
use crate::call_errors::CallError;
use crate::call_runs::HANDLES;
use crate::laws::seats_are_explained;
use crate::loads::{Actor, Words};
use crate::seating::{Seat, refuse};
use crate::stock::Stock;
use history::{Access, Call};
use std::sync::Wait;

/// What it tells of its handle that a count was denied for this.
fn access_denied(why: CallError) -> Result<Access, CallError>
    ensures { result ≡ access_denied why }
{
    match why {
        CallError::NotReadOnly => Ok(Access::Writable),
        other => Err(other),
    }
}

/// What the handle allows, for this seat, `seat`.
fn ask_access<R: Wait>(
    rt: &R,
    words: &Words,
    actor: &mut Actor,
    stock: &mut Stock,
    seat: u8,
    handle: u16,
) -> Result<Access, CallError>
    requires table { actor.old.table_id ≡ words.now.table_id }
    requires sound { IsSound words.now.table_id.words actor.old.me.0 }
    requires stock { IsStock stock.old actor.old.me.0 }
    requires its { actor.old.me.0.actor ≡ seat }
    requires few { actor.old.me.0.actor ≤ actor.old.me.0.sizes.seats }
    requires ready { RestsWith actor.old.me.0 None }
    ensures table { actor.new.table_id ≡ actor.old.table_id }
    ensures sound { IsSound words.now.table_id.words actor.new.me.0 }
    ensures stock { IsStock stock.new actor.new.me.0 }
    ensures left { HasLeft actor.old.me.0 actor.new.me.0 }
    ensures told { IsToldAccess actor.old.me.0 handle result actor.new.me.0 }
{
    seats_are_explained();
    if handle >= HANDLES {
        return Err(CallError::NoHandle);
    }
    match begin_call(rt, words, actor, stock, seat, Call::Count { handle }) {
        Ok(_) => {
            refuse(words, actor, stock, seat);
            Ok(Access::ReadOnly)
        }
        Err(why) => access_denied(why),
    }
}

/// The same, asked in so many looks.
fn ask_access_within(
    tries: u64,
    words: &Words,
    actor: &mut Actor,
    stock: &mut Stock,
    seat: u8,
    handle: u16,
) -> Result<Access, CallError>
    requires table { actor.old.table_id ≡ words.now.table_id }
    requires sound { IsSound words.now.table_id.words actor.old.me.0 }
    requires stock { IsStock stock.old actor.old.me.0 }
    requires its { actor.old.me.0.actor ≡ seat }
    requires few { actor.old.me.0.actor ≤ actor.old.me.0.sizes.seats }
    requires ready { RestsWith actor.old.me.0 None }
    ensures table { actor.new.table_id ≡ actor.old.table_id }
    ensures sound { IsSound words.now.table_id.words actor.new.me.0 }
    ensures stock { IsStock stock.new actor.new.me.0 }
    ensures left { HasLeft actor.old.me.0 actor.new.me.0 }
    ensures told { IsToldAccess actor.old.me.0 handle result actor.new.me.0 ⊎ RanOut actor.old.me.0 result actor.new.me.0 }
{
    seats_are_explained();
    if handle >= HANDLES {
        return Err(CallError::NoHandle);
    }
    match begin_call_within(tries, words, actor, stock, seat, Call::Count { handle }) {
        Ok(_) => {
            refuse(words, actor, stock, seat);
            Ok(Access::ReadOnly)
        }
        Err(why) => access_denied(why),
    }
}

impl Seat {
    ghost use Rattle.lock_free.specs.Seated.{HasGoneOn};

    /// What the handle allows. It walks nowhere: it begins a count, and gives it up where it has begun.
    ///
    /// # Errors
    ///
    /// `NoHandle` alone, also while the call that opens the handle hasn't returned.
    pub fn access<R: Wait>(
        &mut self,
        rt: &R,
        words: &Words,
        handle: u16,
    ) -> Result<Access, CallError>
        requires table { self.old.table ≡ words.now.table_id }
        ensures seat { HasGoneOn self.old self.new }
        ensures told { IsToldAccess self.old.view handle result self.new.view }
    {
        let (actor, stock) = (&mut self.actor, &mut self.stock);
        ask_access(rt, words, actor, stock, self.number, handle)
    }

    /// The same with no `Wait`: the count begins in so many looks, or not at all.
    ///
    /// # Errors
    ///
    /// `NoHandle`, also while the call that opens the handle hasn't returned; `Spent`.
    pub fn access_within(
        &mut self,
        tries: u64,
        words: &Words,
        handle: u16,
    ) -> Result<Access, CallError>
        requires table { self.old.table ≡ words.now.table_id }
        ensures seat { HasGoneOn self.old self.new }
        ensures told { IsToldAccess self.old.view handle result self.new.view ⊎ RanOut self.old.view result self.new.view }
    {
        let (actor, stock) = (&mut self.actor, &mut self.stock);
        ask_access_within(tries, words, actor, stock, self.number, handle)
    }
}
