//! A seat's calls that copy a map, or empty it.

ghost use Rattle.std.specs.Prelude.{◌≡◌, ◌≤◌, true, None, IfErr};
ghost use Rattle.history.specs.declared.calls.Call.TheVariants.{Clear, Freeze, Snapshot};
ghost use Rattle.history.specs.declared.replies.Reply.TheVariants as reply;
ghost use Rattle.machine_model.specs.Calls.{opens_handle};
ghost use Rattle.lock_free.specs.Attempts.{IsTried};
ghost use Rattle.lock_free.specs.KeyReplies.{FitsError, TellsHandle};
ghost use Rattle.lock_free.specs.Loading.{IsSound};
ghost use Rattle.lock_free.specs.SlotWaits.{IsToldAtLast, IsToldCopyAtLast};
ghost use Rattle.lock_free.specs.Stocks.{IsStock};
ghost use Rattle.lock_free.specs.WholeCalls.{HasLeft, RestsWith};

use crate::call_errors::CallError;
use crate::loads::{Actor, Words};
use crate::seating::Seat;
use crate::slot_waits::run_at_last;
use crate::stock::Stock;
use history::{Call, Reply};
use std::sync::Wait;

/// The handle that a copy has opened, by the reply to it.
fn handle_in(answer: Reply) -> u16
    requires { TellsHandle answer }
    ensures { answer ≡ reply.Opened result }
{
    match answer {
        Reply::Opened(number) => number,
        _ => unreachable!(),
    }
}

/// A copy, by this seat, `seat`. Returns the handle that it opens.
fn open_copy<R: Wait>(
    rt: &R,
    words: &Words,
    actor: &mut Actor,
    stock: &mut Stock,
    seat: u8,
    call: Call,
) -> Result<u16, CallError>
    requires table { actor.old.table_id ≡ words.now.table_id }
    requires sound { IsSound words.now.table_id.words actor.old.me.0 }
    requires stock { IsStock stock.old actor.old.me.0 }
    requires its { actor.old.me.0.actor ≡ seat }
    requires few { actor.old.me.0.actor ≤ actor.old.me.0.sizes.seats }
    requires tried { IsTried call }
    requires opens { opens_handle call ≡ true }
    requires ready { RestsWith actor.old.me.0 None }
    ensures table { actor.new.table_id ≡ actor.old.table_id }
    ensures sound { IsSound words.now.table_id.words actor.new.me.0 }
    ensures stock { IsStock stock.new actor.new.me.0 }
    ensures left { HasLeft actor.old.me.0 actor.new.me.0 }
    ensures told { IsToldCopyAtLast actor.old.me.0 call result actor.new.me.0 }
    ensures why { IfErr result (FitsError call) }
{
    match run_at_last(rt, words, actor, stock, seat, call) {
        Ok(reply) => Ok(handle_in(reply)),
        Err(error) => Err(error),
    }
}

/// Removes all keys of this handle, by this seat, `seat`.
fn clear_all<R: Wait>(
    rt: &R,
    words: &Words,
    actor: &mut Actor,
    stock: &mut Stock,
    seat: u8,
    handle: u16,
) -> Result<(), CallError>
    requires table { actor.old.table_id ≡ words.now.table_id }
    requires sound { IsSound words.now.table_id.words actor.old.me.0 }
    requires stock { IsStock stock.old actor.old.me.0 }
    requires its { actor.old.me.0.actor ≡ seat }
    requires few { actor.old.me.0.actor ≤ actor.old.me.0.sizes.seats }
    requires ready { RestsWith actor.old.me.0 None }
    ensures table { actor.new.table_id ≡ actor.old.table_id }
    ensures sound { IsSound words.now.table_id.words actor.new.me.0 }
    ensures stock { IsStock stock.new actor.new.me.0 }
    ensures left { HasLeft actor.old.me.0 actor.new.me.0 }
    ensures told { IsToldAtLast (λ done. reply.Cleared) actor.old.me.0 (Clear handle) result actor.new.me.0 }
    ensures why { IfErr result (FitsError (Clear handle)) }
{
    match run_at_last(rt, words, actor, stock, seat, Call::Clear { handle }) {
        Ok(_) => Ok(()),
        Err(why) => Err(why),
    }
}

impl Seat {
    ghost use Rattle.lock_free.specs.Seated.{HasGoneOn};

    /// A copy that may be written: it is changed on its own, as is the map that was copied, which may be written too. Returns its handle.
    ///
    /// # Errors
    ///
    /// `NoHandle`, `ReadOnly`, `HandlesFull`, `Full` and `WornOut`; and `Spent`, after 2^64 - 1 tries alone.
    pub fn snapshot<R: Wait>(
        &mut self,
        rt: &R,
        words: &Words,
        handle: u16,
    ) -> Result<u16, CallError>
        requires table { self.old.table ≡ words.now.table_id }
        ensures seat { HasGoneOn self.old self.new }
        ensures told { IsToldCopyAtLast self.old.view (Snapshot handle) result self.new.view }
        ensures why { IfErr result (FitsError (Snapshot handle)) }
    {
        let call = Call::Snapshot { handle };
        let (actor, stock) = (&mut self.actor, &mut self.stock);
        open_copy(rt, words, actor, stock, self.number, call)
    }

    /// A copy for readers of a map that may be written. Returns its handle.
    ///
    /// # Errors
    ///
    /// `NoHandle`, `ReadOnly`, `HandlesFull`, `Full` and `WornOut`; and `Spent`, after 2^64 - 1 tries alone.
    pub fn freeze<R: Wait>(&mut self, rt: &R, words: &Words, handle: u16) -> Result<u16, CallError>
        requires table { self.old.table ≡ words.now.table_id }
        ensures seat { HasGoneOn self.old self.new }
        ensures told { IsToldCopyAtLast self.old.view (Freeze handle) result self.new.view }
        ensures why { IfErr result (FitsError (Freeze handle)) }
    {
        let call = Call::Freeze { handle };
        let (actor, stock) = (&mut self.actor, &mut self.stock);
        open_copy(rt, words, actor, stock, self.number, call)
    }

    /// Removes all keys.
    ///
    /// # Errors
    ///
    /// `NoHandle`, `ReadOnly`, `Full` and `WornOut`; and `Spent`, after 2^64 - 1 tries alone.
    pub fn clear<R: Wait>(&mut self, rt: &R, words: &Words, handle: u16) -> Result<(), CallError>
        requires table { self.old.table ≡ words.now.table_id }
        ensures seat { HasGoneOn self.old self.new }
        ensures told { IsToldAtLast (λ done. reply.Cleared) self.old.view (Clear handle) result self.new.view }
        ensures why { IfErr result (FitsError (Clear handle)) }
    {
        let (actor, stock) = (&mut self.actor, &mut self.stock);
        clear_all(rt, words, actor, stock, self.number, handle)
    }
}
