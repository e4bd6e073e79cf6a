//! A seat's calls on all pairs of a read-only handle.

ghost use Rattle.std.specs.Prelude.{◌≡◌, ◌≤◌, ◌⊎◌, None, IfErr};
ghost use Rattle.history.specs.declared.calls.Call.TheVariants.{Count, Entries};
ghost use Rattle.history.specs.declared.replies.Reply.TheVariants as reply;
ghost use Rattle.lock_free.specs.Attempts.{HasEndedWith};
ghost use Rattle.lock_free.specs.KeyReplies.{FitsError};
ghost use Rattle.lock_free.specs.Loading.{IsSound};
ghost use Rattle.lock_free.specs.Passing.{IsOnWay};
ghost use Rattle.lock_free.specs.SeatCalls.{IsTold, RanOut};
ghost use Rattle.lock_free.specs.Stocks.{IsStock};
ghost use Rattle.lock_free.specs.WholeCalls.{reply_or_none, HasLeft, IsWalkLack, IsWalkOf, RestsWith};

use crate::beginning::{begin_call, begin_call_within};
use crate::call_errors::CallError;
use crate::call_runs::HANDLES;
use crate::loads::{Actor, Words};
use crate::reading::Way;
use crate::seating::{Seat, end, refuse};
use crate::stock::Stock;
use crate::walking::in_order;
use crate::walks::{all_pairs_within, count_pairs_within};
use history::Call;
use std::alloc::Global;
use std::sync::Wait;

/// The end of a listing that this seat, `seat`, has begun: all pairs, by rising key. Each loop on the way is in so many tries.
fn list_from(
    alloc: Global,
    tries: u64,
    words: &Words,
    actor: &mut Actor,
    stock: &mut Stock,
    seat: u8,
    way: Way,
) -> Result<Vec<(u64, u64)>, CallError>
    requires table { actor.old.table_id ≡ words.now.table_id }
    requires sound { IsSound words.now.table_id.words actor.old.me.0 }
    requires stock { IsStock stock.old actor.old.me.0 }
    requires its { actor.old.me.0.actor ≡ seat }
    requires few { actor.old.me.0.actor ≤ actor.old.me.0.sizes.seats }
    requires way { IsOnWay actor.old.me.0 way }
    requires at { IsWalkOf Entries actor.old.me.0 }
    ensures table { actor.new.table_id ≡ actor.old.table_id }
    ensures sound { IsSound words.now.table_id.words actor.new.me.0 }
    ensures stock { IsStock stock.new actor.new.me.0 }
    ensures ended { HasEndedWith actor.old.me.0 (reply_or_none (λ pairs. reply.Pairs pairs.items) result) actor.new.me.0 }
    ensures lacks { IfErr result IsWalkLack }
{
    match all_pairs_within(alloc, tries, words, actor, way) {
        Ok(pairs) => {
            end(words, actor, stock, seat);
            Ok(in_order(pairs))
        }
        Err(why) => {
            refuse(words, actor, stock, seat);
            Err(CallError::from(why))
        }
    }
}

/// The same for a count.
fn count_from(
    alloc: Global,
    tries: u64,
    words: &Words,
    actor: &mut Actor,
    stock: &mut Stock,
    seat: u8,
    way: Way,
) -> Result<u64, CallError>
    requires table { actor.old.table_id ≡ words.now.table_id }
    requires sound { IsSound words.now.table_id.words actor.old.me.0 }
    requires stock { IsStock stock.old actor.old.me.0 }
    requires its { actor.old.me.0.actor ≡ seat }
    requires few { actor.old.me.0.actor ≤ actor.old.me.0.sizes.seats }
    requires way { IsOnWay actor.old.me.0 way }
    requires at { IsWalkOf Count actor.old.me.0 }
    ensures table { actor.new.table_id ≡ actor.old.table_id }
    ensures sound { IsSound words.now.table_id.words actor.new.me.0 }
    ensures stock { IsStock stock.new actor.new.me.0 }
    ensures ended { HasEndedWith actor.old.me.0 (reply_or_none reply.Count result) actor.new.me.0 }
    ensures lacks { IfErr result IsWalkLack }
{
    match count_pairs_within(alloc, tries, words, actor, way) {
        Ok(count) => {
            end(words, actor, stock, seat);
            Ok(count)
        }
        Err(why) => {
            refuse(words, actor, stock, seat);
            Err(CallError::from(why))
        }
    }
}

/// All pairs of a read-only handle, by rising key, for this seat, `seat`.
fn list_all<R: Wait>(
    alloc: Global,
    rt: &R,
    words: &Words,
    actor: &mut Actor,
    stock: &mut Stock,
    seat: u8,
    handle: u16,
) -> Result<Vec<(u64, u64)>, CallError>
    requires table { actor.old.table_id ≡ words.now.table_id }
    requires sound { IsSound words.now.table_id.words actor.old.me.0 }
    requires stock { IsStock stock.old actor.old.me.0 }
    requires its { actor.old.me.0.actor ≡ seat }
    requires few { actor.old.me.0.actor ≤ actor.old.me.0.sizes.seats }
    requires ready { RestsWith actor.old.me.0 None }
    ensures table { actor.new.table_id ≡ actor.old.table_id }
    ensures sound { IsSound words.now.table_id.words actor.new.me.0 }
    ensures stock { IsStock stock.new actor.new.me.0 }
    ensures left { HasLeft actor.old.me.0 actor.new.me.0 }
    ensures told { IsTold (λ pairs. reply.Pairs pairs.items) actor.old.me.0 (Entries handle) result actor.new.me.0 }
    ensures why { IfErr result (FitsError (Entries handle)) }
{
    if handle >= HANDLES {
        return Err(CallError::NoHandle);
    }
    let way = begin_call(rt, words, actor, stock, seat, Call::Entries { handle })?;
    list_from(alloc, u64::MAX, words, actor, stock, seat, way)
}

/// The same, each loop on the way in so many tries.
fn list_all_within(
    alloc: Global,
    tries: u64,
    words: &Words,
    actor: &mut Actor,
    stock: &mut Stock,
    seat: u8,
    handle: u16,
) -> Result<Vec<(u64, u64)>, CallError>
    requires table { actor.old.table_id ≡ words.now.table_id }
    requires sound { IsSound words.now.table_id.words actor.old.me.0 }
    requires stock { IsStock stock.old actor.old.me.0 }
    requires its { actor.old.me.0.actor ≡ seat }
    requires few { actor.old.me.0.actor ≤ actor.old.me.0.sizes.seats }
    requires ready { RestsWith actor.old.me.0 None }
    ensures table { actor.new.table_id ≡ actor.old.table_id }
    ensures sound { IsSound words.now.table_id.words actor.new.me.0 }
    ensures stock { IsStock stock.new actor.new.me.0 }
    ensures left { HasLeft actor.old.me.0 actor.new.me.0 }
    ensures told { IsTold (λ pairs. reply.Pairs pairs.items) actor.old.me.0 (Entries handle) result actor.new.me.0 ⊎ RanOut actor.old.me.0 result actor.new.me.0 }
    ensures why { IfErr result (FitsError (Entries handle)) }
{
    if handle >= HANDLES {
        return Err(CallError::NoHandle);
    }
    let way = begin_call_within(tries, words, actor, stock, seat, Call::Entries { handle })?;
    list_from(alloc, tries, words, actor, stock, seat, way)
}

/// How many pairs a read-only handle has, for this seat, `seat`.
fn count_all<R: Wait>(
    alloc: Global,
    rt: &R,
    words: &Words,
    actor: &mut Actor,
    stock: &mut Stock,
    seat: u8,
    handle: u16,
) -> Result<u64, CallError>
    requires table { actor.old.table_id ≡ words.now.table_id }
    requires sound { IsSound words.now.table_id.words actor.old.me.0 }
    requires stock { IsStock stock.old actor.old.me.0 }
    requires its { actor.old.me.0.actor ≡ seat }
    requires few { actor.old.me.0.actor ≤ actor.old.me.0.sizes.seats }
    requires ready { RestsWith actor.old.me.0 None }
    ensures table { actor.new.table_id ≡ actor.old.table_id }
    ensures sound { IsSound words.now.table_id.words actor.new.me.0 }
    ensures stock { IsStock stock.new actor.new.me.0 }
    ensures left { HasLeft actor.old.me.0 actor.new.me.0 }
    ensures told { IsTold reply.Count actor.old.me.0 (Count handle) result actor.new.me.0 }
    ensures why { IfErr result (FitsError (Count handle)) }
{
    if handle >= HANDLES {
        return Err(CallError::NoHandle);
    }
    let way = begin_call(rt, words, actor, stock, seat, Call::Count { handle })?;
    count_from(alloc, u64::MAX, words, actor, stock, seat, way)
}

/// The same, each loop on the way in so many tries.
fn count_all_within(
    alloc: Global,
    tries: u64,
    words: &Words,
    actor: &mut Actor,
    stock: &mut Stock,
    seat: u8,
    handle: u16,
) -> Result<u64, CallError>
    requires table { actor.old.table_id ≡ words.now.table_id }
    requires sound { IsSound words.now.table_id.words actor.old.me.0 }
    requires stock { IsStock stock.old actor.old.me.0 }
    requires its { actor.old.me.0.actor ≡ seat }
    requires few { actor.old.me.0.actor ≤ actor.old.me.0.sizes.seats }
    requires ready { RestsWith actor.old.me.0 None }
    ensures table { actor.new.table_id ≡ actor.old.table_id }
    ensures sound { IsSound words.now.table_id.words actor.new.me.0 }
    ensures stock { IsStock stock.new actor.new.me.0 }
    ensures left { HasLeft actor.old.me.0 actor.new.me.0 }
    ensures told { IsTold reply.Count actor.old.me.0 (Count handle) result actor.new.me.0 ⊎ RanOut actor.old.me.0 result actor.new.me.0 }
    ensures why { IfErr result (FitsError (Count handle)) }
{
    if handle >= HANDLES {
        return Err(CallError::NoHandle);
    }
    let way = begin_call_within(tries, words, actor, stock, seat, Call::Count { handle })?;
    count_from(alloc, tries, words, actor, stock, seat, way)
}

impl Seat {
    ghost use Rattle.lock_free.specs.Seated.{HasGoneOn};

    /// All pairs of a read-only handle, by rising key.
    ///
    /// # Errors
    ///
    /// `NoHandle`, also while the call that opens the handle hasn't returned; `NotReadOnly` and `Memory`; and `Spent`, after 2^64 - 1 tries alone.
    pub fn entries<R: Wait>(
        &mut self,
        alloc: Global,
        rt: &R,
        words: &Words,
        handle: u16,
    ) -> Result<Vec<(u64, u64)>, CallError>
        requires table { self.old.table ≡ words.now.table_id }
        ensures seat { HasGoneOn self.old self.new }
        ensures told { IsTold (λ pairs. reply.Pairs pairs.items) self.old.view (Entries handle) result self.new.view }
        ensures why { IfErr result (FitsError (Entries handle)) }
    {
        let (actor, stock) = (&mut self.actor, &mut self.stock);
        list_all(alloc, rt, words, actor, stock, self.number, handle)
    }

    /// The same with no `Wait`: each loop on the way is in so many tries.
    ///
    /// # Errors
    ///
    /// `NoHandle`, also while the call that opens the handle hasn't returned; `NotReadOnly`, `Memory` and `Spent`.
    pub fn entries_within(
        &mut self,
        alloc: Global,
        tries: u64,
        words: &Words,
        handle: u16,
    ) -> Result<Vec<(u64, u64)>, CallError>
        requires table { self.old.table ≡ words.now.table_id }
        ensures seat { HasGoneOn self.old self.new }
        ensures told { IsTold (λ pairs. reply.Pairs pairs.items) self.old.view (Entries handle) result self.new.view ⊎ RanOut self.old.view result self.new.view }
        ensures why { IfErr result (FitsError (Entries handle)) }
    {
        let (actor, stock) = (&mut self.actor, &mut self.stock);
        list_all_within(alloc, tries, words, actor, stock, self.number, handle)
    }

    /// How many pairs a read-only handle has.
    ///
    /// # Errors
    ///
    /// `NoHandle`, also while the call that opens the handle hasn't returned; `NotReadOnly` and `Memory`; and `Spent`, after 2^64 - 1 tries alone.
    pub fn count<R: Wait>(
        &mut self,
        alloc: Global,
        rt: &R,
        words: &Words,
        handle: u16,
    ) -> Result<u64, CallError>
        requires table { self.old.table ≡ words.now.table_id }
        ensures seat { HasGoneOn self.old self.new }
        ensures told { IsTold reply.Count self.old.view (Count handle) result self.new.view }
        ensures why { IfErr result (FitsError (Count handle)) }
    {
        let (actor, stock) = (&mut self.actor, &mut self.stock);
        count_all(alloc, rt, words, actor, stock, self.number, handle)
    }

    /// The same with no `Wait`: each loop on the way is in so many tries.
    ///
    /// # Errors
    ///
    /// `NoHandle`, also while the call that opens the handle hasn't returned; `NotReadOnly`, `Memory` and `Spent`.
    pub fn count_within(
        &mut self,
        alloc: Global,
        tries: u64,
        words: &Words,
        handle: u16,
    ) -> Result<u64, CallError>
        requires table { self.old.table ≡ words.now.table_id }
        ensures seat { HasGoneOn self.old self.new }
        ensures told { IsTold reply.Count self.old.view (Count handle) result self.new.view ⊎ RanOut self.old.view result self.new.view }
        ensures why { IfErr result (FitsError (Count handle)) }
    {
        let (actor, stock) = (&mut self.actor, &mut self.stock);
        count_all_within(alloc, tries, words, actor, stock, self.number, handle)
    }
}
