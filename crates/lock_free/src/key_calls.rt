//! A seat's calls on keys.

ghost use Rattle.std.specs.Prelude.{◌≡◌, IfErr, IfOk};
ghost use Rattle.history.specs.declared.calls.Call.TheVariants.{Get, Put, PutIfAbsent, Remove, RemoveIf, Replace, ReplaceIf};
ghost use Rattle.history.specs.declared.replies.Reply.TheVariants as reply;
ghost use Rattle.lock_free.specs.Attempts.{IsKeyed};
ghost use Rattle.lock_free.specs.KeyReplies.{FitsCall, FitsError, TellsTruth};

use crate::call_errors::CallError;
use crate::get_calls::{glance_alone, run_get};
use crate::get_runs::value_in;
use crate::loads::Words;
use crate::seating::Seat;
use crate::slot_waits::key_at_last;
use history::{Call, Reply};
use std::sync::Wait;

/// Whether the value was the one asked for, by the reply to a call that asks so.
fn truth_in(answer: Reply) -> bool
    requires { TellsTruth answer }
    ensures { answer ≡ reply.Truth result }
{
    match answer {
        Reply::Truth(truth) => truth,
        _ => unreachable!(),
    }
}

impl Seat {
    ghost use Rattle.lock_free.specs.Seated.{HasGoneOn};
    ghost use Rattle.lock_free.specs.GetRuns.{IsToldAtOnce, IsToldIfSomeAtLast};
    ghost use Rattle.lock_free.specs.SeatCalls.{IsTold};
    ghost use Rattle.lock_free.specs.SlotWaits.{IsToldAtLast};

    /// A call on a key, which waits for slots where it has found none, while some are to be free for the seat soon. Returns its reply.
    pub(crate) fn call_key<R: Wait>(
        &mut self,
        rt: &R,
        words: &Words,
        call: Call,
    ) -> Result<Reply, CallError>
        requires table { self.old.table ≡ words.now.table_id }
        requires keyed { IsKeyed call }
        ensures seat { HasGoneOn self.old self.new }
        ensures told { IsToldAtLast (λ r. r) self.old.view call result self.new.view }
        ensures why { IfErr result (FitsError call) }
        ensures fits { IfOk result (FitsCall call) }
    {
        let (actor, stock) = (&mut self.actor, &mut self.stock);
        key_at_last(rt, words, actor, stock, self.number, call)
    }

    /// The value of this key, if it has one. The seat reads without a pin first; where that comes to nothing the call is made anew, pinned, and
    /// waits for slots as changes do where the way to the key has to be renewed.
    ///
    /// # Errors
    ///
    /// `NoHandle` and `Full`; and `Spent`, after 2^64 - 1 tries alone.
    pub fn get<R: Wait>(
        &mut self,
        rt: &R,
        words: &Words,
        handle: u16,
        key: u64,
    ) -> Result<Option<u64>, CallError>
        requires table { self.old.table ≡ words.now.table_id }
        ensures seat { HasGoneOn self.old self.new }
        ensures told { IsToldAtLast reply.Found self.old.view (Get handle key) result self.new.view }
        ensures why { IfErr result (FitsError (Get handle key)) }
    {
        let (actor, stock) = (&mut self.actor, &mut self.stock);
        run_get(rt, words, actor, stock, self.number, handle, key)
    }

    /// The value of this key, if it has one, where the seat can read that at once and without a pin. None where something stands in its way,
    /// or comes in its way meanwhile: that tells nothing of the key. It takes no locked step, and always ends.
    pub fn glance(&mut self, words: &Words, handle: u16, key: u64) -> Option<Option<u64>>
        requires table { self.old.table ≡ words.now.table_id }
        ensures seat { HasGoneOn self.old self.new }
        ensures told { IsToldAtOnce self.old.view (Get handle key) result self.new.view }
    {
        let (actor, stock) = (&mut self.actor, &self.stock);
        glance_alone(words, actor, stock, handle, key)
    }

    /// Whether this key has a value.
    ///
    /// # Errors
    ///
    /// As of `get`.
    #[tactic(auto, using(crate::proofs::GetsWhole::told_some))]
    pub fn contains<R: Wait>(
        &mut self,
        rt: &R,
        words: &Words,
        handle: u16,
        key: u64,
    ) -> Result<bool, CallError>
        requires table { self.old.table ≡ words.now.table_id }
        ensures seat { HasGoneOn self.old self.new }
        ensures told { IsToldIfSomeAtLast self.old.view (Get handle key) result self.new.view }
        ensures why { IfErr result (FitsError (Get handle key)) }
    {
        Ok(self.get(rt, words, handle, key)?.is_some())
    }

    /// Gives this key this value. Returns the value that it had.
    ///
    /// # Errors
    ///
    /// `NoHandle`, `ReadOnly`, `Crowded` and `Full`; and `Spent`, after 2^64 - 1 tries alone.
    pub fn put<R: Wait>(
        &mut self,
        rt: &R,
        words: &Words,
        handle: u16,
        key: u64,
        value: u64,
    ) -> Result<Option<u64>, CallError>
        requires table { self.old.table ≡ words.now.table_id }
        ensures seat { HasGoneOn self.old self.new }
        ensures told { IsToldAtLast reply.Found self.old.view (Put handle key value) result self.new.view }
        ensures why { IfErr result (FitsError (Put handle key value)) }
    {
        Ok(value_in(self.call_key(rt, words, Call::Put { handle, key, value })?))
    }

    /// Gives this key this value if it has none. Returns the value that it had.
    ///
    /// # Errors
    ///
    /// `NoHandle`, `ReadOnly`, `Crowded` and `Full`; and `Spent`, after 2^64 - 1 tries alone.
    pub fn put_if_absent<R: Wait>(
        &mut self,
        rt: &R,
        words: &Words,
        handle: u16,
        key: u64,
        value: u64,
    ) -> Result<Option<u64>, CallError>
        requires table { self.old.table ≡ words.now.table_id }
        ensures seat { HasGoneOn self.old self.new }
        ensures told { IsToldAtLast reply.Found self.old.view (PutIfAbsent handle key value) result self.new.view }
        ensures why { IfErr result (FitsError (PutIfAbsent handle key value)) }
    {
        Ok(value_in(self.call_key(rt, words, Call::PutIfAbsent { handle, key, value })?))
    }

    /// Gives this key this value if it has one. Returns the value that it had.
    ///
    /// # Errors
    ///
    /// `NoHandle`, `ReadOnly` and `Full`; and `Spent`, after 2^64 - 1 tries alone.
    pub fn replace<R: Wait>(
        &mut self,
        rt: &R,
        words: &Words,
        handle: u16,
        key: u64,
        value: u64,
    ) -> Result<Option<u64>, CallError>
        requires table { self.old.table ≡ words.now.table_id }
        ensures seat { HasGoneOn self.old self.new }
        ensures told { IsToldAtLast reply.Found self.old.view (Replace handle key value) result self.new.view }
        ensures why { IfErr result (FitsError (Replace handle key value)) }
    {
        Ok(value_in(self.call_key(rt, words, Call::Replace { handle, key, value })?))
    }

    /// Gives this key the value `new` if it has the value `old`. Returns whether it had.
    ///
    /// # Errors
    ///
    /// `NoHandle`, `ReadOnly` and `Full`; and `Spent`, after 2^64 - 1 tries alone.
    pub fn replace_if<R: Wait>(
        &mut self,
        rt: &R,
        words: &Words,
        handle: u16,
        key: u64,
        old: u64,
        new: u64,
    ) -> Result<bool, CallError>
        requires table { self.old.table ≡ words.now.table_id }
        ensures seat { HasGoneOn self.old self.new }
        ensures told { IsToldAtLast reply.Truth self.old.view (ReplaceIf handle key old new) result self.new.view }
        ensures why { IfErr result (FitsError (ReplaceIf handle key old new)) }
    {
        let call = Call::ReplaceIf {
            handle,
            key,
            old,
            new,
        };
        Ok(truth_in(self.call_key(rt, words, call)?))
    }

    /// Removes this key. Returns the value that it had.
    ///
    /// # Errors
    ///
    /// `NoHandle`, `ReadOnly` and `Full`; and `Spent`, after 2^64 - 1 tries alone.
    pub fn remove<R: Wait>(
        &mut self,
        rt: &R,
        words: &Words,
        handle: u16,
        key: u64,
    ) -> Result<Option<u64>, CallError>
        requires table { self.old.table ≡ words.now.table_id }
        ensures seat { HasGoneOn self.old self.new }
        ensures told { IsToldAtLast reply.Found self.old.view (Remove handle key) result self.new.view }
        ensures why { IfErr result (FitsError (Remove handle key)) }
    {
        Ok(value_in(self.call_key(rt, words, Call::Remove { handle, key })?))
    }

    /// Removes this key if it has this value. Returns whether it had.
    ///
    /// # Errors
    ///
    /// `NoHandle`, `ReadOnly` and `Full`; and `Spent`, after 2^64 - 1 tries alone.
    pub fn remove_if<R: Wait>(
        &mut self,
        rt: &R,
        words: &Words,
        handle: u16,
        key: u64,
        value: u64,
    ) -> Result<bool, CallError>
        requires table { self.old.table ≡ words.now.table_id }
        ensures seat { HasGoneOn self.old self.new }
        ensures told { IsToldAtLast reply.Truth self.old.view (RemoveIf handle key value) result self.new.view }
        ensures why { IfErr result (FitsError (RemoveIf handle key value)) }
    {
        let call = Call::RemoveIf { handle, key, value };
        Ok(truth_in(self.call_key(rt, words, call)?))
    }
}
