//! Calls on keys.

ghost use Rattle.std.specs.Prelude.{IfErr};
ghost use Rattle.history.specs.declared.calls.Call.TheVariants.{Get, Put, PutIfAbsent, Remove, RemoveIf, Replace, ReplaceIf};
ghost use Rattle.history.specs.declared.replies.Reply.TheVariants.{Found, Truth};
ghost use Rattle.lock_free.specs.KeyReplies.{FitsError};
ghost use Rattle.concurrent_map.specs.Calls.{IsToldAtLast, IsToldAtOnce, IsToldIfSomeAtLast};

use crate::handles::Handle;
use crate::maps::ConcurrentMap;
use crate::seats::{MapSeat, histories_stay};
use lock_free::CallError;
use std::sync::Wait;

impl MapSeat {
    ghost use Rattle.concurrent_map.specs.Seats.{IsSeatOf};

    /// The value of this key, if it has one. Where something stands in its way, as where other seats let slots become free or close a handle
    /// meanwhile, the history has the call again, the first times as refused.
    ///
    /// # Errors
    ///
    /// `NoHandle`; `Full`, where the way to the key is to be renewed first, after a copy was made; `Spent`, after 2^64 - 1 tries alone.
    pub fn get<R: Wait>(
        &mut self,
        rt: &R,
        map: &ConcurrentMap,
        handle: Handle,
        key: u64,
    ) -> Result<Option<u64>, CallError>
        requires { IsSeatOf map.now self.old }
        ensures seat { IsSeatOf map.now self.new }
        ensures told { IsToldAtLast Found self.old (Get handle key) result self.new }
        ensures why { IfErr result (FitsError (Get handle key)) }
    {
        histories_stay();
        self.seat.get(rt, &map.board.shared, handle.number(), key)
    }

    /// The value of this key, if it has one, where that can be read at once, and nothing stands in the way. None where it can't: that tells
    /// nothing of the key. It always ends, whatever other threads do, so it is made before a get in a number of tries.
    pub fn glance(&mut self, map: &ConcurrentMap, handle: Handle, key: u64) -> Option<Option<u64>>
        requires { IsSeatOf map.now self.old }
        ensures seat { IsSeatOf map.now self.new }
        ensures told { IsToldAtOnce self.old (Get handle key) result self.new }
    {
        histories_stay();
        self.seat.glance(&map.board.shared, handle.number(), key)
    }

    /// Whether this key has a value.
    ///
    /// # Errors
    ///
    /// As of `get`.
    pub fn contains<R: Wait>(
        &mut self,
        rt: &R,
        map: &ConcurrentMap,
        handle: Handle,
        key: u64,
    ) -> Result<bool, CallError>
        requires { IsSeatOf map.now self.old }
        ensures seat { IsSeatOf map.now self.new }
        ensures told { IsToldIfSomeAtLast self.old (Get handle key) result self.new }
        ensures why { IfErr result (FitsError (Get handle key)) }
    {
        histories_stay();
        self.seat
            .contains(rt, &map.board.shared, handle.number(), key)
    }

    /// Gives this key this value. Returns the value that it had.
    ///
    /// # Errors
    ///
    /// `NoHandle`, `ReadOnly`, `Crowded`, `Full`; `Spent`, after 2^64 - 1 tries alone.
    pub fn put<R: Wait>(
        &mut self,
        rt: &R,
        map: &ConcurrentMap,
        handle: Handle,
        key: u64,
        value: u64,
    ) -> Result<Option<u64>, CallError>
        requires { IsSeatOf map.now self.old }
        ensures seat { IsSeatOf map.now self.new }
        ensures told { IsToldAtLast Found self.old (Put handle key value) result self.new }
        ensures why { IfErr result (FitsError (Put handle key value)) }
    {
        histories_stay();
        self.seat
            .put(rt, &map.board.shared, handle.number(), key, value)
    }

    /// Gives this key this value if it has none. Returns the value that it had.
    ///
    /// # Errors
    ///
    /// `NoHandle`, `ReadOnly`, `Crowded`, `Full`; `Spent`, after 2^64 - 1 tries alone.
    pub fn put_if_absent<R: Wait>(
        &mut self,
        rt: &R,
        map: &ConcurrentMap,
        handle: Handle,
        key: u64,
        value: u64,
    ) -> Result<Option<u64>, CallError>
        requires { IsSeatOf map.now self.old }
        ensures seat { IsSeatOf map.now self.new }
        ensures told { IsToldAtLast Found self.old (PutIfAbsent handle key value) result self.new }
        ensures why { IfErr result (FitsError (PutIfAbsent handle key value)) }
    {
        histories_stay();
        self.seat
            .put_if_absent(rt, &map.board.shared, handle.number(), key, value)
    }

    /// Gives this key this value if it has one. Returns the value that it had.
    ///
    /// # Errors
    ///
    /// `NoHandle`, `ReadOnly`, `Full`; `Spent`, after 2^64 - 1 tries alone.
    pub fn replace<R: Wait>(
        &mut self,
        rt: &R,
        map: &ConcurrentMap,
        handle: Handle,
        key: u64,
        value: u64,
    ) -> Result<Option<u64>, CallError>
        requires { IsSeatOf map.now self.old }
        ensures seat { IsSeatOf map.now self.new }
        ensures told { IsToldAtLast Found self.old (Replace handle key value) result self.new }
        ensures why { IfErr result (FitsError (Replace handle key value)) }
    {
        histories_stay();
        self.seat
            .replace(rt, &map.board.shared, handle.number(), key, value)
    }

    /// Gives this key the value `new` if it has the value `old`. Returns whether it had.
    ///
    /// # Errors
    ///
    /// `NoHandle`, `ReadOnly`, `Full`; `Spent`, after 2^64 - 1 tries alone.
    pub fn replace_if<R: Wait>(
        &mut self,
        rt: &R,
        map: &ConcurrentMap,
        handle: Handle,
        key: u64,
        old: u64,
        new: u64,
    ) -> Result<bool, CallError>
        requires { IsSeatOf map.now self.old }
        ensures seat { IsSeatOf map.now self.new }
        ensures told { IsToldAtLast Truth self.old (ReplaceIf handle key old new) result self.new }
        ensures why { IfErr result (FitsError (ReplaceIf handle key old new)) }
    {
        histories_stay();
        self.seat
            .replace_if(rt, &map.board.shared, handle.number(), key, old, new)
    }

    /// Removes this key. Returns the value that it had.
    ///
    /// # Errors
    ///
    /// `NoHandle`, `ReadOnly`, `Full`; `Spent`, after 2^64 - 1 tries alone.
    pub fn remove<R: Wait>(
        &mut self,
        rt: &R,
        map: &ConcurrentMap,
        handle: Handle,
        key: u64,
    ) -> Result<Option<u64>, CallError>
        requires { IsSeatOf map.now self.old }
        ensures seat { IsSeatOf map.now self.new }
        ensures told { IsToldAtLast Found self.old (Remove handle key) result self.new }
        ensures why { IfErr result (FitsError (Remove handle key)) }
    {
        histories_stay();
        self.seat
            .remove(rt, &map.board.shared, handle.number(), key)
    }

    /// Removes this key if it has this value. Returns whether it had.
    ///
    /// # Errors
    ///
    /// `NoHandle`, `ReadOnly`, `Full`; `Spent`, after 2^64 - 1 tries alone.
    pub fn remove_if<R: Wait>(
        &mut self,
        rt: &R,
        map: &ConcurrentMap,
        handle: Handle,
        key: u64,
        value: u64,
    ) -> Result<bool, CallError>
        requires { IsSeatOf map.now self.old }
        ensures seat { IsSeatOf map.now self.new }
        ensures told { IsToldAtLast Truth self.old (RemoveIf handle key value) result self.new }
        ensures why { IfErr result (FitsError (RemoveIf handle key value)) }
    {
        histories_stay();
        self.seat
            .remove_if(rt, &map.board.shared, handle.number(), key, value)
    }
}
