//! Calls on all pairs of a copy for readers.

ghost use Rattle.std.specs.Prelude.{◌⊎◌, IfErr};
ghost use Rattle.history.specs.declared.calls.Call.TheVariants.{Count, Entries};
ghost use Rattle.history.specs.declared.replies.Reply.TheVariants as reply;
ghost use Rattle.lock_free.specs.KeyReplies.{FitsError};
ghost use Rattle.concurrent_map.specs.Calls.{IsTold, IsToldFirst, RanOut};

use crate::handles::Handle;
use crate::maps::ConcurrentMap;
use crate::seats::{MapSeat, histories_stay};
use lock_free::CallError;
use std::alloc::Global;
use std::sync::Wait;

impl MapSeat {
    ghost use Rattle.concurrent_map.specs.Seats.{IsSeatOf};

    /// All pairs of a copy for readers, by rising key.
    ///
    /// # Errors
    ///
    /// `NoHandle`, `NotReadOnly`, `Memory`; `Spent`, after 2^64 - 1 tries alone.
    pub fn entries<R: Wait>(
        &mut self,
        alloc: Global,
        rt: &R,
        map: &ConcurrentMap,
        handle: Handle,
    ) -> Result<Vec<(u64, u64)>, CallError>
        requires { IsSeatOf map.now self.old }
        ensures seat { IsSeatOf map.now self.new }
        ensures told { IsTold (λ pairs. reply.Pairs pairs.items) self.old (Entries handle) result self.new }
        ensures why { IfErr result (FitsError (Entries handle)) }
    {
        histories_stay();
        self.seat
            .entries(alloc, rt, &map.board.shared, handle.number())
    }

    /// How many pairs a copy for readers has.
    ///
    /// # Errors
    ///
    /// As of `entries`: its way is kept in a list.
    pub fn count<R: Wait>(
        &mut self,
        alloc: Global,
        rt: &R,
        map: &ConcurrentMap,
        handle: Handle,
    ) -> Result<u64, CallError>
        requires { IsSeatOf map.now self.old }
        ensures seat { IsSeatOf map.now self.new }
        ensures told { IsTold reply.Count self.old (Count handle) result self.new }
        ensures why { IfErr result (FitsError (Count handle)) }
    {
        histories_stay();
        self.seat
            .count(alloc, rt, &map.board.shared, handle.number())
    }

    /// The pair of the least key of a copy for readers; none where it has no pair. It lists the copy, and takes the memory of that list.
    ///
    /// # Errors
    ///
    /// As of `entries`.
    pub fn first<R: Wait>(
        &mut self,
        alloc: Global,
        rt: &R,
        map: &ConcurrentMap,
        handle: Handle,
    ) -> Result<Option<(u64, u64)>, CallError>
        requires { IsSeatOf map.now self.old }
        ensures seat { IsSeatOf map.now self.new }
        ensures told { IsToldFirst self.old (Entries handle) result self.new }
        ensures why { IfErr result (FitsError (Entries handle)) }
    {
        let pairs = self.entries(alloc, rt, map, handle)?;
        Ok(pairs.first().copied())
    }

    /// The same as `entries`, in so many tries at most: it ends whatever other threads do.
    ///
    /// # Errors
    ///
    /// As of `entries`; and `Spent`, where the tries are used up.
    pub fn entries_within(
        &mut self,
        alloc: Global,
        tries: u64,
        map: &ConcurrentMap,
        handle: Handle,
    ) -> Result<Vec<(u64, u64)>, CallError>
        requires { IsSeatOf map.now self.old }
        ensures seat { IsSeatOf map.now self.new }
        ensures told { IsTold (λ pairs. reply.Pairs pairs.items) self.old (Entries handle) result self.new ⊎ RanOut self.old result self.new }
        ensures why { IfErr result (FitsError (Entries handle)) }
    {
        histories_stay();
        self.seat
            .entries_within(alloc, tries, &map.board.shared, handle.number())
    }

    /// The same as `count`, in so many tries at most.
    ///
    /// # Errors
    ///
    /// As of `entries_within`.
    pub fn count_within(
        &mut self,
        alloc: Global,
        tries: u64,
        map: &ConcurrentMap,
        handle: Handle,
    ) -> Result<u64, CallError>
        requires { IsSeatOf map.now self.old }
        ensures seat { IsSeatOf map.now self.new }
        ensures told { IsTold reply.Count self.old (Count handle) result self.new ⊎ RanOut self.old result self.new }
        ensures why { IfErr result (FitsError (Count handle)) }
    {
        histories_stay();
        self.seat
            .count_within(alloc, tries, &map.board.shared, handle.number())
    }
}
