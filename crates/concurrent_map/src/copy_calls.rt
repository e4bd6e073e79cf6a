//! Copies, and what is done to a whole map.

ghost use Rattle.std.specs.Prelude.{◌≡◌, IfErr};
ghost use Rattle.history.specs.declared.calls.Call.TheVariants.{Clear, Freeze, Snapshot};
ghost use Rattle.history.specs.declared.replies.Reply.TheVariants.{Cleared};
ghost use Rattle.lock_free.specs.KeyReplies.{FitsError};
ghost use Rattle.concurrent_map.specs.Calls.{IsToldAtLast, IsToldClose, IsToldHandleAtLast};

use crate::handles::Handle;
use crate::maps::ConcurrentMap;
use crate::seats::{MapSeat, histories_stay};
use lock_free::CallError;
use std::sync::Wait;

/// The handle of this number, or why there is none.
fn handle_in(told: Result<u16, CallError>) -> Result<Handle, CallError>
    ensures { result ≡ told }
{
    match told {
        Ok(number) => Ok(Handle::new(number)),
        Err(why) => Err(why),
    }
}

impl MapSeat {
    ghost use Rattle.concurrent_map.specs.Seats.{IsSeatOf};

    /// A copy of the map that may be written. Returns its handle.
    ///
    /// # Errors
    ///
    /// `NoHandle`, `ReadOnly`, `HandlesFull`, `Full`, `WornOut`; `Spent`, after 2^64 - 1 tries alone.
    pub fn snapshot<R: Wait>(
        &mut self,
        rt: &R,
        map: &ConcurrentMap,
        handle: Handle,
    ) -> Result<Handle, CallError>
        requires { IsSeatOf map.now self.old }
        ensures seat { IsSeatOf map.now self.new }
        ensures told { IsToldHandleAtLast self.old (Snapshot handle) result self.new }
        ensures why { IfErr result (FitsError (Snapshot handle)) }
    {
        histories_stay();
        handle_in(self.seat.snapshot(rt, &map.board.shared, handle.number()))
    }

    /// A copy of the map for readers. Returns its handle.
    ///
    /// # Errors
    ///
    /// As of `snapshot`.
    pub fn freeze<R: Wait>(
        &mut self,
        rt: &R,
        map: &ConcurrentMap,
        handle: Handle,
    ) -> Result<Handle, CallError>
        requires { IsSeatOf map.now self.old }
        ensures seat { IsSeatOf map.now self.new }
        ensures told { IsToldHandleAtLast self.old (Freeze handle) result self.new }
        ensures why { IfErr result (FitsError (Freeze handle)) }
    {
        histories_stay();
        handle_in(self.seat.freeze(rt, &map.board.shared, handle.number()))
    }

    /// Removes all keys.
    ///
    /// # Errors
    ///
    /// `NoHandle`, `ReadOnly`, `Full`, `WornOut`; `Spent`, after 2^64 - 1 tries alone.
    pub fn clear<R: Wait>(
        &mut self,
        rt: &R,
        map: &ConcurrentMap,
        handle: Handle,
    ) -> Result<(), CallError>
        requires { IsSeatOf map.now self.old }
        ensures seat { IsSeatOf map.now self.new }
        ensures told { IsToldAtLast (λ done. Cleared) self.old (Clear handle) result self.new }
        ensures why { IfErr result (FitsError (Clear handle)) }
    {
        histories_stay();
        self.seat.clear(rt, &map.board.shared, handle.number())
    }

    /// Closes the handle, and gives its map up. It never waits.
    ///
    /// # Errors
    ///
    /// `NoHandle`; `Busy`, while another seat is in a call on the handle, or the call that opens it has not returned.
    pub fn close(&mut self, map: &ConcurrentMap, handle: Handle) -> Result<(), CallError>
        requires { IsSeatOf map.now self.old }
        ensures seat { IsSeatOf map.now self.new }
        ensures told { IsToldClose self.old handle result self.new }
    {
        histories_stay();
        self.seat.close(&map.board.shared, handle.number())
    }
}
