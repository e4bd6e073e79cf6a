//! Calls that ask what a handle allows.

ghost use Rattle.std.specs.Prelude.{◌⊎◌};
ghost use Rattle.concurrent_map.specs.Accesses.{IsToldAccess, IsToldOpen, IsToldWritable};
ghost use Rattle.concurrent_map.specs.Calls.{RanOut};

use crate::handles::Handle;
use crate::maps::ConcurrentMap;
use crate::seats::{MapSeat, histories_stay};
use history::Access;
use lock_free::CallError;
use std::sync::Wait;

impl MapSeat {
    ghost use Rattle.concurrent_map.specs.Seats.{IsSeatOf};

    /// Whether the handle is open. It isn't yet while the call that opens it has not returned. It takes no memory and walks over no keys.
    pub fn is_open<R: Wait>(&mut self, rt: &R, map: &ConcurrentMap, handle: Handle) -> bool
        requires { IsSeatOf map.now self.old }
        ensures seat { IsSeatOf map.now self.new }
        ensures told { IsToldOpen self.old handle result self.new }
    {
        self.access(rt, map, handle).is_ok()
    }

    /// Whether the handle's map may be changed by it.
    ///
    /// # Errors
    ///
    /// `NoHandle` alone.
    pub fn is_writable<R: Wait>(
        &mut self,
        rt: &R,
        map: &ConcurrentMap,
        handle: Handle,
    ) -> Result<bool, CallError>
        requires { IsSeatOf map.now self.old }
        ensures seat { IsSeatOf map.now self.new }
        ensures told { IsToldWritable self.old handle result self.new }
    {
        match self.access(rt, map, handle) {
            Ok(Access::Writable) => Ok(true),
            Ok(Access::ReadOnly) => Ok(false),
            Err(why) => Err(why),
        }
    }

    /// What the handle allows.
    ///
    /// # Errors
    ///
    /// `NoHandle` alone.
    pub fn access<R: Wait>(
        &mut self,
        rt: &R,
        map: &ConcurrentMap,
        handle: Handle,
    ) -> Result<Access, CallError>
        requires { IsSeatOf map.now self.old }
        ensures seat { IsSeatOf map.now self.new }
        ensures told { IsToldAccess self.old handle result self.new }
    {
        histories_stay();
        self.seat.access(rt, &map.board.shared, handle.number())
    }

    /// The same in so many tries at most: it ends whatever other threads do.
    ///
    /// # Errors
    ///
    /// `NoHandle`; and `Spent`, where the tries are used up.
    pub fn access_within(
        &mut self,
        tries: u64,
        map: &ConcurrentMap,
        handle: Handle,
    ) -> Result<Access, CallError>
        requires { IsSeatOf map.now self.old }
        ensures seat { IsSeatOf map.now self.new }
        ensures told { IsToldAccess self.old handle result self.new ⊎ RanOut self.old result self.new }
    {
        histories_stay();
        self.seat
            .access_within(tries, &map.board.shared, handle.number())
    }
}
