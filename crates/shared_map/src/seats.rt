//! What a seat asks.

ghost use Rattle.std.specs.Prelude.{◌≡◌, IfNone, IfSome};
ghost use Rattle.shared_map.specs.Calling.{HasAsked, HasHeardOf};
ghost use Rattle.shared_map.specs.Seats.{IsSeatOf};

use crate::asks::{Ask, Request, Told};
use crate::calling::MapCalls;
use crate::maps::{MapSeat, SharedMap};
use sharded_gate::ShardCount;
use std::sync::Wait;

impl SharedMap {
    /// Has the seat ask the map. A call on one key holds its shard, a scan the shard that it is of, anything else all of them.
    /// It is answered as the finite maps say that the handles name, on the map as the calls before it in the log left it, and
    /// stands in the log with its answer, also where it is refused. It may wait for others.
    #[inline(always)]
    pub fn ask<R: Wait>(&self, rt: &R, seat: &mut MapSeat, ask: Ask) -> Told
        requires { IsSeatOf self.now seat.old }
        ensures { HasAsked self.now seat.old ask result seat.new }
    {
        let hash = self.hash;
        self.gate.call(rt, seat, Request { ask, hash })
    }

    /// The same if what it asks for is not taken: one shard by one try; all shards by one try for the one that is taken first
    /// and a short while for each other one. With `None` another seat had it: nothing was asked, and the seat has seen what it
    /// had.
    #[inline(always)]
    pub fn try_ask(&self, seat: &mut MapSeat, ask: Ask) -> Option<Told>
        requires { IsSeatOf self.now seat.old }
        ensures asked { IfSome result (λ told. HasAsked self.now seat.old ask told seat.new) }
        ensures busy { IfNone result (seat.new ≡ seat.old) }
    {
        let hash = self.hash;
        self.gate.try_call(seat, Request { ask, hash })
    }

    /// Returns whether this many calls about a shard stand in the log that it finds, as `last` of a seat numbers them; of a shard
    /// that isn't there it returns `false`, once it has looked at the first one. All that it found stands before what the seat
    /// calls next, so who is told the number of a call, and hears `true` of it, comes after it. It may find no more than the
    /// seat had seen before.
    pub fn hear<R: Wait>(&self, rt: &R, seat: &mut MapSeat, count: ShardCount) -> bool
        requires { IsSeatOf self.now seat.old }
        ensures { HasHeardOf self.now seat.old count result seat.new }
    {
        self.gate.hear(rt, seat, count)
    }

    /// The same if the shard, or the first one where it isn't there, is not taken. With `None` another seat had that, and the
    /// seat has seen what it had.
    pub fn try_hear(&self, seat: &mut MapSeat, count: ShardCount) -> Option<bool>
        requires { IsSeatOf self.now seat.old }
        ensures heard { IfSome result (λ heard. HasHeardOf self.now seat.old count heard seat.new) }
        ensures busy { IfNone result (seat.new ≡ seat.old) }
    {
        self.gate.try_hear(seat, count)
    }
}

impl MapCalls<SharedMap> for MapSeat {
    ghost use Rattle.shared_map.specs.Seats.{IsSeatOf};

    ghost seat = { λ s. s };

    ghost shared = { λ map. map };

    ghost fits = { λ map s. IsSeatOf map s };

    ghost kept = { λ map s is. is };

    #[inline(always)]
    fn ask<R: Wait>(&mut self, rt: &R, map: &SharedMap, ask: Ask) -> Told {
        map.ask(rt, self, ask)
    }

    fn hear<R: Wait>(&mut self, rt: &R, map: &SharedMap, count: ShardCount) -> bool {
        map.hear(rt, self, count)
    }
}
