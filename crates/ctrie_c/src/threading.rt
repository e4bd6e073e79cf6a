//! Seats at a concurrent map, each with a share of it.

ghost use Rattle.std.specs.Prelude.{◌≡◌, ◌≢◌, ◌⊎◌, [], true, false, Ok, IfSome, IfNone, IfOk, IfErr, OnErr};
ghost use Rattle.std.specs.Arc.{arc_value};
ghost use Rattle.history.specs.declared.calls.Call.TheVariants as call;
ghost use Rattle.history.specs.declared.replies.Reply.TheVariants as reply;
ghost use Rattle.ctrie_c.specs.declared.threading.At.TheVariants.{Resting};
ghost use Rattle.concurrent_map.specs.Beneath.lock_free.specs.Attempts.{IsTried};
ghost use Rattle.concurrent_map.specs.Beneath.lock_free.specs.KeyReplies.{FitsCall};
ghost use Rattle.concurrent_map.specs.Seats.{IsSeatOf};
ghost use Rattle.ctrie_c.specs.SameCalls.{are_same};
ghost use Rattle.ctrie_c.specs.Threading.{come, Closes, DoesAt, GlancesInVain, HasHandedOut, IsHeldAt, IsResting, IsSame, MakesAt, MakesOrAgain, SettlesAt, Walks};

use crate::codes::NO;
use crate::concurrent_codes::{AGAIN, coded};
use crate::sharing::BUSY;
use concurrent_map::{Call, ConcurrentMap, Handle, MapSeat, MapTried, ParkedMapSeat, Reply};
use std::alloc::{AllocError, Global};
use std::marker::Model;
use std::mem::replace;
use std::sync::Arc;

/// How far the calls of a seat have come.
#[derive(Drop)]
pub(crate) enum At {
    /// It rests.
    Resting(MapSeat),
    /// This call of it is under way.
    Parked(ParkedMapSeat, Call),
    /// It is in a call at this time.
    Away,
}

/// A seat with a share of its map, and the seats that it may hand out.
#[derive(Drop)]
pub(crate) struct ThreadingSeat {
    pub(crate) map: Arc<ConcurrentMap, Global>,
    pub(crate) at: At,
    pub(crate) spare: Vec<MapSeat>,
}

impl Model for ThreadingSeat {
    ghost use Rattle.std.specs.Arc.{arc_value};
    ghost use Rattle.concurrent_map.specs.Seats.{AreSeatsOf};
    ghost use Rattle.ctrie_c.specs.Threading.{IsHeldAt, Threading};

    ghost Value = { Threading };

    ghost view = { λ s. record { map = arc_value s.map; at = s.at; spare = s.spare.items } };

    ghost invariant = { λ s. IsHeldAt (arc_value s.map) s.at × AreSeatsOf (arc_value s.map) s.spare.items };
}

/// What has come of this call.
fn come(tried: MapTried, call: Call) -> (At, Result<Reply, u32>)
    ensures { result ≡ come tried call }
{
    match tried {
        MapTried::Answered(seat, told) => (At::Resting(seat), coded(told)),
        MapTried::Parked(seat) => (At::Parked(seat, call), Err(AGAIN)),
    }
}

/// Whether the two are the same call, by their parts.
fn compared(asked: Call, call: Call) -> bool
    ensures { result ≡ are_same asked call }
{
    asked == call
}

/// Whether the two are the same call.
fn is_same(asked: Call, call: Call) -> bool
    ensures same { result ≡ true → asked ≡ call }
    ensures apart { result ≡ false → asked ≢ call }
{
    compared(asked, call)
}

/// What comes of this call in so many tries: nothing, where another one is under way.
fn made(map: &ConcurrentMap, at: At, tries: u64, call: Call) -> (At, Result<Reply, u32>)
    requires held { IsHeldAt map.now at }
    requires tried { IsTried call }
    ensures held { IsHeldAt map.now result.0 }
    ensures made { MakesAt call result.1 at result.0 }
    ensures fits { IfOk result.1 (FitsCall call) }
{
    match at {
        At::Resting(seat) => come(seat.try_call(map, tries, call), call),
        At::Parked(seat, asked) => {
            if is_same(asked, call) {
                come(seat.go_on(map, tries), call)
            } else {
                (At::Parked(seat, asked), Err(BUSY))
            }
        }
        At::Away => unreachable!(),
    }
}

/// The reply to this call, where it is a get, and the seat rests and can make it at once.
fn glanced(map: &ConcurrentMap, at: &mut At, call: Call) -> Option<Reply>
    requires held { IsHeldAt map.now at.old }
    ensures held { IsHeldAt map.now at.new }
    ensures made { IfSome result (λ answer. MakesAt call (Ok answer) at.old at.new) }
    ensures fits { IfSome result (FitsCall call) }
    ensures in_vain { IfNone result ((at.new ≡ at.old) ⊎ GlancesInVain call at.old at.new) }
{
    let Call::Get { handle, key } = call else {
        return None;
    };
    match at {
        At::Resting(seat) => match seat.glance(map, Handle::new(handle), key) {
            Some(value) => Some(Reply::Found(value)),
            None => None,
        },
        _ => None,
    }
}

/// What comes of so many tries of whichever call is under way. The code says whether the seat rests.
fn settled(map: &ConcurrentMap, at: At, tries: u64) -> (At, u32)
    requires held { IsHeldAt map.now at }
    ensures held { IsHeldAt map.now result.0 }
    ensures settled { SettlesAt at result.1 result.0 }
{
    match at {
        At::Parked(seat, asked) => match seat.go_on(map, tries) {
            MapTried::Answered(seat, _) => (At::Resting(seat), NO),
            MapTried::Parked(seat) => (At::Parked(seat, asked), AGAIN),
        },
        at => (at, NO),
    }
}

impl ThreadingSeat {
    /// Makes this call, where no other one is under way. A get takes no tries, and the seat stays where it is, if it can make it at once.
    /// Returns the reply, or the code that says why there is none.
    pub(crate) fn try_call(&mut self, tries: u64, call: Call) -> Result<Reply, u32>
        requires { IsTried call }
        ensures same { IsSame self.old self.new }
        ensures made { MakesOrAgain call result self.old.at self.new.at }
        ensures fits { IfOk result (FitsCall call) }
    {
        if let Some(reply) = glanced(&self.map, &mut self.at, call) {
            return Ok(reply);
        }
        self.make(tries, call)
    }

    /// Makes this call in so many tries, where no other one is under way.
    #[inline(never)]
    fn make(&mut self, tries: u64, call: Call) -> Result<Reply, u32>
        requires { IsTried call }
        ensures same { IsSame self.old self.new }
        ensures made { MakesAt call result self.old.at self.new.at }
        ensures fits { IfOk result (FitsCall call) }
    {
        let (at, told) = made(&self.map, replace(&mut self.at, At::Away), tries, call);
        self.at = at;
        told
    }

    /// Goes on in so many tries with whichever call is under way. The code says whether the seat rests.
    pub(crate) fn try_settle(&mut self, tries: u64) -> u32
        ensures same { IsSame self.old self.new }
        ensures settled { SettlesAt self.old.at result self.new.at }
    {
        let (at, code) = settled(&self.map, replace(&mut self.at, At::Away), tries);
        self.at = at;
        code
    }

    /// Closes the handle, where no call is under way.
    pub(crate) fn close(&mut self, handle: Handle) -> Result<(), u32>
        ensures same { IsSame self.old self.new }
        ensures does { DoesAt (Closes handle) result self.old.at self.new.at }
    {
        match &mut self.at {
            At::Resting(seat) => coded(seat.close(&self.map, handle)),
            At::Parked(_, _) => Err(BUSY),
            At::Away => unreachable!(),
        }
    }

    /// All pairs of a copy for readers, in so many tries, where no call is under way.
    pub(crate) fn try_entries(
        &mut self,
        alloc: Global,
        tries: u64,
        handle: Handle,
    ) -> Result<Vec<(u64, u64)>, u32>
        ensures same { IsSame self.old self.new }
        ensures does { DoesAt (Walks (λ pairs. reply.Pairs pairs.items) (call.Entries handle)) result self.old.at self.new.at }
    {
        match &mut self.at {
            At::Resting(seat) => coded(seat.entries_within(alloc, tries, &self.map, handle)),
            At::Parked(_, _) => Err(BUSY),
            At::Away => unreachable!(),
        }
    }

    /// How many pairs a copy for readers has, in so many tries, where no call is under way.
    pub(crate) fn try_count(
        &mut self,
        alloc: Global,
        tries: u64,
        handle: Handle,
    ) -> Result<u64, u32>
        ensures same { IsSame self.old self.new }
        ensures does { DoesAt (Walks reply.Count (call.Count handle)) result self.old.at self.new.at }
    {
        match &mut self.at {
            At::Resting(seat) => coded(seat.count_within(alloc, tries, &self.map, handle)),
            At::Parked(_, _) => Err(BUSY),
            At::Away => unreachable!(),
        }
    }

    /// Another seat at the same map, where one is left.
    pub(crate) fn hand_out(
        &mut self,
        alloc: Global,
    ) -> Result<Option<Box<ThreadingSeat>>, AllocError>
        ensures handed { IfOk result (λ other. IfSome other (λ seat. HasHandedOut self.old self.new seat.value)) }
        ensures none { IfOk result (λ other. IfNone other ((self.old.spare ≡ []) × (self.new ≡ self.old))) }
        ensures refused { OnErr result ((self.old.spare ≢ []) × (self.new ≡ self.old)) }
    {
        let Some(seat) = self.spare.pop() else {
            return Ok(None);
        };
        match threading(alloc, &self.map, seat) {
            Ok(other) => Ok(Some(other)),
            Err(seat) => {
                self.spare.push_reserved(seat);
                Err(AllocError)
            }
        }
    }
}

/// The seat, which rests.
fn rested(at: At) -> MapSeat
    requires { IsResting at }
    ensures { at ≡ Resting result }
{
    match at {
        At::Resting(seat) => seat,
        _ => unreachable!(),
    }
}

/// The seat with a share of its map, and none to hand out. Where memory runs out the seat comes back.
fn threading(
    alloc: Global,
    map: &Arc<ConcurrentMap, Global>,
    seat: MapSeat,
) -> Result<Box<ThreadingSeat>, MapSeat>
    requires { IsSeatOf (arc_value map.now) seat }
    ensures shares { IfOk result (λ other. other.value ≡ record { map = arc_value map.now; at = Resting seat; spare = [] }) }
    ensures returned { IfErr result (λ back. back ≡ seat) }
{
    let Ok(map) = Arc::try_clone(map) else {
        return Err(seat);
    };
    let spare = Vec::new(alloc);
    let at = At::Resting(seat);
    match Box::new(alloc, ThreadingSeat { map, at, spare }) {
        Ok(other) => Ok(other),
        Err(failed) => {
            let ThreadingSeat { at, .. } = failed.value;
            Err(rested(at))
        }
    }
}
