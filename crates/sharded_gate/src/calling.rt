//! The calls of a seat.
ghost use Rattle.std.specs.Prelude.{◌≡◌, ◌≤◌, ◌<◌, ◌↔◌, Some, None, IfSome, IfNone, length, IsTrue};
ghost use Rattle.gate.specs.Calls.{IsCalled, HasHeard};
ghost use Rattle.gate.specs.Seats.{IsSeatOf};
ghost use Rattle.sharded_gate.specs.Hands.{AreFrom, HasPerformed};
ghost use Rattle.sharded_gate.specs.Shards.{calls_about, is_about};

use crate::gates::{ShardCount, ShardedGate, ShardedSeat};
use crate::hands::Hand;
use crate::rules::{Pass, SPACING};
use crate::sharded::Sharded;
use atomic_table::Badge;
use gate::{Entry, Waiting};
use std::mem;
use std::sync::Wait;

impl<O: Sharded<C, A> + Drop, C: Copy, A: Drop> ShardedGate<O, C, A> {
    /// Has the seat's call performed. The shard that it is about, or all where it is about all, is held for this one
    /// call.
    #[inline(always)]
    pub fn call<R: Wait>(&self, rt: &R, seat: &mut ShardedSeat<O, C, A>, call: C) -> A
        requires { IsSeatOf self.now seat.old.seat }
        ensures called { IsCalled O.answers seat.old.seat call result seat.new.seat }
        ensures about { IsTrue (is_about (O.about (length self.now.first) call) seat.new.shard) }
        ensures within { seat.new.shard < length self.now.first }
    {
        match self.try_call(seat, call) {
            Some(answer) => answer,
            None => self.call_later(rt, seat, call),
        }
    }

    /// The same, where another seat has what the call is about. It stands apart, so that the first try is no turn of a loop: what
    /// the turns of a loop have in common is worked out before the first one.
    #[cold]
    fn call_later<R: Wait>(&self, rt: &R, seat: &mut ShardedSeat<O, C, A>, call: C) -> A
        requires { IsSeatOf self.now seat.old.seat }
        ensures called { IsCalled O.answers seat.old.seat call result seat.new.seat }
        ensures about { IsTrue (is_about (O.about (length self.now.first) call) seat.new.shard) }
        ensures within { seat.new.shard < length self.now.first }
    {
        let mut waiting = self.waiting();
        for _ in rt.forever() {
            self.wait(rt, &mut waiting, O::shard_about(&call, self.shards));
            if let Some(answer) = self.try_call(seat, call) {
                return answer;
            }
        }
        unreachable!()
    }

    /// Has the seat's call performed if what it is about is not taken: the shard, or all shards, of which the first to be
    /// taken is tried once, and each other one for a short while. With `None` another seat had it: nothing was called, and
    /// the seat has seen what it had.
    #[inline(always)]
    pub fn try_call(&self, seat: &mut ShardedSeat<O, C, A>, call: C) -> Option<A>
        requires { IsSeatOf self.now seat.old.seat }
        ensures called { IfSome result (λ answer. IsCalled O.answers seat.old.seat call answer seat.new.seat) }
        ensures about { IfSome result (λ answer. IsTrue (is_about (O.about (length self.now.first) call) seat.new.shard)) }
        ensures within { IfSome result (λ answer. seat.new.shard < length self.now.first) }
        ensures shut { IfNone result (seat.new ≡ seat.old) }
    {
        match O::shard_about(&call, self.shards) {
            Some(shard) => self.call_one(seat, shard, call),
            None => self.call_all(seat, call),
        }
    }

    /// The same, about this shard alone.
    #[inline(always)]
    fn call_one(&self, seat: &mut ShardedSeat<O, C, A>, shard: usize, call: C) -> Option<A>
        requires seat { IsSeatOf self.now seat.old.seat }
        requires within { shard < length self.now.first }
        requires about { O.about (length self.now.first) call ≡ Some shard }
        ensures called { IfSome result (λ answer. IsCalled O.answers seat.old.seat call answer seat.new.seat) }
        ensures shard { IfSome result (λ answer. seat.new.shard ≡ shard) }
        ensures shut { IfNone result (seat.new ≡ seat.old) }
    {
        let mut pass = mem::replace(&mut seat.badge, Badge::blank()).into_seat();
        if !self.try_enter(&mut pass, shard, seat.number) {
            seat.badge = pass.into_badge();
            return None;
        }
        let board = pass.slot_mut(&self.table.shared, shard);
        let answer = board.call(seat.number, call);
        let calls = board.calls();
        self.give(&mut pass, shard);
        seat.badge = pass.into_badge();
        seat.last = ShardCount { shard, calls };
        Some(answer)
    }

    /// The same, about all shards.
    fn call_all(&self, seat: &mut ShardedSeat<O, C, A>, call: C) -> Option<A>
        requires seat { IsSeatOf self.now seat.old.seat }
        requires about { O.about (length self.now.first) call ≡ None }
        ensures called { IfSome result (λ answer. IsCalled O.answers seat.old.seat call answer seat.new.seat) }
        ensures within { IfSome result (λ answer. seat.new.shard < length self.now.first) }
        ensures shut { IfNone result (seat.new ≡ seat.old) }
    {
        let mut pass = mem::replace(&mut seat.badge, Badge::blank()).into_seat();
        if !self.enter_all(&mut pass, seat.number) {
            seat.badge = pass.into_badge();
            return None;
        }
        let (mut pass, answer) = self.perform_all(pass, seat.number, call);
        let calls = pass.slot_mut(&self.table.shared, 0).calls();
        self.give(&mut pass, 0);
        self.release_from(&mut pass, 1);
        seat.badge = pass.into_badge();
        seat.last = ShardCount { shard: 0, calls };
        Some(answer)
    }

    /// What waits for a shard of several is soon in, since others are called meanwhile: it tries often.
    fn waiting(&self) -> Waiting {
        Waiting::new(self.shards > 1)
    }

    /// Waits a while for the shard, or for the one that is taken first where it is about all.
    #[cold]
    fn wait<R: Wait>(&self, rt: &R, waiting: &mut Waiting, about: Option<usize>)
        requires { IfSome about (λ shard. shard < length self.now.first) }
    {
        let shard = about.unwrap_or(self.shards - 1);
        waiting.pause(rt, &self.table.shared, shard * SPACING);
    }

    /// Performs the call on the shards, which the seat has all.
    fn perform_all(&self, pass: Pass<O, C, A>, number: u8, call: C) -> (Pass<O, C, A>, A)
        requires seat { pass.table_id ≡ self.now.id }
        requires slots { AreFrom 0 pass.me.1 }
        requires many { length pass.me.1 ≡ length self.now.first }
        requires about { O.about (length self.now.first) call ≡ None }
        ensures seat { result.0.table_id ≡ pass.table_id }
        ensures performed { HasPerformed O.answers number call result.1 pass.me result.0.me }
    {
        let mut hand = Hand::new(pass, &self.table.shared, self.shards);
        let answer = O::perform_all(&mut hand, number, call);
        let entry = Entry {
            seat: number,
            call,
            answer,
        };
        hand.note_all(&entry);
        let Entry {
            seat: _,
            call: _,
            answer,
        } = entry;
        (hand.into_pass(), answer)
    }

    /// Returns whether the shard is there, and this many calls about it stand in the log that it finds, as `ShardedSeat::last`
    /// numbers them. All that it found stands before what the seat calls next, so who is told the number of a call, and is
    /// answered `true`, comes after it. Where the shard isn't there it waits for the first one and looks there, and the answer
    /// is `false`, whatever number is asked for.
    pub fn hear<R: Wait>(&self, rt: &R, seat: &mut ShardedSeat<O, C, A>, count: ShardCount) -> bool
        requires { IsSeatOf self.now seat.old.seat }
        ensures heard { HasHeard O.answers seat.old.seat seat.new.seat }
        ensures within { seat.new.shard < length self.now.first }
        ensures its { count.shard < length self.now.first → seat.new.shard ≡ count.shard }
        ensures told { IsTrue result ↔ (count.shard < length self.now.first) × (count.calls ≤ length (calls_about (O.about (length self.now.first)) count.shard seat.new.seat.seen.log)) }
    {
        let mut waiting = self.waiting();
        for _ in rt.forever() {
            if let Some(heard) = self.try_hear(seat, count) {
                return heard;
            }
            self.wait(rt, &mut waiting, Some(self.shard_heard(count)));
        }
        unreachable!()
    }

    /// The same if the shard, or the first one where it isn't there, is not taken. With `None` another seat had that, and the
    /// seat has seen what it had.
    pub fn try_hear(&self, seat: &mut ShardedSeat<O, C, A>, count: ShardCount) -> Option<bool>
        requires { IsSeatOf self.now seat.old.seat }
        ensures heard { IfSome result (λ heard. HasHeard O.answers seat.old.seat seat.new.seat) }
        ensures within { IfSome result (λ heard. seat.new.shard < length self.now.first) }
        ensures its { count.shard < length self.now.first → IfSome result (λ heard. seat.new.shard ≡ count.shard) }
        ensures told { IfSome result (λ heard.
            IsTrue heard ↔ (count.shard < length self.now.first) × (count.calls ≤ length (calls_about (O.about (length self.now.first)) count.shard seat.new.seat.seen.log))) }
        ensures shut { IfNone result (seat.new ≡ seat.old) }
    {
        let shard = self.shard_heard(count);
        let mut pass = mem::replace(&mut seat.badge, Badge::blank()).into_seat();
        if !self.try_enter(&mut pass, shard, seat.number) {
            seat.badge = pass.into_badge();
            return None;
        }
        let calls = pass.slot_mut(&self.table.shared, shard).calls();
        self.look(&mut pass, shard);
        seat.badge = pass.into_badge();
        seat.last = ShardCount { shard, calls };
        Some(count.shard < self.shards && count.calls <= calls)
    }

    /// The shard of this count, or the first where there is none.
    fn shard_heard(&self, count: ShardCount) -> usize
        ensures within { result < length self.now.first }
        ensures its { count.shard < length self.now.first → result ≡ count.shard }
    {
        if count.shard < self.shards {
            count.shard
        } else {
            0
        }
    }
}
