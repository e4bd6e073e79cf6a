//! The calls of a seat.
ghost use Rattle.std.specs.Prelude.{◌≡◌, ◌≤◌, ◌↔◌, length, IsTrue, IfSome, IfNone};
ghost use Rattle.gate.specs.Seats.{IsSeatOf};
ghost use Rattle.gate.specs.Calls.{IsCalled, HasHeard};

use crate::gates::Gate;
use crate::marks::Mark;
use crate::objects::Object;
use crate::seats::Seat;
use crate::waiting::Waiting;
use std::sync::Wait;

impl<O: Object<C, A> + Drop, C: Copy, A: Drop> Gate<O, C, A> {
    /// Has the seat's call performed. The gate is held for this one call.
    #[inline(always)]
    pub fn call<R: Wait>(&self, rt: &R, seat: &mut Seat<O, C, A>, call: C) -> A
        requires { IsSeatOf self.now seat.old }
        ensures { IsCalled O.answers seat.old call result seat.new }
    {
        match self.try_call(seat, call) {
            Some(answer) => answer,
            None => self.call_later(rt, seat, call),
        }
    }

    /// The same, where another seat is inside. It stands apart, so that the first try is no turn of a loop: what the turns of a
    /// loop have in common is worked out before the first one.
    #[cold]
    fn call_later<R: Wait>(&self, rt: &R, seat: &mut Seat<O, C, A>, call: C) -> A
        requires { IsSeatOf self.now seat.old }
        ensures { IsCalled O.answers seat.old call result seat.new }
    {
        let mut waiting = Waiting::new(O::is_midway(&call));
        for _ in rt.forever() {
            waiting.pause(rt, &self.table.shared, 0);
            if let Some(answer) = self.try_call(seat, call) {
                return answer;
            }
        }
        unreachable!()
    }

    /// Has the seat's call performed if the gate is open. With `None` it was shut: nothing was called, and the seat has seen
    /// what it had.
    #[inline(always)]
    pub fn try_call(&self, seat: &mut Seat<O, C, A>, call: C) -> Option<A>
        requires { IsSeatOf self.now seat.old }
        ensures called { IfSome result (λ answer. IsCalled O.answers seat.old call answer seat.new) }
        ensures shut { IfNone result (seat.new ≡ seat.old) }
    {
        if !self.try_enter(&mut seat.pass, seat.number) {
            return None;
        }
        let board = seat.pass.slot_mut(&self.table.shared, 0);
        let answer = board.call(seat.number, call);
        seat.seen = Mark::of(board);
        seat.last = board.calls();
        self.leave(&mut seat.pass);
        Some(answer)
    }

    /// Returns whether this many calls stand in the log that it finds, as `Seat::last` numbers them. All that it found stands
    /// before what the seat calls next, so who is told the number of a call, and is answered `true`, comes after it.
    pub fn hear<R: Wait>(&self, rt: &R, seat: &mut Seat<O, C, A>, calls: u64) -> bool
        requires { IsSeatOf self.now seat.old }
        ensures heard { HasHeard O.answers seat.old seat.new }
        ensures told { IsTrue result ↔ calls ≤ length seat.new.seen.log }
    {
        let mut waiting = Waiting::new(false);
        for _ in rt.forever() {
            if let Some(heard) = self.try_hear(seat, calls) {
                return heard;
            }
            waiting.pause(rt, &self.table.shared, 0);
        }
        unreachable!()
    }

    /// The same if the gate is open. With `None` it was shut, and the seat has seen what it had.
    pub fn try_hear(&self, seat: &mut Seat<O, C, A>, calls: u64) -> Option<bool>
        requires { IsSeatOf self.now seat.old }
        ensures heard { IfSome result (λ heard. HasHeard O.answers seat.old seat.new) }
        ensures told { IfSome result (λ heard. IsTrue heard ↔ calls ≤ length seat.new.seen.log) }
        ensures shut { IfNone result (seat.new ≡ seat.old) }
    {
        if !self.try_enter(&mut seat.pass, seat.number) {
            return None;
        }
        let board = seat.pass.slot_mut(&self.table.shared, 0);
        seat.seen = Mark::of(board);
        seat.last = board.calls();
        self.leave(&mut seat.pass);
        Some(calls <= seat.last)
    }
}
