//! Gates and seats that bear a name.
//!
//! A name stands for one gate, so the type of a named seat says whose seat it is: it may lie in any container, go
//! through any channel, and be called without a premise.
ghost use Rattle.std.specs.Prelude.{◌≡◌, ◌≤◌, ◌↔◌, All, IfOk, IfErr, IfSome, IfNone, IsTrue, length};
ghost use Rattle.atomic_table.specs.Seated.{TableId, table_id_coded};
ghost use Rattle.gate.specs.Logs.{saturated};
ghost use Rattle.gate.specs.Naming.{no_gate};
ghost use Rattle.gate.specs.Seats.{AreSeatsOf};
ghost use Rattle.gate.specs.Calls.{IsCalled, HasHeard};
ghost use Rattle.gate.specs.Finishing.{IsFinished};

use crate::gates::Gate;
use crate::objects::Object;
use crate::seats::{HoldsSeat, Seat};
use std::alloc::Global;
use std::marker::{Brand, Model, PhantomData};
use std::sync::Wait;

/// A name: it stands for one gate. What is generic over it is called with `Brand`, and the caller's proof picks the
/// gate.
pub trait Name {
    /// The gate for which it stands.
    ghost gate: { TableId };
}

impl Name for Brand {
    ghost gate = { no_gate };
}

/// The gate for which the name stands.
#[derive(Drop)]
pub struct NamedGate<N: Name, O: Object<C, A>, C, A> {
    gate: Gate<O, C, A>,
    name: PhantomData<N>,
}

impl<N: Name, O: Object<C, A>, C, A> Model for NamedGate<N, O, C, A> {
    ghost use Rattle.std.specs.Prelude.{◌≡◌};
    ghost use Rattle.gate.specs.Seats.{Room};

    ghost Value = { Room O };

    ghost view = { λ g. g.gate };

    ghost invariant = { λ g. g.gate.id ≡ N.gate };
}

/// A seat of the gate for which the name stands.
#[derive(Drop)]
pub struct NamedSeat<N: Name, O, C, A> {
    seat: Seat<O, C, A>,
    name: PhantomData<N>,
}

impl<N: Name, O, C, A> Model for NamedSeat<N, O, C, A> {
    ghost use Rattle.std.specs.Prelude.{◌≡◌};
    ghost use Rattle.gate.specs.Seats.{Seated};

    ghost Value = { Seated O C A };

    ghost view = { λ s. s.seat };

    ghost invariant = { λ s. s.seat.gate ≡ N.gate };
}

impl<O: Object<C, A> + Drop, C: Drop, A: Drop> Gate<O, C, A> {
    /// The gate and its seats under the name that stands for it. Where memory is wanting they come back.
    pub fn named<N: Name>(
        self,
        alloc: Global,
        seats: Vec<Seat<O, C, A>>,
    ) -> Result<
        (NamedGate<N, O, C, A>, Vec<NamedSeat<N, O, C, A>>),
        (Gate<O, C, A>, Vec<Seat<O, C, A>>),
    >
        requires name { self.id ≡ N.gate }
        requires seats { AreSeatsOf self seats.items }
        ensures same { IfOk result (λ named. (named.0 ≡ self) × (named.1.items ≡ seats.items)) }
        ensures back { IfErr result (λ back. (back.0 ≡ self) × (back.1.items ≡ seats.items)) }
    {
        let Ok(mut named) = Vec::with_capacity(alloc, seats.len()) else {
            return Err((self, seats));
        };
        for seat in seats {
            let _ = named.push(NamedSeat::new(seat));
        }
        let gate = NamedGate {
            gate: self,
            name: PhantomData,
        };
        Ok((gate, named))
    }
}

impl<N: Name, O, C, A> NamedSeat<N, O, C, A> {
    /// The seat under its gate's name.
    fn new(seat: Seat<O, C, A>) -> NamedSeat<N, O, C, A>
        requires { seat.gate ≡ N.gate }
        ensures { result ≡ seat }
    {
        NamedSeat {
            seat,
            name: PhantomData,
        }
    }

    /// The seat is one of the gate of this name.
    fn bears_name(&self)
        ensures { self.now.gate ≡ N.gate }
    {
        let _ = &self.seat;
    }

    /// As `Seat::number`.
    pub fn number(&self) -> u8
        ensures number { result ≡ self.now.number }
        ensures low { 1 ≤ result }
    {
        self.seat.number()
    }

    /// As `Seat::last`.
    pub fn last(&self) -> u64
        ensures { result ≡ saturated (length self.now.seen.log) }
    {
        self.seat.last()
    }
}

impl<N: Name, O: Object<C, A> + Drop, C: Copy, A: Drop> NamedGate<N, O, C, A> {
    /// As `Gate::call`.
    pub fn call<R: Wait>(&self, rt: &R, seat: &mut NamedSeat<N, O, C, A>, call: C) -> A
        ensures { IsCalled O.answers seat.old call result seat.new }
    {
        self.gate.call(rt, &mut seat.seat, call)
    }

    /// As `Gate::try_call`.
    pub fn try_call(&self, seat: &mut NamedSeat<N, O, C, A>, call: C) -> Option<A>
        ensures called { IfSome result (λ answer. IsCalled O.answers seat.old call answer seat.new) }
        ensures shut { IfNone result (seat.new ≡ seat.old) }
    {
        self.gate.try_call(&mut seat.seat, call)
    }

    /// As `Gate::hear`.
    pub fn hear<R: Wait>(&self, rt: &R, seat: &mut NamedSeat<N, O, C, A>, calls: u64) -> bool
        ensures heard { HasHeard O.answers seat.old seat.new }
        ensures told { IsTrue result ↔ calls ≤ length seat.new.seen.log }
    {
        self.gate.hear(rt, &mut seat.seat, calls)
    }

    /// As `Gate::try_hear`.
    pub fn try_hear(&self, seat: &mut NamedSeat<N, O, C, A>, calls: u64) -> Option<bool>
        ensures heard { IfSome result (λ heard. HasHeard O.answers seat.old seat.new) }
        ensures told { IfSome result (λ heard. IsTrue heard ↔ calls ≤ length seat.new.seen.log) }
        ensures shut { IfNone result (seat.new ≡ seat.old) }
    {
        self.gate.try_hear(&mut seat.seat, calls)
    }
}

impl<N: Name, O, C, A> HoldsSeat<O, C, A> for NamedSeat<N, O, C, A> {
    ghost seat = { λ s. s };

    fn seat_number(&self) -> u8 {
        self.seat.number()
    }

    fn into_seat(self) -> Seat<O, C, A> {
        let NamedSeat { seat, name: _ } = self;
        seat
    }
}

impl<N: Name, O: Object<C, A> + Drop, C: Drop, A: Drop> NamedGate<N, O, C, A> {
    /// As `Gate::finish`.
    pub fn finish(
        self,
        seats: Vec<NamedSeat<N, O, C, A>>,
    ) -> Result<O, (NamedGate<N, O, C, A>, Vec<NamedSeat<N, O, C, A>>)>
        ensures { IsFinished O.answers (λ s. s) self seats.items result }
    {
        all_bear_name(seats.as_slice());
        let NamedGate { gate, name } = self;
        match gate.finish(seats) {
            Ok(object) => Ok(object),
            Err((gate, seats)) => Err((NamedGate { gate, name }, seats)),
        }
    }
}

/// Each of these seats is one of the gate of this name.
fn all_bear_name<N: Name, O, C, A>(seats: &[NamedSeat<N, O, C, A>])
    ensures { All (λ s. s.gate ≡ N.gate) seats.now }
{
    for seat in seats {
        seat.bears_name();
    }
}
