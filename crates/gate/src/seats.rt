//! Seats: what each thread keeps of its own calls.
ghost use Rattle.std.specs.Prelude.{◌≡◌, ◌≤◌, length};
ghost use Rattle.gate.specs.Logs.{saturated};

use crate::boards::Board;
use crate::marks::Mark;
use crate::rules::Knows;
use std::marker::Model;

/// The seat at the table that the gate is.
pub(crate) type Pass<O, C, A> = atomic_table::Seat<Board<O, C, A>, Knows<O, C, A>>;

/// A seat at a gate, with a number of its own. Who has it makes its calls, one after another.
#[derive(Drop)]
pub struct Seat<O, C, A> {
    pub(crate) pass: Pass<O, C, A>,
    pub(crate) number: u8,
    pub(crate) seen: Mark<Board<O, C, A>>,
    pub(crate) last: u64,
}

impl<O, C, A> Model for Seat<O, C, A> {
    ghost use Rattle.gate.specs.Seats.{Seated, IsSeated};

    ghost Value = { Seated O C A };

    ghost view = { λ s. record { gate = s.pass.table_id; number = s.number; seen = s.seen } };

    ghost invariant = { λ s. IsSeated s.pass.me s.number s.seen s.last };
}

impl<O, C, A> Seat<O, C, A> {
    /// The seat's number: 1, 2 and so on.
    pub fn number(&self) -> u8
        ensures number { result ≡ self.now.number }
        ensures low { 1 ≤ result }
    {
        self.number
    }

    /// The number of the last call that the seat knows of, which after a call of its own is this one's; 0 at first.
    /// All calls up to it stand before what the seat calls next. From 2^64 - 1 on it stays the same.
    pub fn last(&self) -> u64
        ensures { result ≡ saturated (length self.now.seen.log) }
    {
        self.last
    }
}

/// What holds a seat: the seat itself, or a value round it.
pub trait HoldsSeat<O, C, A> {
    ghost use Rattle.gate.specs.Seats.{Seated};

    /// The seat that it holds.
    ghost seat: { Self → Seated O C A };

    /// The seat's number.
    fn seat_number(&self) -> u8
        ensures { result ≡ (seat self.now).number };

    /// The seat alone.
    fn into_seat(self) -> Seat<O, C, A>
        ensures { result ≡ seat self };
}

impl<O, C, A> HoldsSeat<O, C, A> for Seat<O, C, A> {
    ghost seat = { λ s. s };

    fn seat_number(&self) -> u8 {
        Seat::number(self)
    }

    fn into_seat(self) -> Seat<O, C, A> {
        self
    }
}
