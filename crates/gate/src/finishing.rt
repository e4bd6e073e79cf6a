//! The end of a gate: the object comes out.
ghost use Rattle.std.specs.Prelude.{◌≡◌, ◌↔◌, [], false, IsTrue};
ghost use Rattle.gate.specs.Views.{outside};
ghost use Rattle.gate.specs.Finishing.{AreOf, AreHere, IsHere, IsMissing, IsGathered, IsFinished};

use crate::gates::Gate;
use crate::objects::Object;
use crate::rules::{Gather, Sit};
use crate::seats::{HoldsSeat, Pass, Seat};

impl<O: Object<C, A> + Drop, C: Drop, A: Drop> Gate<O, C, A> {
    /// The object, as all calls of the seats left it; or all that was handed in, exactly where a seat isn't there.
    pub fn finish<S: HoldsSeat<O, C, A> + Drop>(
        self,
        seats: Vec<S>,
    ) -> Result<O, (Gate<O, C, A>, Vec<S>)>
        requires { AreOf S.seat self seats.items }
        ensures { IsFinished O.answers S.seat self seats.items result }
    {
        if !self.has_all(seats.as_slice()) {
            return Err((self, seats));
        }
        Ok(self.gather(seats))
    }

    /// Whether each of the gate's seats is there.
    fn has_all<S: HoldsSeat<O, C, A>>(&self, seats: &[S]) -> bool
        ensures all { IsTrue result → AreHere S.seat self.now.seats seats.now }
        ensures missing { result ≡ false → IsMissing S.seat self.now.seats seats.now }
    {
        for n in 0..self.terms.seats {
            if !has_seat(seats, n + 1) {
                return false;
            }
        }
        true
    }

    /// Closes the table, and takes the object out.
    fn gather<S: HoldsSeat<O, C, A> + Drop>(self, seats: Vec<S>) -> O
        requires seats { AreOf S.seat self seats.items }
        requires all { AreHere S.seat self.seats seats.items }
        ensures { IsGathered O.answers S.seat self seats.items result }
    {
        let Gate { table, terms: _ } = self;
        let (_, mut all) = table.shared.load_new_seat::<Sit>(0);
        for seat in seats {
            let pass = seat.into_seat().into_pass();
            table.shared.join_seat::<Gather>(&mut all, pass);
        }
        let mut closed = table.close_with(all);
        let board = closed.take(0);
        closed.free();
        board.into_object()
    }
}

impl<O: Drop, C: Drop, A: Drop> Seat<O, C, A> {
    /// The seat at the table.
    fn into_pass(self) -> Pass<O, C, A>
        ensures table { result.table_id ≡ self.gate }
        ensures view { result.me ≡ (outside self.number self.seen, []) }
    {
        let Seat {
            pass,
            number: _,
            seen: _,
            last: _,
        } = self;
        pass
    }
}

/// Whether the seat of this number is among these.
fn has_seat<S: HoldsSeat<O, C, A>, O, C, A>(seats: &[S], number: u8) -> bool
    ensures { IsTrue result ↔ IsHere S.seat number seats.now }
{
    for seat in seats {
        if seat.seat_number() == number {
            return true;
        }
    }
    false
}
