//! The end of a gate: the shards come out.
ghost use Rattle.std.specs.Prelude.{◌≡◌, ◌≤◌, ◌↔◌, ◌∷◌, [], false, map, vec_capacity, IsTrue};
ghost use Rattle.gate.specs.Finishing.{AreOf, AreHere, IsHere, IsMissing, IsGathered};
ghost use Rattle.gate.specs.Views.{outside};
ghost use Rattle.sharded_gate.specs.Finishing.{AreFinished, AreFull, contents};

use crate::boards::Shard;
use crate::gates::{ShardedGate, ShardedSeat};
use crate::rules::Pass;
use crate::sharded::Sharded;
use atomic_table::Closed;
use gate::{Gather, Sit};
use std::alloc::Global;

/// What holds a seat: the seat itself, or a value round it.
pub trait HoldsShardedSeat<O: Sharded<C, A>, C, A> {
    ghost use Rattle.std.specs.Prelude.{List};
    ghost use Rattle.gate.specs.Seats.{Seated};

    /// The seat that it holds.
    ghost seat: { Self → Seated (List O) C A };

    /// The seat's number.
    fn seat_number(&self) -> u8
        ensures { result ≡ (seat self.now).number };

    /// The seat alone.
    fn into_seat(self) -> ShardedSeat<O, C, A>
        ensures { result.seat ≡ seat self };
}

impl<O: Sharded<C, A>, C, A> HoldsShardedSeat<O, C, A> for ShardedSeat<O, C, A> {
    ghost seat = { λ s. s.seat };

    fn seat_number(&self) -> u8 {
        ShardedSeat::number(self)
    }

    fn into_seat(self) -> ShardedSeat<O, C, A> {
        self
    }
}

impl<O: Sharded<C, A> + Drop, C: Drop, A: Drop> ShardedGate<O, C, A> {
    /// The shards, in their order, as all calls of the seats left them; or all that was handed in, exactly where a seat
    /// isn't there.
    pub fn finish<S: HoldsShardedSeat<O, C, A> + Drop>(
        self,
        seats: Vec<S>,
    ) -> Result<Vec<O>, (ShardedGate<O, C, A>, Vec<S>)>
        requires { AreOf S.seat self seats.items }
        ensures { AreFinished O.answers S.seat self seats.items result }
    {
        if !self.has_all(seats.as_slice()) {
            return Err((self, seats));
        }
        Ok(self.gather(seats))
    }

    /// Whether each of the gate's seats is there.
    fn has_all<S: HoldsShardedSeat<O, C, A>>(&self, seats: &[S]) -> bool
        ensures all { IsTrue result → AreHere S.seat self.now.seats seats.now }
        ensures missing { result ≡ false → IsMissing S.seat self.now.seats seats.now }
    {
        for n in 0..self.terms.seats {
            if !has_seat(seats, n + 1) {
                return false;
            }
        }
        true
    }

    /// Closes the table, and takes the shards out.
    fn gather<S: HoldsShardedSeat<O, C, A> + Drop>(self, seats: Vec<S>) -> Vec<O>
        requires seats { AreOf S.seat self seats.items }
        requires all { AreHere S.seat self.seats seats.items }
        ensures { IsGathered O.answers S.seat self seats.items result.items }
    {
        let ShardedGate {
            table,
            terms: _,
            shards,
            spare,
        } = self;
        let (_, mut all) = table.shared.load_new_seat::<Sit>(0);
        for seat in seats {
            let pass = seat.into_seat().into_pass();
            table.shared.join_seat::<Gather>(&mut all, pass);
        }
        take_out(table.close_with(all), shards, spare)
    }
}

impl<O: Sharded<C, A> + Drop, C: Drop, A: Drop> ShardedSeat<O, C, A> {
    /// The seat at the table.
    fn into_pass(self) -> Pass<O, C, A>
        ensures table { result.table_id ≡ self.seat.gate }
        ensures view { result.me ≡ (outside self.seat.number self.seat.seen, []) }
    {
        let ShardedSeat {
            badge,
            number: _,
            last: _,
        } = self;
        badge.into_seat()
    }
}

/// Whether the seat of this number is among these.
fn has_seat<S: HoldsShardedSeat<O, C, A>, O: Sharded<C, A>, C, A>(seats: &[S], number: u8) -> bool
    ensures { IsTrue result ↔ IsHere S.seat number seats.now }
{
    for seat in seats {
        if seat.seat_number() == number {
            return true;
        }
    }
    false
}

/// The objects of the slots, of which there are this many.
fn take_out<O: Drop, C: Drop, A: Drop>(
    mut closed: Closed<Shard<O, C, A>, Global>,
    shards: usize,
    mut objects: Vec<O>,
) -> Vec<O>
    requires full { AreFull shards closed }
    requires none { objects.items ≡ [] }
    requires room { shards ≤ vec_capacity objects }
    ensures { result.items ≡ map (λ s. s.object) (contents closed) }
{
    for shard in 0..shards {
        let _ = objects.push(closed.take(shard).into_object());
    }
    closed.free();
    objects
}
