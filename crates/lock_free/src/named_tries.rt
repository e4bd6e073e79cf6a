//! Calls of named seats that have only so many tries, or none.

ghost use Rattle.std.specs.Prelude.{◌≡◌, ◌⊎◌, IfErr};
ghost use Rattle.history.specs.declared.calls.Call.{Call as AnyCall};
ghost use Rattle.history.specs.declared.calls.Call.TheVariants.{Count, Entries, Get};
ghost use Rattle.history.specs.declared.replies.Reply.TheVariants as reply;
ghost use Rattle.lock_free.specs.declared.rules.View.{View};
ghost use Rattle.lock_free.specs.Accesses.{IsToldAccess};
ghost use Rattle.lock_free.specs.Attempts.{IsTried};
ghost use Rattle.lock_free.specs.GetRuns.{IsToldAtOnce};
ghost use Rattle.lock_free.specs.KeyReplies.{FitsError};
ghost use Rattle.lock_free.specs.SeatCalls.{IsTold, RanOut};

use crate::call_errors::CallError;
use crate::naming::{MapName, NamedSeat, NamedWords};
use crate::parked_seats::{ParkedSeat, Tried};
use history::{Access, Call, Reply};
use std::alloc::Global;
use std::marker::{Model, PhantomData};

/// A named seat whose call is under way, as a `ParkedSeat`.
#[derive(Drop)]
pub struct NamedParkedSeat<N: MapName> {
    seat: ParkedSeat,
    name: PhantomData<N>,
}

impl<N: MapName> Model for NamedParkedSeat<N> {
    ghost use Rattle.std.specs.Prelude.{◌≡◌};
    ghost use Rattle.lock_free.specs.Seated.{Seated};

    ghost Value = { Seated };

    ghost view = { λ s. s.seat };

    ghost invariant = { λ s. (s.seat.table ≡ N.map_id.table) × (s.seat.view.sizes ≡ N.map_id.sizes) };
}

/// What comes of a named seat's call in a number of tries.
#[derive(Drop)]
pub enum NamedTried<N: MapName> {
    /// It is over.
    Answered(NamedSeat<N>, Result<Reply, CallError>),
    /// It is under way.
    Parked(NamedParkedSeat<N>),
}

impl<N: MapName> NamedTried<N> {
    ghost use Rattle.lock_free.specs.NamedTries.{plain, IsOfMap};

    /// The same under the map's name.
    fn new(tried: Tried) -> NamedTried<N>
        requires name { IsOfMap N.map_id tried }
        ensures { plain result ≡ tried }
    {
        match tried {
            Tried::Answered(seat, told) => NamedTried::Answered(NamedSeat::new(seat), told),
            Tried::Parked(seat) => NamedTried::Parked(NamedParkedSeat {
                seat,
                name: PhantomData,
            }),
        }
    }
}

impl<N: MapName> NamedSeat<N> {
    ghost use Rattle.lock_free.specs.NamedTries.{plain};
    ghost use Rattle.lock_free.specs.Seated.{HasGoneOn};
    ghost use Rattle.lock_free.specs.TriedCalls.{GoesOnAs, HasTriedCall, NeverBegan};

    /// As `Seat::glance`.
    pub fn glance(&mut self, words: &NamedWords<N>, handle: u16, key: u64) -> Option<Option<u64>>
        ensures seat { HasGoneOn self.old self.new }
        ensures told { IsToldAtOnce self.old.view (Get handle key) result self.new.view }
    {
        self.seat.glance(&words.board.shared, handle, key)
    }

    /// As `Seat::try_call`.
    pub fn try_call(self, words: &NamedWords<N>, tries: u64, call: Call) -> NamedTried<N>
        requires tried { IsTried call }
        ensures seat { GoesOnAs self (plain result) }
        ensures tried { HasTriedCall self.view call (plain result) ⊎ NeverBegan self.view (plain result) }
    {
        NamedTried::new(self.into_seat().try_call(&words.board.shared, tries, call))
    }

    /// As `Seat::access_within`.
    pub fn access_within(
        &mut self,
        tries: u64,
        words: &NamedWords<N>,
        handle: u16,
    ) -> Result<Access, CallError>
        ensures seat { HasGoneOn self.old self.new }
        ensures told { IsToldAccess self.old.view handle result self.new.view ⊎ RanOut self.old.view result self.new.view }
    {
        self.seat.access_within(tries, &words.board.shared, handle)
    }

    /// As `Seat::entries_within`.
    pub fn entries_within(
        &mut self,
        alloc: Global,
        tries: u64,
        words: &NamedWords<N>,
        handle: u16,
    ) -> Result<Vec<(u64, u64)>, CallError>
        ensures seat { HasGoneOn self.old self.new }
        ensures told { IsTold (λ pairs. reply.Pairs pairs.items) self.old.view (Entries handle) result self.new.view ⊎ RanOut self.old.view result self.new.view }
        ensures why { IfErr result (FitsError (Entries handle)) }
    {
        self.seat
            .entries_within(alloc, tries, &words.board.shared, handle)
    }

    /// As `Seat::count_within`.
    pub fn count_within(
        &mut self,
        alloc: Global,
        tries: u64,
        words: &NamedWords<N>,
        handle: u16,
    ) -> Result<u64, CallError>
        ensures seat { HasGoneOn self.old self.new }
        ensures told { IsTold reply.Count self.old.view (Count handle) result self.new.view ⊎ RanOut self.old.view result self.new.view }
        ensures why { IfErr result (FitsError (Count handle)) }
    {
        self.seat
            .count_within(alloc, tries, &words.board.shared, handle)
    }
}

impl<N: MapName> NamedParkedSeat<N> {
    ghost use Rattle.lock_free.specs.NamedTries.{plain};
    ghost use Rattle.lock_free.specs.TriedCalls.{GoesOnAs, HasTriedCall, IsParkedCall};

    /// As `ParkedSeat::go_on`.
    pub fn go_on(self, words: &NamedWords<N>, tries: u64) -> NamedTried<N>
        ensures seat { GoesOnAs self (plain result) }
        ensures tried { (before : View) (call : AnyCall) → IsTried call → IsParkedCall before call self.view → HasTriedCall before call (plain result) }
    {
        let NamedParkedSeat { seat, name: _ } = self;
        NamedTried::new(seat.go_on(&words.board.shared, tries))
    }
}
