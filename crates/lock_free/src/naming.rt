//! A map and its seats under a name.
//!
//! A name stands for one map, so the type of a named seat says whose seat it is: it may lie in any container, go through any channel,
//! and be called without a premise.

ghost use Rattle.std.specs.Prelude.{◌≡◌, ◌<◌, ◌≤◌, ◌↔◌, All, IfOk, IfErr, IfSome, IfNone, IsTrue, OnErr, map};
ghost use Rattle.history.specs.declared.calls.Call.TheVariants.{Clear, Count, Entries, Freeze, Get, Put, PutIfAbsent, Remove, RemoveIf, Replace, ReplaceIf, Snapshot};
ghost use Rattle.history.specs.declared.replies.Reply.TheVariants as reply;
ghost use Rattle.lock_free.specs.Accesses.{IsToldAccess};
ghost use Rattle.lock_free.specs.Finishing.{IsTold as IsToldAll};
ghost use Rattle.lock_free.specs.KeyReplies.{FitsError};
ghost use Rattle.lock_free.specs.Naming.{MapId, no_map};
ghost use Rattle.lock_free.specs.Seated.{HasGoneOn, HasSplit};
ghost use Rattle.lock_free.specs.GetRuns.{IsToldIfSomeAtLast};
ghost use Rattle.lock_free.specs.SeatCalls.{IsTold};
ghost use Rattle.lock_free.specs.SlotWaits.{IsToldAtLast, IsToldCopyAtLast};
ghost use Rattle.lock_free.specs.WholeCalls.{IsToldClose};

use crate::call_errors::CallError;
use crate::finishing::finish_map;
use crate::opening::Board;
use crate::seating::Seat;
use history::Access;
use std::alloc::{AllocError, Global};
use std::marker::{Brand, Model, PhantomData};
use std::sync::Wait;

/// A name: it stands for one map. What is generic over it is called with `Brand`, and the caller's proof picks the map.
pub trait MapName {
    /// The map for which it stands.
    ghost map_id: { MapId };
}

impl MapName for Brand {
    ghost map_id = { no_map };
}

/// The words of the map for which the name stands.
#[derive(Drop)]
pub struct NamedWords<N: MapName> {
    pub(crate) board: Board,
    name: PhantomData<N>,
}

impl<N: MapName> Model for NamedWords<N> {
    ghost use Rattle.std.specs.Prelude.{◌≡◌};
    ghost use Rattle.lock_free.specs.Naming.{MapId};

    ghost Value = { MapId };

    ghost view = { λ w. record { table = w.board.shared.table_id; sizes = w.board.shared.key } };

    ghost invariant = { λ w. (w.board.shared.table_id ≡ N.map_id.table) × (w.board.shared.key ≡ N.map_id.sizes) × (w.board.shared.table_id.slots ≡ 0) };
}

/// A seat of the map for which the name stands.
#[derive(Drop)]
pub struct NamedSeat<N: MapName> {
    pub(crate) seat: Seat,
    name: PhantomData<N>,
}

impl<N: MapName> Model for NamedSeat<N> {
    ghost use Rattle.std.specs.Prelude.{◌≡◌};
    ghost use Rattle.lock_free.specs.Seated.{Seated};

    ghost Value = { Seated };

    ghost view = { λ s. s.seat };

    ghost invariant = { λ s. (s.seat.table ≡ N.map_id.table) × (s.seat.view.sizes ≡ N.map_id.sizes) };
}

/// A map and its seat under the name that stands for it.
pub fn named<N: MapName>(board: Board, seat: Seat) -> (NamedWords<N>, NamedSeat<N>)
    requires name { N.map_id ≡ record { table = board.shared.table_id; sizes = board.shared.key } }
    requires slots { board.shared.table_id.slots ≡ 0 }
    requires seat { (seat.table ≡ board.shared.table_id) × (seat.view.sizes ≡ board.shared.key) }
    ensures words { result.0 ≡ N.map_id }
    ensures same { result.1 ≡ seat }
{
    let words = NamedWords {
        board,
        name: PhantomData,
    };
    (words, NamedSeat::new(seat))
}

impl<N: MapName> NamedWords<N> {
    /// As `finish_map`. Where memory is lacking the map and its seats come back.
    pub fn finish(
        self,
        alloc: Global,
        seats: Vec<NamedSeat<N>>,
    ) -> Result<(), (NamedWords<N>, Vec<NamedSeat<N>>)>
        ensures told { IfOk result (λ done. IsToldAll N.map_id.sizes (map (λ s. s.view) seats.items)) }
        ensures back { IfErr result (λ back. back.1.items ≡ seats.items) }
    {
        let Ok(mut plain) = Vec::with_capacity(alloc, seats.len()) else {
            return Err((self, seats));
        };
        for seat in seats {
            let _ = plain.push(seat.into_seat());
        }
        finish_map(self.into_board(), plain);
        Ok(())
    }

    /// The words without the name.
    fn into_board(self) -> Board
        ensures table { result.shared.table_id ≡ N.map_id.table }
        ensures sizes { result.shared.key ≡ N.map_id.sizes }
        ensures slots { result.shared.table_id.slots ≡ 0 }
    {
        let NamedWords { board, name: _ } = self;
        board
    }
}

impl<N: MapName> NamedSeat<N> {
    /// The seat under its map's name.
    pub(crate) fn new(seat: Seat) -> NamedSeat<N>
        requires { (seat.table ≡ N.map_id.table) × (seat.view.sizes ≡ N.map_id.sizes) }
        ensures { result ≡ seat }
    {
        NamedSeat {
            seat,
            name: PhantomData,
        }
    }

    /// The seat without the name.
    pub(crate) fn into_seat(self) -> Seat
        ensures same { result ≡ self }
        ensures name { (result.table ≡ N.map_id.table) × (result.view.sizes ≡ N.map_id.sizes) }
    {
        let NamedSeat { seat, name: _ } = self;
        seat
    }

    /// As `Seat::number`.
    pub fn number(&self) -> u8
        ensures number { result ≡ self.now.view.actor }
        ensures low { 1 ≤ result }
    {
        self.seat.number()
    }

    /// As `Seat::split`. There is no seat for another thread where this one has no actor but its own.
    pub fn split(
        &mut self,
        alloc: Global,
        words: &NamedWords<N>,
    ) -> Result<Option<NamedSeat<N>>, AllocError>
        ensures split { IfOk result (λ made. IfSome made (λ other. HasSplit self.old self.new other)) }
        ensures last { IfOk result (λ made. IfNone made ((self.new ≡ self.old) × (self.old.view.last ≤ self.old.view.actor))) }
        ensures unchanged { OnErr result (self.new ≡ self.old) }
    {
        if !self.seat.has_more() {
            return Ok(None);
        }
        let other = self.seat.split(alloc, &words.board.shared)?;
        Ok(Some(NamedSeat::new(other)))
    }

    /// As `Seat::get`.
    pub fn get<R: Wait>(
        &mut self,
        rt: &R,
        words: &NamedWords<N>,
        handle: u16,
        key: u64,
    ) -> Result<Option<u64>, CallError>
        ensures seat { HasGoneOn self.old self.new }
        ensures told { IsToldAtLast reply.Found self.old.view (Get handle key) result self.new.view }
        ensures why { IfErr result (FitsError (Get handle key)) }
    {
        self.seat.get(rt, &words.board.shared, handle, key)
    }

    /// As `Seat::contains`.
    pub fn contains<R: Wait>(
        &mut self,
        rt: &R,
        words: &NamedWords<N>,
        handle: u16,
        key: u64,
    ) -> Result<bool, CallError>
        ensures seat { HasGoneOn self.old self.new }
        ensures told { IsToldIfSomeAtLast self.old.view (Get handle key) result self.new.view }
        ensures why { IfErr result (FitsError (Get handle key)) }
    {
        self.seat.contains(rt, &words.board.shared, handle, key)
    }

    /// As `Seat::put`.
    pub fn put<R: Wait>(
        &mut self,
        rt: &R,
        words: &NamedWords<N>,
        handle: u16,
        key: u64,
        value: u64,
    ) -> Result<Option<u64>, CallError>
        ensures seat { HasGoneOn self.old self.new }
        ensures told { IsToldAtLast reply.Found self.old.view (Put handle key value) result self.new.view }
        ensures why { IfErr result (FitsError (Put handle key value)) }
    {
        self.seat.put(rt, &words.board.shared, handle, key, value)
    }

    /// As `Seat::put_if_absent`.
    pub fn put_if_absent<R: Wait>(
        &mut self,
        rt: &R,
        words: &NamedWords<N>,
        handle: u16,
        key: u64,
        value: u64,
    ) -> Result<Option<u64>, CallError>
        ensures seat { HasGoneOn self.old self.new }
        ensures told { IsToldAtLast reply.Found self.old.view (PutIfAbsent handle key value) result self.new.view }
        ensures why { IfErr result (FitsError (PutIfAbsent handle key value)) }
    {
        self.seat
            .put_if_absent(rt, &words.board.shared, handle, key, value)
    }

    /// As `Seat::replace`.
    pub fn replace<R: Wait>(
        &mut self,
        rt: &R,
        words: &NamedWords<N>,
        handle: u16,
        key: u64,
        value: u64,
    ) -> Result<Option<u64>, CallError>
        ensures seat { HasGoneOn self.old self.new }
        ensures told { IsToldAtLast reply.Found self.old.view (Replace handle key value) result self.new.view }
        ensures why { IfErr result (FitsError (Replace handle key value)) }
    {
        self.seat
            .replace(rt, &words.board.shared, handle, key, value)
    }

    /// As `Seat::replace_if`.
    pub fn replace_if<R: Wait>(
        &mut self,
        rt: &R,
        words: &NamedWords<N>,
        handle: u16,
        key: u64,
        old: u64,
        new: u64,
    ) -> Result<bool, CallError>
        ensures seat { HasGoneOn self.old self.new }
        ensures told { IsToldAtLast reply.Truth self.old.view (ReplaceIf handle key old new) result self.new.view }
        ensures why { IfErr result (FitsError (ReplaceIf handle key old new)) }
    {
        self.seat
            .replace_if(rt, &words.board.shared, handle, key, old, new)
    }

    /// As `Seat::remove`.
    pub fn remove<R: Wait>(
        &mut self,
        rt: &R,
        words: &NamedWords<N>,
        handle: u16,
        key: u64,
    ) -> Result<Option<u64>, CallError>
        ensures seat { HasGoneOn self.old self.new }
        ensures told { IsToldAtLast reply.Found self.old.view (Remove handle key) result self.new.view }
        ensures why { IfErr result (FitsError (Remove handle key)) }
    {
        self.seat.remove(rt, &words.board.shared, handle, key)
    }

    /// As `Seat::remove_if`.
    pub fn remove_if<R: Wait>(
        &mut self,
        rt: &R,
        words: &NamedWords<N>,
        handle: u16,
        key: u64,
        value: u64,
    ) -> Result<bool, CallError>
        ensures seat { HasGoneOn self.old self.new }
        ensures told { IsToldAtLast reply.Truth self.old.view (RemoveIf handle key value) result self.new.view }
        ensures why { IfErr result (FitsError (RemoveIf handle key value)) }
    {
        self.seat
            .remove_if(rt, &words.board.shared, handle, key, value)
    }

    /// As `Seat::snapshot`.
    pub fn snapshot<R: Wait>(
        &mut self,
        rt: &R,
        words: &NamedWords<N>,
        handle: u16,
    ) -> Result<u16, CallError>
        ensures seat { HasGoneOn self.old self.new }
        ensures told { IsToldCopyAtLast self.old.view (Snapshot handle) result self.new.view }
        ensures why { IfErr result (FitsError (Snapshot handle)) }
    {
        self.seat.snapshot(rt, &words.board.shared, handle)
    }

    /// As `Seat::freeze`.
    pub fn freeze<R: Wait>(
        &mut self,
        rt: &R,
        words: &NamedWords<N>,
        handle: u16,
    ) -> Result<u16, CallError>
        ensures seat { HasGoneOn self.old self.new }
        ensures told { IsToldCopyAtLast self.old.view (Freeze handle) result self.new.view }
        ensures why { IfErr result (FitsError (Freeze handle)) }
    {
        self.seat.freeze(rt, &words.board.shared, handle)
    }

    /// As `Seat::clear`.
    pub fn clear<R: Wait>(
        &mut self,
        rt: &R,
        words: &NamedWords<N>,
        handle: u16,
    ) -> Result<(), CallError>
        ensures seat { HasGoneOn self.old self.new }
        ensures told { IsToldAtLast (λ done. reply.Cleared) self.old.view (Clear handle) result self.new.view }
        ensures why { IfErr result (FitsError (Clear handle)) }
    {
        self.seat.clear(rt, &words.board.shared, handle)
    }

    /// As `Seat::close`.
    pub fn close(&mut self, words: &NamedWords<N>, handle: u16) -> Result<(), CallError>
        ensures seat { HasGoneOn self.old self.new }
        ensures told { IsToldClose self.old.view handle result self.new.view }
    {
        self.seat.close(&words.board.shared, handle)
    }

    /// As `Seat::access`.
    pub fn access<R: Wait>(
        &mut self,
        rt: &R,
        words: &NamedWords<N>,
        handle: u16,
    ) -> Result<Access, CallError>
        ensures seat { HasGoneOn self.old self.new }
        ensures told { IsToldAccess self.old.view handle result self.new.view }
    {
        self.seat.access(rt, &words.board.shared, handle)
    }

    /// As `Seat::entries`.
    pub fn entries<R: Wait>(
        &mut self,
        alloc: Global,
        rt: &R,
        words: &NamedWords<N>,
        handle: u16,
    ) -> Result<Vec<(u64, u64)>, CallError>
        ensures seat { HasGoneOn self.old self.new }
        ensures told { IsTold (λ pairs. reply.Pairs pairs.items) self.old.view (Entries handle) result self.new.view }
        ensures why { IfErr result (FitsError (Entries handle)) }
    {
        self.seat.entries(alloc, rt, &words.board.shared, handle)
    }

    /// As `Seat::count`.
    pub fn count<R: Wait>(
        &mut self,
        alloc: Global,
        rt: &R,
        words: &NamedWords<N>,
        handle: u16,
    ) -> Result<u64, CallError>
        ensures seat { HasGoneOn self.old self.new }
        ensures told { IsTold reply.Count self.old.view (Count handle) result self.new.view }
        ensures why { IfErr result (FitsError (Count handle)) }
    {
        self.seat.count(alloc, rt, &words.board.shared, handle)
    }
}
