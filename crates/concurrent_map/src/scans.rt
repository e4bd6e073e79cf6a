//! Listings in parts, and seats whose listing is under way.

ghost use Rattle.std.specs.Prelude.{◌≡◌, ℕ, List, None};
ghost use Rattle.history.specs.declared.calls.Call.TheVariants.{Entries};
ghost use Rattle.history.specs.declared.replies.Reply.TheVariants.{NoSlots};
ghost use Rattle.lock_free.specs.declared.scans.Scanned.{Scanned};
ghost use Rattle.concurrent_map.specs.Calls.{WasAnswered};
ghost use Rattle.concurrent_map.specs.Scans.{FitsScan, GoesOnUnlessLacking, HasBegunScan, HasScanned, IsScannedAt};
ghost use Rattle.concurrent_map.specs.Seats.{SeatState};

use crate::handles::Handle;
use crate::maps::ConcurrentMap;
use crate::seats::{MapSeat, histories_stay};
use lock_free::{CallError, Scan, Scanned};
use std::alloc::Global;
use std::marker::Model;

/// A seat that lists all pairs of a copy for readers in parts. Until it has come to the end, or is stopped, it can make no other call, the
/// copy can't be closed, and slots that are given up meanwhile aren't used again. Who drops it leaves it so for ever.
#[derive(Drop)]
pub struct MapScan {
    scan: Scan,
}

impl Model for MapScan {
    ghost use Rattle.lock_free.specs.Places.{AreSizes};
    ghost use Rattle.lock_free.specs.Seated.{Seated};

    ghost Value = { Seated };

    ghost view = { λ s. s.scan };

    ghost invariant = { λ s. AreSizes s.scan.view.sizes };
}

/// How far a listing in parts has come.
#[derive(Drop)]
pub enum MapScanned {
    /// It has told as many pairs as were asked for. Others may follow.
    Paused(MapScan),
    /// It has told all pairs.
    Done(MapSeat),
    /// It was refused, and what it has told claims nothing.
    Refused(MapSeat, CallError),
}

impl MapScanned {
    ghost use Rattle.concurrent_map.specs.Scans.{of_map, HasSizes};

    /// The same of a seat of a map.
    fn new(scanned: Scanned) -> MapScanned
        requires sizes { HasSizes scanned }
        ensures { result ≡ of_map scanned }
    {
        match scanned {
            Scanned::Paused(scan) => MapScanned::Paused(MapScan { scan }),
            Scanned::Done(seat) => MapScanned::Done(MapSeat { seat }),
            Scanned::Refused(seat, why) => MapScanned::Refused(MapSeat { seat }, why),
        }
    }
}

impl MapSeat {
    ghost use Rattle.concurrent_map.specs.Seats.{IsSeatOf};

    /// Begins a listing of all pairs of a copy for readers in parts, which goes on by `MapScan::next`: for a copy whose list would be too long
    /// for memory, or for a thread that has other work in between. It has told nothing then. Its begin is in so many tries.
    /// While it is under way the copy can't be closed (`Busy`), and slots that are given up, by whichever call, aren't used again: a map that
    /// is changed much meanwhile may be `Full`. Where that matters, `entries` lists the copy at once.
    ///
    /// # Errors
    ///
    /// As of `entries_within`.
    pub fn scan(self, alloc: Global, tries: u64, map: &ConcurrentMap, handle: Handle) -> MapScanned
        requires of_map { IsSeatOf map.now self }
        ensures seat { IsScannedAt map.now result }
        ensures begun { HasBegunScan self handle result }
        ensures why { FitsScan handle result }
    {
        histories_stay();
        let MapSeat { seat } = self;
        MapScanned::new(seat.scan(alloc, tries, &map.board.shared, handle.number()))
    }
}

impl MapScan {
    ghost use Rattle.concurrent_map.specs.Seats.{state_of_seat, IsSeatOf};
    ghost use Rattle.concurrent_map.specs.Scans.{IsScanning};

    /// Adds the next pairs to the list, so many at most, in the map's own order. All parts together, by rising key, are what `entries` lists.
    /// Each loop on the way takes so many tries at most; more than one is wanted where other threads have changes under way there.
    ///
    /// # Errors
    ///
    /// `Memory`; and `Spent`, where the tries are used up. Then the listing is over, and has to begin anew.
    pub fn next(
        self,
        tries: u64,
        most: usize,
        map: &ConcurrentMap,
        pairs: &mut Vec<(u64, u64)>,
    ) -> MapScanned
        requires { IsSeatOf map.now (state_of_seat self) }
        ensures seat { IsScannedAt map.now result }
        ensures scanned { HasScanned self most pairs.old.items result pairs.new.items }
        ensures why { GoesOnUnlessLacking result }
    {
        histories_stay();
        let MapScan { scan } = self;
        MapScanned::new(scan.next(tries, most, &map.board.shared, pairs))
    }

    /// Ends the listing before its end. What it has told claims nothing: it stands in the history as refused.
    pub fn stop(self, map: &ConcurrentMap) -> MapSeat
        requires { IsSeatOf map.now (state_of_seat self) }
        ensures seat { IsSeatOf map.now result }
        ensures stopped { (before : SeatState) (handle : ℕ) (told : List (ℕ × ℕ)) → IsScanning before handle told self → WasAnswered before (Entries handle) None NoSlots result }
    {
        histories_stay();
        let MapScan { scan } = self;
        MapSeat {
            seat: scan.stop(&map.board.shared),
        }
    }
}
