//! Listings in parts, and seats whose listing is under way.

ghost use Rattle.std.specs.Prelude.{◌≡◌, ◌≤◌, ℕ, List, None, IfErr};
ghost use Rattle.history.specs.declared.calls.Call.TheVariants.{Entries};
ghost use Rattle.history.specs.declared.replies.Reply.TheVariants as reply;
ghost use Rattle.lock_free.specs.declared.rules.View.{View};
ghost use Rattle.lock_free.specs.Answering.{HasAnswered};
ghost use Rattle.lock_free.specs.KeyReplies.{FitsError};
ghost use Rattle.lock_free.specs.Loading.{IsSound};
ghost use Rattle.lock_free.specs.Scans.{entered_by, HasBegunScan, HasEnteredScan, HasLeftScan, HasScanned, IsListing, IsScanBy, IsScanning};
ghost use Rattle.lock_free.specs.ScanSeats.{reached_by, scanned_by, seat_of};
ghost use Rattle.lock_free.specs.Stocks.{IsStock};
ghost use Rattle.lock_free.specs.WholeCalls.{IsWalkLack, RestsWith};

use crate::beginning::begin_call_within;
use crate::call_errors::CallError;
use crate::call_runs::HANDLES;
use crate::loads::{Actor, Words};
use crate::reading::Way;
use crate::seating::{Seat, end, refuse};
use crate::stock::Stock;
use crate::walking::Walker;
use crate::walks::{Reached, add_pairs_within};
use history::Call;
use std::alloc::Global;
use std::marker::Model;

/// A seat that lists all pairs of a read-only handle in parts. Until it has come to the end, or is stopped, it can make no other call, its
/// handle can't be closed, and slots that are given up meanwhile aren't used again. Who drops it leaves it so for ever.
#[derive(Drop)]
pub struct Scan {
    actor: Actor,
    number: u8,
    last: u8,
    stock: Box<Stock>,
    way: Way,
    walker: Walker,
}

impl Model for Scan {
    ghost use Rattle.lock_free.specs.Seated.{Seated};
    ghost use Rattle.lock_free.specs.Scans.{IsScanSeat};

    ghost Value = { Seated };

    ghost view = { λ s. record { table = s.actor.table_id; view = s.actor.me.0 } };

    ghost invariant = { λ s. IsScanSeat s.actor.table_id.words s.actor.me.0 s.number s.last s.stock.value s.way s.walker };
}

/// How far a listing in parts has come.
#[derive(Drop)]
pub enum Scanned {
    /// It has told so many pairs as were asked for. Others may follow.
    Paused(Scan),
    /// It has told all pairs.
    Done(Seat),
    /// It was refused, and what it has told claims nothing.
    Refused(Seat, CallError),
}

/// A seat of these parts whose listing has come so far.
fn scanned_by(
    actor: Actor,
    number: u8,
    last: u8,
    stock: Box<Stock>,
    way: Way,
    walker: Walker,
    reached: Result<Reached, CallError>,
) -> Scanned
    requires whole { IsScanBy actor.table_id.words actor.me.0 number last stock.value way walker reached }
    ensures { result ≡ scanned_by record { table = actor.table_id; view = actor.me.0 } reached }
{
    match reached {
        Ok(Reached::Most) => Scanned::Paused(Scan {
            actor,
            number,
            last,
            stock,
            way,
            walker,
        }),
        Ok(Reached::All) => Scanned::Done(Seat {
            actor,
            number,
            last,
            stock,
        }),
        Err(why) => {
            let seat = Seat {
                actor,
                number,
                last,
                stock,
            };
            Scanned::Refused(seat, why)
        }
    }
}

/// The begin of a listing by this seat, `seat`, up to its first main node. Each loop on the way is in so many tries.
fn enter_within(
    alloc: Global,
    tries: u64,
    words: &Words,
    actor: &mut Actor,
    stock: &mut Stock,
    seat: u8,
    handle: u16,
) -> Result<(Way, Walker), CallError>
    requires table { actor.old.table_id ≡ words.now.table_id }
    requires sound { IsSound words.now.table_id.words actor.old.me.0 }
    requires stock { IsStock stock.old actor.old.me.0 }
    requires its { actor.old.me.0.actor ≡ seat }
    requires few { actor.old.me.0.actor ≤ actor.old.me.0.sizes.seats }
    requires ready { RestsWith actor.old.me.0 None }
    ensures table { actor.new.table_id ≡ actor.old.table_id }
    ensures sound { IsSound words.now.table_id.words actor.new.me.0 }
    ensures stock { IsStock stock.new actor.new.me.0 }
    ensures left { HasEnteredScan actor.old.me.0 result actor.new.me.0 }
    ensures begun { HasBegunScan actor.old.me.0 handle (entered_by result) actor.new.me.0 }
    ensures why { IfErr result (FitsError (Entries handle)) }
{
    if handle >= HANDLES {
        return Err(CallError::NoHandle);
    }
    let way = begin_call_within(tries, words, actor, stock, seat, Call::Entries { handle })?;
    match Walker::begin_within(alloc, tries, words, actor, way) {
        Ok(walker) => Ok((way, walker)),
        Err(why) => {
            refuse(words, actor, stock, seat);
            Err(CallError::from(why))
        }
    }
}

/// The next pairs of a listing by this seat, `seat`, which ends where there are no others.
fn go_on_within(
    tries: u64,
    most: usize,
    words: &Words,
    actor: &mut Actor,
    stock: &mut Stock,
    seat: u8,
    way: Way,
    walker: &mut Walker,
    pairs: &mut Vec<(u64, u64)>,
) -> Result<Reached, CallError>
    requires table { actor.old.table_id ≡ words.now.table_id }
    requires sound { IsSound words.now.table_id.words actor.old.me.0 }
    requires stock { IsStock stock.old actor.old.me.0 }
    requires its { actor.old.me.0.actor ≡ seat }
    requires few { actor.old.me.0.actor ≤ actor.old.me.0.sizes.seats }
    requires listing { IsListing actor.old.me.0 way walker.old }
    ensures table { actor.new.table_id ≡ actor.old.table_id }
    ensures sound { IsSound words.now.table_id.words actor.new.me.0 }
    ensures stock { IsStock stock.new actor.new.me.0 }
    ensures left { HasLeftScan actor.old.me.0 way result actor.new.me.0 walker.new }
    ensures scanned { HasScanned actor.old.me.0 most pairs.old.items result actor.new.me.0 pairs.new.items }
    ensures lacks { IfErr result IsWalkLack }
{
    match add_pairs_within(tries, most, words, actor, way, walker, pairs) {
        Ok(Reached::Most) => Ok(Reached::Most),
        Ok(Reached::All) => {
            end(words, actor, stock, seat);
            Ok(Reached::All)
        }
        Err(why) => {
            refuse(words, actor, stock, seat);
            Err(CallError::from(why))
        }
    }
}

impl Seat {
    ghost use Rattle.lock_free.specs.Seated.{HasGoneOn};

    /// Begins a listing of all pairs of a read-only handle in parts, with no `Wait`: its begin is in so many looks, and each loop on the way
    /// in so many tries. It has told nothing then, and goes on by `Scan::next`.
    ///
    /// # Errors
    ///
    /// As of `entries_within`.
    pub fn scan(self, alloc: Global, tries: u64, words: &Words, handle: u16) -> Scanned
        requires table { self.table ≡ words.now.table_id }
        ensures seat { HasGoneOn self (seat_of result) }
        ensures begun { HasBegunScan self.view handle (reached_by result) (seat_of result).view }
        ensures why { IfErr (reached_by result) (FitsError (Entries handle)) }
    {
        let Seat {
            mut actor,
            number,
            last,
            mut stock,
        } = self;
        match enter_within(alloc, tries, words, &mut actor, &mut stock, number, handle) {
            Ok((way, walker)) => Scanned::Paused(Scan {
                actor,
                number,
                last,
                stock,
                way,
                walker,
            }),
            Err(why) => {
                let seat = Seat {
                    actor,
                    number,
                    last,
                    stock,
                };
                Scanned::Refused(seat, why)
            }
        }
    }
}

impl Scan {
    ghost use Rattle.lock_free.specs.Seated.{HasGoneOn};

    /// Adds the next pairs to the list, so many at most, in the order of the trie. All parts together, by rising key, are the pairs of the
    /// handle: the reply of one listing, which ends with the last part. Each loop on the way is in so many tries.
    ///
    /// # Errors
    ///
    /// `Memory`; and `Spent`, where the tries are used up. Then the listing has ended as one that was refused, whatever was told before.
    pub fn next(
        self,
        tries: u64,
        most: usize,
        words: &Words,
        pairs: &mut Vec<(u64, u64)>,
    ) -> Scanned
        requires table { self.table ≡ words.now.table_id }
        ensures seat { HasGoneOn self (seat_of result) }
        ensures scanned { HasScanned self.view most pairs.old.items (reached_by result) (seat_of result).view pairs.new.items }
        ensures lacks { IfErr (reached_by result) IsWalkLack }
    {
        let Scan {
            mut actor,
            number,
            last,
            mut stock,
            way,
            mut walker,
        } = self;
        let reached = go_on_within(
            tries,
            most,
            words,
            &mut actor,
            &mut stock,
            number,
            way,
            &mut walker,
            pairs,
        );
        scanned_by(actor, number, last, stock, way, walker, reached)
    }

    /// Ends the listing before its end, as one that was refused. Returns the seat.
    pub fn stop(self, words: &Words) -> Seat
        requires table { self.table ≡ words.now.table_id }
        ensures seat { HasGoneOn self result }
        ensures stopped { (before : View) (handle : ℕ) (told : List (ℕ × ℕ)) → IsScanning before handle told self.view → HasAnswered before (Entries handle) None reply.NoSlots result.view }
    {
        let Scan {
            mut actor,
            number,
            last,
            mut stock,
            way: _,
            walker: _,
        } = self;
        refuse(words, &mut actor, &mut stock, number);
        Seat {
            actor,
            number,
            last,
            stock,
        }
    }
}
