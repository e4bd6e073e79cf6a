//! A handle is closed, as a whole.

ghost use Rattle.std.specs.Prelude.{◌≡◌, ◌<◌, ◌≤◌, true, Some, None};
ghost use Rattle.trie_words.specs.Codes.{IsRootWord, root_code};
ghost use Rattle.lock_free.specs.declared.rules.Pinned.{Pinned};
ghost use Rattle.lock_free.specs.Closing.{HasMarkedAndShut, HasPassedAll, HasShut, ShutOrNot, ShutPinned};
ghost use Rattle.lock_free.specs.HandleWords.{is_unmarked, HasJustMarked};
ghost use Rattle.lock_free.specs.Loading.{IsSound};
ghost use Rattle.lock_free.specs.Rules.{SaysClosing};
ghost use Rattle.lock_free.specs.Seated.{IsResting};
ghost use Rattle.lock_free.specs.SeatWords.{IsIdle, WouldClose};
ghost use Rattle.lock_free.specs.Stocks.{IsStock};

use crate::glances::fell_within;
use crate::handles::{close, mark, once_marked, root_slot, see_root, unmark};
use crate::loads::{Actor, Words};
use crate::pins::{pass, pin, unpin};
use crate::raising::release;
use crate::reclaiming::Kind;
use crate::sizes::Sizes;
use crate::stock::Stock;
use history::Call;
use trie_words::{Pin, RootWord};

/// What the pin of a seat names that is in no call: there is no such handle.
const NO_HANDLE: u16 = 256;

/// Who would close a handle tries so often to let all glances fall.
const FALLS: u64 = 64;

/// What comes of closing a handle.
#[derive(Clone, Copy, Debug, PartialEq, Eq, Drop)]
pub enum Shut {
    /// It is closed, by an operation of the seat's.
    Closed,
    /// It isn't: another seat is in a call on it, is about to begin or to open it, or would close it too.
    Busy,
    /// It was closed already.
    NoHandle,
}

/// Looks at the pins of all seats, one after the other, where this one, `own`, has marked the handle. Returns whether it has found no
/// other seat in a call on it.
fn pass_all(words: &Words, actor: &mut Actor, sizes: &Sizes, own: u8, handle: u16) -> bool
    requires table { actor.old.table_id ≡ words.now.table_id }
    requires sound { IsSound words.now.table_id.words actor.old.me.0 }
    requires sizes { actor.old.me.0.sizes ≡ sizes.now }
    requires its { actor.old.me.0.actor ≡ own }
    requires low { handle < 256 }
    requires closing { WouldClose actor.old.me.0 handle 0 }
    ensures table { actor.new.table_id ≡ actor.old.table_id }
    ensures sound { IsSound words.now.table_id.words actor.new.me.0 }
    ensures passed { HasPassedAll actor.old.me.0 handle result actor.new.me.0 }
{
    for looked in 0..sizes.seats {
        if !pass(words, actor, own, handle, looked) {
            return false;
        }
    }
    true
}

/// Closes the handle, which the seat has marked so, and on which it has found no other seat in a call, if its word is this one still: then it
/// lets go of the root, since it is pinned. Returns whether it was.
fn shut_pinned(
    words: &Words,
    actor: &mut Actor,
    stock: &mut Stock,
    handle: u16,
    marked: RootWord,
) -> bool
    requires table { actor.old.table_id ≡ words.now.table_id }
    requires sound { IsSound words.now.table_id.words actor.old.me.0 }
    requires stock { IsStock stock.old actor.old.me.0 }
    requires low { handle < 256 }
    requires fits { IsRootWord marked }
    requires marked { SaysClosing (root_code marked) actor.old.me.0.actor }
    requires closing { WouldClose actor.old.me.0 handle actor.old.me.0.sizes.seats }
    requires pinned { (pinned : Pinned) × (actor.old.me.0.pin ≡ Some pinned) }
    requires outside { actor.old.me.0.entered ≡ None }
    requires idle { IsIdle actor.old.me.0 }
    ensures table { actor.new.table_id ≡ actor.old.table_id }
    ensures sound { IsSound words.now.table_id.words actor.new.me.0 }
    ensures stock { IsStock stock.new actor.new.me.0 }
    ensures sizes { actor.new.me.0.sizes ≡ actor.old.me.0.sizes }
    ensures its { actor.new.me.0.actor ≡ actor.old.me.0.actor }
    ensures idle { IsIdle actor.new.me.0 }
    ensures shut { ShutOrNot actor.old.me.0 handle result actor.new.me.0 }
{
    if !close(words, actor, handle, marked, stock.sizes().seats) {
        return false;
    }
    release(words, actor, stock, Kind::Indirection, 0, root_slot(marked));
    true
}

/// The same by a seat, `own`, that isn't pinned: it pins itself for so long. It does so to no handle, and so hinders nobody else who would
/// close one.
fn shut_unpinned(
    words: &Words,
    actor: &mut Actor,
    stock: &mut Stock,
    own: u8,
    handle: u16,
    marked: RootWord,
) -> bool
    requires table { actor.old.table_id ≡ words.now.table_id }
    requires sound { IsSound words.now.table_id.words actor.old.me.0 }
    requires stock { IsStock stock.old actor.old.me.0 }
    requires its { actor.old.me.0.actor ≡ own }
    requires few { actor.old.me.0.actor ≤ actor.old.me.0.sizes.seats }
    requires low { handle < 256 }
    requires fits { IsRootWord marked }
    requires marked { SaysClosing (root_code marked) actor.old.me.0.actor }
    requires closing { WouldClose actor.old.me.0 handle actor.old.me.0.sizes.seats }
    requires rests { IsResting actor.old.me.0 }
    ensures table { actor.new.table_id ≡ actor.old.table_id }
    ensures sound { IsSound words.now.table_id.words actor.new.me.0 }
    ensures stock { IsStock stock.new actor.new.me.0 }
    ensures shut { ShutPinned actor.old.me.0 handle result actor.new.me.0 }
{
    let to_none = Pin {
        epoch: stock.epoch(),
        handle: NO_HANDLE,
    };
    pin(words, actor, own, to_none, &Call::Close { handle });
    let closed = shut_pinned(words, actor, stock, handle, marked);
    unpin(words, actor, own);
    closed
}

/// Closes the handle, which the seat has marked so, if its word is this one still, glances could be let fall and no other seat is in a call
/// on it. Returns whether it was so.
fn close_passed(
    words: &Words,
    actor: &mut Actor,
    stock: &mut Stock,
    own: u8,
    handle: u16,
    marked: RootWord,
) -> bool
    requires table { actor.old.table_id ≡ words.now.table_id }
    requires sound { IsSound words.now.table_id.words actor.old.me.0 }
    requires stock { IsStock stock.old actor.old.me.0 }
    requires its { actor.old.me.0.actor ≡ own }
    requires few { actor.old.me.0.actor ≤ actor.old.me.0.sizes.seats }
    requires low { handle < 256 }
    requires fits { IsRootWord marked }
    requires marked { SaysClosing (root_code marked) own }
    requires closing { HasJustMarked actor.old.me.0 handle }
    requires rests { IsResting actor.old.me.0 }
    ensures table { actor.new.table_id ≡ actor.old.table_id }
    ensures sound { IsSound words.now.table_id.words actor.new.me.0 }
    ensures stock { IsStock stock.new actor.new.me.0 }
    ensures shut { HasMarkedAndShut actor.old.me.0 handle result actor.new.me.0 }
{
    if !fell_within(FALLS, words, actor) {
        return false;
    }
    if !pass_all(words, actor, &stock.sizes(), own, handle) {
        return false;
    }
    shut_unpinned(words, actor, stock, own, handle, marked)
}

/// Closes the handle, if its word is this one still and no other seat is in a call on it. Returns whether it was so.
fn close_marked(
    words: &Words,
    actor: &mut Actor,
    stock: &mut Stock,
    own: u8,
    handle: u16,
    word: RootWord,
) -> bool
    requires table { actor.old.table_id ≡ words.now.table_id }
    requires sound { IsSound words.now.table_id.words actor.old.me.0 }
    requires stock { IsStock stock.old actor.old.me.0 }
    requires its { actor.old.me.0.actor ≡ own }
    requires few { actor.old.me.0.actor ≤ actor.old.me.0.sizes.seats }
    requires low { handle < 256 }
    requires fits { IsRootWord word }
    requires unmarked { is_unmarked word ≡ true }
    requires rests { IsResting actor.old.me.0 }
    ensures table { actor.new.table_id ≡ actor.old.table_id }
    ensures sound { IsSound words.now.table_id.words actor.new.me.0 }
    ensures stock { IsStock stock.new actor.new.me.0 }
    ensures shut { HasMarkedAndShut actor.old.me.0 handle result actor.new.me.0 }
{
    if !mark(words, actor, handle, word, own) {
        return false;
    }
    let marked = once_marked(word, own);
    if close_passed(words, actor, stock, own, handle, marked) {
        return true;
    }
    unmark(words, actor, handle, marked);
    false
}

/// Closes the handle, if it is open and no other seat is in a call on it. It never waits, and helps nobody: `own` is the seat's number.
pub fn close_handle(
    words: &Words,
    actor: &mut Actor,
    stock: &mut Stock,
    own: u8,
    handle: u16,
) -> Shut
    requires table { actor.old.table_id ≡ words.now.table_id }
    requires sound { IsSound words.now.table_id.words actor.old.me.0 }
    requires stock { IsStock stock.old actor.old.me.0 }
    requires its { actor.old.me.0.actor ≡ own }
    requires few { actor.old.me.0.actor ≤ actor.old.me.0.sizes.seats }
    requires low { handle < 256 }
    requires rests { IsResting actor.old.me.0 }
    ensures table { actor.new.table_id ≡ actor.old.table_id }
    ensures sound { IsSound words.now.table_id.words actor.new.me.0 }
    ensures stock { IsStock stock.new actor.new.me.0 }
    ensures shut { HasShut actor.old.me.0 handle result actor.new.me.0 }
{
    let word = see_root(words, actor, handle);
    match word {
        RootWord::Closed | RootWord::Reserved => Shut::NoHandle,
        RootWord::Writable(_) | RootWord::ReadOnly(_) => {
            if close_marked(words, actor, stock, own, handle, word) {
                Shut::Closed
            } else {
                Shut::Busy
            }
        }
        _ => Shut::Busy,
    }
}
