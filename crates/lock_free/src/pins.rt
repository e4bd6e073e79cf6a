//! Seats' own words.

ghost use Rattle.std.specs.Prelude.{◌≡◌, ◌==◌, ◌||◌, ◌+◌, ◌<◌, ◌≤◌, Some, None};
ghost use Rattle.trie_words.specs.Codes.{IsPin};
ghost use Rattle.history.specs.declared.replies.Reply.{Reply};
ghost use Rattle.machine_model.specs.declared.actions.Action.TheVariants as act;
ghost use Rattle.lock_free.specs.Loading.{IsAt, IsSound};
ghost use Rattle.lock_free.specs.Places.{pin_word};
ghost use Rattle.lock_free.specs.SeatWords.{IsAtEnd, IsIdle, HasEnded, HasPassed, HasPinned, WouldClose, is_out, unpinned};

use crate::loads::{Actor, Words};
use crate::rules::{Ends, Looks, Pins, Unpins};
use history::Call;
use trie_words::Pin;

/// A seat's own word while it makes no call.
const UNPINNED: u64 = 0;

/// Which word is this seat's own.
#[inline(always)]
pub(crate) fn pin_word_of(seat: u8) -> usize
    ensures { result ≡ pin_word seat }
{
    336 + 16 * seat as usize
}

/// Pins this seat, which runs nothing and isn't pinned, for a call, with an epoch that it has seen: to the handle of the call, or to none,
/// where that closes one.
#[inline(always)]
pub fn pin(words: &Words, actor: &mut Actor, seat: u8, pin: Pin, call: &Call)
    requires table { actor.old.table_id ≡ words.now.table_id }
    requires sound { IsSound words.now.table_id.words actor.old.me.0 }
    requires its { actor.old.me.0.actor ≡ seat }
    requires few { actor.old.me.0.actor ≤ actor.old.me.0.sizes.seats }
    requires idle { IsIdle actor.old.me.0 }
    requires free { actor.old.me.0.pin ≡ None }
    requires fits { IsPin pin }
    requires late { pin.epoch ≤ actor.old.me.0.epoch }
    ensures table { actor.new.table_id ≡ actor.old.table_id }
    ensures sound { IsSound words.now.table_id.words actor.new.me.0 }
    ensures pinned { HasPinned actor.old.me pin call.now actor.new.me }
{
    let pinned = pin.to_word();
    words.compare_exchange_with::<Pins>(actor, pin_word_of(seat), UNPINNED, pinned, call);
}

/// Takes the pin of this seat away, which runs nothing.
#[inline(always)]
pub fn unpin(words: &Words, actor: &mut Actor, seat: u8)
    requires table { actor.old.table_id ≡ words.now.table_id }
    requires sound { IsSound words.now.table_id.words actor.old.me.0 }
    requires its { actor.old.me.0.actor ≡ seat }
    requires few { actor.old.me.0.actor ≤ actor.old.me.0.sizes.seats }
    requires idle { IsIdle actor.old.me.0 }
    ensures table { actor.new.table_id ≡ actor.old.table_id }
    ensures sound { IsSound words.now.table_id.words actor.new.me.0 }
    ensures unpinned { actor.new.me ≡ (unpinned actor.old.me.0, actor.old.me.1) }
{
    words.store::<Unpins>(actor, pin_word_of(seat), UNPINNED);
}

/// Ends the operation of this seat with the answer to which it has come; the seat is pinned no more.
#[inline(always)]
pub fn finish(words: &Words, actor: &mut Actor, seat: u8)
    requires table { actor.old.table_id ≡ words.now.table_id }
    requires sound { IsSound words.now.table_id.words actor.old.me.0 }
    requires its { actor.old.me.0.actor ≡ seat }
    requires few { actor.old.me.0.actor ≤ actor.old.me.0.sizes.seats }
    requires ending { IsAtEnd actor.old.me.0 }
    ensures table { actor.new.table_id ≡ actor.old.table_id }
    ensures sound { IsSound words.now.table_id.words actor.new.me.0 }
    ensures ended { (answer : Reply) → IsAt actor.old.me.0 (act.End answer) → HasEnded actor.old.me.0 answer actor.new.me.0 }
{
    words.store::<Ends>(actor, pin_word_of(seat), UNPINNED);
}

/// Whether a seat with this pin has no call on the handle.
fn has_no_call(pin: &Option<Pin>, handle: u16) -> bool
    ensures { result ≡ is_out handle pin.now }
{
    match pin {
        None => true,
        Some(pin) => pin.handle != handle,
    }
}

/// Whether this seat with this pin has no call on the handle, or is the one that would close it.
fn is_no_hindrance(pin: &Option<Pin>, handle: u16, seat: u8, own: u8) -> bool
    ensures { result ≡ (is_out handle pin.now || (seat == own)) }
{
    if seat == own {
        true
    } else {
        has_no_call(pin, handle)
    }
}

/// Looks at the pin of the next seat, where this one, `own`, would close the handle, has marked it, and has found that so many seats
/// have no call on it. Returns whether the next one has none either, or is this one.
pub fn pass(words: &Words, actor: &mut Actor, own: u8, handle: u16, looked: u8) -> bool
    requires table { actor.old.table_id ≡ words.now.table_id }
    requires sound { IsSound words.now.table_id.words actor.old.me.0 }
    requires its { actor.old.me.0.actor ≡ own }
    requires low { handle < 256 }
    requires small { looked + 1 < 256 }
    requires few { looked + 1 ≤ actor.old.me.0.sizes.seats }
    requires closing { WouldClose actor.old.me.0 handle looked }
    ensures table { actor.new.table_id ≡ actor.old.table_id }
    ensures sound { IsSound words.now.table_id.words actor.new.me.0 }
    ensures passed { HasPassed actor.old.me.0 handle looked result actor.new.me.0 }
{
    let next = looked + 1;
    let found = words.load::<Looks>(actor, pin_word_of(next));
    is_no_hindrance(&Pin::of_word(found), handle, next, own)
}
