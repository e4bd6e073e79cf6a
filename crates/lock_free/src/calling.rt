//! Operations begin, and give up.

ghost use Rattle.std.specs.Prelude.{◌≡◌, ◌<◌, ◌≤◌, ◌^◌};
ghost use Rattle.machine_model.specs.Calls.{handle_of, key_of, needs_read_only, needs_writable};
ghost use Rattle.lock_free.specs.Calling.{access_in, started_by, HasCalled, HasCutShort, HasGivenUp, HasTriedToStart, CalledOrNot, StartedOrNot};
ghost use Rattle.lock_free.specs.Calling.{IsBeginner, IsCaller, IsRunning, MayGiveUp};
ghost use Rattle.lock_free.specs.Loading.{IsSound};

use crate::advancing::EPOCH_WORD;
use crate::handles::{root_word_of, unmark};
use crate::loads::{Actor, Words};
use crate::pins::{pin, unpin};
use crate::reading::Way;
use crate::rules::{Abandons, CutsShort, Starts};
use crate::tasks::key_of;
use history::{Access, Call};
use std::sync::Wait;
use trie_words::{Pin, RootWord};

/// Why a call doesn't begin.
#[derive(Clone, Copy, Debug, PartialEq, Eq, Drop)]
pub enum Denial {
    /// Its handle isn't open.
    NoHandle,
    /// It needs a handle that may be written, and its own is for readers.
    ReadOnly,
    /// It needs a handle for readers, and its own may be written.
    NotReadOnly,
}

/// What comes of a begin.
#[derive(Clone, Copy, Debug, PartialEq, Eq, Drop)]
pub enum Started {
    /// The operation runs, and nobody closes its handle until it ends. This is what the handle's word says.
    Runs(RootWord),
    /// It doesn't.
    Denied(Denial),
    /// It doesn't, since the handle's word names the offer in this slot, which has opened it, or is to.
    Opening(u32),
}

/// Whether the call needs a handle that may be written.
#[inline(always)]
fn needs_writable(call: &Call) -> bool
    ensures { result ≡ needs_writable call.now }
{
    !matches!(
        call,
        Call::Get { .. } | Call::Close { .. } | Call::Entries { .. } | Call::Count { .. }
    )
}

/// Whether it needs one for readers.
#[inline(always)]
fn needs_read_only(call: &Call) -> bool
    ensures { result ≡ needs_read_only call.now }
{
    matches!(call, Call::Entries { .. } | Call::Count { .. })
}

/// A law: the key of a call has 64 bits, since it is one of the program's. It does nothing.
#[inline(always)]
pub(crate) fn key_fits(call: Call)
    ensures { key_of call < 2 ^ 64 }
{
    let _ = key_of(call);
}

/// What comes of the begin of this call where its handle has this word.
#[inline(always)]
fn started_by(word: RootWord, call: &Call) -> Result<Started, RootWord>
    ensures { result ≡ started_by word call.now }
{
    match word {
        RootWord::Closed | RootWord::Reserved => Ok(Started::Denied(Denial::NoHandle)),
        RootWord::Opening(slot) => Ok(Started::Opening(slot)),
        RootWord::ClosingWritable { .. } | RootWord::ClosingReadOnly { .. } => Err(word),
        RootWord::ReadOnly(_) if needs_writable(call) => Ok(Started::Denied(Denial::ReadOnly)),
        RootWord::ReadOnly(_) => Ok(Started::Runs(word)),
        _ if needs_read_only(call) => Ok(Started::Denied(Denial::NotReadOnly)),
        _ => Ok(Started::Runs(word)),
    }
}

/// Begins the operation of this call, for which the seat has pinned itself, if its handle is open for it. A call that opens a handle
/// has reserved its number before. An `Err` has the word by which a seat would close the handle: nothing has begun.
#[inline(always)]
pub fn try_begin(words: &Words, actor: &mut Actor, call: &Call) -> Result<Started, RootWord>
    requires table { actor.old.table_id ≡ words.now.table_id }
    requires sound { IsSound words.now.table_id.words actor.old.me.0 }
    requires low { handle_of call.now < 256 }
    requires beginner { IsBeginner actor.old.me.0 call.now }
    ensures table { actor.new.table_id ≡ actor.old.table_id }
    ensures sound { IsSound words.now.table_id.words actor.new.me.0 }
    ensures tried { HasTriedToStart actor.old.me.0 call.now result actor.new.me.0 }
{
    key_fits(*call);
    let found = words.load::<Starts>(actor, root_word_of(call.handle()));
    started_by(RootWord::of_word(found), call)
}

/// The access of an open handle with this word.
#[inline(always)]
fn access_of(found: RootWord) -> Access
    ensures { result ≡ access_in found }
{
    match found {
        RootWord::ReadOnly(_) => Access::ReadOnly,
        _ => Access::Writable,
    }
}

/// The same in so many looks, or nothing has begun: the marks that it meets are taken away, and who made them finds the handle busy.
#[inline(always)]
pub fn begin_within(tries: u64, words: &Words, actor: &mut Actor, call: &Call) -> Option<Started>
    requires table { actor.old.table_id ≡ words.now.table_id }
    requires sound { IsSound words.now.table_id.words actor.old.me.0 }
    requires low { handle_of call.now < 256 }
    requires beginner { IsBeginner actor.old.me.0 call.now }
    ensures table { actor.new.table_id ≡ actor.old.table_id }
    ensures sound { IsSound words.now.table_id.words actor.new.me.0 }
    ensures started { StartedOrNot actor.old.me.0 call.now result actor.new.me.0 }
{
    for _ in 0..tries {
        match try_begin(words, actor, call) {
            Ok(started) => return Some(started),
            Err(marked) => unmark(words, actor, call.handle(), marked),
        }
    }
    None
}

/// The beginning of a call: pins this seat, `seat`, in this epoch and begins the operation; its handle and what that allows is returned.
/// None where it hasn't begun in so many looks; an `Err` says why none has begun: then the seat is as before. A handle isn't open yet while
/// the call that opens it hasn't ended.
#[inline(always)]
pub fn start_within(
    tries: u64,
    words: &Words,
    actor: &mut Actor,
    seat: u8,
    epoch: u64,
    call: &Call,
) -> Result<Option<Way>, Denial>
    requires table { actor.old.table_id ≡ words.now.table_id }
    requires sound { IsSound words.now.table_id.words actor.old.me.0 }
    requires its { actor.old.me.0.actor ≡ seat }
    requires few { actor.old.me.0.actor ≤ actor.old.me.0.sizes.seats }
    requires low { handle_of call.now < 256 }
    requires epoch { epoch < 2 ^ 54 }
    requires late { epoch ≤ actor.old.me.0.epoch }
    requires caller { IsCaller actor.old.me.0 call.now }
    ensures table { actor.new.table_id ≡ actor.old.table_id }
    ensures sound { IsSound words.now.table_id.words actor.new.me.0 }
    ensures called { CalledOrNot actor.old.me.0 call.now result actor.new.me.0 }
{
    let handle = call.handle();
    pin(words, actor, seat, Pin { epoch, handle }, call);
    let Some(started) = begin_within(tries, words, actor, call) else {
        unpin(words, actor, seat);
        return Ok(None);
    };
    let denial = match started {
        Started::Runs(found) => {
            let access = access_of(found);
            return Ok(Some(Way { handle, access }));
        }
        Started::Denied(denial) => denial,
        Started::Opening(..) => Denial::NoHandle,
    };
    unpin(words, actor, seat);
    Err(denial)
}

/// The same, as often as it takes.
pub fn start<R: Wait>(
    rt: &R,
    words: &Words,
    actor: &mut Actor,
    seat: u8,
    epoch: u64,
    call: &Call,
) -> Result<Way, Denial>
    requires table { actor.old.table_id ≡ words.now.table_id }
    requires sound { IsSound words.now.table_id.words actor.old.me.0 }
    requires its { actor.old.me.0.actor ≡ seat }
    requires few { actor.old.me.0.actor ≤ actor.old.me.0.sizes.seats }
    requires low { handle_of call.now < 256 }
    requires epoch { epoch < 2 ^ 54 }
    requires late { epoch ≤ actor.old.me.0.epoch }
    requires caller { IsCaller actor.old.me.0 call.now }
    ensures table { actor.new.table_id ≡ actor.old.table_id }
    ensures sound { IsSound words.now.table_id.words actor.new.me.0 }
    ensures called { HasCalled actor.old.me.0 call.now result actor.new.me.0 }
{
    for _ in rt.forever() {
        match start_within(u64::MAX, words, actor, seat, epoch, call) {
            Ok(Some(way)) => return Ok(way),
            Ok(None) => {}
            Err(denial) => return Err(denial),
        }
    }
    unreachable!()
}

/// Lets the operation of this seat give up, where nothing of its own is published and pending: from then on it is to end, as one that
/// found no free slot, or, in a climb, with the answer that it has already. What it made is free for the seat again, and the seat holds what
/// that held of others.
pub fn give_up(words: &Words, actor: &mut Actor)
    requires table { actor.old.table_id ≡ words.now.table_id }
    requires sound { IsSound words.now.table_id.words actor.old.me.0 }
    requires may { MayGiveUp actor.old.me.0 }
    ensures table { actor.new.table_id ≡ actor.old.table_id }
    ensures sound { IsSound words.now.table_id.words actor.new.me.0 }
    ensures gave { HasGivenUp actor.old.me.0 actor.new.me.0 }
{
    words.load::<Abandons>(actor, EPOCH_WORD);
}

/// Lets the operation of this seat give up, unless it is to end anyway.
pub fn cut_short(words: &Words, actor: &mut Actor)
    requires table { actor.old.table_id ≡ words.now.table_id }
    requires sound { IsSound words.now.table_id.words actor.old.me.0 }
    requires runs { IsRunning actor.old.me.0 }
    ensures table { actor.new.table_id ≡ actor.old.table_id }
    ensures sound { IsSound words.now.table_id.words actor.new.me.0 }
    ensures cut { HasCutShort actor.old.me.0 actor.new.me.0 }
{
    words.load::<CutsShort>(actor, EPOCH_WORD);
}
