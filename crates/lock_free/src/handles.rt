//! Handles' words.

ghost use Rattle.std.specs.Prelude.{◌≡◌, ◌≢◌, ◌<◌, ◌≤◌, true, Some};
ghost use Rattle.trie_words.specs.Codes.{IsRootWord, root_code};
ghost use Rattle.lock_free.specs.HandleWords.{is_marked, is_unmarked, marked_by, slot_named, without_mark, HasClosed, HasMarked, HasSeenRoot};
ghost use Rattle.lock_free.specs.Loading.{IsSound};
ghost use Rattle.lock_free.specs.Places.{root_word};
ghost use Rattle.lock_free.specs.RootWords.{IsAtClean};
ghost use Rattle.lock_free.specs.Rules.{SaysClosing};
ghost use Rattle.lock_free.specs.SeatWords.{IsIdle, WouldClose};

use crate::loads::{Actor, Words};
use crate::rules::{Cleans, Marks, Sees, Shuts, Unmarks};
use trie_words::RootWord;

/// Which word is this handle's.
#[inline(always)]
pub(crate) fn root_word_of(handle: u16) -> usize
    requires { handle < 256 }
    ensures { result ≡ root_word handle }
{
    if handle == 0 {
        80
    } else {
        87 + handle as usize
    }
}

/// Looks at the word of a handle.
pub fn see_root(words: &Words, actor: &mut Actor, handle: u16) -> RootWord
    requires table { actor.old.table_id ≡ words.now.table_id }
    requires sound { IsSound words.now.table_id.words actor.old.me.0 }
    requires low { handle < 256 }
    ensures table { actor.new.table_id ≡ actor.old.table_id }
    ensures sound { IsSound words.now.table_id.words actor.new.me.0 }
    ensures seen { HasSeenRoot actor.old.me.0 handle result actor.new.me.0 }
{
    let found = words.load::<Sees>(actor, root_word_of(handle));
    RootWord::of_word(found)
}

/// Takes the settled offer in this slot out of the word of its handle, if that names it still: the root that it leaves is in this one.
pub fn clean(words: &Words, actor: &mut Actor, handle: u16, offer: u32, root: u32)
    requires table { actor.old.table_id ≡ words.now.table_id }
    requires sound { IsSound words.now.table_id.words actor.old.me.0 }
    requires low { handle < 256 }
    requires cleaning { IsAtClean actor.old.me.0 handle offer root }
    ensures table { actor.new.table_id ≡ actor.old.table_id }
    ensures same { actor.new.me ≡ actor.old.me }
{
    let offered = RootWord::Offered(offer).to_word();
    let plain = RootWord::Writable(root).to_word();
    words.compare_exchange::<Cleans>(actor, root_word_of(handle), offered, plain);
}

/// This word of an open handle, with the mark of a seat that would close it.
pub(crate) fn once_marked(word: RootWord, seat: u8) -> RootWord
    ensures { result ≡ marked_by seat word }
{
    match word {
        RootWord::Writable(root) => RootWord::ClosingWritable { root, seat },
        RootWord::ReadOnly(root) => RootWord::ClosingReadOnly { root, seat },
        other => other,
    }
}

/// The slot of the root that this word of an open handle names.
pub(crate) fn root_slot(word: RootWord) -> u32
    ensures { result ≡ slot_named word }
{
    match word {
        RootWord::Writable(root) => root,
        RootWord::ReadOnly(root) => root,
        RootWord::ClosingWritable { root, .. } => root,
        RootWord::ClosingReadOnly { root, .. } => root,
        _ => 0,
    }
}

/// Marks the handle, which the seat would close, if its word is this one still: from then on nobody enters it while the mark is there.
/// Returns whether it was.
pub fn mark(words: &Words, actor: &mut Actor, handle: u16, word: RootWord, seat: u8) -> bool
    requires table { actor.old.table_id ≡ words.now.table_id }
    requires sound { IsSound words.now.table_id.words actor.old.me.0 }
    requires low { handle < 256 }
    requires fits { IsRootWord word }
    requires unmarked { is_unmarked word ≡ true }
    requires own { seat ≡ actor.old.me.0.actor }
    ensures table { actor.new.table_id ≡ actor.old.table_id }
    ensures sound { IsSound words.now.table_id.words actor.new.me.0 }
    ensures marked { HasMarked actor.old.me.0 handle result actor.new.me.0 }
{
    let open = word.to_word();
    let marked = once_marked(word, seat).to_word();
    words.compare_exchange::<Marks>(actor, root_word_of(handle), open, marked) == open
}

/// Closes the handle, which the seat has marked so, and on which it has found no other seat in a call, if its word is this one still.
/// Returns whether it was: then the seat, if it is pinned, holds the root itself that the word named.
pub fn close(words: &Words, actor: &mut Actor, handle: u16, word: RootWord, looked: u8) -> bool
    requires table { actor.old.table_id ≡ words.now.table_id }
    requires sound { IsSound words.now.table_id.words actor.old.me.0 }
    requires low { handle < 256 }
    requires fits { IsRootWord word }
    requires marked { SaysClosing (root_code word) actor.old.me.0.actor }
    requires closing { WouldClose actor.old.me.0 handle looked }
    requires all { actor.old.me.0.sizes.seats ≤ looked }
    requires outside { actor.old.me.0.entered ≢ Some handle }
    requires idle { IsIdle actor.old.me.0 }
    ensures table { actor.new.table_id ≡ actor.old.table_id }
    ensures sound { IsSound words.now.table_id.words actor.new.me.0 }
    ensures closed { HasClosed actor.old.me.0 handle (slot_named word) result actor.new.me.0 }
{
    let open = word.to_word();
    words.compare_exchange::<Shuts>(actor, root_word_of(handle), open, 0) == open
}

/// This word of an open handle, without the mark of the seat that would close it.
fn once_unmarked(word: RootWord) -> RootWord
    ensures { result ≡ without_mark word }
{
    match word {
        RootWord::ClosingWritable { root, .. } => RootWord::Writable(root),
        RootWord::ClosingReadOnly { root, .. } => RootWord::ReadOnly(root),
        other => other,
    }
}

/// Takes the mark of a seat, this one or another, that would close the handle out of its word, if that is this one still. So a seat
/// that would enter the handle goes on, and who would close it finds it busy.
#[cold]
#[inline(never)]
pub fn unmark(words: &Words, actor: &mut Actor, handle: u16, word: RootWord)
    requires table { actor.old.table_id ≡ words.now.table_id }
    requires sound { IsSound words.now.table_id.words actor.old.me.0 }
    requires low { handle < 256 }
    requires fits { IsRootWord word }
    requires marked { is_marked word ≡ true }
    ensures table { actor.new.table_id ≡ actor.old.table_id }
    ensures same { actor.new.me ≡ actor.old.me }
{
    let marked = word.to_word();
    let open = once_unmarked(word).to_word();
    words.compare_exchange::<Unmarks>(actor, root_word_of(handle), marked, open);
}
