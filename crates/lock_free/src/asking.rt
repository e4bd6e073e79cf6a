//! The root of a handle is asked for, in single accesses.

ghost use Rattle.std.specs.Prelude.{◌≡◌, ◌<◌, ◌^◌};
ghost use Rattle.lock_free.specs.Loading.{IsSound};
ghost use Rattle.lock_free.specs.RootWords.{AsksAt, HasAskedRoot, HasSeenGeneration, IsRootIn, named_by};

use crate::handles::root_word_of;
use crate::loads::{Actor, Words};
use crate::rules::{Asks, Sees};
use trie_words::{Link, RootWord};

/// What the word of a handle says of its root.
#[derive(Clone, Copy, Drop)]
pub enum Named {
    /// It is in this slot.
    Root(u32),
    /// The offer in this slot tells it.
    Offer(u32),
    /// Nothing: who has entered the handle doesn't find this.
    Nothing,
}

/// What this word says of the root.
#[inline(always)]
pub(crate) fn named_of(word: RootWord) -> Named
    ensures { result ≡ named_by word }
{
    match word {
        RootWord::Writable(root) => Named::Root(root),
        RootWord::ReadOnly(root) => Named::Root(root),
        RootWord::ClosingWritable { root, .. } => Named::Root(root),
        RootWord::ClosingReadOnly { root, .. } => Named::Root(root),
        RootWord::Offered(offer) => Named::Offer(offer),
        RootWord::Opening(_) => Named::Nothing,
        RootWord::Closed => Named::Nothing,
        RootWord::Reserved => Named::Nothing,
    }
}

/// Asks for the root of this handle: where its word names the root, the operation has read it.
#[inline(always)]
pub fn ask_word(words: &Words, actor: &mut Actor, handle: u16) -> Named
    requires table { actor.old.table_id ≡ words.now.table_id }
    requires sound { IsSound words.now.table_id.words actor.old.me.0 }
    requires asking { AsksAt actor.old.me.0 handle }
    ensures table { actor.new.table_id ≡ actor.old.table_id }
    ensures sound { IsSound words.now.table_id.words actor.new.me.0 }
    ensures asked { HasAskedRoot actor.old.me.0 handle result actor.new.me.0 }
{
    let found = words.load::<Asks>(actor, root_word_of(handle));
    named_of(RootWord::of_word(found))
}

/// The generation of the root in this slot.
#[inline(always)]
pub fn see_generation(words: &Words, actor: &mut Actor, root: u32) -> u64
    requires table { actor.old.table_id ≡ words.now.table_id }
    requires sound { IsSound words.now.table_id.words actor.old.me.0 }
    requires root { IsRootIn actor.old.me.0 root }
    ensures table { actor.new.table_id ≡ actor.old.table_id }
    ensures sound { IsSound words.now.table_id.words actor.new.me.0 }
    ensures seen { HasSeenGeneration actor.old.me.0 root result actor.new.me.0 }
    ensures small { result < 2 ^ 36 }
{
    Link::of_word(words.load::<Sees>(actor, 2 * root as usize)).generation
}
