//! Slots of a seat's own: they are taken, written, and become nodes.

ghost use Rattle.std.specs.Prelude.{◌≡◌, ◌<◌};
ghost use Rattle.lock_free.specs.Owing.{HoldsRaised};
ghost use Rattle.lock_free.specs.Loading.{IsSound};
ghost use Rattle.lock_free.specs.Places.{part_of, slots_in, taken_word, words_in, AreSizes};
ghost use Rattle.lock_free.specs.Storing.{drafted, HasMade, HasMadeRoot, HasTaken, IsAtMake, IsAtMakeRoot, IsOwnWord};

use crate::loads::{Actor, Words};
use crate::rules::{Drafts, Makes, MakesRoot, Takes};
use crate::sizes::Sizes;

/// How many generations were given out stands in this word.
pub(crate) const GENERATION: usize = 16;

/// What came of trying to take a slot.
#[derive(Clone, Copy, Drop)]
pub enum Tried {
    /// This slot is free for the seat alone.
    Slot(u32),
    /// All slots of the class were handed out.
    Full,
    /// Another seat took one at this time.
    Lost,
}

/// How many slots of a class were handed out stands in this word.
pub(crate) fn taken_word_of(class: u32) -> usize
    requires { class < 3 }
    ensures { result ≡ taken_word class }
{
    32 + 16 * class as usize
}

/// Tries to take a slot of this class, which no seat had before.
#[inline(never)]
pub fn try_take(words: &Words, actor: &mut Actor, sizes: &Sizes, class: u32) -> Tried
    requires table { actor.old.table_id ≡ words.now.table_id }
    requires sound { IsSound words.now.table_id.words actor.old.me.0 }
    requires sizes { actor.old.me.0.sizes ≡ sizes.now }
    requires class { class < 3 }
    ensures table { actor.new.table_id ≡ actor.old.table_id }
    ensures sound { IsSound words.now.table_id.words actor.new.me.0 }
    ensures taken { HasTaken actor.old.me.0 class result actor.new.me.0 }
{
    let word = taken_word_of(class);
    let count = words.peek(word);
    if count >= u64::from(sizes.slots(class)) {
        return Tried::Full;
    }
    if words.compare_exchange::<Takes>(actor, word, count, count + 1) != count {
        return Tried::Lost;
    }
    Tried::Slot(sizes.slot(class, count as u32))
}

/// Writes a word of a slot that is free for the seat.
#[inline(always)]
pub fn draft(words: &Words, actor: &mut Actor, word: usize, value: u64)
    requires table { actor.old.table_id ≡ words.now.table_id }
    requires sound { IsSound words.now.table_id.words actor.old.me.0 }
    requires own { IsOwnWord actor.old.me.0 word }
    ensures table { actor.new.table_id ≡ actor.old.table_id }
    ensures sound { IsSound words.now.table_id.words actor.new.me.0 }
    ensures drafted { actor.new.me ≡ (drafted actor.old.me.0 word value, actor.old.me.1) }
{
    words.store::<Drafts>(actor, word, value);
}

/// Makes the node that the seat has written in the last of its free slots, by writing the word of it that is left.
#[inline(always)]
pub fn make(words: &Words, actor: &mut Actor, word: usize, value: u64)
    requires table { actor.old.table_id ≡ words.now.table_id }
    requires sound { IsSound words.now.table_id.words actor.old.me.0 }
    requires making { IsAtMake actor.old.me.0 word value }
    requires raised { HoldsRaised actor.old.me.0 }
    ensures table { actor.new.table_id ≡ actor.old.table_id }
    ensures sound { IsSound words.now.table_id.words actor.new.me.0 }
    ensures made { HasMade actor.old.me.0 word value actor.new.me.0 }
{
    words.store::<Makes>(actor, word, value);
}

/// Makes the root that the seat has written in the last of its free slots with this generation, if that is the next one to be given
/// out. Returns whether it was.
pub fn make_root(words: &Words, actor: &mut Actor, generation: u64) -> bool
    requires table { actor.old.table_id ≡ words.now.table_id }
    requires sound { IsSound words.now.table_id.words actor.old.me.0 }
    requires making { IsAtMakeRoot actor.old.me.0 generation }
    requires raised { HoldsRaised actor.old.me.0 }
    ensures table { actor.new.table_id ≡ actor.old.table_id }
    ensures sound { IsSound words.now.table_id.words actor.new.me.0 }
    ensures made { HasMadeRoot actor.old.me.0 generation result actor.new.me.0 }
{
    words.compare_exchange::<MakesRoot>(actor, GENERATION, generation, generation + 1) == generation
}
