//! Loads.

ghost use Rattle.std.specs.Prelude.{◌≡◌};
ghost use Rattle.trie_words.specs.Codes.{header_of};
ghost use Rattle.machine_model.specs.declared.actions.Action.TheVariants as act;
ghost use Rattle.lock_free.specs.Entries.{HasSeenEntry};
ghost use Rattle.lock_free.specs.Loading.{IsSound, IsAtSlot, HoldsSlot, HasPosition, HasReadHeader, HasReadLink, HasLookedAtMain, HasLookedAtLink, HasLookedAtKey, HasLookedAtValue, HasSeenMain};
ghost use Rattle.lock_free.specs.Loading.{HasSeenIndirection, HasSeenKey, HasSeenPair};

use crate::rules::{Goes, Rule, Sees, View};
use crate::sizes::Sizes;
use atomic_table::{Seat, Shared};
use history::Call;
use trie_words::{Entry, Header, Link, Pair};

/// The words that threads share.
pub type Words = Shared<Call, View, Sizes, Rule>;

/// A thread's seat at them: an actor.
pub type Actor = Seat<Call, View>;

// ---- steps of the seat's operation

/// Reads the word of the indirection in this slot.
#[inline(always)]
pub fn read_link(words: &Words, actor: &mut Actor, indirection: u32) -> Link
    requires table { actor.old.table_id ≡ words.now.table_id }
    requires sound { IsSound words.now.table_id.words actor.old.me.0 }
    requires reading { IsAtSlot actor.old.me.0 act.ReadMain indirection }
    ensures table { actor.new.table_id ≡ actor.old.table_id }
    ensures sound { IsSound words.now.table_id.words actor.new.me.0 }
    ensures read { HasReadLink actor.old.me.0 result actor.new.me.0 }
{
    Link::of_word(words.load::<Goes>(actor, 2 * indirection as usize))
}

/// Reads the first word of the main node in this slot.
#[inline(always)]
pub fn read_header_word(words: &Words, actor: &mut Actor, main: u32) -> u64
    requires table { actor.old.table_id ≡ words.now.table_id }
    requires sound { IsSound words.now.table_id.words actor.old.me.0 }
    requires reading { IsAtSlot actor.old.me.0 act.ReadPrev main }
    ensures table { actor.new.table_id ≡ actor.old.table_id }
    ensures sound { IsSound words.now.table_id.words actor.new.me.0 }
    ensures read { HasReadHeader actor.old.me.0 (header_of result) actor.new.me.0 }
{
    words.load::<Goes>(actor, 2 * main as usize)
}

/// Reads the header of the main node in this slot.
#[inline(always)]
pub fn read_header(words: &Words, actor: &mut Actor, main: u32) -> Header
    requires table { actor.old.table_id ≡ words.now.table_id }
    requires sound { IsSound words.now.table_id.words actor.old.me.0 }
    requires reading { IsAtSlot actor.old.me.0 act.ReadPrev main }
    ensures table { actor.new.table_id ≡ actor.old.table_id }
    ensures sound { IsSound words.now.table_id.words actor.new.me.0 }
    ensures read { HasReadHeader actor.old.me.0 result actor.new.me.0 }
{
    Header::of_word(read_header_word(words, actor, main))
}

/// Looks at the main node in this slot.
#[inline(always)]
pub fn look_at_main(words: &Words, actor: &mut Actor, main: u32) -> Header
    requires table { actor.old.table_id ≡ words.now.table_id }
    requires sound { IsSound words.now.table_id.words actor.old.me.0 }
    requires looking { IsAtSlot actor.old.me.0 act.Look main }
    ensures table { actor.new.table_id ≡ actor.old.table_id }
    ensures sound { IsSound words.now.table_id.words actor.new.me.0 }
    ensures read { HasLookedAtMain actor.old.me.0 result actor.new.me.0 }
{
    Header::of_word(words.load::<Goes>(actor, 2 * main as usize))
}

/// Looks at the indirection in this slot.
#[inline(always)]
pub fn look_at_link(words: &Words, actor: &mut Actor, indirection: u32) -> Link
    requires table { actor.old.table_id ≡ words.now.table_id }
    requires sound { IsSound words.now.table_id.words actor.old.me.0 }
    requires looking { IsAtSlot actor.old.me.0 act.Look indirection }
    ensures table { actor.new.table_id ≡ actor.old.table_id }
    ensures sound { IsSound words.now.table_id.words actor.new.me.0 }
    ensures read { HasLookedAtLink actor.old.me.0 result actor.new.me.0 }
{
    Link::of_word(words.load::<Goes>(actor, 2 * indirection as usize))
}

/// Looks at the single in this slot, for its key.
#[inline(always)]
pub fn look_at_key(words: &Words, actor: &mut Actor, single: u32) -> u64
    requires table { actor.old.table_id ≡ words.now.table_id }
    requires sound { IsSound words.now.table_id.words actor.old.me.0 }
    requires looking { IsAtSlot actor.old.me.0 act.Look single }
    ensures table { actor.new.table_id ≡ actor.old.table_id }
    ensures sound { IsSound words.now.table_id.words actor.new.me.0 }
    ensures read { HasLookedAtKey actor.old.me.0 result actor.new.me.0 }
{
    words.load::<Goes>(actor, 2 * single as usize)
}

/// Looks at the single in this slot, for its value.
#[inline(always)]
pub fn look_at_value(words: &Words, actor: &mut Actor, single: u32) -> u64
    requires table { actor.old.table_id ≡ words.now.table_id }
    requires sound { IsSound words.now.table_id.words actor.old.me.0 }
    requires looking { IsAtSlot actor.old.me.0 act.Look single }
    ensures table { actor.new.table_id ≡ actor.old.table_id }
    ensures sound { IsSound words.now.table_id.words actor.new.me.0 }
    ensures read { HasLookedAtValue actor.old.me.0 result actor.new.me.0 }
{
    words.load::<Goes>(actor, 2 * single as usize + 1)
}

// ---- no steps

/// The header of a main node that the seat's operation holds.
#[inline(always)]
pub fn see_main(words: &Words, actor: &mut Actor, main: u32) -> Header
    requires table { actor.old.table_id ≡ words.now.table_id }
    requires sound { IsSound words.now.table_id.words actor.old.me.0 }
    requires held { HoldsSlot actor.old.me.0 main }
    ensures table { actor.new.table_id ≡ actor.old.table_id }
    ensures sound { IsSound words.now.table_id.words actor.new.me.0 }
    ensures seen { HasSeenMain actor.old.me.0 main result actor.new.me.0 }
{
    Header::of_word(words.load::<Sees>(actor, 2 * main as usize))
}

/// The word of an indirection that the seat's operation holds.
pub fn see_indirection(words: &Words, actor: &mut Actor, indirection: u32) -> Link
    requires table { actor.old.table_id ≡ words.now.table_id }
    requires sound { IsSound words.now.table_id.words actor.old.me.0 }
    requires held { HoldsSlot actor.old.me.0 indirection }
    ensures table { actor.new.table_id ≡ actor.old.table_id }
    ensures sound { IsSound words.now.table_id.words actor.new.me.0 }
    ensures seen { HasSeenIndirection actor.old.me.0 indirection result actor.new.me.0 }
{
    Link::of_word(words.load::<Sees>(actor, 2 * indirection as usize))
}

/// The key of a single that the seat's operation holds.
#[inline(always)]
pub fn see_key(words: &Words, actor: &mut Actor, single: u32) -> u64
    requires table { actor.old.table_id ≡ words.now.table_id }
    requires sound { IsSound words.now.table_id.words actor.old.me.0 }
    requires held { HoldsSlot actor.old.me.0 single }
    ensures table { actor.new.table_id ≡ actor.old.table_id }
    ensures sound { IsSound words.now.table_id.words actor.new.me.0 }
    ensures seen { HasSeenKey actor.old.me.0 single result actor.new.me.0 }
{
    words.load::<Sees>(actor, 2 * single as usize)
}

/// Two entries of a branch or list that the seat's operation holds: that of this position, and the one beside it in its word.
#[inline(always)]
pub fn see_pair(words: &Words, actor: &mut Actor, main: u32, position: u32) -> Pair
    requires table { actor.old.table_id ≡ words.now.table_id }
    requires sound { IsSound words.now.table_id.words actor.old.me.0 }
    requires held { HasPosition actor.old.me.0 main position }
    ensures table { actor.new.table_id ≡ actor.old.table_id }
    ensures sound { IsSound words.now.table_id.words actor.new.me.0 }
    ensures seen { HasSeenPair actor.old.me.0 main position result actor.new.me.0 }
{
    Pair::of_word(words.load::<Sees>(actor, 2 * main as usize + 1 + position as usize / 2))
}

/// The entry at this position of the branch or list in this slot, which the seat's operation holds.
#[inline(always)]
pub fn see_entry(words: &Words, actor: &mut Actor, main: u32, position: u32) -> Entry
    requires table { actor.old.table_id ≡ words.now.table_id }
    requires sound { IsSound words.now.table_id.words actor.old.me.0 }
    requires held { HasPosition actor.old.me.0 main position }
    ensures table { actor.new.table_id ≡ actor.old.table_id }
    ensures sound { IsSound words.now.table_id.words actor.new.me.0 }
    ensures seen { HasSeenEntry actor.old.me.0 main position result actor.new.me.0 }
{
    let pair = see_pair(words, actor, main, position);
    if position % 2 == 0 {
        Entry::of_half(pair.low)
    } else {
        Entry::of_half(pair.high)
    }
}
