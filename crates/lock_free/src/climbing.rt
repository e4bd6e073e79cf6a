//! CLIMB: after a removal that left a tomb, that gives way to its single in the parent, and so on upwards.

ghost use Rattle.std.specs.Prelude.{◌≡◌, ◌<◌, ◌==◌, ◌&&◌, length, slice_set};
ghost use Rattle.lock_free.specs.Climbs.{HasCompared, HasSeenIt};
ghost use Rattle.lock_free.specs.Climbs.{IsAtTombed};
ghost use Rattle.lock_free.specs.Loading.{HasPosition, HoldsSlot, IsSound};
ghost use Rattle.lock_free.specs.Nodes.{half_in};
ghost use Rattle.trie_words.specs.Codes.{entry_of};

use crate::loads::{Actor, Words};
use crate::rules::Sees;
use arrayvec::ArrayVec;
use nodes::{has_flag, position_of};
use trie_words::{Entry, Pair};

/// What a climb over one indirection comes to.
#[derive(Clone, Copy, Drop)]
pub enum Climbed {
    /// The parent is tombed, with this single: so the climb goes on there.
    Higher(Entry),
    /// Another main node stood in the parent: the climb tries again there.
    Again,
    /// The removal is answered.
    Ends,
    /// No slot is had, or a reference couldn't be counted: the climb is given up, and the removal answered.
    Full,
}

/// The entry of this position in the word of these halves.
fn entry_in(pair: Pair, position: u32) -> Entry
    ensures { result ≡ entry_of (half_in pair position) }
{
    if position % 2 == 0 {
        Entry::of_half(pair.low)
    } else {
        Entry::of_half(pair.high)
    }
}

/// Whether the entry at this position of the branch in the first slot is the indirection in the other one.
fn leads_to(words: &Words, actor: &mut Actor, main: u32, position: u32, indirection: u32) -> bool
    requires table { actor.old.table_id ≡ words.now.table_id }
    requires sound { IsSound words.now.table_id.words actor.old.me.0 }
    requires held { HasPosition actor.old.me.0 main position }
    requires other { HoldsSlot actor.old.me.0 indirection }
    ensures table { actor.new.table_id ≡ actor.old.table_id }
    ensures sound { IsSound words.now.table_id.words actor.new.me.0 }
    ensures compared { HasCompared actor.old.me.0 main position indirection result actor.new.me.0 }
{
    let found = words.load::<Sees>(actor, 2 * main as usize + 1 + position as usize / 2);
    entry_in(Pair::of_word(found), position).slot == indirection
}

/// Whether the entry of this flag, in the branch with this bitmap in the first slot, is the indirection in the other one.
pub fn holds_it(
    words: &Words,
    actor: &mut Actor,
    main: u32,
    bitmap: u32,
    flag: u32,
    tombed: u32,
) -> bool
    requires table { actor.old.table_id ≡ words.now.table_id }
    requires sound { IsSound words.now.table_id.words actor.old.me.0 }
    requires some { 0 < flag }
    requires at { IsAtTombed actor.old.me.0 main bitmap flag tombed }
    ensures table { actor.new.table_id ≡ actor.old.table_id }
    ensures sound { IsSound words.now.table_id.words actor.new.me.0 }
    ensures seen { HasSeenIt actor.old.me.0 bitmap result actor.new.me.0 }
{
    if !has_flag(bitmap, flag) {
        return false;
    }
    leads_to(words, actor, main, position_of(flag, bitmap) as u32, tombed)
}

/// Puts this entry at that place.
pub fn put(entries: &mut ArrayVec<Entry, 32>, place: usize, entry: Entry)
    requires { place < length entries.old.items }
    ensures { entries.new.items ≡ slice_set entries.old.items place entry }
{
    entries[place] = entry;
}

/// Whether a tomb is made of these entries.
pub fn entombs(may_entomb: bool, entries: &ArrayVec<Entry, 32>) -> bool
    ensures { result ≡ (may_entomb && (length entries.now.items == 1)) }
{
    may_entomb && entries.len() == 1
}
