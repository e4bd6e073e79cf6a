//! The entries of a main node in plain memory.

ghost use Rattle.std.specs.Prelude.{◌≡◌, ◌≤◌, [], length};
ghost use Rattle.lock_free.specs.Halves.{entries_of_halves, halves_of, AreHalves, IsHalf};
ghost use Rattle.lock_free.specs.Loading.{IsSound};
ghost use Rattle.lock_free.specs.SeenEntries.{unowned, AreFit, HasEntries, HasSeenEntries};
ghost use Rattle.trie_words.specs.Codes.{entry_of};

use crate::loads::{Actor, Words, see_pair};
use arrayvec::ArrayVec;
use trie_words::Entry;

/// An entry, which is its main node's own only where that is its indirection's.
#[inline(always)]
fn entry_in(half: u32, is_own: bool) -> Entry
    ensures { unowned result ≡ unowned (entry_of half) }
{
    let entry = Entry::of_half(half);
    Entry {
        own: entry.own && is_own,
        ..entry
    }
}

/// The so many entries of the branch or list in this slot, which is its indirection's own or isn't.
pub fn see_entries(
    words: &Words,
    actor: &mut Actor,
    main: u32,
    count: usize,
    is_own: bool,
) -> ArrayVec<Entry, 32>
    requires table { actor.old.table_id ≡ words.now.table_id }
    requires sound { IsSound words.now.table_id.words actor.old.me.0 }
    requires held { HasEntries actor.old.me.0 main count }
    ensures table { actor.new.table_id ≡ actor.old.table_id }
    ensures sound { IsSound words.now.table_id.words actor.new.me.0 }
    ensures seen { HasSeenEntries actor.old.me.0 main count result.items actor.new.me.0 }
{
    let mut entries = ArrayVec::new();
    for n in 0..count.div_ceil(2) {
        let pair = see_pair(words, actor, main, 2 * n as u32);
        entries.push(entry_in(pair.low, is_own));
        if 2 * n + 1 < count {
            entries.push(entry_in(pair.high, is_own));
        }
    }
    entries
}

/// The half of a word for an entry that isn't its main node's own.
#[inline(always)]
fn unowned_half(half: u32) -> u32
    ensures small { IsHalf result }
    ensures same { unowned (entry_of result) ≡ unowned (entry_of half) }
{
    half % (1 << 27) + (1 << 28) * (half / (1 << 28) % 2)
}

/// The entries of a main node that isn't its indirection's own, as they stand in halves of words, into an empty list: nor are they.
#[cold]
#[inline(never)]
fn see_unowned_halves(
    words: &Words,
    actor: &mut Actor,
    main: u32,
    count: usize,
    halves: &mut ArrayVec<u32, 32>,
)
    requires table { actor.old.table_id ≡ words.now.table_id }
    requires sound { IsSound words.now.table_id.words actor.old.me.0 }
    requires held { HasEntries actor.old.me.0 main count }
    requires none { halves.old.items ≡ [] }
    ensures table { actor.new.table_id ≡ actor.old.table_id }
    ensures sound { IsSound words.now.table_id.words actor.new.me.0 }
    ensures halves { AreHalves halves.new.items }
    ensures seen { HasSeenEntries actor.old.me.0 main count (entries_of_halves halves.new.items) actor.new.me.0 }
{
    for n in 0..count / 2 {
        let pair = see_pair(words, actor, main, 2 * n as u32);
        halves.push(unowned_half(pair.low));
        halves.push(unowned_half(pair.high));
    }
    if count % 2 == 1 {
        let pair = see_pair(words, actor, main, 2 * (count / 2) as u32);
        halves.push(unowned_half(pair.low));
    }
}

/// The same of one that is, whose entries go over word by word.
#[inline(always)]
fn see_own_halves(
    words: &Words,
    actor: &mut Actor,
    main: u32,
    count: usize,
    halves: &mut ArrayVec<u32, 32>,
)
    requires table { actor.old.table_id ≡ words.now.table_id }
    requires sound { IsSound words.now.table_id.words actor.old.me.0 }
    requires held { HasEntries actor.old.me.0 main count }
    requires none { halves.old.items ≡ [] }
    ensures table { actor.new.table_id ≡ actor.old.table_id }
    ensures sound { IsSound words.now.table_id.words actor.new.me.0 }
    ensures halves { AreHalves halves.new.items }
    ensures seen { HasSeenEntries actor.old.me.0 main count (entries_of_halves halves.new.items) actor.new.me.0 }
{
    for n in 0..count / 2 {
        let pair = see_pair(words, actor, main, 2 * n as u32);
        halves.push(pair.low);
        halves.push(pair.high);
    }
    if count % 2 == 1 {
        let pair = see_pair(words, actor, main, 2 * (count / 2) as u32);
        halves.push(pair.low);
    }
}

/// The same, whichever it is.
#[inline(always)]
pub fn see_halves(
    words: &Words,
    actor: &mut Actor,
    main: u32,
    count: usize,
    is_own: bool,
    halves: &mut ArrayVec<u32, 32>,
)
    requires table { actor.old.table_id ≡ words.now.table_id }
    requires sound { IsSound words.now.table_id.words actor.old.me.0 }
    requires held { HasEntries actor.old.me.0 main count }
    requires none { halves.old.items ≡ [] }
    ensures table { actor.new.table_id ≡ actor.old.table_id }
    ensures sound { IsSound words.now.table_id.words actor.new.me.0 }
    ensures halves { AreHalves halves.new.items }
    ensures seen { HasSeenEntries actor.old.me.0 main count (entries_of_halves halves.new.items) actor.new.me.0 }
{
    if is_own {
        see_own_halves(words, actor, main, count, halves);
    } else {
        see_unowned_halves(words, actor, main, count, halves);
    }
}

/// The halves of these entries.
pub fn halves_of(entries: &[Entry]) -> ArrayVec<u32, 32>
    requires few { length entries.now ≤ 32 }
    requires fit { AreFit entries.now }
    ensures { result.items ≡ halves_of entries.now }
{
    let mut halves = ArrayVec::new();
    for n in 0..entries.len() {
        halves.push(entries[n].to_half());
    }
    halves
}
