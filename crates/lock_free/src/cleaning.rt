//! CLEAN: below an indirection tombs give way to their singles.

ghost use Rattle.std.specs.Prelude.{◌≡◌, ◌<◌, ◌≤◌, ◌++◌, ◌∷◌, [], length};
ghost use Rattle.lock_free.specs.Loading.{IsSound};
ghost use Rattle.lock_free.specs.SeenEntries.{unowned};
ghost use Rattle.lock_free.specs.Repairing.{HasLookedOver, IsAtCleaned, singles_with};

use crate::loads::{Actor, Words, look_at_key, look_at_link};
use arrayvec::ArrayVec;
use trie_words::{Entry, Link};

/// What an entry of a branch that is cleaned gives way to.
#[derive(Clone, Copy, Drop)]
pub struct Cleaned {
    /// The entry that comes to its place.
    pub entry: Entry,
    /// It was a tomb's single's.
    pub is_changed: bool,
}

/// What the entries of a branch give way to.
#[derive(Drop)]
pub struct CleanedEntries {
    /// The entries that come to their places, in order.
    pub entries: ArrayVec<Entry, 32>,
    /// Those of them that were tombs' singles', in order.
    pub singles: ArrayVec<Entry, 32>,
}

impl CleanedEntries {
    /// Of no entry yet.
    pub fn new() -> CleanedEntries
        ensures entries { result.entries.items ≡ [] }
        ensures singles { result.singles.items ≡ [] }
    {
        CleanedEntries {
            entries: ArrayVec::new(),
            singles: ArrayVec::new(),
        }
    }

    /// One entry more gives way to this.
    pub fn push(&mut self, next: Cleaned)
        requires room { length self.old.entries.items < 32 }
        requires fewer { length self.old.singles.items ≤ length self.old.entries.items }
        ensures entries { self.new.entries.items ≡ self.old.entries.items ++ next.entry ∷ [] }
        ensures singles { self.new.singles.items ≡ singles_with self.old.singles.items next }
    {
        self.entries.push(next.entry);
        if next.is_changed {
            self.singles.push(next.entry);
        }
    }
}

/// Looks at this entry, which is next: a single is kept, an indirection is read.
pub fn look_over(words: &Words, actor: &mut Actor, entry: Entry)
    requires table { actor.old.table_id ≡ words.now.table_id }
    requires sound { IsSound words.now.table_id.words actor.old.me.0 }
    requires at { IsAtCleaned actor.old.me.0 entry }
    ensures table { actor.new.table_id ≡ actor.old.table_id }
    ensures sound { IsSound words.now.table_id.words actor.new.me.0 }
    ensures looked { HasLookedOver actor.old.me.0 entry.is_single actor.new.me.0 }
{
    if entry.is_single {
        look_at_key(words, actor, entry.slot);
    } else {
        look_at_link(words, actor, entry.slot);
    }
}

/// This single of the main node to which the link leads, as an entry of another one: it is that one's own only where it is this one's,
/// which is its indirection's, and this is of the generation in which the operation began its try.
pub fn single_in(link: Link, single: Entry, start: u64) -> Entry
    ensures { unowned result ≡ unowned single }
{
    let is_own = link.main.own && link.generation == start;
    Entry {
        own: single.own && is_own,
        ..single
    }
}
