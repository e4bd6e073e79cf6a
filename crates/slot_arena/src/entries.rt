//! The entries of a branch, and changes of them.

ghost use Rattle.std.specs.Prelude.{◌≡◌, ℕ, ◌+◌, ◌≤◌, ◌++◌, [], length, remove};
ghost use Rattle.slot_arena.specs.Tallies.{naming};
ghost use Rattle.slot_arena.specs.Heaps.{entries_from};
ghost use Rattle.slot_arena.specs.Entries.{Fits, coming, entries_after};

use crate::refs::Ref;
use arrayvec::ArrayVec;
use std::slice::from_ref;

/// How many entries a node has room for.
pub const MOST_ENTRIES: usize = 32;

/// The entries of a branch, or the singles of a list.
pub type Entries = ArrayVec<Ref, MOST_ENTRIES>;

/// A change of one entry of a branch.
#[derive(Clone, Copy, Debug)]
pub enum EntryChange {
    /// Another entry at this position.
    Set { position: usize, entry: Ref },
    /// An entry more at this position.
    Insert { position: usize, entry: Ref },
    /// The entry at this position goes.
    Remove { position: usize },
}

impl EntryChange {
    /// The entry that comes, if one does.
    #[inline(always)]
    pub(crate) fn coming(&self) -> &[Ref]
        ensures { result.now ≡ coming self.now }
    {
        match self {
            EntryChange::Set { entry, .. } | EntryChange::Insert { entry, .. } => from_ref(entry),
            EntryChange::Remove { .. } => &[],
        }
    }

    /// The position of the entry that doesn't stay, past the others where all do.
    #[inline(always)]
    pub(crate) fn going(&self, entries: &[Ref]) -> usize
        requires { Fits self.now entries.now }
        ensures within { result ≤ length entries.now }
        ensures counted { (slot : ℕ) → naming slot (remove entries.now result) + naming slot (coming self.now) ≡ naming slot (entries_after self.now entries.now) }
        ensures few { length (remove entries.now result) + length (coming self.now) ≡ length (entries_after self.now entries.now) }
    {
        match *self {
            EntryChange::Set { position, .. } => position,
            EntryChange::Remove { position } => position,
            EntryChange::Insert { .. } => entries.len(),
        }
    }

    /// The entries that stay, in front of the position and after it.
    #[inline(always)]
    pub(crate) fn staying<'a>(&self, entries: &'a [Ref]) -> (&'a [Ref], &'a [Ref])
        requires { Fits self.now entries.now }
        ensures { result.0.now ++ coming self.now ++ result.1.now ≡ entries_after self.now entries.now }
    {
        match *self {
            EntryChange::Set { position, .. } | EntryChange::Remove { position } => {
                (&entries[..position], &entries[position + 1..])
            }
            EntryChange::Insert { position, .. } => (&entries[..position], &entries[position..]),
        }
    }
}

/// Puts what a change makes of these references in the place of entries.
#[inline(always)]
pub(crate) fn put_changed(entries: &mut Entries, refs: &[Ref], change: &EntryChange)
    requires fits { Fits change.now refs.now }
    requires few { length refs.now ≤ 32 }
    ensures { entries.new ≡ entries_from (entries_after change.now refs.now) }
{
    let (front, back) = change.staying(refs);
    entries.clear();
    append(entries, front, change.coming(), back);
}

/// The references of three slices, one after the other, as entries.
#[inline(always)]
pub fn joined(front: &[Ref], middle: &[Ref], back: &[Ref]) -> Entries
    requires { length front.now + length middle.now + length back.now ≤ 32 }
    ensures entries { result ≡ entries_from (front.now ++ middle.now ++ back.now) }
    ensures all { result.items ≡ front.now ++ middle.now ++ back.now }
{
    let mut entries = ArrayVec::new();
    append(&mut entries, front, middle, back);
    entries
}

/// Puts three slices, one after the other, into entries that were none.
#[inline(always)]
fn append(entries: &mut Entries, front: &[Ref], middle: &[Ref], back: &[Ref])
    requires none { entries.old.items ≡ [] }
    requires room { length front.now + length middle.now + length back.now ≤ 32 }
    ensures { entries.new.items ≡ front.now ++ middle.now ++ back.now }
{
    let _ = entries.try_extend_from_slice(front);
    let _ = entries.try_extend_from_slice(middle);
    let _ = entries.try_extend_from_slice(back);
}
