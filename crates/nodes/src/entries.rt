//! The entries of a node.

ghost use Rattle.std.specs.Prelude.{◌≡◌, ◌<◌, ◌≤◌, ◌↔◌, IsTrue, length, remove, slice_set};
ghost use Rattle.slot_arena.specs.Heaps.{entries_from};

use slot_arena::{Entries, MOST_ENTRIES, Ref, joined};

/// Whether a node of these entries has room for one more.
pub fn has_room(entries: &[Ref]) -> bool
    ensures { IsTrue result ↔ (length entries.now < MOST_ENTRIES) }
{
    entries.len() < MOST_ENTRIES
}

/// These references as entries.
pub(crate) fn all_of(refs: &[Ref]) -> Entries
    requires { length refs.now ≤ 32 }
    ensures entries { result ≡ entries_from refs.now }
    ensures all { result.items ≡ refs.now }
{
    joined(refs, &[], &[])
}

/// The entries with another one at this position.
pub(crate) fn with_replaced(entries: &[Ref], position: usize, one: Ref) -> Entries
    requires room { length entries.now ≤ 32 }
    requires within { position < length entries.now }
    ensures entries { result ≡ entries_from (slice_set entries.now position one) }
    ensures all { result.items ≡ slice_set entries.now position one }
{
    joined(&entries[..position], &[one], &entries[position + 1..])
}

/// The entries without the one at this position.
pub(crate) fn without(entries: &[Ref], position: usize) -> Entries
    requires room { length entries.now ≤ 32 }
    requires within { position < length entries.now }
    ensures entries { result ≡ entries_from (remove entries.now position) }
    ensures all { result.items ≡ remove entries.now position }
{
    joined(&entries[..position], &[], &entries[position + 1..])
}
