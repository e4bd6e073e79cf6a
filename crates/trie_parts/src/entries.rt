//! The entries of a node. Those for which there is no room are left out; no machine ever needs more.

ghost use Rattle.std.specs.Prelude.{◌≡◌, ◌++◌, insert, remove, slice_set};
ghost use Rattle.trie_parts.specs.Beneath.slot_arena.specs.Heaps.{entries_from};

use arrayvec::ArrayVec;
use nodes::{Entries, Ref};

/// These references as the entries of a node.
pub(crate) fn entries_from(refs: &[Ref]) -> Entries
    ensures { result ≡ entries_from refs.now }
{
    let mut entries = ArrayVec::new();
    extend(&mut entries, refs);
    entries
}

/// The references of three slices, one after the other, as the entries of a node.
pub(crate) fn entries_from_parts(front: &[Ref], middle: &[Ref], back: &[Ref]) -> Entries
    ensures { result ≡ entries_from (front.now ++ middle.now ++ back.now) }
{
    let mut entries = entries_from(front);
    extend(&mut entries, middle);
    extend(&mut entries, back);
    entries
}

/// Adds references at the end, as many of them as there is room for.
fn extend(entries: &mut Entries, more: &[Ref])
    ensures { entries.new ≡ entries_from (entries.old.items ++ more.now) }
{
    let room = entries.remaining_capacity().min(more.len());
    let _ = entries.try_extend_from_slice(&more[..room]);
}

/// The entries with one more at this position, or at the end where there are fewer.
pub(crate) fn with_inserted(entries: &[Ref], position: usize, one: Ref) -> Entries
    ensures { result ≡ entries_from (insert entries.now position one) }
{
    let position = position.min(entries.len());
    entries_from_parts(&entries[..position], &[one], &entries[position..])
}

/// The entries with another one at this position, if one stands there.
pub(crate) fn with_replaced(entries: &[Ref], position: usize, one: Ref) -> Entries
    ensures { result ≡ entries_from (slice_set entries.now position one) }
{
    if position >= entries.len() {
        return entries_from(entries);
    }
    entries_from_parts(&entries[..position], &[one], &entries[position + 1..])
}

/// The entries without the one at this position, if one stands there.
pub(crate) fn without(entries: &[Ref], position: usize) -> Entries
    ensures { result ≡ entries_from (remove entries.now position) }
{
    if position >= entries.len() {
        return entries_from(entries);
    }
    entries_from_parts(&entries[..position], &[], &entries[position + 1..])
}
