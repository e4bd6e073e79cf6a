//! Branches made from the branch before, of this bitmap and these entries.

ghost use Rattle.std.specs.Prelude.{◌≡◌, ◌<◌, ◌≤◌, length, insert, remove, slice_set};
ghost use Rattle.nodes.specs.Beneath.ctrie_base.specs.Paths.{position_of};
ghost use Rattle.slot_arena.specs.Heaps.{entries_of};
ghost use Rattle.nodes.specs.Builders.{inserted, updated, removed, renewed, contracted};
ghost use Rattle.nodes.specs.Contents.{InsertsPair, UpdatesPair, RemovesPair, KeepsContent};

use crate::entries::{all_of, with_replaced, without};
use crate::levels::position_of;
use slot_arena::{Node, Ref, joined};

/// The branch with an entry more, in the place of its flag.
pub fn inserted(flag: u32, bitmap: u32, entries: &[Ref], entry: Ref) -> Node
    requires room { length entries.now < 32 }
    requires flag { 0 < flag }
    requires place { position_of flag bitmap ≤ length entries.now }
    ensures node { result ≡ inserted flag bitmap entries.now entry }
    ensures all { entries_of result ≡ insert entries.now (position_of flag bitmap) entry }
    ensures content { InsertsPair entries.now entry result }
{
    let position = position_of(flag, bitmap);
    Node::Branch {
        bitmap: bitmap | flag,
        entries: joined(&entries[..position], &[entry], &entries[position..]),
    }
}

/// The branch with another entry at this position.
pub fn updated(bitmap: u32, entries: &[Ref], position: usize, entry: Ref) -> Node
    requires room { length entries.now ≤ 32 }
    requires within { position < length entries.now }
    ensures node { result ≡ updated bitmap entries.now position entry }
    ensures all { entries_of result ≡ slice_set entries.now position entry }
    ensures content { UpdatesPair entries.now position entry result }
{
    Node::Branch {
        bitmap,
        entries: with_replaced(entries, position, entry),
    }
}

/// The branch without the entry of this flag, which stands at this position.
pub fn removed(flag: u32, bitmap: u32, entries: &[Ref], position: usize) -> Node
    requires room { length entries.now ≤ 32 }
    requires within { position < length entries.now }
    ensures node { result ≡ removed flag bitmap entries.now position }
    ensures all { entries_of result ≡ remove entries.now position }
    ensures content { RemovesPair entries.now position result }
{
    Node::Branch {
        bitmap: bitmap ^ flag,
        entries: without(entries, position),
    }
}

/// The branch with these entries in the same places: indirections of a new generation.
pub fn renewed(bitmap: u32, entries: &[Ref]) -> Node
    requires { length entries.now ≤ 32 }
    ensures node { result ≡ renewed bitmap entries.now }
    ensures all { entries_of result ≡ entries.now }
    ensures content { KeepsContent entries.now result }
{
    Node::Branch {
        bitmap,
        entries: all_of(entries),
    }
}

/// The branch with these entries in the same places: singles where tombs' indirections stood.
pub fn compressed(bitmap: u32, entries: &[Ref]) -> Node
    requires { length entries.now ≤ 32 }
    ensures node { result ≡ renewed bitmap entries.now }
    ensures all { entries_of result ≡ entries.now }
    ensures content { KeepsContent entries.now result }
{
    renewed(bitmap, entries)
}

/// The compressed branch; where it may, and one entry is left, a single, the tomb of that.
pub fn contracted(may_entomb: bool, bitmap: u32, entries: &[Ref]) -> Node
    requires { length entries.now ≤ 32 }
    ensures node { result ≡ contracted may_entomb bitmap entries.now }
    ensures all { entries_of result ≡ entries.now }
    ensures content { KeepsContent entries.now result }
{
    match entries {
        [single] if may_entomb => Node::Tomb { single: *single },
        _ => compressed(bitmap, entries),
    }
}
