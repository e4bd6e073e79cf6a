//! Lists made from the list before, of these singles.

ghost use Rattle.std.specs.Prelude.{◌≡◌, ◌<◌, ◌≤◌, ◌++◌, ◌∷◌, [], length, remove, slice_set};
ghost use Rattle.slot_arena.specs.Heaps.{entries_of};
ghost use Rattle.nodes.specs.Builders.{list_inserted, list_updated, list_removed};
ghost use Rattle.nodes.specs.Contents.{InsertsPair, UpdatesPair, RemovesPair};

use crate::entries::{with_replaced, without};
use slot_arena::{Node, Ref, joined};

/// The list with a single more, at its end.
pub fn list_inserted(singles: &[Ref], single: Ref) -> Node
    requires { length singles.now < 32 }
    ensures node { result ≡ list_inserted singles.now single }
    ensures all { entries_of result ≡ singles.now ++ single ∷ [] }
    ensures content { InsertsPair singles.now single result }
{
    Node::List {
        singles: joined(singles, &[single], &[]),
    }
}

/// The list with another single at this position.
pub fn list_updated(singles: &[Ref], position: usize, single: Ref) -> Node
    requires room { length singles.now ≤ 32 }
    requires within { position < length singles.now }
    ensures node { result ≡ list_updated singles.now position single }
    ensures all { entries_of result ≡ slice_set singles.now position single }
    ensures content { UpdatesPair singles.now position single result }
{
    Node::List {
        singles: with_replaced(singles, position, single),
    }
}

/// The list without the single at this position.
pub fn list_removed(singles: &[Ref], position: usize) -> Node
    requires room { length singles.now ≤ 32 }
    requires within { position < length singles.now }
    ensures node { result ≡ list_removed singles.now position }
    ensures all { entries_of result ≡ remove singles.now position }
    ensures content { RemovesPair singles.now position result }
{
    Node::List {
        singles: without(singles, position),
    }
}
