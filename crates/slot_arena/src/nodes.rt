//! What a slot holds.

ghost use Rattle.std.specs.Prelude.{◌≡◌, ◌≤◌, length};
ghost use Rattle.slot_arena.specs.Heaps.{refs_of_node, refs_of_prev};
ghost use Rattle.slot_arena.specs.Views.{viewed};

use crate::refs::Ref;
use arrayvec::ArrayVec;
use std::slice::from_ref;

/// What a slot holds. All but the main word of an indirection stays as it was made.
#[derive(Debug, Drop)]
pub enum Node {
    /// A place of the trie whose main node may be replaced. The generation stays.
    Indirection {
        generation: u64,
        main: Ref,
    },
    /// A main node: an entry, an indirection or a single, for each one of the bitmap, by rising index.
    Branch {
        bitmap: u32,
        entries: ArrayVec<Ref, 32>,
    },
    /// A key and its value.
    Single {
        key: u64,
        value: u64,
    },
    /// A main node in whose place the single is to stand.
    Tomb {
        single: Ref,
    },
    /// A main node: the singles of keys with one hash.
    List {
        singles: ArrayVec<Ref, 32>,
    },
}

/// A node that stands in a slot, as it is lent.
#[derive(Clone, Copy, Debug)]
pub enum NodeRef<'a> {
    /// A place of the trie whose main node may be replaced.
    Indirection {
        generation: u64,
        main: &'a Ref,
    },
    /// A main node: an entry, an indirection or a single, for each one of the bitmap, by rising index.
    Branch {
        bitmap: u32,
        entries: &'a ArrayVec<Ref, 32>,
    },
    /// A key and its value.
    Single {
        key: u64,
        value: u64,
    },
    /// A main node in whose place the single is to stand.
    Tomb {
        single: &'a Ref,
    },
    /// A main node: the singles of keys with one hash.
    List {
        singles: &'a ArrayVec<Ref, 32>,
    },
}

/// The `prev` word of a main node.
#[derive(Clone, Copy, Debug, PartialEq, Eq)]
pub enum Prev {
    /// The node is decided.
    None,
    /// The node was swapped in over this one, and isn't decided.
    Pending(Ref),
    /// The node was refused: this one is to stand in its place.
    Failed(Ref),
}

/// A slot in use.
#[derive(Debug, Drop)]
pub struct Slot {
    /// The birth number that was drawn when it was taken, from 1.
    pub birth: u64,
    pub node: Node,
    /// The `prev` word of a main node.
    pub prev: Prev,
}

/// The references that stand in a node.
pub(crate) fn refs_of(node: &Node) -> &[Ref]
    ensures refs { result.now ≡ refs_of_node node.now }
    ensures few { length result.now ≤ 32 }
{
    match node {
        Node::Indirection { main, .. } => from_ref(main),
        Node::Branch { entries, .. } => entries.as_slice(),
        Node::Single { .. } => &[],
        Node::Tomb { single } => from_ref(single),
        Node::List { singles } => singles.as_slice(),
    }
}

/// The references that stand in a node of a slot.
pub(crate) fn refs_in(node: NodeRef<'_>) -> &[Ref]
    ensures refs { result.now ≡ refs_of_node (viewed node.entry) }
    ensures few { length result.now ≤ 32 }
{
    match node {
        NodeRef::Indirection { main, .. } => from_ref(main),
        NodeRef::Branch { entries, .. } => entries.as_slice(),
        NodeRef::Single { .. } => &[],
        NodeRef::Tomb { single } => from_ref(single),
        NodeRef::List { singles } => singles.as_slice(),
    }
}

/// The reference that stands in a `prev` word.
pub(crate) fn refs_of_prev(prev: &Prev) -> &[Ref]
    ensures { result.now ≡ refs_of_prev prev.now }
{
    match prev {
        Prev::None => &[],
        Prev::Pending(main) => from_ref(main),
        Prev::Failed(main) => from_ref(main),
    }
}
