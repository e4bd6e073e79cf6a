//! What stands in the slots of a heap. A look-up goes by the slot alone; where nothing stands in it, it gives
//! what the definition gives.

ghost use Rattle.std.specs.Prelude.{◌≡◌, ◌≤◌, length, option_map, unwrap_or};
ghost use Rattle.trie_parts.specs.Beneath.slot_arena.specs.Heaps.{node_at, entries_of, entry_at, bitmap_of, empty_branch};
ghost use Rattle.trie_parts.specs.Beneath.slot_arena.specs.Views.{viewed};
ghost use Rattle.trie_parts.specs.Beneath.machine_model.specs.Building.{key_in};
ghost use Rattle.trie_parts.specs.Beneath.machine_model.specs.Cleaning.{is_single};

use gcas::Heap;
use nodes::{NodeRef, Ref};
use std::slice::from_ref;

/// The node that stands in a slot; where none does, the definition has a branch without entries.
#[tactic(auto, using(gcas::proofs::Stored::stands))]
#[inline(always)]
pub fn node_at(heap: &Heap, at: Ref) -> Option<NodeRef<'_>>
    ensures { node_at heap.now.heap at ≡ unwrap_or (option_map viewed result) empty_branch }
{
    heap.stored_node(at)
}

/// The entries of a main node: those of a branch, the singles of a list, the single of a tomb.
#[inline(always)]
pub fn entries_at(heap: &Heap, main: Ref) -> &[Ref]
    ensures entries { result.now ≡ entries_of (node_at heap.now.heap main) }
    ensures few { length result.now ≤ 32 }
{
    match node_at(heap, main) {
        Some(NodeRef::Branch { entries, .. }) => entries.as_slice(),
        Some(NodeRef::List { singles }) => singles.as_slice(),
        Some(NodeRef::Tomb { single }) => from_ref(single),
        _ => &[],
    }
}

/// How many entries a main node has.
pub fn entry_count(heap: &Heap, main: Ref) -> usize
    ensures { result ≡ length (entries_of (node_at heap.now.heap main)) }
{
    entries_at(heap, main).len()
}

/// The entry of a main node at a position, or the reference that names no slot.
#[inline(always)]
pub fn entry_at(heap: &Heap, main: Ref, position: usize) -> Ref
    ensures { result ≡ entry_at heap.now.heap main position }
{
    entries_at(heap, main)
        .get(position)
        .copied()
        .unwrap_or(Ref::default())
}

/// The bitmap of a branch.
pub fn bitmap_at(heap: &Heap, at: Ref) -> u32
    ensures { result ≡ bitmap_of (node_at heap.now.heap at) }
{
    match node_at(heap, at) {
        Some(NodeRef::Branch { bitmap, .. }) => bitmap,
        _ => 0,
    }
}

/// The key of a single.
pub fn key_at(heap: &Heap, at: Ref) -> u64
    ensures { result ≡ key_in (node_at heap.now.heap at) }
{
    match node_at(heap, at) {
        Some(NodeRef::Single { key, .. }) => key,
        _ => 0,
    }
}

/// Whether a single stands there.
pub fn is_single_at(heap: &Heap, at: Ref) -> bool
    ensures { result ≡ is_single (node_at heap.now.heap at) }
{
    matches!(node_at(heap, at), Some(NodeRef::Single { .. }))
}
