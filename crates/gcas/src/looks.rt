//! What indirections say.

ghost use Rattle.std.specs.Prelude.{◌≡◌};
ghost use Rattle.machine_model.specs.Beneath.slot_arena.specs.Heaps.{main_of, main_at, generation_of, generation_at};
ghost use Rattle.machine_model.specs.Beneath.slot_arena.specs.Views.{viewed};

use machine_model::{Heap, NodeRef, Ref};

/// The main word of an indirection; the default reference where none stands there.
#[tactic(auto, using(crate::proofs::Stored::node_is, crate::proofs::Stored::nothing_is))]
pub fn main_at(heap: &Heap, at: Ref) -> Ref
    ensures { result ≡ main_at heap.now.heap at }
{
    match heap.stored_node(at) {
        Some(node) => main_of(node),
        None => Ref::default(),
    }
}

/// The generation of an indirection; 0 where none stands there.
#[tactic(auto, using(crate::proofs::Stored::node_is, crate::proofs::Stored::nothing_is))]
pub fn generation_at(heap: &Heap, at: Ref) -> u64
    ensures { result ≡ generation_at heap.now.heap at }
{
    match heap.stored_node(at) {
        Some(node) => generation_of(node),
        None => 0,
    }
}

fn main_of(node: NodeRef<'_>) -> Ref
    ensures { result ≡ main_of (viewed node.entry) }
{
    match node {
        NodeRef::Indirection { main, .. } => *main,
        _ => Ref::default(),
    }
}

fn generation_of(node: NodeRef<'_>) -> u64
    ensures { result ≡ generation_of (viewed node.entry) }
{
    match node {
        NodeRef::Indirection { generation, .. } => generation,
        _ => 0,
    }
}
