//! One pair of a handle's map, without a list of them.

ghost use Rattle.std.specs.Prelude.{◌≡◌};
ghost use Rattle.std.specs.List.{flat_map};
ghost use Rattle.slot_arena.specs.Heaps.{entries_of, node_at};
ghost use Rattle.machine_model.specs.Contents.{content_at, pairs_below};
ghost use Rattle.proof_core.specs.Reading.{IsOneOf, first_of};
ghost use Rattle.machine_core.specs.Seen.{seen};

use crate::contents::MOST_LEVELS;
use crate::mains::logical_main;
use crate::parts::Parts;
use epochs::Heap;
use running::{entries_at, node_at, root_of};
use slot_arena::{NodeRef, Ref};

/// A pair of the handle's map, whichever is reached first.
pub fn first_of(parts: &Parts, handle: u16) -> Option<(u64, u64)>
    ensures { IsOneOf (content_at (seen parts.now) handle) result }
{
    pick(MOST_LEVELS, &parts.heap, root_of(parts.word(handle)))
}

/// The first pair that is reached from an indirection or a single, within this many levels.
#[cycle(picking)]
#[tactic(auto, using(proof_core::proofs::Picked::picked))]
fn pick(levels: u32, heap: &Heap, at: Ref) -> Option<(u64, u64)>
    ensures { result ≡ first_of (pairs_below levels heap.now.heap at) }
{
    if levels == 0 {
        return None;
    }
    match node_at(heap, at) {
        Some(NodeRef::Single { key, value }) => Some((key, value)),
        Some(NodeRef::Indirection { .. }) => pick_among(levels - 1, heap, logical_main(heap, at)),
        _ => None,
    }
}

/// The first pair that is reached from the entries of a main node, within this many levels.
#[cycle(picking)]
#[tactic(auto, using(proof_core::proofs::Picked::picked))]
fn pick_among(levels: u32, heap: &Heap, main: Ref) -> Option<(u64, u64)>
    ensures { result ≡ first_of (flat_map (pairs_below levels heap.now.heap) (entries_of (node_at heap.now.heap main))) }
{
    for entry in entries_at(heap, main) {
        if let Some(pair) = pick(levels, heap, *entry) {
            return Some(pair);
        }
    }
    None
}
