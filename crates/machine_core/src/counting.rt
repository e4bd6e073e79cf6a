//! How many pairs the maps of handles have, counted without a list of them.

ghost use Rattle.std.specs.Prelude.{◌≡◌, ◌<◌, ◌^◌, length, IsSome};
ghost use Rattle.std.specs.List.{flat_map};
ghost use Rattle.slot_arena.specs.Heaps.{entries_of, node_at};
ghost use Rattle.machine_model.specs.Contents.{content_at, pairs_below};
ghost use Rattle.machine_model.specs.States.{root_at};
ghost use Rattle.machine_core.specs.Keeping.{IsCore};
ghost use Rattle.machine_core.specs.Seen.{seen};

use crate::contents::MOST_LEVELS;
use crate::mains::logical_main;
use crate::parts::Parts;
use epochs::Heap;
use running::{entries_at, node_at, root_of};
use slot_arena::{NodeRef, Ref};

/// How many pairs the map of an open handle has.
pub fn count_of(parts: &Parts, handle: u16) -> u64
    requires core { IsCore parts.now }
    requires open { IsSome (root_at (seen parts.now) handle) }
    ensures { result ≡ length (content_at (seen parts.now) handle) }
{
    count(MOST_LEVELS, &parts.heap, root_of(parts.word(handle)))
}

/// How many pairs are reached from an indirection or a single, within this many levels.
#[cycle(counting)]
#[tactic(auto, using(proof_core::proofs::Counted::counted))]
fn count(levels: u32, heap: &Heap, at: Ref) -> u64
    requires { length (pairs_below levels heap.now.heap at) < 2 ^ 64 }
    ensures { result ≡ length (pairs_below levels heap.now.heap at) }
{
    if levels == 0 {
        return 0;
    }
    match node_at(heap, at) {
        Some(NodeRef::Single { .. }) => 1,
        Some(NodeRef::Indirection { .. }) => count_each(levels - 1, heap, logical_main(heap, at)),
        _ => 0,
    }
}

/// How many pairs are reached from the entries of a main node, within this many levels.
#[cycle(counting)]
#[tactic(auto, using(proof_core::proofs::Counted::counted))]
fn count_each(levels: u32, heap: &Heap, main: Ref) -> u64
    requires { length (flat_map (pairs_below levels heap.now.heap) (entries_of (node_at heap.now.heap main))) < 2 ^ 64 }
    ensures { result ≡ length (flat_map (pairs_below levels heap.now.heap) (entries_of (node_at heap.now.heap main))) }
{
    let mut total = 0;
    for entry in entries_at(heap, main) {
        total += count(levels, heap, *entry);
    }
    total
}
