//! What the maps of handles hold.

ghost use Rattle.std.specs.Prelude.{◌≡◌, ◌++◌, IfOk, OnOk};
ghost use Rattle.std.specs.List.{flat_map};
ghost use Rattle.slot_arena.specs.Heaps.{entries_of, node_at};
ghost use Rattle.machine_model.specs.Contents.{pairs_below, content_at};
ghost use Rattle.machine_model.specs.Pairs.{by_key};
ghost use Rattle.machine_core.specs.Seen.{seen};

use crate::mains::logical_main;
use crate::parts::Parts;
use epochs::Heap;
use history::Pairs;
use running::{entries_at, node_at, root_of};
use slot_arena::{NodeRef, Ref};
use std::alloc::{AllocError, Global};

/// A root, 13 levels of indirections below it, and the singles.
pub const MOST_LEVELS: u32 = 15;

/// What the handle's map holds, by rising key.
pub fn content_of(parts: &Parts, handle: u16) -> Result<Pairs, AllocError>
    ensures { IfOk result (λ pairs. pairs ≡ content_at (seen parts.now) handle) }
{
    let mut pairs = Vec::new(parts.alloc);
    gather(
        &mut pairs,
        MOST_LEVELS,
        &parts.heap,
        root_of(parts.word(handle)),
    )?;
    pairs_by_key(parts.alloc, pairs.as_slice())
}

/// Adds the pairs that are reached from an indirection or a single, within this many levels.
#[cycle(gathering)]
#[tactic(auto, using(proof_core::proofs::Gathering::gathering))]
fn gather(pairs: &mut Vec<(u64, u64)>, levels: u32, heap: &Heap, at: Ref) -> Result<(), AllocError>
    ensures { OnOk result (pairs.new.items ≡ pairs.old.items ++ pairs_below levels heap.now.heap at) }
{
    if levels == 0 {
        return Ok(());
    }
    match node_at(heap, at) {
        Some(NodeRef::Single { key, value }) => {
            pairs.push((key, value))?;
            Ok(())
        }
        Some(NodeRef::Indirection { .. }) => {
            gather_each(pairs, levels - 1, heap, logical_main(heap, at))
        }
        _ => Ok(()),
    }
}

/// Adds the pairs that are reached from the entries of a main node, within this many levels.
#[cycle(gathering)]
#[tactic(auto, using(proof_core::proofs::Gathering::gathering))]
fn gather_each(
    pairs: &mut Vec<(u64, u64)>,
    levels: u32,
    heap: &Heap,
    main: Ref,
) -> Result<(), AllocError>
    ensures { OnOk result (pairs.new.items ≡ pairs.old.items ++ flat_map (pairs_below levels heap.now.heap) (entries_of (node_at heap.now.heap main))) }
{
    for entry in entries_at(heap, main) {
        gather(pairs, levels, heap, *entry)?;
    }
    Ok(())
}

/// All of these pairs, by rising key. An error says that memory was refused.
#[tactic(auto, using(crate::proofs::Sorting::sorted_by_key))]
fn pairs_by_key(alloc: Global, pairs: &[(u64, u64)]) -> Result<Pairs, AllocError>
    ensures { IfOk result (λ sorted. sorted ≡ by_key pairs.now) }
{
    let mut sorted = Vec::new(alloc);
    sorted.extend_from_slice(pairs)?;
    sorted.sort()?;
    Ok(Pairs::from_vec(sorted))
}
