//! The next pairs of a map after a key, in ascending order of keys: one walk over all, in memory for what it hands out.

ghost use Rattle.std.specs.Prelude.{◌≡◌, IfOk, OnOk};
ghost use Rattle.std.specs.List.{flat_map};
ghost use Rattle.slot_arena.specs.Heaps.{entries_of, node_at};
ghost use Rattle.machine_model.specs.Contents.{content_at, pairs_below};
ghost use Rattle.proof_core.specs.Reading.{next_of};
ghost use Rattle.machine_core.specs.Seen.{seen};
ghost use Rattle.machine_core.specs.Selecting.{Takes};

use crate::contents::MOST_LEVELS;
use crate::mains::logical_main;
use crate::parts::Parts;
use crate::selection::Selection;
use epochs::Heap;
use history::Pairs;
use running::{entries_at, node_at, root_of};
use slot_arena::{NodeRef, Ref};
use std::alloc::AllocError;

/// The first pairs of the handle's map whose keys come after the last one, `room` of them at most, by rising key.
pub fn next_of(
    parts: &Parts,
    handle: u16,
    after: Option<u64>,
    room: usize,
) -> Result<Pairs, AllocError>
    ensures { IfOk result (λ pairs. pairs ≡ next_of after room (content_at (seen parts.now) handle)) }
{
    let mut selection = Selection::new(parts.alloc, after, room);
    select(
        &mut selection,
        MOST_LEVELS,
        &parts.heap,
        root_of(parts.word(handle)),
    )?;
    Ok(Pairs::from_vec(selection.into_sorted()))
}

/// Takes the pairs in that are reached from an indirection or a single, within this many levels.
#[cycle(listing)]
#[tactic(auto, using(crate::proofs::Selections::selecting))]
fn select(selection: &mut Selection, levels: u32, heap: &Heap, at: Ref) -> Result<(), AllocError>
    ensures { OnOk result (Takes selection.old (pairs_below levels heap.now.heap at) selection.new) }
{
    if levels == 0 {
        return Ok(());
    }
    match node_at(heap, at) {
        Some(NodeRef::Single { key, value }) => selection.add(key, value),
        Some(NodeRef::Indirection { .. }) => {
            select_each(selection, levels - 1, heap, logical_main(heap, at))
        }
        _ => Ok(()),
    }
}

/// Takes the pairs in that are reached from the entries of a main node, within this many levels.
#[cycle(listing)]
#[tactic(auto, using(crate::proofs::Selections::selecting))]
pub fn select_each(
    selection: &mut Selection,
    levels: u32,
    heap: &Heap,
    main: Ref,
) -> Result<(), AllocError>
    ensures { OnOk result (Takes selection.old (flat_map (pairs_below levels heap.now.heap) (entries_of (node_at heap.now.heap main))) selection.new) }
{
    for entry in entries_at(heap, main) {
        select(selection, levels, heap, *entry)?;
    }
    Ok(())
}
