//! Where the maps of two handles differ: what both share is skipped.

ghost use Rattle.std.specs.Prelude.{◌≡◌, [], IfOk, OnOk};
ghost use Rattle.machine_model.specs.Contents.{content_at};
ghost use Rattle.proof_core.specs.Comparing.{Adds, main_below, pairs_from, pairs_under, single_at};
ghost use Rattle.proof_core.specs.Reading.{Covers};
ghost use Rattle.machine_core.specs.Seen.{seen};

use crate::contents::MOST_LEVELS;
use crate::entries::Left;
use crate::mains::logical_main;
use crate::parts::Parts;
use epochs::Heap;
use running::{node_at, root_of};
use slot_arena::{NodeRef, Ref};
use std::alloc::AllocError;

/// The keys of which the two handles' maps may have different values: each key of which they have is among them.
pub fn keys_apart(parts: &Parts, older: u16, newer: u16) -> Result<Vec<u64>, AllocError>
    ensures { IfOk result (λ keys. Covers keys.items (content_at (seen parts.now) older) (content_at (seen parts.now) newer)) }
{
    let mut keys = Vec::new(parts.alloc);
    compare(
        &mut keys,
        MOST_LEVELS,
        &parts.heap,
        Some(root_of(parts.word(older))),
        Some(root_of(parts.word(newer))),
    )?;
    Ok(keys)
}

/// Adds the keys of pairs that are reached from only one of two entries, within this many levels.
#[cycle(comparing)]
fn compare(
    keys: &mut Vec<u64>,
    levels: u32,
    heap: &Heap,
    older: Option<Ref>,
    newer: Option<Ref>,
) -> Result<(), AllocError>
    ensures { OnOk result (Adds keys.old.items (pairs_from levels heap.now.heap older) (pairs_from levels heap.now.heap newer) keys.new.items) }
{
    if levels == 0 {
        return Ok(());
    }
    if older == newer {
        return Ok(());
    }
    add_single(keys, heap, older)?;
    add_single(keys, heap, newer)?;
    compare_mains(
        keys,
        levels - 1,
        heap,
        main_below(heap, older),
        main_below(heap, newer),
    )
}

/// Adds the keys of pairs that are reached from only one of two main nodes, within this many levels.
#[cycle(comparing)]
fn compare_mains(
    keys: &mut Vec<u64>,
    levels: u32,
    heap: &Heap,
    older: Option<Ref>,
    newer: Option<Ref>,
) -> Result<(), AllocError>
    ensures { OnOk result (Adds keys.old.items (pairs_under levels heap.now.heap older) (pairs_under levels heap.now.heap newer) keys.new.items) }
{
    if older == newer {
        return Ok(());
    }
    let mut olds = Left::of(heap, older);
    let mut news = Left::of(heap, newer);
    while olds.is_some() || news.is_some() {
        let (p, q) = (olds.index(), news.index());
        let takes_older = p <= q || !news.is_some();
        let takes_newer = q <= p || !olds.is_some();
        let older = olds.take_if(takes_older);
        let newer = news.take_if(takes_newer);
        compare(keys, levels, heap, older, newer)?;
    }
    Ok(())
}

/// The logical main node of an entry that is an indirection.
fn main_below(heap: &Heap, entry: Option<Ref>) -> Option<Ref>
    ensures { result ≡ main_below heap.now.heap entry }
{
    let at = entry?;
    match node_at(heap, at) {
        Some(NodeRef::Indirection { .. }) => Some(logical_main(heap, at)),
        _ => None,
    }
}

/// Adds the key of an entry that is a single.
fn add_single(keys: &mut Vec<u64>, heap: &Heap, entry: Option<Ref>) -> Result<(), AllocError>
    ensures { OnOk result (Adds keys.old.items (single_at heap.now.heap entry) [] keys.new.items) }
{
    let Some(at) = entry else {
        return Ok(());
    };
    if let Some(NodeRef::Single { key, .. }) = node_at(heap, at) {
        keys.push(key)?;
    }
    Ok(())
}
