//! The next pairs of a map in the order of its trie: what lies before the cursor is passed over, and a scan ends when it has
//! enough.

ghost use Rattle.std.specs.Prelude.{◌≡◌, ◌<◌, All, None, IsSome, IfOk, OnOk, drop, length, true};
ghost use Rattle.std.specs.List.{flat_map};
ghost use Rattle.slot_arena.specs.Heaps.{entries_of, node_at};
ghost use Rattle.machine_model.specs.Contents.{content_at, pairs_below};
ghost use Rattle.machine_model.specs.Pairs.{by_key};
ghost use Rattle.machine_model.specs.States.{root_at};
ghost use Rattle.machine_core.specs.Beneath.proof_memory.specs.Wants.{is_branch};
ghost use Rattle.machine_core.specs.Keeping.{IsCore};
ghost use Rattle.machine_core.specs.Scanning.{IsMainOnWay, IsOnWay, with_next};
ghost use Rattle.machine_core.specs.Seen.{seen};
ghost use Rattle.proof_core.specs.Reading.{next_of};
ghost use Rattle.proof_core.specs.Scanning.{is_behind, scanned, walked, walked_in};

use crate::contents::MOST_LEVELS;
use crate::listing::select_each;
use crate::mains::{logical_main, position_of};
use crate::parts::Parts;
use crate::selection::Selection;
use ctrie_base::HashKind;
use epochs::Heap;
use history::Pairs;
use nodes::{has_flag, index_in, list_depth, parting};
use running::{bitmap_at, entries_at, entry_at, flag_of, node_at, root_of};
use slot_arena::{NodeRef, Ref};
use std::alloc::AllocError;

/// The next pairs of the handle's map after the last key, `room` of them at most, in the order of the trie.
pub fn scanned(
    parts: &Parts,
    handle: u16,
    after: Option<u64>,
    room: usize,
) -> Result<Pairs, AllocError>
    requires core { IsCore parts.now }
    requires open { IsSome (root_at (seen parts.now) handle) }
    ensures { IfOk result (λ pairs. pairs ≡ scanned parts.now.limits.hash after room (content_at (seen parts.now) handle)) }
{
    let mut pairs = Vec::new(parts.alloc);
    if room == 0 {
        return Ok(Pairs::from_vec(pairs));
    }
    let root = root_of(parts.word(handle));
    scan(&mut pairs, room, MOST_LEVELS, 0, parts, after, root)?;
    Ok(Pairs::from_vec(pairs))
}

/// Adds the next pairs of those that are reached from an indirection or a single at this depth, within this many levels.
#[cycle(scanning)]
#[tactic(auto, using(crate::proofs::Scans::scanning))]
fn scan(
    pairs: &mut Vec<(u64, u64)>,
    room: usize,
    levels: u32,
    depth: usize,
    parts: &Parts,
    after: Option<u64>,
    at: Ref,
) -> Result<(), AllocError>
    requires room { length pairs.old.items < room }
    requires placed { IsOnWay parts.now.limits.hash parts.now.heap.heap levels depth after at }
    ensures { OnOk result (pairs.new.items ≡ with_next parts.now.limits.hash after room pairs.old.items (walked levels parts.now.heap.heap at)) }
{
    if levels == 0 {
        return Ok(());
    }
    match node_at(&parts.heap, at) {
        Some(NodeRef::Single { key, value }) => {
            if is_behind(parts.limits.hash, after, key) {
                pairs.push((key, value))?;
            }
            Ok(())
        }
        Some(NodeRef::Indirection { .. }) => {
            let main = logical_main(&parts.heap, at);
            scan_main(pairs, room, levels - 1, depth, parts, after, main)
        }
        _ => Ok(()),
    }
}

/// Adds the next pairs of those below a main node at this depth.
#[cycle(scanning)]
#[tactic(auto, using(crate::proofs::Scans::scanning))]
fn scan_main(
    pairs: &mut Vec<(u64, u64)>,
    room: usize,
    levels: u32,
    depth: usize,
    parts: &Parts,
    after: Option<u64>,
    main: Ref,
) -> Result<(), AllocError>
    requires room { length pairs.old.items < room }
    requires placed { IsMainOnWay parts.now.limits.hash parts.now.heap.heap levels depth after (node_at parts.now.heap.heap main) }
    ensures { OnOk result (pairs.new.items ≡ with_next parts.now.limits.hash after room pairs.old.items (walked_in (walked levels parts.now.heap.heap) (node_at parts.now.heap.heap main))) }
{
    match node_at(&parts.heap, main) {
        Some(NodeRef::Branch { .. }) => scan_branch(pairs, room, levels, depth, parts, after, main),
        Some(NodeRef::Tomb { single }) => scan(pairs, room, levels, depth, parts, after, *single),
        Some(NodeRef::List { .. }) => {
            let listed = next_listed(parts, levels, main, after, room - pairs.len())?;
            pairs.extend_from_slice(listed.as_slice())?;
            Ok(())
        }
        _ => Ok(()),
    }
}

/// Adds the next pairs of those below a branch: of its entries those before the cursor's flag are passed over.
#[cycle(scanning)]
#[tactic(auto, using(crate::proofs::Scans::scanning))]
fn scan_branch(
    pairs: &mut Vec<(u64, u64)>,
    room: usize,
    levels: u32,
    depth: usize,
    parts: &Parts,
    after: Option<u64>,
    main: Ref,
) -> Result<(), AllocError>
    requires room { length pairs.old.items < room }
    requires branch { is_branch (node_at parts.now.heap.heap main) ≡ true }
    requires placed { IsMainOnWay parts.now.limits.hash parts.now.heap.heap levels depth after (node_at parts.now.heap.heap main) }
    ensures { OnOk result (pairs.new.items ≡
        with_next parts.now.limits.hash after room pairs.old.items (flat_map (walked levels parts.now.heap.heap) (entries_of (node_at parts.now.heap.heap main)))) }
{
    let heap = &parts.heap;
    let Some(last) = after else {
        return scan_each(
            pairs,
            room,
            levels,
            depth + 1,
            parts,
            entries_at(heap, main),
        );
    };
    let flag = flag_of(parts.key_hash(last), depth);
    let bitmap = bitmap_at(heap, main);
    let position = position_of(flag, bitmap);
    if !has_flag(bitmap, flag) {
        let behind = rest_from(heap, main, position);
        return scan_each(pairs, room, levels, depth + 1, parts, behind);
    }
    let entry = entry_at(heap, main, position);
    scan(pairs, room, levels, depth + 1, parts, after, entry)?;
    let behind = rest_from(heap, main, position + 1);
    scan_each(pairs, room, levels, depth + 1, parts, behind)
}

/// Adds the first pairs of those that are reached from these entries of a branch.
#[cycle(scanning)]
#[tactic(auto, using(crate::proofs::Scans::scanning))]
fn scan_each(
    pairs: &mut Vec<(u64, u64)>,
    room: usize,
    levels: u32,
    depth: usize,
    parts: &Parts,
    entries: &[Ref],
) -> Result<(), AllocError>
    requires placed { All (λ entry. IsOnWay parts.now.limits.hash parts.now.heap.heap levels depth None entry) entries.now }
    ensures { OnOk result (pairs.new.items ≡ with_next parts.now.limits.hash None room pairs.old.items (flat_map (walked levels parts.now.heap.heap) entries.now)) }
{
    for entry in entries {
        if pairs.len() >= room {
            break;
        }
        scan(pairs, room, levels, depth, parts, None, *entry)?;
    }
    Ok(())
}

/// The entries of a main node from a position on.
fn rest_from(heap: &Heap, main: Ref, position: usize) -> &[Ref]
    ensures { result.now ≡ drop position (entries_of (node_at heap.now.heap main)) }
{
    entries_at(heap, main).get(position..).unwrap_or(&[])
}

/// The next pairs of those below a list, whose singles stand in no order, by rising key.
fn next_listed(
    parts: &Parts,
    levels: u32,
    main: Ref,
    after: Option<u64>,
    room: usize,
) -> Result<Vec<(u64, u64)>, AllocError>
    ensures { IfOk result (λ next. next.items ≡ next_of after room (by_key (flat_map (pairs_below levels parts.now.heap.heap) (entries_of (node_at parts.now.heap.heap main))))) }
{
    let mut selection = Selection::new(parts.alloc, after, room);
    select_each(&mut selection, levels, &parts.heap, main)?;
    Ok(selection.into_sorted())
}

/// Whether a key is after the last one in the order of the trie.
fn is_behind(hashes: HashKind, after: Option<u64>, key: u64) -> bool
    ensures { result ≡ is_behind hashes after key }
{
    let Some(last) = after else {
        return true;
    };
    let passed = hashes.hash(last);
    let hash = hashes.hash(key);
    let depth = parting(passed, hash, 0, list_depth(hashes));
    if depth == list_depth(hashes) {
        last < key
    } else {
        index_in(passed, depth) < index_in(hash, depth)
    }
}
