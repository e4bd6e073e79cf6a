//! Main nodes made from the main node before.

ghost use Rattle.std.specs.Prelude.{◌≡◌, ◌+◌, ◌<◌, ◌≤◌, ◌++◌, length, slice_set, IfSome};
ghost use Rattle.trie_parts.specs.Beneath.slot_arena.specs.Arenas.{AreLive, IsLive};
ghost use Rattle.trie_parts.specs.Beneath.slot_arena.specs.Entries.{Fits, changed_branch as changed_entry, entries_after};
ghost use Rattle.trie_parts.specs.Beneath.slot_arena.specs.Heaps.{bitmap_of, entries_from, entries_of, next_ref, node_at, refs_of_node, refs_of_option, taken};
ghost use Rattle.trie_parts.specs.Beneath.slot_arena.specs.Refs.{birth_limit};
ghost use Rattle.trie_parts.specs.Beneath.slot_arena.specs.Ticking.{TakesUpTo};
ghost use Rattle.trie_parts.specs.Beneath.slot_arena.specs.declared.refs.Ref.{Ref as ARef};
ghost use Rattle.trie_parts.specs.Beneath.epochs.specs.Memories.{KeepsEpochs};
ghost use Rattle.trie_parts.specs.Beneath.slot_arena.specs.Views.{viewed};
ghost use Rattle.nodes.specs.Builders.{renewed, contracted};
ghost use Rattle.trie_parts.specs.Beneath.machine_model.specs.Building.{changed_branch, changed_list, changed};

use crate::entries::{entries_from, entries_from_parts, with_inserted, with_replaced, without};
use crate::looking::{bitmap_at, entries_at, node_at};
use gcas::{Change, Heap};
use nodes::{EntryChange, MOST_ENTRIES, Node, NodeRef, Ref, position_of};

/// A main node after the change, where `flag` is that of the call's key. What is no branch or list stays as
/// it is.
#[inline(always)]
pub fn changed_at(heap: &Heap, main: Ref, flag: u32, change: Change) -> Node
    requires { 0 < flag }
    ensures { result ≡ changed flag (node_at heap.now.heap main) change }
{
    match node_at(heap, main) {
        Some(node) => changed(flag, node, change),
        None => changed_branch(flag, 0, &[], change),
    }
}

/// Makes the main node after the change, where `flag` is that of the call's key, and holds it. None where no slot is free.
#[inline(always)]
pub fn make_changed(heap: &mut Heap, main: Ref, flag: u32, change: Change) -> Option<Ref>
    requires flag { 0 < flag }
    requires births { heap.old.heap.births + 1 < birth_limit }
    requires main_live { IsLive heap.old.heap main }
    requires live { AreLive heap.old.heap (refs_of_node (changed flag (node_at heap.old.heap main) change)) }
    ensures made { result ≡ next_ref heap.old.heap }
    ensures lives { IfSome result (IsLive heap.new.heap) }
    ensures stay { (q : ARef) → IsLive heap.old.heap q → IsLive heap.new.heap q }
    ensures heap { heap.new.heap ≡ taken heap.old.heap (changed flag (node_at heap.old.heap main) change) }
    ensures outside { heap.new.outside ≡ refs_of_option result ++ heap.old.outside }
    ensures epochs { KeepsEpochs heap.old heap.new }
    ensures few { length heap.new.noted ≤ length heap.old.noted + 32 }
    ensures ticks { TakesUpTo 36 heap.old.ticks heap.new.ticks }
{
    if let Some((bitmap, entry)) = in_place(heap, main, flag, &change) {
        return heap.make_changed(main, bitmap, entry);
    }
    make_whole(heap, main, flag, change)
}

/// Makes that main node, built whole first, and holds it. It isn't inlined, so that a branch needs no place for a node.
#[inline(never)]
fn make_whole(heap: &mut Heap, main: Ref, flag: u32, change: Change) -> Option<Ref>
    requires flag { 0 < flag }
    requires births { heap.old.heap.births + 1 < birth_limit }
    requires live { AreLive heap.old.heap (refs_of_node (changed flag (node_at heap.old.heap main) change)) }
    ensures made { result ≡ next_ref heap.old.heap }
    ensures lives { IfSome result (IsLive heap.new.heap) }
    ensures stay { (q : ARef) → IsLive heap.old.heap q → IsLive heap.new.heap q }
    ensures heap { heap.new.heap ≡ taken heap.old.heap (changed flag (node_at heap.old.heap main) change) }
    ensures outside { heap.new.outside ≡ refs_of_option result ++ heap.old.outside }
    ensures epochs { KeepsEpochs heap.old heap.new }
    ensures few { length heap.new.noted ≤ length heap.old.noted + 32 }
    ensures ticks { TakesUpTo 36 heap.old.ticks heap.new.ticks }
{
    let node = changed_at(heap, main, flag, change);
    heap.make_held(node)
}

/// The change as that of one entry of a branch, with the bitmap then, where it is one.
#[inline(always)]
fn in_place(heap: &Heap, main: Ref, flag: u32, change: &Change) -> Option<(u32, EntryChange)>
    requires { 0 < flag }
    ensures { IfSome result (λ made. Fits made.1 (refs_of_node (node_at heap.now.heap main)) × (length (refs_of_node (node_at heap.now.heap main)) ≤ 32)
        × (changed flag (node_at heap.now.heap main) change.now ≡ changed_entry made.0 made.1 (node_at heap.now.heap main))) }
{
    match node_at(heap, main) {
        Some(NodeRef::Branch { bitmap, entries }) => {
            entry_change(flag, bitmap, entries.as_slice(), change)
        }
        _ => None,
    }
}

/// The change of a branch of this bitmap and these entries as that of one entry, with the bitmap then, where it is one.
#[inline(always)]
fn entry_change(
    flag: u32,
    bitmap: u32,
    entries: &[Ref],
    change: &Change,
) -> Option<(u32, EntryChange)>
    requires { 0 < flag }
    ensures { IfSome result (λ made. Fits made.1 entries.now
        × (changed_branch flag bitmap entries.now change.now ≡ Node.Branch made.0 (entries_from (entries_after made.1 entries.now)))) }
{
    match *change {
        Change::Insert { single } => {
            let position = position_of(flag, bitmap);
            if position > entries.len() || entries.len() >= MOST_ENTRIES {
                return None;
            }
            let entry = single;
            Some((bitmap | flag, EntryChange::Insert { position, entry }))
        }
        Change::Update { position, entry } if position < entries.len() => {
            Some((bitmap, EntryChange::Set { position, entry }))
        }
        Change::Remove { position } if position < entries.len() => {
            Some((bitmap ^ flag, EntryChange::Remove { position }))
        }
        _ => None,
    }
}

/// The node after the change.
#[inline(always)]
fn changed(flag: u32, node: NodeRef<'_>, change: Change) -> Node
    requires { 0 < flag }
    ensures { result ≡ changed flag (viewed node.entry) change }
{
    match node {
        NodeRef::Branch { bitmap, entries } => {
            changed_branch(flag, bitmap, entries.as_slice(), change)
        }
        NodeRef::List { singles } => changed_list(singles.as_slice(), change),
        NodeRef::Indirection { generation, main } => Node::Indirection {
            generation,
            main: *main,
        },
        NodeRef::Single { key, value } => Node::Single { key, value },
        NodeRef::Tomb { single } => Node::Tomb { single: *single },
    }
}

/// A branch after the change, where `flag` is that of the call's key.
#[inline(always)]
fn changed_branch(flag: u32, bitmap: u32, entries: &[Ref], change: Change) -> Node
    requires { 0 < flag }
    ensures { result ≡ changed_branch flag bitmap entries.now change }
{
    match change {
        Change::Insert { single } => Node::Branch {
            bitmap: bitmap | flag,
            entries: with_inserted(entries, position_of(flag, bitmap), single),
        },
        Change::Update { position, entry } => Node::Branch {
            bitmap,
            entries: with_replaced(entries, position, entry),
        },
        Change::Remove { position } => Node::Branch {
            bitmap: bitmap ^ flag,
            entries: without(entries, position),
        },
        Change::Entomb { single } => Node::Tomb { single },
    }
}

/// A list after the change: a new single stands at its end.
fn changed_list(singles: &[Ref], change: Change) -> Node
    ensures { result ≡ changed_list singles.now change }
{
    match change {
        Change::Insert { single } => Node::List {
            singles: entries_from_parts(singles, &[single], &[]),
        },
        Change::Update { position, entry } => Node::List {
            singles: with_replaced(singles, position, entry),
        },
        Change::Remove { position } => Node::List {
            singles: without(singles, position),
        },
        Change::Entomb { single } => Node::Tomb { single },
    }
}

/// The branch with these entries in the same places.
pub fn renewed(bitmap: u32, entries: &[Ref]) -> Node
    ensures { result ≡ renewed bitmap entries.now }
{
    Node::Branch {
        bitmap,
        entries: entries_from(entries),
    }
}

/// The branch with these entries in the same places; where it may, and only one is left, its tomb.
pub fn contracted(may_entomb: bool, bitmap: u32, entries: &[Ref]) -> Node
    ensures { result ≡ contracted may_entomb bitmap entries.now }
{
    match entries {
        [single] if may_entomb => Node::Tomb { single: *single },
        _ => renewed(bitmap, entries),
    }
}

/// The branch with another entry at this position; where it may, and that is the only one, its tomb.
#[tactic(auto, using(crate::proofs::Capped::contracted_capped))]
pub fn contracted_at(heap: &Heap, main: Ref, may_entomb: bool, position: usize, single: Ref) -> Node
    ensures { result ≡ contracted may_entomb (bitmap_of (node_at heap.now.heap main)) (slice_set (entries_of (node_at heap.now.heap main)) position single) }
{
    let entries = with_replaced(entries_at(heap, main), position, single);
    contracted(may_entomb, bitmap_at(heap, main), entries.as_slice())
}
