//! The way down to a key past indirections of other generations than the root's, and the renewal of the branches on it, one
//! level after the other.

ghost use Rattle.std.specs.Prelude.{◌≡◌, ◌+◌, ◌<◌, ◌≤◌, ◌++◌, ◌∷◌, [], ℕ, true, List, IfSome, IsTrue, length};
ghost use Rattle.arrayvec.specs.ArrayVec.{ArrayVec as AnArrayVec};
ghost use Rattle.history.specs.declared.calls.Call.{Call as ACall};
ghost use Rattle.machine_model.specs.Calls.{key_of};
ghost use Rattle.machine_model.specs.States.{State};
ghost use Rattle.machine_core.specs.declared.descending.Place.{Place as APlace};
ghost use Rattle.machine_core.specs.Beneath.proof_straight.specs.Drafts.{first_draft};
ghost use Rattle.machine_core.specs.Beneath.proof_straight.specs.Renewals.{Renewal, is_of_other, is_old, renewed_entry};
ghost use Rattle.slot_arena.specs.Arenas.{IsLive};
ghost use Rattle.slot_arena.specs.Heaps.{entries_of, generation_at, main_at, node_at};
ghost use Rattle.slot_arena.specs.declared.nodes.Node.{Node as ANode};
ghost use Rattle.slot_arena.specs.declared.nodes.Node.TheVariants.{Branch};
ghost use Rattle.slot_arena.specs.declared.refs.Ref.{Ref as ARef};
ghost use Rattle.proof_core.specs.Drafting.{CanSwap, IsDraft, KeepsRecords};
ghost use Rattle.machine_core.specs.Pairing.{CanMake, Makes};
ghost use Rattle.machine_core.specs.Renewing.{AreDecided, AreOverLive, EndsPast, FindsPast, IsBranch, IsDecided, IsOn, IsOnTheWay, IsSoFar, Renews};

use crate::contents::MOST_LEVELS;
use crate::descending::{Onward, Place, is_decided, look_in};
use crate::drafting::swap_in;
use crate::mains::position_of;
use crate::pairing::{Made, make_more};
use crate::parts::Parts;
use arrayvec::ArrayVec;
use epochs::Heap;
use running::{bitmap_at, entries_at, entry_at, flag_of, generation_at, main_at, node_at};
use slot_arena::{Node, NodeRef, Ref};

/// Goes down from a root along the key's hash, past indirections of any generation, over branches that can be renewed. None
/// where something stands in the way.
pub fn look_past(heap: &Heap, root: Ref, hash: u64, key: u64) -> Option<Place>
    ensures { IfSome result (λ place. EndsPast heap.now.heap root hash key place) }
{
    let mut indirection = root;
    for depth in 0..MOST_LEVELS {
        let main = main_at(heap, indirection);
        let flag = flag_of(hash, depth as usize);
        match look_over(heap, main, flag, key) {
            Onward::Below { at, .. } => indirection = at,
            Onward::Here { position, entry } => {
                return Some(Place {
                    indirection,
                    depth: depth as usize,
                    main,
                    flag,
                    position,
                    entry,
                });
            }
            Onward::Barred => return None,
        }
    }
    None
}

/// What a decided branch has for the key, whose flag is this one at its depth; on to an indirection only where the branch can
/// be renewed.
fn look_over(heap: &Heap, main: Ref, flag: u32, key: u64) -> Onward
    ensures { FindsPast heap.now.heap main flag key result }
{
    match look_in(heap, main, flag, key) {
        Onward::Below { at, generation } => {
            if are_decided(heap, main) {
                Onward::Below { at, generation }
            } else {
                Onward::Barred
            }
        }
        other => other,
    }
}

/// Whether all entries of a branch are singles, or indirections over decided main nodes.
fn are_decided(heap: &Heap, main: Ref) -> bool
    ensures decided { IsTrue result → AreDecided heap.now.heap main (length (entries_of (node_at heap.now.heap main))) }
    ensures few { length (entries_of (node_at heap.now.heap main)) ≤ 32 }
{
    for entry in entries_at(heap, main) {
        if !can_renew(heap, *entry) {
            return false;
        }
    }
    true
}

/// Whether the entry is a single, or an indirection over a decided main node.
fn can_renew(heap: &Heap, entry: Ref) -> bool
    ensures { IsTrue result → IsDecided heap.now.heap (node_at heap.now.heap entry) }
{
    match node_at(heap, entry) {
        Some(NodeRef::Indirection { main, .. }) => is_decided(heap, *main),
        Some(NodeRef::Single { .. }) => true,
        _ => false,
    }
}

/// Whether an indirection of another generation stands there.
fn is_old(heap: &Heap, entry: Ref, generation: u64) -> bool
    ensures { result ≡ is_of_other generation (node_at heap.now.heap entry) }
{
    match node_at(heap, entry) {
        Some(
            NodeRef::Indirection {
                generation: its,
                ..
            },
        ) => generation != its,
        _ => false,
    }
}

/// An entry of the new branch: in the place of an old one an indirection of this generation over the same main node is made.
fn renew_entry(heap: &mut Heap, made: &mut Made, generation: u64, entry: Ref) -> Ref
    requires can { CanMake heap.old made.old.items 1 }
    requires live { IsLive heap.old.heap entry }
    requires over { is_of_other generation (node_at heap.old.heap entry) ≡ true → IsLive heap.old.heap (main_at heap.old.heap entry) }
    ensures draft { (state : State) (root : ARef) (so_far : Renewal) (entries : List ARef) → IsSoFar state so_far heap.old made.old.items entries →
        generation_at state.heap root ≡ generation → node_at heap.old.heap entry ≡ node_at state.heap entry →
        IsSoFar state (renewed_entry state root entry (is_old state root entry) so_far) heap.new made.new.items (entries ++ result ∷ []) }
    ensures makes { Makes 1 heap.old made.old.items heap.new made.new.items }
    ensures lives { IsLive heap.new.heap result }
{
    if !is_old(heap, entry, generation) {
        return entry;
    }
    let main = main_at(heap, entry);
    make_more(heap, made, Node::Indirection { generation, main })
}

/// Renews the branch of an indirection. It returns how many steps of a call that takes.
fn renew(heap: &mut Heap, generation: u64, indirection: Ref, main: Ref) -> u64
    requires can { CanSwap heap.old.heap indirection main 33 }
    requires branch { IsBranch heap.old.heap main }
    requires over { AreOverLive heap.old.heap main }
    ensures renews { (state : State) (root : ARef) (bitmap : ℕ) (entries : AnArrayVec ARef) → IsDraft state (first_draft state) heap.old →
        generation_at state.heap root ≡ generation → node_at heap.old.heap main ≡ Branch bitmap entries → Renews state root indirection bitmap entries result heap.new }
    ensures few { result ≤ 138 }
    ensures records { KeepsRecords heap.old heap.new }
{
    let bitmap = bitmap_at(heap, main);
    let mut made = ArrayVec::new();
    let mut entries: ArrayVec<Ref, 32> = ArrayVec::new();
    for i in 0..entries_at(heap, main).len() {
        let entry = entry_at(heap, main, i);
        let fresh = renew_entry(heap, &mut made, generation, entry);
        entries.push(fresh);
    }
    let steps = entries.len() as u64 + 3 * made.len() as u64 + 10;
    let node = Node::Branch { bitmap, entries };
    swap_in(heap, indirection, main, node, made.as_slice());
    steps
}

/// Goes one level further down on the way to the key, and renews the branch before that where its entry there is of another
/// generation. It gives the entry that stands there then.
fn go_below(parts: &mut Parts, root: Ref, key: u64, depth: usize, indirection: Ref) -> Ref
    requires on { IsOnTheWay parts.old root key depth indirection }
    ensures { (start : State) (actor : ℕ) (call : ACall) (place : APlace) (node : ANode) → key ≡ key_of call → depth < place.depth →
        IsOn start parts.old actor call root place node depth indirection → IsOn start parts.new actor call root place node (depth + 1) result }
{
    let generation = generation_at(&parts.heap, root);
    let main = main_at(&parts.heap, indirection);
    let flag = flag_of(parts.key_hash(key), depth);
    let position = position_of(flag, bitmap_at(&parts.heap, main));
    let entry = entry_at(&parts.heap, main, position);
    if !is_old(&parts.heap, entry, generation) {
        return entry;
    }
    let steps = renew(&mut parts.heap, generation, indirection, main);
    parts.steps += steps;
    let fresh = main_at(&parts.heap, indirection);
    entry_at(&parts.heap, fresh, position)
}

/// Goes down to the key's place, and renews each branch whose entry on the way is of another generation. It gives the place
/// below the indirection that stands there then.
pub fn renew_down(parts: &mut Parts, root: Ref, key: u64, place: Place) -> Place
    requires on { (start : State) × (actor : ℕ) × (call : ACall) × (key ≡ key_of call) × IsOn start parts.old actor call root place (node_at parts.old.heap.heap place.main) 0 root }
    ensures same { result ≡ record place { indirection = result.indirection } }
    ensures on { (start : State) (actor : ℕ) (call : ACall) → key ≡ key_of call → IsOn start parts.old actor call root place (node_at parts.old.heap.heap place.main) 0 root →
        IsOn start parts.new actor call root place (node_at parts.old.heap.heap place.main) place.depth result.indirection }
{
    let mut indirection = root;
    for depth in 0..place.depth {
        indirection = go_below(parts, root, key, depth, indirection);
    }
    Place {
        indirection,
        ..place
    }
}
