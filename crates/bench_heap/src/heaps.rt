//! A heap at work.

ghost use Rattle.std.specs.Prelude.{◌≡◌, ◌∷◌, ◌≤◌, [], List, length, IfOk, OnOk, IfSome};
ghost use Rattle.slot_arena.specs.declared.refs.Ref.{Ref};
ghost use Rattle.slot_arena.specs.Arenas.{AreLive, IsLive};

use crate::arenas::{MOST_BIRTHS, SPARE, single};
use ctrie_base::Refusal;
use epochs::Heap;
use slot_arena::{Node, NodeRef, Ref};
use std::alloc::Global;

/// A heap of this many slots with singles in all but a few, all of them in limbo, and the references to them.
pub(crate) fn new_heap(alloc: Global, slots: u32) -> Result<(Heap, Vec<Ref>), Refusal>
    ensures live { IfOk result (λ made. AreLive made.0.heap made.1.items) }
    ensures free { IfOk result (λ made. made.0.outside ≡ []) }
{
    let mut heap = Heap::new(alloc, slots, 1)?;
    let mut refs = Vec::new(alloc);
    for key in SPARE..slots {
        add_single(&mut heap, &mut refs, key)?;
    }
    heap.settle();
    Ok((heap, refs))
}

/// Makes a single more, where there is a slot for it, and lets it go.
fn add_single(heap: &mut Heap, refs: &mut Vec<Ref>, key: u32) -> Result<(), Refusal>
    requires live { AreLive heap.old.heap refs.old.items }
    requires free { heap.old.outside ≡ [] }
    ensures live { OnOk result (AreLive heap.new.heap refs.new.items) }
    ensures free { OnOk result (heap.new.outside ≡ []) }
{
    if heap.births() >= MOST_BIRTHS {
        return Ok(());
    }
    if let Some(at) = heap.make_held(single(key)) {
        heap.release(at);
        refs.push(at)?;
    }
    Ok(())
}

/// Looks at slots one after the other, this many times; the sum of their keys.
pub(crate) fn look(heap: &Heap, refs: &[Ref], count: u32) -> u64
    requires { AreLive heap.now.heap refs.now }
{
    let mut sum = 0u64;
    let mut from = 0;
    for _ in 0..count {
        if from >= refs.len() {
            from = 0;
        }
        sum = sum.wrapping_add(key_of(heap, refs, from));
        from += 1;
    }
    sum
}

/// The key of the single to which this reference leads.
fn key_of(heap: &Heap, refs: &[Ref], index: usize) -> u64
    requires { AreLive heap.now.heap refs.now }
{
    if index >= refs.len() {
        return 0;
    }
    match heap.look(refs[index]) {
        NodeRef::Single { key, .. } => key,
        _ => 0,
    }
}

/// The same by looks that ask for nothing.
pub(crate) fn look_stored(heap: &Heap, refs: &[Ref], count: u32) -> u64 {
    let mut sum = 0u64;
    let mut from = 0;
    for _ in 0..count {
        if from >= refs.len() {
            from = 0;
        }
        sum = sum.wrapping_add(stored_key_of(heap, refs, from));
        from += 1;
    }
    sum
}

/// The key of the single that is stored where this reference leads.
fn stored_key_of(heap: &Heap, refs: &[Ref], index: usize) -> u64 {
    if index >= refs.len() {
        return 0;
    }
    match heap.stored_node(refs[index]) {
        Some(NodeRef::Single { key, .. }) => key,
        _ => 0,
    }
}

/// How the main word of an indirection changes.
#[derive(Clone, Copy)]
pub(crate) enum MainChange {
    /// It is swapped.
    Swap,
    /// Another main node is published in it.
    Publish,
}

/// Changes the main word of an indirection, this many times, to one reference after the other. Whether all
/// was done.
pub(crate) fn change_main(heap: &mut Heap, refs: &[Ref], count: u32, by: MainChange) -> bool
    requires { AreLive heap.old.heap refs.now }
    ensures { AreLive heap.new.heap refs.now }
{
    let Some(indirection) = new_indirection(heap, refs) else {
        return false;
    };
    let mut all = true;
    let mut from = 0;
    for _ in 0..count {
        if from >= refs.len() {
            from = 0;
        }
        all &= change_once(heap, indirection, refs, from, by);
        from += 1;
    }
    all
}

/// An indirection to the first one.
fn new_indirection(heap: &mut Heap, refs: &[Ref]) -> Option<Ref>
    requires { AreLive heap.old.heap refs.now }
    ensures live { AreLive heap.new.heap refs.now }
    ensures made { IfSome result (IsLive heap.new.heap) }
{
    if heap.births() >= MOST_BIRTHS || refs.is_empty() {
        return None;
    }
    heap.make_held(Node::Indirection {
        generation: 0,
        main: refs[0],
    })
}

/// Changes its main word once, to this reference.
fn change_once(
    heap: &mut Heap,
    indirection: Ref,
    refs: &[Ref],
    index: usize,
    by: MainChange,
) -> bool
    requires indirection { IsLive heap.old.heap indirection }
    requires live { AreLive heap.old.heap refs.now }
    ensures indirection { IsLive heap.new.heap indirection }
    ensures live { AreLive heap.new.heap refs.now }
{
    if index >= refs.len() {
        return false;
    }
    let from = match heap.look(indirection) {
        NodeRef::Indirection { main, .. } => *main,
        _ => return false,
    };
    match by {
        MainChange::Swap => heap.swap_main(indirection, from, refs[index]),
        MainChange::Publish => heap.publish(indirection, from, refs[index]),
    }
}

/// Settles this many times with nothing to settle.
pub(crate) fn settle(heap: &mut Heap, count: u32)
    ensures heap { heap.new.heap ≡ heap.old.heap }
    ensures outside { heap.new.outside ≡ heap.old.outside }
{
    for _ in 0..count {
        heap.settle();
    }
}

/// This many times: holds four slots and settles, so that they leave limbo, and releases them and settles,
/// so that they enter it again. Whether all was done.
pub(crate) fn hold_and_release(heap: &mut Heap, refs: &[Ref], count: u32) -> bool
    requires live { AreLive heap.old.heap refs.now }
    requires free { heap.old.outside ≡ [] }
    ensures { AreLive heap.new.heap refs.now }
{
    let mut all = true;
    let mut from = 0;
    for _ in 0..count {
        if refs.len() < 4 || refs.len() - 4 <= from {
            from = 0;
        }
        all &= hold_and_release_four(heap, refs, from);
        from += 1;
    }
    all
}

/// The same once, with the four from this one on.
fn hold_and_release_four(heap: &mut Heap, refs: &[Ref], from: usize) -> bool
    requires live { AreLive heap.old.heap refs.now }
    requires free { heap.old.outside ≡ [] }
    ensures live { AreLive heap.new.heap refs.now }
    ensures free { heap.new.outside ≡ [] }
{
    if refs.len() < 4 || refs.len() - 4 < from {
        return false;
    }
    let (a, b, c, d) = (refs[from], refs[from + 1], refs[from + 2], refs[from + 3]);
    hold(heap, a);
    hold(heap, b);
    hold(heap, c);
    hold(heap, d);
    heap.settle();
    heap.release(d);
    heap.release(c);
    heap.release(b);
    heap.release(a);
    heap.settle();
    true
}

/// Holds a slot, where few are held.
#[tactic(auto, using(slot_arena::proofs::Times::times_le))]
fn hold(heap: &mut Heap, at: Ref)
    requires live { IsLive heap.old.heap at }
    requires few { length heap.old.outside ≤ 3 }
    ensures heap { heap.new.heap ≡ heap.old.heap }
    ensures outside { heap.new.outside ≡ at ∷ heap.old.outside }
{
    heap.hold(at);
}
