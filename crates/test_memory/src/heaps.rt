//! A slot's way through limbo, against numbers worked by hand.

ghost use Rattle.std.specs.Prelude.{◌≡◌, ◌≤◌, ◌∷◌, length};
ghost use Rattle.slot_arena.specs.Heaps.{refs_of_node};
ghost use Rattle.slot_arena.specs.Arenas.{AreLive, IsLive};

use epochs::{Heap, Swept};
use slot_arena::{Node, Ref};
use std::process::Abort;
use std::test::Fail;

/// A slot with this node, held.
fn made(rt: &impl Abort, heap: &mut Heap, node: Node) -> Ref
    requires { AreLive heap.old.heap (refs_of_node node) }
    ensures live { IsLive heap.new.heap result }
    ensures stay { (q : Ref) → IsLive heap.old.heap q → IsLive heap.new.heap q }
    ensures held { heap.new.outside ≡ result ∷ heap.old.outside }
{
    assert!(rt; heap.births() < 4);
    heap.make_held(node).expect(rt, "a slot is free")
}

/// A slot with a single, held.
fn single(rt: &impl Abort, heap: &mut Heap) -> Ref
    ensures live { IsLive heap.new.heap result }
    ensures held { heap.new.outside ≡ result ∷ heap.old.outside }
{
    made(rt, heap, Node::Single { key: 7, value: 70 })
}

/// A slot with a single, let go.
fn dropped(rt: &impl Abort, heap: &mut Heap) {
    let at = single(rt, heap);
    heap.release(at);
}

/// A tomb, and an indirection to it.
fn tomb_and_above(rt: &impl Abort, heap: &mut Heap) -> (Ref, Ref)
    ensures tomb { IsLive heap.new.heap result.0 }
    ensures above { IsLive heap.new.heap result.1 }
{
    let leaf = single(rt, heap);
    let tomb = made(rt, heap, Node::Tomb { single: leaf });
    let above = made(
        rt,
        heap,
        Node::Indirection {
            generation: 7,
            main: tomb,
        },
    );
    (tomb, above)
}

/// Holds a slot once more, where few are held.
#[tactic(auto, using(slot_arena::proofs::Times::times_le))]
fn hold(heap: &mut Heap, at: Ref)
    requires live { IsLive heap.old.heap at }
    requires few { length heap.old.outside ≤ 3 }
    ensures heap { heap.new.heap ≡ heap.old.heap }
    ensures outside { heap.new.outside ≡ at ∷ heap.old.outside }
{
    heap.hold(at);
}

/// A step of the sweep, where all is settled.
fn sweep(rt: &impl Abort, heap: &mut Heap) -> Swept
    ensures { length heap.new.pins ≡ length heap.old.pins }
{
    heap.settle();
    assert!(rt; heap.epoch() < 4);
    heap.sweep()
}

#[test]
fn enters_limbo(rt: HostRuntime) -> Result<(), Fail> {
    let mut heap = Heap::new(rt.alloc(), 4, 1)?;
    dropped(&rt, &mut heap);
    heap.settle();
    assert_eq!(rt; heap.limbo_len(), 1);
    assert_eq!(rt; heap.used(), 1);
    Ok(())
}

#[test]
fn frees_after_two_epochs(rt: HostRuntime) -> Result<(), Fail> {
    let mut heap = Heap::new(rt.alloc(), 4, 1)?;
    dropped(&rt, &mut heap);
    for epoch in 0..2u64 {
        assert_eq!(rt; sweep(&rt, &mut heap), Swept::Scanned { passed: true });
        assert_eq!(rt; sweep(&rt, &mut heap), Swept::Advanced(epoch + 1));
    }
    assert_eq!(rt; sweep(&rt, &mut heap), Swept::Freed);
    heap.settle();
    assert_eq!(rt; heap.limbo_len(), 0);
    assert_eq!(rt; heap.free_slots(), 4);
    Ok(())
}

#[test]
fn holds_back_by_pins(rt: HostRuntime) -> Result<(), Fail> {
    let mut heap = Heap::new(rt.alloc(), 4, 1)?;
    heap.pin(1);
    assert_eq!(rt; sweep(&rt, &mut heap), Swept::Scanned { passed: true });
    assert_eq!(rt; sweep(&rt, &mut heap), Swept::Advanced(1));
    assert_eq!(rt; sweep(&rt, &mut heap), Swept::Scanned { passed: false });
    heap.unpin(1);
    assert_eq!(rt; sweep(&rt, &mut heap), Swept::Scanned { passed: true });
    Ok(())
}

#[test]
fn holds_back_by_references(rt: HostRuntime) -> Result<(), Fail> {
    let mut heap = Heap::new(rt.alloc(), 4, 1)?;
    let leaf = single(&rt, &mut heap);
    hold(&mut heap, leaf);
    heap.release(leaf);
    heap.settle();
    assert_eq!(rt; heap.limbo_len(), 0);
    heap.release(leaf);
    heap.settle();
    assert_eq!(rt; heap.limbo_len(), 1);
    Ok(())
}

#[test]
fn counts_references(rt: HostRuntime) -> Result<(), Fail> {
    let mut heap = Heap::new(rt.alloc(), 4, 1)?;
    let (tomb, above) = tomb_and_above(&rt, &mut heap);
    assert_eq!(rt; heap.count(tomb), 2);
    assert_eq!(rt; heap.count(above), 1);
    assert_eq!(rt; heap.used(), 3);
    Ok(())
}

fn crosses_threads<T: Send + Sync>(_value: &T) {}

#[test]
fn goes_to_other_threads(rt: HostRuntime) -> Result<(), Fail> {
    crosses_threads(&Heap::new(rt.alloc(), 2, 1)?);
    Ok(())
}
