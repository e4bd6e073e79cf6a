//! What a call that runs alone changes of the heap: nodes are made, and the last one is swapped in and committed. Limbo is
//! brought up to date after each.

ghost use Rattle.std.specs.Prelude.{◌≡◌, ◌+◌, ◌<◌, ◌≤◌, ◌∷◌, ◌++◌, [], true, length};
ghost use Rattle.slot_arena.specs.Heaps.{main_at, node_at, prev_at, refs_of_node, taken};
ghost use Rattle.slot_arena.specs.Arenas.{AreLive, IsLive, is_indirection, is_main_node};
ghost use Rattle.slot_arena.specs.declared.refs.Ref.{Ref as ARef};
ghost use Rattle.machine_model.specs.Building.{changed};
ghost use Rattle.machine_model.specs.States.{State};
ghost use Rattle.machine_core.specs.Beneath.proof_straight.specs.Drafts.{Draft, next_made, swapped_in, with_commit, with_made, with_published};
ghost use Rattle.machine_core.specs.Beneath.trie_parts.specs.Holding.{AreHeld};
ghost use Rattle.proof_core.specs.Drafting.{CanSwap, IsDraft, KeepsRecords};
ghost use Rattle.slot_arena.specs.Refs.{birth_limit};

use epochs::Heap;
use machine_model::Change;
use running::release_all;
use slot_arena::{Node, Prev, Ref};

/// Makes a node, and holds it.
#[inline(always)]
pub fn make(heap: &mut Heap, node: Node) -> Ref
    requires free { 1 ≤ length heap.old.heap.free }
    requires births { heap.old.heap.births + 1 < birth_limit }
    requires live { AreLive heap.old.heap (refs_of_node node) }
    ensures drafts { (state : State) (draft : Draft) → IsDraft state draft heap.old → IsDraft state (with_made state draft node) heap.new }
    ensures made { result ≡ next_made heap.old.heap }
    ensures heap { heap.new.heap ≡ taken heap.old.heap node }
    ensures outside { heap.new.outside ≡ result ∷ heap.old.outside }
    ensures lives { IsLive heap.new.heap result }
    ensures stay { (q : ARef) → IsLive heap.old.heap q → IsLive heap.new.heap q }
    ensures records { KeepsRecords heap.old heap.new }
{
    let Some(made) = heap.make_held(node) else {
        unreachable!()
    };
    heap.settle();
    made
}

/// Makes a main node, swaps it in over an indirection's main node, and commits it. What was made for it is held no more.
pub fn swap_in(heap: &mut Heap, indirection: Ref, main: Ref, node: Node, made: &[Ref])
    requires can { CanSwap heap.old.heap indirection main 1 }
    requires live { AreLive heap.old.heap (refs_of_node node) }
    requires kind { is_main_node node ≡ true }
    requires held { AreHeld made.now heap.old }
    ensures drafts { (state : State) (draft : Draft) → IsDraft state draft heap.old → draft.private ≡ made.now →
        IsDraft state (swapped_in state (with_made state draft node) indirection main) heap.new }
    ensures records { KeepsRecords heap.old heap.new }
{
    let fresh = make(heap, node);
    publish_made(heap, indirection, main, fresh, made);
    commit(heap, main, fresh);
}

/// Makes the main node after a change of this one, where `flag` is that of the call's key, and holds it.
pub fn make_changed(heap: &mut Heap, main: Ref, flag: u32, change: Change) -> Ref
    requires lit { 0 < flag }
    requires free { 1 ≤ length heap.old.heap.free }
    requires births { heap.old.heap.births + 1 < birth_limit }
    requires main_live { IsLive heap.old.heap main }
    requires live { AreLive heap.old.heap (refs_of_node (changed flag (node_at heap.old.heap main) change)) }
    ensures drafts { (state : State) (draft : Draft) → IsDraft state draft heap.old → IsDraft state (with_made state draft (changed flag (node_at heap.old.heap main) change)) heap.new }
    ensures made { result ≡ next_made heap.old.heap }
    ensures heap { heap.new.heap ≡ taken heap.old.heap (changed flag (node_at heap.old.heap main) change) }
    ensures outside { heap.new.outside ≡ result ∷ heap.old.outside }
    ensures lives { IsLive heap.new.heap result }
    ensures stay { (q : ARef) → IsLive heap.old.heap q → IsLive heap.new.heap q }
    ensures records { KeepsRecords heap.old heap.new }
{
    let Some(made) = running::make_changed(heap, main, flag, change) else {
        unreachable!()
    };
    heap.settle();
    made
}

/// Makes the main node after a change of an indirection's main node, swaps it in over that, and commits it. What was made for it is
/// held no more.
pub fn swap_changed(
    heap: &mut Heap,
    indirection: Ref,
    main: Ref,
    flag: u32,
    change: Change,
    made: &[Ref],
)
    requires lit { 0 < flag }
    requires can { CanSwap heap.old.heap indirection main 1 }
    requires live { AreLive heap.old.heap (refs_of_node (changed flag (node_at heap.old.heap main) change)) }
    requires kind { is_main_node (changed flag (node_at heap.old.heap main) change) ≡ true }
    requires held { AreHeld made.now heap.old }
    ensures drafts { (state : State) (draft : Draft) → IsDraft state draft heap.old → draft.private ≡ made.now →
        IsDraft state (swapped_in state (with_made state draft (changed flag (node_at heap.old.heap main) change)) indirection main) heap.new }
    ensures records { KeepsRecords heap.old heap.new }
{
    let fresh = make_changed(heap, main, flag, change);
    publish_made(heap, indirection, main, fresh, made);
    commit(heap, main, fresh);
}

/// Puts a node that was made in the place of an indirection's main node, pending over it, and gives up what was held.
#[inline(always)]
fn publish_made(heap: &mut Heap, indirection: Ref, main: Ref, fresh: Ref, made: &[Ref])
    requires live { IsLive heap.old.heap indirection }
    requires kind { is_indirection (node_at heap.old.heap indirection) ≡ true }
    requires over { main_at heap.old.heap indirection ≡ main }
    requires fresh_live { IsLive heap.old.heap fresh }
    requires fresh_kind { is_main_node (node_at heap.old.heap fresh) ≡ true }
    requires held { AreHeld (made.now ++ fresh ∷ []) heap.old }
    ensures drafts { (state : State) (draft : Draft) → IsDraft state draft heap.old → draft.private ≡ made.now ++ fresh ∷ [] → draft.newest ≡ fresh →
        IsDraft state (with_published state draft indirection main) heap.new }
    ensures lives { IsLive heap.new.heap fresh }
    ensures kind { is_main_node (node_at heap.new.heap fresh) ≡ true }
    ensures pending { prev_at heap.new.heap fresh ≡ Prev.Pending main }
    ensures records { KeepsRecords heap.old heap.new }
{
    let _ = heap.publish(indirection, main, fresh);
    release_all(heap, made);
    heap.release(fresh);
    heap.settle();
}

/// Commits a main node that is pending over another.
fn commit(heap: &mut Heap, main: Ref, fresh: Ref)
    requires live { IsLive heap.old.heap fresh }
    requires kind { is_main_node (node_at heap.old.heap fresh) ≡ true }
    requires pending { prev_at heap.old.heap fresh ≡ Prev.Pending main }
    ensures drafts { (state : State) (draft : Draft) → IsDraft state draft heap.old → draft.private ≡ [] → draft.newest ≡ fresh → IsDraft state (with_commit state draft) heap.new }
    ensures records { KeepsRecords heap.old heap.new }
{
    let _ = heap.swap_prev(fresh, Prev::Pending(main), Prev::None);
    heap.settle();
}
