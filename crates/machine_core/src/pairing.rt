//! A key is put in where the single of another key stands: both get a main node, this many levels below, and a way down to it.

ghost use Rattle.std.specs.Prelude.{◌≡◌, ◌+◌, ◌-◌, ◌*◌, ◌<◌, ◌≤◌, ℕ};
ghost use Rattle.ctrie_base.specs.Hashes.{hash_of};
ghost use Rattle.slot_arena.specs.Arenas.{AreLive, IsLive};
ghost use Rattle.slot_arena.specs.Heaps.{entry_at, generation_at, node_at, refs_of_node};
ghost use Rattle.slot_arena.specs.declared.refs.Ref.{Ref as ARef};
ghost use Rattle.nodes.specs.Levels.{flag_of};
ghost use Rattle.history.specs.declared.calls.Call.{Call};
ghost use Rattle.machine_model.specs.Building.{key_in};
ghost use Rattle.machine_model.specs.Calls.{key_of, value_of};
ghost use Rattle.machine_model.specs.States.{State, key_hash};
ghost use Rattle.machine_core.specs.Beneath.proof_straight.specs.Changes.{with_links};
ghost use Rattle.machine_core.specs.Beneath.proof_straight.specs.Drafts.{Draft, first_draft, with_made};
ghost use Rattle.machine_core.specs.Descending.{IsHere};
ghost use Rattle.proof_core.specs.Drafting.{CanSwap, IsDraft, KeepsRecords};
ghost use Rattle.machine_core.specs.Pairing.{CanMake, IsMade, IsPaired, Makes};
ghost use Rattle.machine_core.specs.declared.descending.Entry.TheVariants.{Other};

use crate::descending::Place;
use crate::drafting::{make, swap_changed};
use arrayvec::ArrayVec;
use ctrie_base::HashKind;
use epochs::Heap;
use machine_model::Change;
use nodes::{dual, list_depth, parting, rung};
use running::{entry_at, key_at};
use slot_arena::{Node, Ref};

/// The slots that a call has made: at most two for each level, two more, and the topmost indirection; or an indirection for
/// each entry of a branch, and the new branch.
pub type Made = ArrayVec<Ref, 33>;

/// Makes a node, and holds it with those made before.
pub fn make_more(heap: &mut Heap, made: &mut Made, node: Node) -> Ref
    requires can { CanMake heap.old made.old.items 1 }
    requires live { AreLive heap.old.heap (refs_of_node node) }
    ensures drafts { (state : State) (draft : Draft) (newest : ARef) → IsMade state draft heap.old made.old.items newest → IsMade state (with_made state draft node) heap.new made.new.items result }
    ensures makes { Makes 1 heap.old made.old.items heap.new made.new.items }
    ensures lives { IsLive heap.new.heap result }
{
    let fresh = make(heap, node);
    made.push(fresh);
    fresh
}

/// Makes an indirection over a main node that was made for this depth, and the way down to it: a branch of one entry for each
/// depth between, and an indirection over that. It gives the topmost one, which is for the depth `from`.
fn link_down(
    heap: &mut Heap,
    made: &mut Made,
    generation: u64,
    hash: u64,
    from: usize,
    depth: usize,
    main: Ref,
) -> Ref
    requires below { from ≤ depth }
    requires can { CanMake heap.old made.old.items (2 * (depth - from) + 1) }
    requires live { IsLive heap.old.heap main }
    ensures drafts { (state : State) (call : Call) (root : ARef) (draft : Draft) (levels : ℕ) → IsMade state draft heap.old made.old.items main → generation_at state.heap root ≡ generation →
        key_hash state (key_of call) ≡ hash → depth ≡ from + levels → IsMade state (with_links state call root from levels draft) heap.new made.new.items result }
    ensures makes { Makes (2 * (depth - from) + 1) heap.old made.old.items heap.new made.new.items }
    ensures lives { IsLive heap.new.heap result }
{
    let mut link = make_more(heap, made, Node::Indirection { generation, main });
    let mut at = depth;
    while at > from {
        at -= 1;
        let above = make_more(heap, made, rung(hash, at, link));
        link = make_more(
            heap,
            made,
            Node::Indirection {
                generation,
                main: above,
            },
        );
    }
    link
}

/// The hash of a single's key.
fn hash_at(heap: &Heap, hashes: HashKind, single: Ref) -> u64
    ensures { result ≡ hash_of hashes (key_in (node_at heap.now.heap single)) }
{
    hashes.hash(key_at(heap, single))
}

/// Puts a single of the key beside that of another key, where the way down ends. It returns how many levels below both stand.
pub fn put_beside(
    heap: &mut Heap,
    hashes: HashKind,
    generation: u64,
    place: Place,
    key: u64,
    value: u64,
) -> u64
    requires can { CanSwap heap.old.heap place.indirection place.main 28 }
    requires here { IsHere heap.old.heap place.main place.flag key place.position place.entry }
    requires other { place.entry ≡ Other }
    requires old { IsLive heap.old.heap (entry_at heap.old.heap place.main place.position) }
    requires lit { 0 < place.flag }
    requires shallow { place.depth < 15 }
    ensures drafts { (state : State) (call : Call) (root : ARef) → IsDraft state (first_draft state) heap.old → key_of call ≡ key → value_of call ≡ value →
        place.flag ≡ flag_of (key_hash state key) place.depth → state.limits.hash ≡ hashes → generation_at state.heap root ≡ generation →
        IsPaired state call root place.depth place.indirection place.position result heap.new }
    ensures few { result ≤ 12 }
    ensures records { KeepsRecords heap.old heap.new }
{
    let old = entry_at(heap, place.main, place.position);
    let old_hash = hash_at(heap, hashes, old);
    let hash = hashes.hash(key);
    let from = place.depth + 1;
    let depth = parting(old_hash, hash, from, list_depth(hashes));
    let mut made = ArrayVec::new();
    let single = make_more(heap, &mut made, Node::Single { key, value });
    let both = make_more(
        heap,
        &mut made,
        dual(hashes, depth, old_hash, hash, old, single),
    );
    let top = link_down(heap, &mut made, generation, hash, from, depth, both);
    let change = Change::Update {
        position: place.position,
        entry: top,
    };
    swap_changed(
        heap,
        place.indirection,
        place.main,
        place.flag,
        change,
        made.as_slice(),
    );
    (depth - from) as u64
}
