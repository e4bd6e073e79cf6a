//! The change of a key, where the way down to it ends.

ghost use Rattle.std.specs.Prelude.{◌≡◌, ◌<◌, ◌≤◌, ℕ, IfSome};
ghost use Rattle.history.specs.declared.calls.Call.{Call};
ghost use Rattle.slot_arena.specs.Heaps.{main_at};
ghost use Rattle.machine_model.specs.declared.building.Change.TheVariants as change;
ghost use Rattle.machine_core.specs.Beneath.proof_straight.specs.Places.{Leaves};
ghost use Rattle.machine_core.specs.Beneath.nodes.specs.Levels.{flag_of};
ghost use Rattle.machine_model.specs.Calls.{key_of, value_of};
ghost use Rattle.machine_model.specs.States.{State, key_hash};
ghost use Rattle.machine_core.specs.Beneath.proof_straight.specs.Changes.{with_change, with_single};
ghost use Rattle.machine_core.specs.Beneath.proof_straight.specs.Drafts.{first_draft};
ghost use Rattle.machine_core.specs.Beneath.trie_parts.specs.Tasks.{call_of};
ghost use Rattle.machine_core.specs.Changing.{IsDeed, putting};
ghost use Rattle.machine_core.specs.Descending.{IsHere};
ghost use Rattle.proof_core.specs.Drafting.{CanSwap, IsDraft, KeepsRecords};

use crate::descending::{Entry, Place};
use crate::drafting::{make, swap_changed};
use epochs::Heap;
use machine_model::Change;
use running::{
    KeyCall, KeyReply, Todo, absent_reply, changed_reply, entries_at, entry_at, inserts, node_at,
    when_found,
};
use slot_arena::{Node, NodeRef, Ref};

/// What a call does where the way down to its key ends, and what it answers then.
#[derive(Clone, Copy)]
pub enum Deed {
    /// It answers this, and changes nothing.
    Answers(KeyReply),
    /// It puts a single of its key with this value there.
    Puts { value: u64, reply: KeyReply },
    /// It takes its key out.
    Removes { reply: KeyReply },
    /// It puts its key with this value beside the single of another key, whose way parts from its own further down.
    Parts { value: u64, reply: KeyReply },
}

/// What the call does where this stands for its key.
#[inline(always)]
pub fn deed_of(call: KeyCall, entry: Entry) -> Deed
    ensures { (handle : ℕ) → IsDeed (call_of handle call) entry result }
{
    match entry {
        Entry::Own(value) => match when_found(call, value) {
            Todo::Answer(answer) => Deed::Answers(answer),
            Todo::Set => Deed::Puts {
                value: call.value(),
                reply: changed_reply(call, Some(value)),
            },
            Todo::Remove => Deed::Removes {
                reply: changed_reply(call, Some(value)),
            },
        },
        Entry::Vacant => {
            if inserts(call) {
                Deed::Puts {
                    value: call.value(),
                    reply: changed_reply(call, None),
                }
            } else {
                Deed::Answers(absent_reply(call))
            }
        }
        Entry::Other => {
            if inserts(call) {
                Deed::Parts {
                    value: call.value(),
                    reply: changed_reply(call, None),
                }
            } else {
                Deed::Answers(absent_reply(call))
            }
        }
    }
}

/// How many entries more are looked at to see that more than a single is left where the key's own is taken out; none where
/// less is left.
pub fn more_looks(heap: &Heap, place: &Place) -> Option<u64>
    requires main { place.now.main ≡ main_at heap.now.heap place.now.indirection }
    requires here { (key : ℕ) × IsHere heap.now.heap place.now.main place.now.flag key place.now.position place.now.entry }
    ensures { IfSome result (λ more. (more ≤ 1) × Leaves heap.now.heap place.now.depth place.now.indirection place.now.position more) }
{
    if place.depth == 0 || entries_at(heap, place.main).len() != 2 {
        return Some(0);
    }
    let other = entry_at(heap, place.main, 1usize.saturating_sub(place.position));
    match node_at(heap, other) {
        Some(NodeRef::Indirection { .. }) => Some(1),
        _ => None,
    }
}

/// The change that puts a single where the way down ends.
fn putting(entry: Entry, position: usize, single: Ref) -> Change
    ensures { result ≡ putting entry position single }
{
    match entry {
        Entry::Vacant => Change::Insert { single },
        Entry::Own(_) | Entry::Other => Change::Update {
            position,
            entry: single,
        },
    }
}

/// Puts a single of the key where the way down ends.
pub fn put_single(heap: &mut Heap, place: Place, key: u64, value: u64)
    requires can { CanSwap heap.old.heap place.indirection place.main 2 }
    requires lit { 0 < place.flag }
    requires here { IsHere heap.old.heap place.main place.flag key place.position place.entry }
    ensures drafts { (state : State) (call : Call) → IsDraft state (first_draft state) heap.old → key_of call ≡ key → value_of call ≡ value → place.flag ≡ flag_of (key_hash state key) place.depth →
        IsDraft state (with_change state call place.depth place.indirection (with_single state call) (putting place.entry place.position (with_single state call).newest)) heap.new }
    ensures records { KeepsRecords heap.old heap.new }
{
    let single = make(heap, Node::Single { key, value });
    let change = putting(place.entry, place.position, single);
    swap_changed(
        heap,
        place.indirection,
        place.main,
        place.flag,
        change,
        &[single],
    );
}

/// Takes the key's own single out where the way down ends.
pub fn take_out(heap: &mut Heap, place: Place)
    requires can { CanSwap heap.old.heap place.indirection place.main 1 }
    requires lit { 0 < place.flag }
    requires here { (key : ℕ) × IsHere heap.old.heap place.main place.flag key place.position place.entry }
    ensures drafts { (state : State) (call : Call) → IsDraft state (first_draft state) heap.old → place.flag ≡ flag_of (key_hash state (key_of call)) place.depth →
        IsDraft state (with_change state call place.depth place.indirection (first_draft state) (change.Remove place.position)) heap.new }
    ensures records { KeepsRecords heap.old heap.new }
{
    let change = Change::Remove {
        position: place.position,
    };
    swap_changed(heap, place.indirection, place.main, place.flag, change, &[]);
}
