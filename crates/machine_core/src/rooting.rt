//! What a call that runs alone changes of root words: a root of a new generation is made, and swapped in by an offer.

ghost use Rattle.std.specs.Prelude.{◌≡◌, ◌+◌, ◌<◌, ◌≤◌, ◌^◌, ◌∷◌, [], None, length};
ghost use Rattle.slot_arena.specs.Arenas.{AreLive, IsLive};
ghost use Rattle.slot_arena.specs.Heaps.{taken};
ghost use Rattle.slot_arena.specs.Refs.{birth_limit};
ghost use Rattle.slot_arena.specs.declared.nodes.Node.TheVariants.{Indirection};
ghost use Rattle.slot_arena.specs.declared.refs.Ref.{Ref as ARef};
ghost use Rattle.machine_model.specs.Acting.{opened};
ghost use Rattle.machine_model.specs.Counting.{refs_of_word};
ghost use Rattle.machine_model.specs.States.{State, root_at, with_root};
ghost use Rattle.machine_model.specs.declared.roots.RootWord.{RootWord as AWord};
ghost use Rattle.machine_core.specs.Beneath.proof_straight.specs.Copies.{Course, with_new_root, with_offer};
ghost use Rattle.machine_core.specs.Beneath.proof_straight.specs.Drafts.{Draft, next_made, redrafted};
ghost use Rattle.epochs.specs.Memories.{KeepsEpochs};
ghost use Rattle.slot_arena.specs.Times.{times};
ghost use Rattle.machine_core.specs.Beneath.rdcss_root.specs.Holding.{IsReady, root_refs};
ghost use Rattle.machine_core.specs.Beneath.rdcss_root.specs.Tables.{opened_in, with_root_in};
ghost use Rattle.proof_core.specs.Drafting.{IsDraft, KeepsRecords};
ghost use Rattle.proof_core.specs.Numbering.{reserved};
ghost use Rattle.machine_core.specs.Rooting.{HoldsBeside, IsCourse, writable};

use crate::drafting::make;
use crate::handles::reserve;
use crate::parts::Parts;
use epochs::Heap;
use history::Access;
use machine_model::{Descriptor, Root, RootWord};
use running::{Roots, opened_root, release_all};
use slot_arena::{Node, Ref};

/// Makes a root of the next generation over a main node, and holds it.
pub fn make_root(parts: &mut Parts, main: Ref) -> Ref
    requires free { 1 ≤ length parts.old.heap.heap.free }
    requires births { parts.old.heap.heap.births + 1 < birth_limit }
    requires generations { parts.old.generations + 1 < 2 ^ 64 }
    requires live { AreLive parts.old.heap.heap (main ∷ []) }
    ensures courses { (course : Course) → IsCourse course parts.old → IsCourse (with_new_root course main) parts.new }
    ensures made { result ≡ next_made parts.old.heap.heap }
    ensures heap { parts.new.heap.heap ≡ taken parts.old.heap.heap (Indirection parts.old.generations main) }
    ensures outside { parts.new.heap.outside ≡ result ∷ parts.old.heap.outside }
    ensures lives { IsLive parts.new.heap.heap result }
    ensures stay { (q : ARef) → IsLive parts.old.heap.heap q → IsLive parts.new.heap.heap q }
    ensures records { KeepsRecords parts.old.heap parts.new.heap }
    ensures same { parts.new ≡ record parts.old { heap = parts.new.heap; generations = parts.old.generations + 1 } }
{
    let root = make(
        &mut parts.heap,
        Node::Indirection {
            generation: parts.generations,
            main,
        },
    );
    parts.generations += 1;
    root
}

/// A writable handle with this root word.
fn writable(word: RootWord) -> Option<Root>
    ensures { result ≡ writable word }
{
    Some(Root {
        access: Access::Writable,
        word,
    })
}

/// Puts an offer into the root word of a writable handle. What was made for it is held no more.
fn put_offer(heap: &mut Heap, table: &mut Roots, handle: u16, offer: &Descriptor, made: &[Ref])
    requires live { AreLive heap.old.heap (refs_of_word (RootWord.Offer offer.now)) }
    requires holds { HoldsBeside heap.old table.old.roots made.now 12 }
    ensures drafts { (base : State) (draft : Draft) → IsDraft base draft heap.old → base.roots ≡ table.old.roots → draft.private ≡ made.now →
        (let now = with_root base handle (writable (RootWord.Offer offer.now)) in IsDraft now (redrafted now draft draft.heap [] draft.newest) heap.new) }
    ensures holds { HoldsBeside heap.new table.new.roots [] 8 }
    ensures table { table.new ≡ with_root_in table.old handle (writable (RootWord.Offer offer.now)) }
    ensures heap { heap.new.heap ≡ heap.old.heap }
    ensures records { KeepsRecords heap.old heap.new }
{
    table.put(heap, handle, writable(RootWord::Offer(*offer)));
    release_all(heap, made);
    heap.settle();
}

/// Opens the handle that an offer is to open.
fn open_handle(heap: &mut Heap, table: &mut Roots, offer: &Descriptor)
    requires live { AreLive heap.old.heap (refs_of_word (RootWord.Offer offer.now)) }
    requires ready { IsReady heap.old table.old.roots 4 }
    ensures outside { (r : ARef) → times r heap.new.outside + times r (root_refs table.old.roots) ≡ times r heap.old.outside + times r (root_refs table.new.roots) }
    ensures table { table.new ≡ opened_in table.old offer.now offer.now.opens }
    ensures heap { heap.new.heap ≡ heap.old.heap }
    ensures epochs { KeepsEpochs heap.old heap.new }
{
    if let Some(opened) = offer.opens {
        table.put(heap, opened, Some(opened_root(offer)));
    }
}

/// Carries an offer out: its successor comes to stand, and the handle that it opens is open.
fn carry_out_offer(heap: &mut Heap, table: &mut Roots, handle: u16, offer: &Descriptor)
    requires live { AreLive heap.old.heap (refs_of_word (RootWord.Offer offer.now)) }
    requires holds { HoldsBeside heap.old table.old.roots [] 8 }
    ensures drafts { (base : State) (draft : Draft) → IsDraft base draft heap.old → base.roots ≡ table.old.roots → draft.private ≡ [] →
        (let now = opened (with_root base handle (writable (RootWord.Plain offer.now.successor))) offer.now offer.now.opens in
        IsDraft now (redrafted now draft draft.heap [] draft.newest) heap.new) }
    ensures table { table.new ≡ opened_in (with_root_in table.old handle (writable (RootWord.Plain offer.now.successor))) offer.now offer.now.opens }
    ensures records { KeepsRecords heap.old heap.new }
{
    table.put(heap, handle, writable(RootWord::Plain(offer.successor)));
    open_handle(heap, table, offer);
    heap.settle();
}

/// Swaps the root of a writable handle for the offer's successor, and opens the handle that the offer is to open. What was made
/// for it is held no more.
pub fn swap_root(parts: &mut Parts, handle: u16, offer: &Descriptor, made: &[Ref])
    requires live { AreLive parts.old.heap.heap (refs_of_word (RootWord.Offer offer.now)) }
    requires holds { HoldsBeside parts.old.heap parts.old.table.roots made.now 12 }
    ensures courses { (course : Course) (word : AWord) → IsCourse course parts.old → course.draft.private ≡ made.now → root_at course.base handle ≡ writable word →
        IsCourse (with_offer course handle offer.now) parts.new }
    ensures records { KeepsRecords parts.old.heap parts.new.heap }
    ensures table { parts.new.table ≡ record parts.old.table { roots = parts.new.table.roots } }
    ensures same { parts.new ≡ record parts.old { heap = parts.new.heap; table = parts.new.table; handles = reserved parts.old.handles offer.now.opens } }
{
    put_offer(&mut parts.heap, &mut parts.table, handle, offer, made);
    carry_out_offer(&mut parts.heap, &mut parts.table, handle, offer);
    reserve(&mut parts.handles, offer.opens);
}

/// Takes a handle away.
pub fn take_away(heap: &mut Heap, table: &mut Roots, handle: u16)
    requires holds { HoldsBeside heap.old table.old.roots [] 4 }
    ensures drafts { (base : State) (draft : Draft) → IsDraft base draft heap.old → base.roots ≡ table.old.roots → draft.private ≡ [] →
        (let now = with_root base handle None in IsDraft now (redrafted now draft draft.heap [] draft.newest) heap.new) }
    ensures table { table.new ≡ with_root_in table.old handle None }
    ensures records { KeepsRecords heap.old heap.new }
{
    table.put(heap, handle, None);
    heap.settle();
}
