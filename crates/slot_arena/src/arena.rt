//! The arena: slots, counts of references, free slots.

ghost use Rattle.std.specs.Prelude.{◌≡◌, ◌+◌, ◌<◌, ◌≤◌, ◌^◌, ◌==◌, ◌∷◌, ◌++◌, [], length, true, false, IsTrue, option_map, MatchOption, ◌↔◌, IfSome, IfOk, IfErr, ◌⊎◌, if◌then◌else◌};
ghost use Rattle.slot_arena.specs.Refs.{slot_of, birth_limit};
ghost use Rattle.slot_arena.specs.Heaps.{node_at, prev_at, main_at, refs_of_node, refs_of_prev, refs_of_option, stored, next_ref, taken, with_main, with_prev, freed};
ghost use Rattle.slot_arena.specs.Counts.{count_of};
ghost use Rattle.slot_arena.specs.Times.{times, without};
ghost use Rattle.slot_arena.specs.Ticking.{TakesUpTo};
ghost use Rattle.slot_arena.specs.Arenas.{IsLive, AreLive, is_live, waiting, is_indirection, is_main_node, NotesWaiting, NotesWaitingBut, new_arena, AreSlots};
ghost use Rattle.slot_arena.specs.Entries.{Fits, coming as coming_entries, changed_branch};
ghost use Rattle.slot_arena.specs.Views.{viewed};
ghost use Rattle.slot_arena.specs.WordSwaps.{coming, StandsIn, with_word};

use crate::cells::Cells;
use crate::entries::{EntryChange, joined};
use crate::free_slots::FreeSlots;
use crate::ledger::Ledger;
use crate::lists::TakenOut;
use crate::nodes::{Node, NodeRef, Prev, refs_in, refs_of, refs_of_prev};
use crate::refs::{MOST_SLOTS, Ref};
use crate::word_swaps::WordSwap;
use ctrie_base::{Refusal, Trace};
use std::alloc::Global;
use std::marker::Model;
use std::slice::from_ref;

/// Slots with nodes in them, each with its count of references. Where a call is handed a reference, that names a slot in use.
/// A call notes few slots (clauses `few`): its own, that of a `prev` word, at most 32 that a node names. It looks at few links, counts and notes (clauses `ticks`); what stands in a slot counts none.
pub struct Arena {
    pub(crate) cells: Cells,
    pub(crate) ledger: Ledger,
    pub(crate) free: FreeSlots,
    pub(crate) births: u64,
    pub(crate) used: u32,
    outside: Trace<Ref>,
}

impl Drop for Arena {
    fn drop(self) {
        let Arena {
            cells: _,
            ledger: _,
            free: _,
            births: _,
            used: _,
            outside: _,
        } = self;
    }
}

impl Model for Arena {
    ghost use Rattle.slot_arena.specs.Arenas.{Contents, contents_of};
    ghost use Rattle.slot_arena.specs.Kept.{IsKept, IsRising};
    ghost use Rattle.slot_arena.specs.Loans.{IsLending};

    ghost Value = { Contents };

    ghost view = { λ a. contents_of (record { slots = a.cells; free = a.free.slots; births = a.births }) a.outside.items a.free.ticks a.ledger.tally };

    ghost invariant = { λ a. IsKept a.cells a.ledger.tally.counts a.free a.used a.outside.items × IsLending a.cells a.ledger.loan × IsRising a.cells a.births };
}

impl Arena {
    /// An arena of this many slots, all free: from 2 to 1,048,576. All memory is taken here.
    pub fn new(alloc: Global, slots: u32) -> Result<Arena, Refusal>
        ensures made { IfOk result (λ arena. (arena ≡ new_arena slots) × AreSlots slots) }
        ensures refused { IfErr result (λ refusal. (refusal ≡ Refusal.BadLimits × ¬ AreSlots slots) ⊎ (refusal ≡ Refusal.Memory × AreSlots slots)) }
    {
        if slots < 2 || slots > MOST_SLOTS {
            return Err(Refusal::BadLimits);
        }
        Ok(Arena {
            cells: Cells::new(alloc, slots)?,
            ledger: Ledger::new(alloc, slots as usize)?,
            free: FreeSlots::new(alloc, slots)?,
            births: 0,
            used: 0,
            outside: Trace::new(),
        })
    }

    /// Takes the first free slot for a node, under a new birth, and holds it: it has one reference from outside; None where no slot is free.
    #[inline(always)]
    pub fn make_held(&mut self, node: Node) -> Option<Ref>
        requires births { self.old.heap.births + 1 < birth_limit }
        requires live { AreLive self.old.heap (refs_of_node node) }
        ensures made { result ≡ next_ref self.old.heap }
        ensures heap { self.new.heap ≡ taken self.old.heap node }
        ensures outside { self.new.outside ≡ refs_of_option result ++ self.old.outside }
        ensures lives { IfSome result (IsLive self.new.heap) }
        ensures fresh { IfSome result (λ r. is_live self.old.heap r ≡ false) }
        ensures stay { (q : Ref) → IsLive self.old.heap q → IsLive self.new.heap q }
        ensures noted { NotesWaiting self.old self.new }
        ensures few { length self.new.noted ≤ length self.old.noted + 32 }
        ensures ticks { TakesUpTo 36 self.old.ticks self.new.ticks }
    {
        let slot = self.free.take()?;
        self.ledger.raise_all(refs_of(&node));
        self.ledger.begin(slot);
        self.births += 1;
        self.used += 1;
        self.cells.fill(slot, self.births, node);
        let made = Ref::new(self.births, slot);
        self.outside = self.outside.with_first(&made);
        Some(made)
    }

    /// Takes the first free slot for a branch under a new birth, and holds it: it has this bitmap, and for its entries what a
    /// node refers to, with one of them changed. None where no slot is free.
    #[inline(always)]
    pub fn make_changed(&mut self, from: Ref, bitmap: u32, change: EntryChange) -> Option<Ref>
        requires births { self.old.heap.births + 1 < birth_limit }
        requires from_live { IsLive self.old.heap from }
        requires fits { Fits change (refs_of_node (node_at self.old.heap from)) }
        requires live { AreLive self.old.heap (coming_entries change) }
        ensures made { result ≡ next_ref self.old.heap }
        ensures heap { self.new.heap ≡ taken self.old.heap (changed_branch bitmap change (node_at self.old.heap from)) }
        ensures outside { self.new.outside ≡ refs_of_option result ++ self.old.outside }
        ensures lives { IfSome result (IsLive self.new.heap) }
        ensures fresh { IfSome result (λ r. is_live self.old.heap r ≡ false) }
        ensures stay { (q : Ref) → IsLive self.old.heap q → IsLive self.new.heap q }
        ensures noted { NotesWaiting self.old self.new }
        ensures few { length self.new.noted ≤ length self.old.noted + 32 }
        ensures ticks { TakesUpTo 36 self.old.ticks self.new.ticks }
    {
        if self.is_indirection(from) {
            return self.make_joined(from, bitmap, change);
        }
        let slot = self.free.take()?;
        let refs = refs_in(self.cells.node(from.slot()));
        self.ledger.raise_changed(from, refs, &change);
        self.ledger.begin(slot);
        self.births += 1;
        self.used += 1;
        let refs = self.ledger.lender_refs();
        self.cells
            .fill_changed(slot, self.births, bitmap, refs, &change);
        let made = Ref::new(self.births, slot);
        self.outside = self.outside.with_first(&made);
        Some(made)
    }

    /// Does what `make_changed` does, without a loan: an indirection lends nothing, since its main word may change.
    #[inline(never)]
    fn make_joined(&mut self, from: Ref, bitmap: u32, change: EntryChange) -> Option<Ref>
        requires births { self.old.heap.births + 1 < birth_limit }
        requires from_live { IsLive self.old.heap from }
        requires fits { Fits change (refs_of_node (node_at self.old.heap from)) }
        requires live { AreLive self.old.heap (coming_entries change) }
        ensures made { result ≡ next_ref self.old.heap }
        ensures heap { self.new.heap ≡ taken self.old.heap (changed_branch bitmap change (node_at self.old.heap from)) }
        ensures outside { self.new.outside ≡ refs_of_option result ++ self.old.outside }
        ensures lives { IfSome result (IsLive self.new.heap) }
        ensures fresh { IfSome result (λ r. is_live self.old.heap r ≡ false) }
        ensures stay { (q : Ref) → IsLive self.old.heap q → IsLive self.new.heap q }
        ensures noted { NotesWaiting self.old self.new }
        ensures few { length self.new.noted ≤ length self.old.noted + 32 }
        ensures ticks { TakesUpTo 36 self.old.ticks self.new.ticks }
    {
        let (front, back) = change.staying(refs_in(self.cells.node(from.slot())));
        let entries = joined(front, change.coming(), back);
        self.make_held(Node::Branch { bitmap, entries })
    }

    /// The node.
    pub fn look(&self, at: Ref) -> NodeRef<'_>
        requires { IsLive self.now.heap at }
        ensures { viewed result ≡ node_at self.now.heap at }
    {
        self.cells.node(at.slot())
    }

    /// Whether the node is an indirection.
    #[inline(always)]
    fn is_indirection(&self, at: Ref) -> bool
        requires { IsLive self.now.heap at }
        ensures { result ≡ is_indirection (node_at self.now.heap at) }
    {
        matches!(self.look(at), NodeRef::Indirection { .. })
    }

    /// The node that stands in the slot, whatever its birth, if the slot is in use.
    #[tactic(auto, unfolding(crate::specs::Heaps::stored))]
    pub fn stored_node(&self, at: Ref) -> Option<NodeRef<'_>>
        ensures { option_map viewed result ≡ option_map (λ slot. slot.node) (stored self.now.heap at) }
    {
        self.cells.stored_node(at.slot())
    }

    /// The `prev` word that stands in the slot, whatever its birth; None where the slot isn't in use.
    #[tactic(auto, unfolding(crate::specs::Heaps::prev_at, crate::specs::Heaps::stored))]
    pub fn stored_prev(&self, at: Ref) -> Prev
        ensures { result ≡ prev_at self.now.heap at }
    {
        self.cells.stored_prev(at.slot())
    }

    /// The main word of an indirection.
    pub fn main(&self, at: Ref) -> Ref
        requires live { IsLive self.now.heap at }
        requires kind { is_indirection (node_at self.now.heap at) ≡ true }
        ensures { result ≡ main_at self.now.heap at }
    {
        match self.look(at) {
            NodeRef::Indirection { main, .. } => *main,
            _ => unreachable!(),
        }
    }

    /// The `prev` word of a main node.
    pub fn prev(&self, at: Ref) -> Prev
        requires live { IsLive self.now.heap at }
        requires kind { is_main_node (node_at self.now.heap at) ≡ true }
        ensures { result ≡ prev_at self.now.heap at }
    {
        self.cells.prev(at.slot())
    }

    /// Where the main word of an indirection is `from` it becomes `to`. Returns whether it was.
    pub fn swap_main(&mut self, at: Ref, from: Ref, to: Ref) -> bool
        requires live { IsLive self.old.heap at }
        requires kind { is_indirection (node_at self.old.heap at) ≡ true }
        requires new_live { IsLive self.old.heap to }
        ensures was { result ≡ (main_at self.old.heap at == from) }
        ensures heap { self.new.heap ≡ (if result then with_main self.old.heap at to else self.old.heap) }
        ensures outside { self.new.outside ≡ self.old.outside }
        ensures stay { (q : Ref) → is_live self.new.heap q ≡ is_live self.old.heap q }
        ensures noted { NotesWaiting self.old self.new }
        ensures few { length self.new.noted ≤ length self.old.noted + 2 }
        ensures ticks { TakesUpTo 2 self.old.ticks self.new.ticks }
    {
        if self.main(at) != from {
            return false;
        }
        self.put_word(at, WordSwap::Main { from, to });
        true
    }

    /// Where the `prev` word of a main node is `from` it becomes `to`. Returns whether it was.
    pub fn swap_prev(&mut self, at: Ref, from: Prev, to: Prev) -> bool
        requires live { IsLive self.old.heap at }
        requires kind { is_main_node (node_at self.old.heap at) ≡ true }
        requires new_live { AreLive self.old.heap (refs_of_prev to) }
        ensures was { IsTrue result ↔ (prev_at self.old.heap at ≡ from) }
        ensures heap { self.new.heap ≡ (if result then with_prev self.old.heap at to else self.old.heap) }
        ensures outside { self.new.outside ≡ self.old.outside }
        ensures stay { (q : Ref) → is_live self.new.heap q ≡ is_live self.old.heap q }
        ensures noted { NotesWaiting self.old self.new }
        ensures few { length self.new.noted ≤ length self.old.noted + 2 }
        ensures ticks { TakesUpTo 2 self.old.ticks self.new.ticks }
    {
        if self.prev(at) != from {
            return false;
        }
        self.put_word(at, WordSwap::Prev { from, to });
        true
    }

    /// Replaces a word of a slot.
    #[inline(always)]
    fn put_word(&mut self, at: Ref, swap: WordSwap)
        requires live { IsLive self.old.heap at }
        requires stands { StandsIn self.old.heap at swap }
        requires new_live { AreLive self.old.heap (coming swap) }
        ensures heap { self.new.heap ≡ with_word self.old.heap at swap }
        ensures outside { self.new.outside ≡ self.old.outside }
        ensures stay { (q : Ref) → is_live self.new.heap q ≡ is_live self.old.heap q }
        ensures noted { NotesWaiting self.old self.new }
        ensures few { length self.new.noted ≤ length self.old.noted + 2 }
        ensures ticks { TakesUpTo 2 self.old.ticks self.new.ticks }
    {
        self.ledger.raise_all(swap.coming());
        self.ledger.lower_all(swap.going());
        self.cells.set_word(at.slot(), swap);
        self.ledger.settle(at);
    }

    /// Where an indirection's main word is `from`, it becomes `to`, `to` pending over `from`. Returns whether it was.
    #[inline(always)]
    pub fn publish(&mut self, at: Ref, from: Ref, to: Ref) -> bool
        requires live { IsLive self.old.heap at }
        requires kind { is_indirection (node_at self.old.heap at) ≡ true }
        requires new_live { IsLive self.old.heap to }
        ensures was { result ≡ (main_at self.old.heap at == from) }
        ensures heap { self.new.heap ≡ (if result then with_prev (with_main self.old.heap at to) to (Prev.Pending from) else self.old.heap) }
        ensures outside { self.new.outside ≡ self.old.outside }
        ensures stay { (q : Ref) → is_live self.new.heap q ≡ is_live self.old.heap q }
        ensures noted { NotesWaiting self.old self.new }
        ensures few { length self.new.noted ≤ length self.old.noted + 2 }
        ensures ticks { TakesUpTo 2 self.old.ticks self.new.ticks }
    {
        if self.main(at) != from {
            return false;
        }
        let was = self.cells.prev(to.slot());
        self.ledger.raise(to.slot());
        self.ledger.lower_all(refs_of_prev(&was));
        self.cells.set_main(at.slot(), to);
        self.cells.set_prev(to.slot(), Prev::Pending(from));
        self.ledger.settle(at);
        self.ledger.settle(to);
        true
    }

    /// One reference from outside the slots more.
    pub fn hold(&mut self, at: Ref)
        requires live { IsLive self.old.heap at }
        requires room { times at self.old.outside < 2 ^ 31 }
        ensures heap { self.new.heap ≡ self.old.heap }
        ensures outside { self.new.outside ≡ at ∷ self.old.outside }
        ensures noted { NotesWaiting self.old self.new }
        ensures few { length self.new.noted ≤ length self.old.noted + 1 }
        ensures ticks { self.new.ticks ≡ self.old.ticks + 1 }
    {
        self.ledger.raise_all(from_ref(&at));
        self.outside = self.outside.with_first(&at);
    }

    /// One reference from outside the slots less.
    pub fn release(&mut self, at: Ref)
        requires { 0 < times at self.old.outside }
        ensures heap { self.new.heap ≡ self.old.heap }
        ensures outside { self.new.outside ≡ without at self.old.outside }
        ensures noted { NotesWaiting self.old self.new }
        ensures few { length self.new.noted ≤ length self.old.noted + 1 }
        ensures ticks { self.new.ticks ≡ self.old.ticks + 1 }
    {
        self.ledger.lower_all(from_ref(&at));
        self.outside = Trace::changed::<Ref, TakenOut>(&self.outside, &at);
    }

    /// Frees a slot to which nothing refers; it is the first of the free ones then. That it waits no longer isn't noted.
    #[inline(always)]
    pub fn free(&mut self, at: Ref)
        requires live { IsLive self.old.heap at }
        requires unreferred { count_of self.old.heap self.old.outside at ≡ 0 }
        ensures heap { self.new.heap ≡ freed self.old.heap at }
        ensures outside { self.new.outside ≡ self.old.outside }
        ensures stay { (q : Ref) → (q ≡ at → ⊥) → IsLive self.old.heap q → IsLive self.new.heap q }
        ensures noted { NotesWaitingBut (slot_of at) self.old self.new }
        ensures few { length self.new.noted ≤ length self.old.noted + 33 }
        ensures ticks { TakesUpTo 36 self.old.ticks self.new.ticks }
    {
        let slot = at.slot();
        let prev = self.cells.prev(slot);
        self.ledger.lower_node(at, refs_in(self.cells.node(slot)));
        self.ledger.lower_all(refs_of_prev(&prev));
        self.cells.clear(slot);
        self.used -= 1;
        self.free.put(slot);
    }

    /// How many references there are to a slot, from slots in use and from outside.
    pub fn count(&mut self, at: Ref) -> u64
        requires { IsLive self.old.heap at }
        ensures count { result ≡ count_of self.old.heap self.old.outside at }
        ensures same { self.new ≡ record self.old { ticks = self.old.ticks + 1 } }
    {
        self.ledger.count(at.slot()) as u64
    }

    /// How many slots are noted.
    pub fn noted_len(&self) -> usize
        ensures noted { result ≡ length self.now.noted }
        ensures few { result ≤ length self.now.heap.slots }
    {
        let _ = &self.used;
        self.ledger.noted_len()
    }

    /// Takes a slot out of the notes, if one is noted.
    pub fn take_noted(&mut self) -> Option<u32>
        ensures heap { self.new.heap ≡ self.old.heap }
        ensures outside { self.new.outside ≡ self.old.outside }
        ensures noted { MatchOption result ((self.old.noted ≡ []) × (self.new.noted ≡ []))
            (λ slot. (self.old.noted ≡ self.new.noted ++ slot ∷ []) × (times slot self.new.noted ≡ 0) × (slot < length self.new.heap.slots)) }
        ensures ticks { self.new.ticks ≡ self.old.ticks + 1 }
    {
        self.ledger.take_noted()
    }

    /// The reference to a slot, where it is in use and nothing refers to it.
    pub fn waiting(&mut self, slot: u32) -> Option<Ref>
        requires { slot < length self.old.heap.slots }
        ensures waiting { result ≡ waiting self.old slot }
        ensures live { IfSome result (λ r. (slot_of r ≡ slot) × IsLive self.old.heap r) }
        ensures same { self.new ≡ record self.old { ticks = self.old.ticks + 1 } }
    {
        let is_zero = self.ledger.is_zero(slot);
        let birth = self.cells.birth(slot);
        if birth == 0 || !is_zero {
            return None;
        }
        Some(Ref::new(birth, slot))
    }
}
