//! What stands in the slots.

ghost use Rattle.std.specs.Prelude.{◌≡◌, ◌<◌, ◌≤◌, length, replicate, slice_index_or, slice_set, option_map, IsSome, Some, None, IfOk};
ghost use Rattle.slot_arena.specs.Entries.{Fits, entries_after};
ghost use Rattle.slot_arena.specs.Heaps.{entries_from, node_of, prev_of, main_changed, prev_changed};
ghost use Rattle.slot_arena.specs.Cells.{birth_of_slot};
ghost use Rattle.slot_arena.specs.Views.{viewed};
ghost use Rattle.slot_arena.specs.WordSwaps.{word_changed};

use crate::entries::EntryChange;
use crate::nodes::{Node, NodeRef, Prev, Slot};
use crate::refs::Ref;
use crate::stored_nodes::StoredNodes;
use crate::word_swaps::WordSwap;
use std::alloc::{AllocError, Global};
use std::marker::Model;

/// What stands in the slots, part by part. A slot without a node isn't in use: it has no birth then, and no `prev` word, so that a
/// look at what stands there needs no other part.
pub(crate) struct Cells {
    births: Vec<u64>,
    nodes: StoredNodes,
    prevs: Vec<Prev>,
}

impl Drop for Cells {
    fn drop(self) {
        let Cells {
            births: _,
            nodes: _,
            prevs: _,
        } = self;
    }
}

impl Model for Cells {
    ghost use Rattle.std.specs.Prelude.{List, Option};
    ghost use Rattle.slot_arena.specs.declared.nodes.Slot.{Slot};
    ghost use Rattle.slot_arena.specs.Cells.{AreParts, slots_from};

    ghost Value = { List (Option Slot) };

    ghost view = { λ c. slots_from c.births.items c.nodes c.prevs.items };

    ghost invariant = { λ c. AreParts c.births.items c.nodes c.prevs.items };
}

impl Cells {
    /// This many slots, none in use.
    pub(crate) fn new(alloc: Global, slots: u32) -> Result<Cells, AllocError>
        ensures { IfOk result (λ cells. cells ≡ replicate slots None) }
    {
        Ok(Cells {
            births: vec![in alloc; 0; slots as usize]?,
            nodes: StoredNodes::new(alloc, slots)?,
            prevs: vec![in alloc; Prev::None; slots as usize]?,
        })
    }

    /// How many slots there are.
    pub(crate) fn len(&self) -> usize
        ensures { result ≡ length self.now }
    {
        self.births.len()
    }

    /// The birth of what stands in a slot, 0 where it isn't in use.
    pub(crate) fn birth(&self, slot: u32) -> u64
        requires { slot < length self.now }
        ensures birth { result ≡ birth_of_slot (slice_index_or self.now slot None) }
        ensures unused { result ≡ 0 → slice_index_or self.now slot None ≡ None }
    {
        self.births[slot as usize]
    }

    /// The node that stands in a slot.
    pub(crate) fn node(&self, slot: u32) -> NodeRef<'_>
        requires { IsSome (slice_index_or self.now slot None) }
        ensures { viewed result ≡ node_of (slice_index_or self.now slot None) }
    {
        self.nodes.get(slot)
    }

    /// The `prev` word that stands in a slot.
    pub(crate) fn prev(&self, slot: u32) -> Prev
        requires { IsSome (slice_index_or self.now slot None) }
        ensures { result ≡ prev_of (slice_index_or self.now slot None) }
    {
        self.prevs[slot as usize]
    }

    /// The node that stands in a slot, if it is in use.
    pub(crate) fn stored_node(&self, slot: u32) -> Option<NodeRef<'_>>
        ensures { option_map viewed result ≡ option_map (λ slot. slot.node) (slice_index_or self.now slot None) }
    {
        self.nodes.stored(slot)
    }

    /// The `prev` word that stands in a slot; None where it isn't in use.
    pub(crate) fn stored_prev(&self, slot: u32) -> Prev
        ensures { result ≡ prev_of (slice_index_or self.now slot None) }
    {
        if slot as usize >= self.len() {
            return Prev::None;
        }
        self.prevs[slot as usize]
    }

    /// Puts a node into a slot that isn't in use, under a birth.
    #[inline(always)]
    pub(crate) fn fill(&mut self, slot: u32, birth: u64, node: Node)
        requires within { slot < length self.old }
        requires free { slice_index_or self.old slot None ≡ None }
        requires born { 0 < birth }
        ensures { self.new ≡ slice_set self.old slot (Some (record { birth = birth; node = node; prev = Prev.None })) }
    {
        self.births[slot as usize] = birth;
        self.nodes.put(slot, node);
    }

    /// Puts a branch into a slot that isn't in use, under a birth: its entries are what a change makes of these references.
    #[inline(always)]
    pub(crate) fn fill_changed(
        &mut self,
        slot: u32,
        birth: u64,
        bitmap: u32,
        refs: &[Ref],
        change: &EntryChange,
    )
        requires within { slot < length self.old }
        requires free { slice_index_or self.old slot None ≡ None }
        requires born { 0 < birth }
        requires fits { Fits change.now refs.now }
        requires few { length refs.now ≤ 32 }
        ensures { self.new ≡ slice_set self.old slot
            (Some (record { birth = birth; node = Node.Branch bitmap (entries_from (entries_after change.now refs.now)); prev = Prev.None })) }
    {
        self.births[slot as usize] = birth;
        self.nodes.put_changed(slot, bitmap, refs, change);
    }

    /// Changes the main word of an indirection.
    pub(crate) fn set_main(&mut self, slot: u32, main: Ref)
        requires { slot < length self.old }
        ensures { self.new ≡ slice_set self.old slot (option_map (main_changed main) (slice_index_or self.old slot None)) }
    {
        self.nodes.set_main(slot, main);
    }

    /// Changes the `prev` word of a main node.
    pub(crate) fn set_prev(&mut self, slot: u32, prev: Prev)
        requires { IsSome (slice_index_or self.old slot None) }
        ensures { self.new ≡ slice_set self.old slot (option_map (prev_changed prev) (slice_index_or self.old slot None)) }
    {
        self.prevs[slot as usize] = prev;
    }

    /// Replaces a word.
    pub(crate) fn set_word(&mut self, slot: u32, swap: WordSwap)
        requires { IsSome (slice_index_or self.old slot None) }
        ensures { self.new ≡ slice_set self.old slot (option_map (word_changed swap) (slice_index_or self.old slot None)) }
    {
        match swap {
            WordSwap::Main { to, .. } => self.set_main(slot, to),
            WordSwap::Prev { to, .. } => self.set_prev(slot, to),
        }
    }

    /// Takes a slot out of use.
    pub(crate) fn clear(&mut self, slot: u32)
        requires { slot < length self.old }
        ensures { self.new ≡ slice_set self.old slot None }
    {
        self.births[slot as usize] = 0;
        self.nodes.clear(slot);
        self.prevs[slot as usize] = Prev::None;
    }
}
