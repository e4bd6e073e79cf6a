//! The arena with limbo, epochs and the sweep.

ghost use Rattle.std.specs.Prelude.{◌≡◌, ◌+◌, ◌-◌, ◌<◌, ◌≤◌, ◌^◌, ◌==◌, ◌∷◌, ◌++◌, [], length, take, drop, option_map, All, true};
ghost use Rattle.std.specs.Prelude.{false, IsTrue, ◌↔◌, IfSome, Some, None, slice_set, IfOk, IfErr, ◌⊎◌, if◌then◌else◌};
ghost use Rattle.slot_arena.specs.Entries.{Fits, changed_branch, coming};
ghost use Rattle.slot_arena.specs.Heaps.{node_at, prev_at, main_at, refs_of_node, refs_of_prev, refs_of_option, stored, next_ref, in_use, taken, with_main, with_prev};
ghost use Rattle.slot_arena.specs.Counts.{count_of};
ghost use Rattle.slot_arena.specs.Times.{times, without};
ghost use Rattle.slot_arena.specs.Ticking.{TakesUpTo};
ghost use Rattle.slot_arena.specs.Refs.{birth_limit};
ghost use Rattle.slot_arena.specs.Views.{viewed};
ghost use Rattle.slot_arena.specs.Arenas.{IsLive, AreLive, is_live, is_indirection, is_main_node};
ghost use Rattle.epochs.specs.Sweeping.{swept_once, IsOlder};
ghost use Rattle.epochs.specs.Memories.{reclaimer_of, KeepsEpochs, Settles, AreSizes, new_memory, freed_by};

use crate::advancing::{advance, ticks_of};
use crate::fresh::Fresh;
use crate::limbo::Swept;
use crate::ring::Ring;
use crate::settling::{enter_all, sift};
use slot_arena::{Arena, EntryChange, MOST_SLOTS, Node, NodeRef, Prev, Ref, Refusal, Ticks};
use std::alloc::Global;
use std::marker::Model;

/// Slots whose nodes are freed two epochs after nothing refers to them; until then they wait in limbo.
pub struct Heap {
    pub(crate) arena: Arena,
    pub(crate) bags: Ring,
    /// Room for the slots that come into limbo in one step.
    pub(crate) fresh: Fresh,
    pub(crate) epoch: u64,
    /// The actor whose record is read next, from 1.
    pub(crate) cursor: u8,
    pub(crate) pins: Vec<Option<u64>>,
    /// Those of the arena, the bags and the new ones.
    pub(crate) ticks: Ticks,
}

impl Drop for Heap {
    fn drop(self) {
        let Heap {
            arena: _,
            bags: _,
            fresh: _,
            epoch: _,
            cursor: _,
            pins: _,
            ticks: _,
        } = self;
    }
}

impl Model for Heap {
    ghost use Rattle.std.specs.Prelude.{◌≡◌, ◌+◌, ◌≤◌, [], length};
    ghost use Rattle.epochs.specs.Memories.{Memory, IsMemory, limbo_of};

    ghost Value = { Memory };

    ghost view = { λ h. record {
      heap = h.arena.heap;
      outside = h.arena.outside;
      limbo = limbo_of h.epoch h.bags.bags;
      epoch = h.epoch;
      cursor = h.cursor;
      pins = h.pins.items;
      noted = h.arena.noted;
      ticks = h.ticks.count;
    } };

    ghost invariant = { λ h.
        IsMemory h.arena h.bags.bags h.epoch h.cursor h.pins.items
        × (h.fresh.refs ≡ [])
        × (length h.arena.heap.slots ≤ h.fresh.room)
        × (h.ticks.count ≡ h.arena.ticks + h.bags.ticks + h.fresh.ticks) };
}

impl Heap {
    /// A heap of 2 to 1,048,576 slots, all free, for 1 to 64 actors. All memory is taken here.
    pub fn new(alloc: Global, slots: u32, actors: u8) -> Result<Heap, Refusal>
        ensures made { IfOk result (λ heap. (heap ≡ new_memory slots actors) × AreSizes slots actors) }
        ensures refused { IfErr result (λ refusal. (refusal ≡ Refusal.BadLimits × ¬ AreSizes slots actors) ⊎ (refusal ≡ Refusal.Memory × AreSizes slots actors)) }
    {
        if slots < 2 || slots > MOST_SLOTS || actors < 1 || actors > 64 {
            return Err(Refusal::BadLimits);
        }
        let arena = Arena::new(alloc, slots)?;
        let bags = Ring::new(alloc, slots)?;
        let fresh = Fresh::new(alloc, slots as usize)?;
        Ok(Heap {
            ticks: ticks_of(&arena, &bags, &fresh),
            epoch: 0,
            cursor: 1,
            pins: vec![in alloc; None; actors as usize]?,
            arena,
            bags,
            fresh,
        })
    }

    /// Takes the first free slot for a node, under a new birth, and holds it: it has one reference from
    /// outside; None where no slot is free.
    #[inline(always)]
    pub fn make_held(&mut self, node: Node) -> Option<Ref>
        requires births { self.old.heap.births + 1 < birth_limit }
        requires live { AreLive self.old.heap (refs_of_node node) }
        ensures made { result ≡ next_ref self.old.heap }
        ensures lives { IfSome result (IsLive self.new.heap) }
        ensures fresh { IfSome result (λ r. is_live self.old.heap r ≡ false) }
        ensures stay { (q : Ref) → IsLive self.old.heap q → IsLive self.new.heap q }
        ensures heap { self.new.heap ≡ taken self.old.heap node }
        ensures outside { self.new.outside ≡ refs_of_option result ++ self.old.outside }
        ensures epochs { KeepsEpochs self.old self.new }
        ensures few { length self.new.noted ≤ length self.old.noted + 32 }
        ensures ticks { TakesUpTo 36 self.old.ticks self.new.ticks }
    {
        let made = self.arena.make_held(node);
        self.ticks = ticks_of(&self.arena, &self.bags, &self.fresh);
        made
    }

    /// Takes the first free slot for a branch under a new birth, and holds it: it has this bitmap, and for its entries what a
    /// node refers to, with one of them changed. None where no slot is free.
    #[inline(always)]
    pub fn make_changed(&mut self, from: Ref, bitmap: u32, change: EntryChange) -> Option<Ref>
        requires births { self.old.heap.births + 1 < birth_limit }
        requires from_live { IsLive self.old.heap from }
        requires fits { Fits change (refs_of_node (node_at self.old.heap from)) }
        requires live { AreLive self.old.heap (coming change) }
        ensures made { result ≡ next_ref self.old.heap }
        ensures lives { IfSome result (IsLive self.new.heap) }
        ensures fresh { IfSome result (λ r. is_live self.old.heap r ≡ false) }
        ensures stay { (q : Ref) → IsLive self.old.heap q → IsLive self.new.heap q }
        ensures heap { self.new.heap ≡ taken self.old.heap (changed_branch bitmap change (node_at self.old.heap from)) }
        ensures outside { self.new.outside ≡ refs_of_option result ++ self.old.outside }
        ensures epochs { KeepsEpochs self.old self.new }
        ensures few { length self.new.noted ≤ length self.old.noted + 32 }
        ensures ticks { TakesUpTo 36 self.old.ticks self.new.ticks }
    {
        let made = self.arena.make_changed(from, bitmap, change);
        self.ticks = ticks_of(&self.arena, &self.bags, &self.fresh);
        made
    }

    /// The node.
    pub fn look(&self, at: Ref) -> NodeRef<'_>
        requires { IsLive self.now.heap at }
        ensures { viewed result ≡ node_at self.now.heap at }
    {
        self.arena.look(at)
    }

    /// The node that stands in the slot, whatever its birth, if the slot is in use.
    pub fn stored_node(&self, at: Ref) -> Option<NodeRef<'_>>
        ensures { option_map viewed result ≡ option_map (λ slot. slot.node) (stored self.now.heap at) }
    {
        self.arena.stored_node(at)
    }

    /// The `prev` word that stands in the slot, whatever its birth; None where the slot isn't in use.
    pub fn stored_prev(&self, at: Ref) -> Prev
        ensures { result ≡ prev_at self.now.heap at }
    {
        self.arena.stored_prev(at)
    }

    /// The main word of an indirection.
    pub fn main(&self, at: Ref) -> Ref
        requires live { IsLive self.now.heap at }
        requires kind { is_indirection (node_at self.now.heap at) ≡ true }
        ensures { result ≡ main_at self.now.heap at }
    {
        self.arena.main(at)
    }

    /// The `prev` word of a main node.
    pub fn prev(&self, at: Ref) -> Prev
        requires live { IsLive self.now.heap at }
        requires kind { is_main_node (node_at self.now.heap at) ≡ true }
        ensures { result ≡ prev_at self.now.heap at }
    {
        self.arena.prev(at)
    }

    /// Where the main word of an indirection is `from` it becomes `to`. Returns whether it was.
    pub fn swap_main(&mut self, at: Ref, from: Ref, to: Ref) -> bool
        requires live { IsLive self.old.heap at }
        requires kind { is_indirection (node_at self.old.heap at) ≡ true }
        requires new_live { IsLive self.old.heap to }
        ensures was { result ≡ (main_at self.old.heap at == from) }
        ensures heap { self.new.heap ≡ (if result then with_main self.old.heap at to else self.old.heap) }
        ensures outside { self.new.outside ≡ self.old.outside }
        ensures stay { (q : Ref) → is_live self.new.heap q ≡ is_live self.old.heap q }
        ensures epochs { KeepsEpochs self.old self.new }
        ensures few { length self.new.noted ≤ length self.old.noted + 2 }
        ensures ticks { TakesUpTo 2 self.old.ticks self.new.ticks }
    {
        let swapped = self.arena.swap_main(at, from, to);
        self.ticks = ticks_of(&self.arena, &self.bags, &self.fresh);
        swapped
    }

    /// Where the `prev` word of a main node is `from` it becomes `to`. Returns whether it was.
    #[inline(always)]
    pub fn swap_prev(&mut self, at: Ref, from: Prev, to: Prev) -> bool
        requires live { IsLive self.old.heap at }
        requires kind { is_main_node (node_at self.old.heap at) ≡ true }
        requires new_live { AreLive self.old.heap (refs_of_prev to) }
        ensures was { IsTrue result ↔ (prev_at self.old.heap at ≡ from) }
        ensures heap { self.new.heap ≡ (if result then with_prev self.old.heap at to else self.old.heap) }
        ensures outside { self.new.outside ≡ self.old.outside }
        ensures stay { (q : Ref) → is_live self.new.heap q ≡ is_live self.old.heap q }
        ensures epochs { KeepsEpochs self.old self.new }
        ensures few { length self.new.noted ≤ length self.old.noted + 2 }
        ensures ticks { TakesUpTo 2 self.old.ticks self.new.ticks }
    {
        let swapped = self.arena.swap_prev(at, from, to);
        self.ticks = ticks_of(&self.arena, &self.bags, &self.fresh);
        swapped
    }

    /// Where the main word is `from` it becomes `to`, which becomes pending over `from`. Returns whether it was.
    #[inline(always)]
    pub fn publish(&mut self, at: Ref, from: Ref, to: Ref) -> bool
        requires live { IsLive self.old.heap at }
        requires kind { is_indirection (node_at self.old.heap at) ≡ true }
        requires new_live { IsLive self.old.heap to }
        ensures was { result ≡ (main_at self.old.heap at == from) }
        ensures heap { self.new.heap ≡ (if result then with_prev (with_main self.old.heap at to) to (Prev.Pending from) else self.old.heap) }
        ensures outside { self.new.outside ≡ self.old.outside }
        ensures stay { (q : Ref) → is_live self.new.heap q ≡ is_live self.old.heap q }
        ensures epochs { KeepsEpochs self.old self.new }
        ensures few { length self.new.noted ≤ length self.old.noted + 2 }
        ensures ticks { TakesUpTo 2 self.old.ticks self.new.ticks }
    {
        let swapped = self.arena.publish(at, from, to);
        self.ticks = ticks_of(&self.arena, &self.bags, &self.fresh);
        swapped
    }

    /// One reference from outside the slots more.
    pub fn hold(&mut self, at: Ref)
        requires live { IsLive self.old.heap at }
        requires room { times at self.old.outside < 2 ^ 31 }
        ensures heap { self.new.heap ≡ self.old.heap }
        ensures outside { self.new.outside ≡ at ∷ self.old.outside }
        ensures epochs { KeepsEpochs self.old self.new }
        ensures few { length self.new.noted ≤ length self.old.noted + 1 }
        ensures ticks { self.new.ticks ≡ self.old.ticks + 1 }
    {
        self.arena.hold(at);
        self.ticks = ticks_of(&self.arena, &self.bags, &self.fresh);
    }

    /// One reference from outside the slots less.
    pub fn release(&mut self, at: Ref)
        requires { 0 < times at self.old.outside }
        ensures heap { self.new.heap ≡ self.old.heap }
        ensures outside { self.new.outside ≡ without at self.old.outside }
        ensures epochs { KeepsEpochs self.old self.new }
        ensures few { length self.new.noted ≤ length self.old.noted + 1 }
        ensures ticks { self.new.ticks ≡ self.old.ticks + 1 }
    {
        self.arena.release(at);
        self.ticks = ticks_of(&self.arena, &self.bags, &self.fresh);
    }

    /// The actor records the present epoch.
    pub fn pin(&mut self, actor: u8)
        requires actor { (1 ≤ actor) × (actor ≤ length self.old.pins) }
        ensures { self.new ≡ record self.old { pins = slice_set self.old.pins (actor - 1) (Some self.old.epoch) } }
    {
        self.pins[actor as usize - 1] = Some(self.epoch);
    }

    /// The actor gives its record up.
    pub fn unpin(&mut self, actor: u8)
        requires actor { (1 ≤ actor) × (actor ≤ length self.old.pins) }
        ensures { self.new ≡ record self.old { pins = slice_set self.old.pins (actor - 1) None } }
    {
        self.pins[actor as usize - 1] = None;
    }

    /// Ends a step: slots that are referred to leave limbo, and those to which nothing refers any more enter
    /// it, by rising birth, with the present epoch. It looks at the noted slots alone: at most steps there are none.
    #[inline(always)]
    pub fn settle(&mut self)
        ensures { Settles self.old self.new }
    {
        prove!(self.arena.len() <= MOST_SLOTS as usize);
        if self.arena.noted_len() != 0 {
            self.settle_noted();
        }
    }

    /// The same, where slots are noted.
    #[inline(never)]
    fn settle_noted(&mut self)
        ensures { Settles self.old self.new }
    {
        prove!(self.arena.len() <= MOST_SLOTS as usize);
        sift(&mut self.arena, &mut self.bags, &mut self.fresh);
        self.fresh.sort();
        enter_all(&mut self.bags, &mut self.fresh);
        self.fresh.clear();
        self.ticks = ticks_of(&self.arena, &self.bags, &self.fresh);
    }

    /// A step of the sweep, where all is settled. What it frees leaves limbo at once, and came into it in an
    /// older epoch than any that an actor has recorded; what is referred to stays.
    #[inline(always)]
    pub fn sweep(&mut self) -> Swept
        requires settled { self.old.noted ≡ [] }
        requires room { self.old.epoch < 2 ^ 48 }
        ensures swept { (result, record { heap = self.new.heap; limbo = self.old.limbo; epoch = self.new.epoch; cursor = self.new.cursor }) ≡ swept_once self.old.pins (reclaimer_of self.old) }
        ensures limbo { self.new.limbo ≡ drop (freed_by result) self.old.limbo }
        ensures older { All (λ entry. All (IsOlder entry.epoch) self.old.pins) (take (freed_by result) self.old.limbo) }
        ensures stay { (q : Ref) → IsLive self.old.heap q → 0 < count_of self.old.heap self.old.outside q → IsLive self.new.heap q }
        ensures outside { self.new.outside ≡ self.old.outside }
        ensures pins { self.new.pins ≡ self.old.pins }
        ensures few { length self.new.noted ≤ 33 }
        ensures ticks { TakesUpTo 43 self.old.ticks self.new.ticks }
    {
        let Some(slot) = self.bags.first() else {
            let pins = self.pins.as_slice();
            let swept = advance(&mut self.bags, &mut self.epoch, &mut self.cursor, pins);
            self.ticks = ticks_of(&self.arena, &self.bags, &self.fresh);
            return swept;
        };
        let Some(at) = self.arena.waiting(slot) else {
            unreachable!()
        };
        self.bags.leave(slot);
        self.arena.free(at);
        self.ticks = ticks_of(&self.arena, &self.bags, &self.fresh);
        Swept::Freed
    }

    /// How many references there are to a slot, from slots in use and from outside.
    pub fn count(&mut self, at: Ref) -> u64
        requires { IsLive self.old.heap at }
        ensures count { result ≡ count_of self.old.heap self.old.outside at }
        ensures same { self.new ≡ record self.old { ticks = self.old.ticks + 1 } }
    {
        let count = self.arena.count(at);
        self.ticks = ticks_of(&self.arena, &self.bags, &self.fresh);
        count
    }

    /// How many slots are free.
    pub fn free_slots(&self) -> u32
        ensures { result ≡ length self.now.heap.free }
    {
        self.arena.free_slots()
    }

    /// How many slots are in use, those in limbo too. These and the free ones are all slots.
    pub fn used(&self) -> u32
        ensures used { result ≡ length (in_use self.now.heap) }
        ensures sum { result + length self.now.heap.free ≡ length self.now.heap.slots }
    {
        self.arena.used()
    }

    /// How many births were drawn.
    pub fn births(&self) -> u64
        ensures { result ≡ self.now.heap.births }
    {
        self.arena.births()
    }

    /// How many slots are in limbo.
    pub fn limbo_len(&self) -> u32
        ensures { result ≡ length self.now.limbo }
    {
        self.bags.len()
    }

    /// The present epoch.
    pub fn epoch(&self) -> u64
        ensures { result ≡ self.now.epoch }
    {
        self.epoch
    }

    /// How often a link, a flag, a count, a note or an entry of a list was looked at.
    pub fn ticks(&self) -> &Ticks
        ensures { result.now.count ≡ self.now.ticks }
    {
        &self.ticks
    }
}
