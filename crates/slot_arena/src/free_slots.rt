//! The free slots, as a chain through them.

ghost use Rattle.std.specs.Prelude.{◌≡◌, ◌+◌, ◌<◌, ◌≤◌, [], ◌∷◌, IfOk, MatchOption};
ghost use Rattle.std.specs.List.{range_with_len};
ghost use Rattle.slot_arena.specs.Times.{times};
ghost use Rattle.slot_arena.specs.Ticking.{TakesUpTo};
ghost use Rattle.slot_arena.specs.Refs.{most_slots};

use crate::links::Links;
use ctrie_base::{Change, Ticks, Trace};
use std::alloc::{AllocError, Global};
use std::marker::Model;

/// The free slots, the next one first: a link for each slot, and after them the end, whose link leads
/// to the first one.
#[derive(Drop)]
pub(crate) struct FreeSlots {
    links: Links,
    end: u32,
    slots: Trace<u32>,
}

impl Model for FreeSlots {
    ghost use Rattle.std.specs.Prelude.{◌≡◌, ◌+◌, ◌≤◌, length};
    ghost use Rattle.slot_arena.specs.Chains.{Chain, LeadsTo};
    ghost use Rattle.slot_arena.specs.Refs.{most_slots};

    ghost Value = { Chain };

    ghost view = { λ f. record { slots = f.slots.items; size = f.end; ticks = f.links.ticks } };

    ghost invariant = { λ f. LeadsTo f.links.words f.end f.end f.slots.items × (length f.links.words ≡ f.end + 1) × (f.end ≤ most_slots) };
}

impl FreeSlots {
    /// The slots from 0 on, this many.
    pub(crate) fn new(alloc: Global, slots: u32) -> Result<FreeSlots, AllocError>
        requires { slots ≤ most_slots }
        ensures { IfOk result (λ free. free ≡ record { slots = range_with_len 0 slots; size = slots; ticks = slots }) }
    {
        let mut links = Links::new(alloc, slots as usize + 1)?;
        for slot in 0..slots {
            links.write(slot as usize, slot + 1);
        }
        Ok(FreeSlots {
            links,
            end: slots,
            slots: Trace::changed::<u32, Below>(&Trace::new(), &slots),
        })
    }

    /// Takes the first one.
    pub(crate) fn take(&mut self) -> Option<u32>
        ensures slots { MatchOption result ((self.old.slots ≡ []) × (self.new.slots ≡ []))
            (λ slot. (self.old.slots ≡ slot ∷ self.new.slots) × (slot < self.old.size) × (times slot self.new.slots ≡ 0)) }
        ensures size { self.new.size ≡ self.old.size }
        ensures ticks { TakesUpTo 3 self.old.ticks self.new.ticks }
    {
        let end = self.end as usize;
        let first = self.links.read(end);
        if first == self.end {
            return None;
        }
        let next = self.links.read(first as usize);
        self.links.write(end, next);
        self.slots = self.slots.rest();
        Some(first)
    }

    /// Puts a slot in front.
    pub(crate) fn put(&mut self, slot: u32)
        requires within { slot < self.old.size }
        requires apart { times slot self.old.slots ≡ 0 }
        ensures slots { self.new.slots ≡ slot ∷ self.old.slots }
        ensures size { self.new.size ≡ self.old.size }
        ensures ticks { self.new.ticks ≡ self.old.ticks + 3 }
    {
        let end = self.end as usize;
        let first = self.links.read(end);
        self.links.write(slot as usize, first);
        self.links.write(end, slot);
        self.slots = self.slots.with_first(&slot);
    }

    /// How often a link was read or written.
    pub(crate) fn ticks(&self) -> &Ticks
        ensures { result.now.count ≡ self.now.ticks }
    {
        self.links.ticks()
    }
}

/// The numbers below one.
struct Below;

impl Change<u32, u32> for Below {
    ghost use Rattle.std.specs.List.{range_with_len};

    ghost after = { λ _ count. range_with_len 0 count };
}
