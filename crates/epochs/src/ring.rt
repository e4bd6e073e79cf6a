//! Limbo as three bags, each a chain with links forward and back.

ghost use Rattle.std.specs.Prelude.{◌≡◌, ℕ, ◌+◌, ◌<◌, ◌≤◌, ◌++◌, ◌∷◌, [], List, length, IfOk, IsTrue, ◌↔◌, MatchOption, None};
ghost use Rattle.slot_arena.specs.Refs.{slot_of, most_slots};
ghost use Rattle.slot_arena.specs.Times.{other_slots};
ghost use Rattle.slot_arena.specs.Tallies.{naming};
ghost use Rattle.epochs.specs.Rings.{all_of, turned, IsEmptyRing};
ghost use Rattle.epochs.specs.Settling.{bags_after};

use slot_arena::{Change, Flags, Links, Ref, Ticks, Trace};
use std::alloc::{AllocError, Global};
use std::marker::Model;
use std::mem;

/// Three bags of slots, in one ring: after each bag's beginning its slots, in the order in which they
/// entered. The beginnings have numbers after those of the slots. Links and flags count their own ticks.
pub(crate) struct Ring {
    next: Links,
    back: Links,
    /// Whether the slot is in one of the bags, by slot.
    is_in: Flags,
    size: u32,
    first: u32,
    second: u32,
    third: u32,
    len: u32,
    oldest: Trace<Ref>,
    middle: Trace<Ref>,
    present: Trace<Ref>,
}

impl Drop for Ring {
    fn drop(self) {
        let Ring {
            next: _,
            back: _,
            is_in: _,
            size: _,
            first: _,
            second: _,
            third: _,
            len: _,
            oldest: _,
            middle: _,
            present: _,
        } = self;
    }
}

impl Model for Ring {
    ghost use Rattle.std.specs.Prelude.{◌+◌};
    ghost use Rattle.epochs.specs.Rings.{Ringed, IsRing};

    ghost Value = { Ringed };

    ghost view = { λ r. record {
      bags = record { oldest = r.oldest.items; middle = r.middle.items; present = r.present.items; size = r.size };
      ticks = r.next.ticks + r.back.ticks + r.is_in.ticks;
    } };

    ghost invariant = { λ r. IsRing r.next.words r.back.words r.is_in.marks r.size r.first r.second r.third r.len r.oldest.items r.middle.items r.present.items };
}

impl Ring {
    /// Three empty bags for this many slots.
    pub(crate) fn new(alloc: Global, size: u32) -> Result<Ring, AllocError>
        requires { size ≤ most_slots }
        ensures { IfOk result (λ ring. ring ≡ record { bags = record { oldest = []; middle = []; present = []; size = size }; ticks = 6 }) }
    {
        Ok(Ring {
            next: beginnings(alloc, size, [size + 1, size + 2, size])?,
            back: beginnings(alloc, size, [size + 2, size, size + 1])?,
            is_in: Flags::new(alloc, size as usize)?,
            size,
            first: size,
            second: size + 1,
            third: size + 2,
            len: 0,
            oldest: Trace::new(),
            middle: Trace::new(),
            present: Trace::new(),
        })
    }

    /// How many slots are in the bags.
    pub(crate) fn len(&self) -> u32
        ensures { result ≡ length (all_of self.now.bags) }
    {
        self.len
    }

    /// Whether the slot is in one of the bags.
    pub(crate) fn contains(&mut self, slot: u32) -> bool
        requires { slot < self.old.bags.size }
        ensures is_in { IsTrue result ↔ (0 < naming slot (all_of self.old.bags)) }
        ensures same { self.new ≡ record self.old { ticks = self.old.ticks + 1 } }
    {
        self.is_in.read(slot as usize)
    }

    /// The first slot of the oldest bag.
    pub(crate) fn first(&mut self) -> Option<u32>
        ensures first { MatchOption result (self.old.bags.oldest ≡ []) (λ slot. (r : ℕ) × (rest : List ℕ) × (self.old.bags.oldest ≡ r ∷ rest) × (slot_of r ≡ slot) × (slot < self.old.bags.size)) }
        ensures same { self.new ≡ record self.old { ticks = self.old.ticks + 1 } }
    {
        let first = self.next.read(self.first as usize);
        if first == self.second {
            return None;
        }
        Some(first)
    }

    /// The slot enters the present bag, at its end.
    pub(crate) fn enter(&mut self, at: Ref)
        requires within { slot_of at < self.old.bags.size }
        requires apart { naming (slot_of at) (all_of self.old.bags) ≡ 0 }
        ensures bags { self.new.bags ≡ record self.old.bags { present = self.old.bags.present ++ at ∷ [] } }
        ensures ticks { self.new.ticks ≡ self.old.ticks + 6 }
    {
        let slot = at.slot();
        let last = self.back.read(self.first as usize);
        self.next.write(last as usize, slot);
        self.next.write(slot as usize, self.first);
        self.back.write(slot as usize, last);
        self.back.write(self.first as usize, slot);
        self.is_in.write(slot as usize, true);
        self.len += 1;
        self.present = self.present.with_last(&at);
    }

    /// The slot leaves its bag.
    pub(crate) fn leave(&mut self, slot: u32)
        requires { 0 < naming slot (all_of self.old.bags) }
        ensures bags { self.new.bags ≡ bags_after None slot self.old.bags }
        ensures ticks { self.new.ticks ≡ self.old.ticks + 5 }
    {
        let before = self.back.read(slot as usize);
        let behind = self.next.read(slot as usize);
        self.next.write(before as usize, behind);
        self.back.write(behind as usize, before);
        self.is_in.write(slot as usize, false);
        self.len -= 1;
        self.oldest = Trace::changed::<u32, OtherSlots>(&self.oldest, &slot);
        self.middle = Trace::changed::<u32, OtherSlots>(&self.middle, &slot);
        self.present = Trace::changed::<u32, OtherSlots>(&self.present, &slot);
    }

    /// The epoch grows: each bag is one epoch older, and the emptied one is the present one.
    pub(crate) fn turn(&mut self)
        requires { self.old.bags.oldest ≡ [] }
        ensures { self.new ≡ record self.old { bags = turned self.old.bags } }
    {
        let emptied = self.first;
        self.first = self.second;
        self.second = self.third;
        self.third = emptied;
        let present = mem::replace(&mut self.present, Trace::new());
        self.oldest = mem::replace(&mut self.middle, present);
    }

    /// How often a link or a flag was read or written.
    pub(crate) fn ticks(&self) -> Ticks
        ensures { result.count ≡ self.now.ticks }
    {
        let links = Ticks::sum(self.next.ticks(), self.back.ticks());
        Ticks::sum(&links, self.is_in.ticks())
    }
}

/// Links of a ring without slots: from the three beginnings to these.
fn beginnings(alloc: Global, size: u32, ends: [u32; 3]) -> Result<Links, AllocError>
    requires { size ≤ most_slots }
    ensures links { IfOk result (λ links. IsEmptyRing links.words size ends) }
    ensures ticks { IfOk result (λ links. links.ticks ≡ 3) }
{
    let first = size as usize;
    let mut links = Links::new(alloc, first + 3)?;
    links.write(first, ends[0]);
    links.write(first + 1, ends[1]);
    links.write(first + 2, ends[2]);
    Ok(links)
}

/// The references to other slots.
struct OtherSlots;

impl Change<Ref, u32> for OtherSlots {
    ghost use Rattle.slot_arena.specs.Times.{other_slots};

    ghost after = { λ refs slot. other_slots slot refs };
}
