//! The counts of references, by slot.

ghost use Rattle.std.specs.Prelude.{◌≡◌, ℕ, ◌+◌, ◌-◌, ◌<◌, ◌≤◌, ◌^◌, true, false, [], ◌∷◌, ◌++◌, length, replicate, slice_index, slice_set, All, IfOk, MatchOption};
ghost use Rattle.slot_arena.specs.Refs.{slot_of};
ghost use Rattle.slot_arena.specs.Times.{times};
ghost use Rattle.slot_arena.specs.Tallies.{naming, NotesZeros};

use crate::refs::Ref;
use ctrie_base::Ticks;
use std::alloc::{AllocError, Global};
use std::marker::Model;

/// How many references each slot has, and the slots whose count reached or left zero, each once. A call
/// looks at one slot, and counts one tick of its own; one that is given references, one for each. Those
/// that count none tell nothing of what they find: `lower`, `restore`, `restore_all`.
pub(crate) struct Tally {
    counts: Vec<u32>,
    noted: Vec<u32>,
    /// Whether the slot is noted, by slot: so the list never lacks room.
    is_noted: Vec<bool>,
    ticks: Ticks,
}

impl Drop for Tally {
    fn drop(self) {
        let Tally {
            counts: _,
            noted: _,
            is_noted: _,
            ticks: _,
        } = self;
    }
}

impl Model for Tally {
    ghost use Rattle.std.specs.Prelude.{◌≡◌, ◌≤◌, length, vec_capacity};
    ghost use Rattle.slot_arena.specs.Tallies.{Tally as Tallied, AreMarks};

    ghost Value = { Tallied };

    ghost view = { λ t. record { counts = t.counts.items; noted = t.noted.items; ticks = t.ticks.count } };

    ghost invariant = { λ t. AreMarks t.noted.items t.is_noted.items × (length t.is_noted.items ≡ length t.counts.items) × (length t.counts.items ≤ vec_capacity t.noted) };
}

impl Tally {
    /// This many slots, none with a reference.
    pub(crate) fn new(alloc: Global, slots: usize) -> Result<Tally, AllocError>
        ensures { IfOk result (λ tally. tally ≡ record { counts = replicate slots 0; noted = []; ticks = 0 }) }
    {
        Ok(Tally {
            counts: vec![in alloc; 0; slots]?,
            noted: Vec::with_capacity(alloc, slots)?,
            is_noted: vec![in alloc; false; slots]?,
            ticks: Ticks::new(),
        })
    }

    /// The count of a slot.
    pub(crate) fn count(&mut self, slot: u32) -> u32
        requires { slot < length self.old.counts }
        ensures count { result ≡ slice_index self.old.counts slot }
        ensures same { self.new ≡ record self.old { ticks = self.old.ticks + 1 } }
    {
        self.ticks.add();
        self.counts[slot as usize]
    }

    /// Gives a slot without references its first one, which isn't noted.
    pub(crate) fn begin(&mut self, slot: u32)
        requires { slot < length self.old.counts }
        ensures { self.new ≡ record self.old { counts = slice_set self.old.counts slot 1; ticks = self.old.ticks + 1 } }
    {
        self.ticks.add();
        self.counts[slot as usize] = 1;
    }

    /// Lists a slot among the noted ones.
    #[inline(always)]
    fn enlist(&mut self, slot: u32)
        requires { slot < length self.old.counts }
        ensures counts { self.new.counts ≡ self.old.counts }
        ensures noted { 0 < times slot self.new.noted }
        ensures others { NotesZeros self.old self.new }
        ensures few { length self.new.noted ≤ length self.old.noted + 1 }
        ensures ticks { self.new.ticks ≡ self.old.ticks }
    {
        if !self.is_noted[slot as usize] {
            self.is_noted[slot as usize] = true;
            self.noted.push_reserved(slot);
        }
    }

    /// How many slots are noted.
    pub(crate) fn noted_len(&self) -> usize
        ensures noted { result ≡ length self.now.noted }
        ensures few { result ≤ length self.now.counts }
    {
        let _ = &self.is_noted;
        self.noted.len()
    }

    /// Takes a noted slot out of the notes.
    pub(crate) fn take_noted(&mut self) -> Option<u32>
        ensures counts { self.new.counts ≡ self.old.counts }
        ensures noted { MatchOption result ((self.old.noted ≡ []) × (self.new.noted ≡ []))
            (λ slot. (self.old.noted ≡ self.new.noted ++ slot ∷ []) × (times slot self.new.noted ≡ 0) × (slot < length self.new.counts)) }
        ensures ticks { self.new.ticks ≡ self.old.ticks + 1 }
    {
        self.ticks.add();
        let slot = self.noted.pop()?;
        self.is_noted[slot as usize] = false;
        Some(slot)
    }

    /// Counts one reference more to a slot.
    pub(crate) fn raise(&mut self, slot: u32)
        requires within { slot < length self.old.counts }
        requires room { slice_index self.old.counts slot + 1 < 2 ^ 32 }
        ensures counts { self.new.counts ≡ slice_set self.old.counts slot (slice_index self.old.counts slot + 1) }
        ensures noted { NotesZeros self.old self.new }
        ensures few { length self.new.noted ≤ length self.old.noted + 1 }
        ensures ticks { self.new.ticks ≡ self.old.ticks + 1 }
    {
        let count = self.counts[slot as usize];
        self.counts[slot as usize] = count + 1;
        if count == 0 {
            self.enlist(slot);
        }
        self.ticks.add();
    }

    /// Counts one reference more to a slot that has some, which was looked at before: no tick.
    fn restore(&mut self, slot: u32)
        requires within { slot < length self.old.counts }
        requires room { slice_index self.old.counts slot + 1 < 2 ^ 32 }
        requires some { 0 < slice_index self.old.counts slot }
        ensures counts { self.new.counts ≡ slice_set self.old.counts slot (slice_index self.old.counts slot + 1) }
        ensures zeros { NotesZeros self.old self.new }
        ensures noted { self.new.noted ≡ self.old.noted }
        ensures ticks { self.new.ticks ≡ self.old.ticks }
    {
        self.counts[slot as usize] += 1;
    }

    /// Counts one reference less to a slot, but for its last one. Returns whether it did.
    #[inline(always)]
    pub(crate) fn lower_but_last(&mut self, slot: u32) -> bool
        requires within { slot < length self.old.counts }
        requires some { 0 < slice_index self.old.counts slot }
        ensures lowered { result ≡ true → (1 < slice_index self.old.counts slot) × (self.new.counts ≡ slice_set self.old.counts slot (slice_index self.old.counts slot - 1)) }
        ensures last { result ≡ false → (slice_index self.old.counts slot ≡ 1) × (self.new.counts ≡ self.old.counts) }
        ensures noted { self.new.noted ≡ self.old.noted }
        ensures ticks { self.new.ticks ≡ self.old.ticks + 1 }
    {
        self.ticks.add();
        let count = self.counts[slot as usize];
        if count == 1 {
            return false;
        }
        self.counts[slot as usize] = count - 1;
        true
    }

    /// Counts one reference less to a slot, which was looked at before: no tick.
    #[inline(always)]
    pub(crate) fn lower(&mut self, slot: u32)
        requires within { slot < length self.old.counts }
        requires some { 0 < slice_index self.old.counts slot }
        ensures counts { self.new.counts ≡ slice_set self.old.counts slot (slice_index self.old.counts slot - 1) }
        ensures noted { NotesZeros self.old self.new }
        ensures few { length self.new.noted ≤ length self.old.noted + 1 }
        ensures ticks { self.new.ticks ≡ self.old.ticks }
    {
        let count = self.counts[slot as usize] - 1;
        self.counts[slot as usize] = count;
        if count == 0 {
            self.enlist(slot);
        }
    }

    /// Counts each of these references one more to the slot that it names.
    pub(crate) fn raise_all(&mut self, refs: &[Ref])
        requires within { All (λ r. slot_of r < length self.old.counts) refs.now }
        requires room { (slot : ℕ) → slice_index self.old.counts slot + length refs.now < 2 ^ 32 }
        ensures size { length self.new.counts ≡ length self.old.counts }
        ensures counts { (slot : ℕ) → slice_index self.new.counts slot ≡ slice_index self.old.counts slot + naming slot refs.now }
        ensures noted { NotesZeros self.old self.new }
        ensures few { length self.new.noted ≤ length self.old.noted + length refs.now }
        ensures ticks { self.new.ticks ≡ self.old.ticks + length refs.now }
    {
        for one in refs {
            self.raise(one.slot());
        }
    }

    /// Counts one reference more for each of these, to slots that have some and were looked at before: no tick.
    pub(crate) fn restore_all(&mut self, refs: &[Ref])
        requires within { All (λ r. slot_of r < length self.old.counts) refs.now }
        requires room { (slot : ℕ) → slice_index self.old.counts slot + naming slot refs.now < 2 ^ 32 }
        requires some { (slot : ℕ) → slice_index self.old.counts slot ≡ 0 → naming slot refs.now ≡ 0 }
        ensures size { length self.new.counts ≡ length self.old.counts }
        ensures counts { (slot : ℕ) → slice_index self.new.counts slot ≡ slice_index self.old.counts slot + naming slot refs.now }
        ensures zeros { NotesZeros self.old self.new }
        ensures noted { self.new.noted ≡ self.old.noted }
        ensures ticks { self.new.ticks ≡ self.old.ticks }
    {
        for one in refs {
            self.restore(one.slot());
        }
    }

    /// Counts a tick for each of these references, to whose slots a later call looks.
    pub(crate) fn charge(&mut self, refs: &[Ref])
        ensures { self.new ≡ record self.old { ticks = self.old.ticks + length refs.now } }
    {
        for _one in refs {
            self.tick();
        }
    }

    /// Counts a tick.
    fn tick(&mut self)
        ensures { self.new ≡ record self.old { ticks = self.old.ticks + 1 } }
    {
        self.ticks.add();
    }

    /// How often a slot was looked at.
    pub(crate) fn ticks(&self) -> &Ticks
        ensures { result.now.count ≡ self.now.ticks }
    {
        &self.ticks
    }
}
