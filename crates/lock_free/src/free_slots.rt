//! Free slots of a seat, by class, in plain memory.

ghost use Rattle.std.specs.Prelude.{◌≡◌, ℕ, ◌+◌, ◌<◌, ◌≤◌, List, [], ◌∷◌, length, IsFalse, IsTrue};
ghost use Rattle.lock_free.specs.declared.accounts.PartedSlot.{PartedSlot};
ghost use Rattle.lock_free.specs.Cells.{loose_link};
ghost use Rattle.lock_free.specs.Making.{with_slot};
ghost use Rattle.lock_free.specs.OwnOffers.{most_parted, with_parted, without_first, IsFullOfParted, IsRipeIn};
ghost use Rattle.lock_free.specs.Rules.{pool_of};
ghost use Rattle.lock_free.specs.Stocks.{IsLast, IsPopped};

use crate::accounts::PartedSlot;
use crate::reclaiming::is_ripe;
use crate::sizes::Sizes;
use crate::trails::Trails;
use arrayvec::ArrayVec;
use std::marker::Model;

/// So many free slots of each class a seat keeps for itself. What it has more it leaves to others.
#[derive(Clone, Copy, Drop)]
struct Kept {
    small: usize,
    medium: usize,
    wide: usize,
}

/// Free slots by class, the next one last.
#[derive(Drop)]
pub struct Free {
    small: ArrayVec<u32, 128>,
    medium: ArrayVec<u32, 128>,
    wide: ArrayVec<u32, 128>,
    /// Those of offers that are to be free, the earliest first.
    parted: ArrayVec<PartedSlot, 64>,
    /// How many the seat keeps.
    kept: Kept,
    /// Where slots are loose for which there was no room.
    trails: Trails,
}

impl Model for Free {
    ghost use Rattle.lock_free.specs.declared.rules.Pool.{Pool};

    ghost Value = { Pool };

    ghost view = { λ s. record { small = s.small.items; medium = s.medium.items; wide = s.wide.items; parted = s.parted.items } };
}

/// So many of a class a seat keeps at most: as many once more have room where slots become free again.
const MOST_OF_A_CLASS: usize = 32;

/// A try of an operation has room for what it makes where so many slots can be added yet.
const TRY: usize = 35;

/// So many of this class are a seat's part of a quarter of them.
#[inline(never)]
fn part_of(sizes: &Sizes, class: u32) -> usize {
    (sizes.slots(class) / (4 * u32::from(sizes.seats).max(1))) as usize
}

/// So many of this class most calls make.
#[inline(always)]
fn most_made(class: u32) -> usize {
    match class {
        0 => 16,
        1 => 8,
        _ => 2,
    }
}

/// So many of this class a seat keeps: its part of a quarter of them, but what most calls make in any case.
fn kept_of(sizes: &Sizes, class: u32) -> usize {
    part_of(sizes, class)
        .min(MOST_OF_A_CLASS)
        .max(most_made(class))
}

impl Kept {
    /// Of a map of these sizes.
    fn new(sizes: &Sizes) -> Kept {
        Kept {
            small: kept_of(sizes, 0),
            medium: kept_of(sizes, 1),
            wide: kept_of(sizes, 2),
        }
    }

    /// So many of this class.
    #[inline(always)]
    fn of(&self, class: u32) -> usize {
        match class {
            0 => self.small,
            1 => self.medium,
            _ => self.wide,
        }
    }
}

impl Free {
    pub(crate) fn new(sizes: &Sizes) -> Free
        ensures small { result.small ≡ [] }
        ensures medium { result.medium ≡ [] }
        ensures wide { result.wide ≡ [] }
        ensures parted { result.parted ≡ [] }
    {
        Free {
            small: ArrayVec::new(),
            medium: ArrayVec::new(),
            wide: ArrayVec::new(),
            parted: ArrayVec::new(),
            kept: Kept::new(sizes),
            trails: Trails::new(),
        }
    }

    /// The last one of this class.
    #[inline(always)]
    pub(crate) fn last(&self, class: u32) -> Option<u32>
        ensures { IsLast (pool_of self.now class) result }
    {
        match class {
            0 => self.small.last().copied(),
            1 => self.medium.last().copied(),
            _ => self.wide.last().copied(),
        }
    }

    /// How many there are of this class.
    #[inline(always)]
    pub(crate) fn len(&self, class: u32) -> usize
        ensures is { result ≡ length (pool_of self.now class) }
        ensures fits { result ≤ 128 }
    {
        match class {
            0 => self.small.len(),
            1 => self.medium.len(),
            _ => self.wide.len(),
        }
    }

    /// How many there are of the class that has most.
    #[inline(always)]
    pub(crate) fn most(&self) -> usize
        ensures most { (class : ℕ) → length (pool_of self.now class) ≤ result }
        ensures least { (n : ℕ) → ((class : ℕ) → length (pool_of self.now class) ≤ n) → result ≤ n }
        ensures fits { result ≤ 128 }
    {
        self.small.len().max(self.medium.len()).max(self.wide.len())
    }

    /// Whether there are fewer of this class than a seat keeps for its next call, where it can: what most calls make, and no more than a part of
    /// a small map.
    #[inline(always)]
    pub(crate) fn wants(&self, sizes: &Sizes, class: u32) -> bool {
        let len = self.len(class);
        len < most_made(class) && len < part_of(sizes, class)
    }

    /// How many of this class the seat keeps.
    #[inline(always)]
    pub(crate) fn kept(&self, class: u32) -> usize {
        self.kept.of(class)
    }

    /// Whether there are more of this class than it keeps.
    #[inline(always)]
    pub(crate) fn has_over(&self, class: u32) -> bool {
        self.len(class) > self.kept(class)
    }

    /// Whether there are of some class.
    #[inline(always)]
    pub(crate) fn is_low(&self, sizes: &Sizes) -> bool {
        self.wants(sizes, 0) || self.wants(sizes, 1) || self.wants(sizes, 2)
    }

    /// One slot more, the next one of its class.
    #[inline(always)]
    pub(crate) fn add(&mut self, class: u32, slot: u32)
        requires { length (pool_of self.old class) < 128 }
        ensures { self.new ≡ with_slot self.old class slot }
    {
        match class {
            0 => self.small.push(slot),
            1 => self.medium.push(slot),
            _ => self.wide.push(slot),
        }
    }

    /// The last one of this class isn't free any more.
    #[inline(always)]
    pub(crate) fn pop(&mut self, class: u32) -> Option<u32>
        ensures { IsPopped self.old class result self.new }
    {
        match class {
            0 => self.small.pop(),
            1 => self.medium.pop(),
            _ => self.wide.pop(),
        }
    }

    /// The first loose slot of this class, or 0.
    pub(crate) fn first_loose(&self, class: u32) -> u32
        ensures { result < loose_link }
    {
        self.trails.first(class)
    }

    /// This is the first one now, or there is none where that is 0.
    pub(crate) fn set_first_loose(&mut self, class: u32, slot: u32)
        ensures { self.new ≡ self.old }
    {
        self.trails.set_first(class, slot);
    }

    /// Whether there are more of some class than the seat keeps, or loose ones.
    #[inline(always)]
    pub(crate) fn has_to_give(&self) -> bool {
        self.has_over(0) || self.has_over(1) || self.has_over(2) || self.trails.has_any()
    }

    /// Whether the slot of one more offer can be noted.
    pub(crate) fn has_room_to_part(&self) -> bool
        ensures room { IsTrue result → length self.now.parted < most_parted }
        ensures full { IsFalse result → IsFullOfParted self.now }
    {
        self.parted.len() < 64
    }

    /// One more that is to be free, once the epoch is later by three than this one.
    pub(crate) fn part(&mut self, slot: u32, stamp: u64)
        requires { length self.old.parted < most_parted }
        ensures { self.new ≡ with_parted self.old slot stamp }
    {
        self.parted.push(PartedSlot { slot, stamp });
    }

    /// Whether there are such.
    pub(crate) fn has_any_parted(&self) -> bool {
        !self.parted.is_empty()
    }

    /// Whether there are, and there is room for the first one, beside so many slots that were made: more than for those of nodes, which
    /// so don't hold it back.
    pub(crate) fn has_parted(&self, made: usize) -> bool
        requires { made ≤ 128 }
        ensures some { IsTrue result → 0 < length self.now.parted }
        ensures room { IsTrue result → length (pool_of self.now 1) + made + 1 ≤ 128 }
    {
        !self.parted.is_empty() && self.medium.len() + made + TRY <= 128
    }

    /// Whether there is, and the epoch of the first one is three before this one.
    pub(crate) fn has_ripe(&self, made: usize, epoch: u64) -> bool
        requires { made ≤ 128 }
        ensures ripe { IsTrue result → IsRipeIn self.now epoch }
        ensures room { IsTrue result → length (pool_of self.now 1) + made + 1 ≤ 128 }
    {
        match self.parted.first() {
            Some(first) => self.has_parted(made) && is_ripe(epoch, first.stamp),
            None => false,
        }
    }

    /// It is free.
    pub(crate) fn free_parted(&mut self)
        requires some { 0 < length self.old.parted }
        requires room { length (pool_of self.old 1) < 128 }
        ensures { (y : PartedSlot) (rest : List PartedSlot) → self.old.parted ≡ y ∷ rest → self.new ≡ without_first self.old y.slot rest }
    {
        let first = self.parted.remove(0);
        self.medium.push(first.slot);
    }
}
