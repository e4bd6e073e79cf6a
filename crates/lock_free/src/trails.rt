//! Where a seat finds loose slots again: each one leads on to the next. No clause relies on it, and each slot is asked itself.

ghost use Rattle.std.specs.Prelude.{◌≡◌, ◌<◌};
ghost use Rattle.lock_free.specs.Cells.{loose_link};

use crate::links::LOOSE;
use crate::stock::Stock;

/// The first loose slot of each class that a seat knows of, or 0.
#[derive(Clone, Copy, Drop)]
pub struct Trails {
    small: u32,
    medium: u32,
    wide: u32,
}

impl Trails {
    /// Of a seat that knows of none.
    pub(crate) fn new() -> Trails {
        Trails {
            small: 0,
            medium: 0,
            wide: 0,
        }
    }

    /// The first one of this class, or 0.
    pub(crate) fn first(&self, class: u32) -> u32
        ensures { result < loose_link }
    {
        let slot = match class {
            0 => self.small,
            1 => self.medium,
            _ => self.wide,
        };
        slot % LOOSE
    }

    /// This is the first one of this class now, or there is none where that is 0.
    pub(crate) fn set_first(&mut self, class: u32, slot: u32) {
        match class {
            0 => self.small = slot,
            1 => self.medium = slot,
            _ => self.wide = slot,
        }
    }

    /// Whether there are loose slots of some class.
    #[inline(always)]
    pub(crate) fn has_any(&self) -> bool {
        self.small != 0 || self.medium != 0 || self.wide != 0
    }
}

impl Stock {
    /// The first loose slot of this class that the seat knows of, or 0.
    pub(crate) fn first_loose(&self, class: u32) -> u32
        ensures { result < loose_link }
    {
        self.free.first_loose(class)
    }

    /// This is the first one now, or there is none where that is 0.
    pub(crate) fn set_first_loose(&mut self, class: u32, slot: u32)
        ensures { self.new ≡ self.old }
    {
        self.free.set_first_loose(class, slot);
    }

    /// Whether as many slots of this class are free as the seat keeps, or so many.
    pub(crate) fn has_enough(&self, class: u32, most: usize) -> bool {
        self.free.len(class) >= most.min(self.free.kept(class))
    }

    /// Whether more slots of this class are free than the seat keeps.
    #[inline(always)]
    pub(crate) fn has_over(&self, class: u32) -> bool {
        self.free.has_over(class)
    }

    /// Whether the seat has some to give to others.
    #[inline(always)]
    pub(crate) fn has_to_give(&self) -> bool {
        self.free.has_to_give()
    }

    /// Where it has some to give, it looks at the epoch when its call ends, and gives then.
    pub(crate) fn note_to_give(&mut self)
        ensures { self.new ≡ self.old }
    {
        if self.has_to_give() {
            self.newly = u32::MAX;
        }
    }
}
