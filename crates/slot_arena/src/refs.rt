//! References to slots.

ghost use Rattle.std.specs.Prelude.{◌≡◌, ◌<◌};
ghost use Rattle.slot_arena.specs.Refs.{ref_to, slot_of, birth_of, most_slots, birth_limit};

use std::marker::Model;

/// How many slots there are at most: this many numbers of slots a reference has.
pub const MOST_SLOTS: u32 = 1 << 20;

/// A reference to a slot in use: the slot's number, and the birth number that was drawn when the slot
/// was taken. A slot that is used again has another birth, so its references differ. The default
/// reference names no slot, since births begin at 1. It takes eight bytes.
#[derive(Clone, Copy, Debug, Default, PartialEq, Eq, PartialOrd, Ord)]
pub struct Ref {
    /// The birth, of 44 bits, above the slot's 20: so references are compared and copied as one number.
    word: u64,
}

const _: () = prove!(size_of::<Ref>() == 8);

impl Model for Ref {
    ghost use Rattle.std.specs.Prelude.{ℕ};

    ghost Value = { ℕ };

    ghost view = { λ r. r.word };

    ghost inverse = { λ n. record { word = n } };
}

impl Ref {
    /// The reference to this slot under this birth.
    pub fn new(birth: u64, slot: u32) -> Ref
        requires slot { slot < most_slots }
        requires birth { birth < birth_limit }
        ensures { result ≡ ref_to birth slot }
    {
        Ref {
            word: birth * u64::from(MOST_SLOTS) + u64::from(slot),
        }
    }

    /// The number of the slot, from 0.
    pub fn slot(self) -> u32
        ensures { result ≡ slot_of self }
    {
        (self.word % u64::from(MOST_SLOTS)) as u32
    }

    /// The birth of what the slot holds, from 1; 0 where it names no slot.
    pub fn birth(self) -> u64
        ensures { result ≡ birth_of self }
    {
        self.word / u64::from(MOST_SLOTS)
    }
}
