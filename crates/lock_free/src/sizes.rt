//! How many words there are, and for what.

ghost use Rattle.std.specs.Prelude.{◌≡◌, ℕ, ◌+◌, ◌*◌, ◌<◌, ◌≤◌, ◌^◌, ◌↔◌, IsTrue};
ghost use Rattle.lock_free.specs.Places.{cell_word, count_word, part_of, slots_in, stride, words_of, AreSizes, IsSlot};

use nodes::HashKind;

/// How many of everything a map has.
#[derive(Clone, Copy)]
pub struct Sizes {
    /// How many seats, 1 to 255.
    pub seats: u8,
    /// The hash of keys.
    pub hash: HashKind,
    /// How many slots of two words.
    pub small: u32,
    /// How many of eight.
    pub medium: u32,
    /// How many of 24.
    pub wide: u32,
}

/// So many words a slot of this class takes.
fn stride(class: u32) -> u64
    ensures { result ≡ stride class }
{
    match class {
        0 => 2,
        1 => 8,
        _ => 24,
    }
}

impl Sizes {
    /// How many words there are.
    pub fn words(&self) -> u64
        ensures { result ≡ words_of self.now }
    {
        self.part(2) + 24 * u64::from(self.wide) + u64::from(self.small) + 96
    }

    /// Whether they are in range: there are seats, two small slots at least, and 2^28 words at most.
    pub fn are_in_range(&self) -> bool
        ensures { IsTrue result ↔ AreSizes self.now }
    {
        self.seats >= 1 && self.small >= 2 && self.words() <= 1 << 28
    }

    /// How many slots there are of this class.
    pub fn slots(&self, class: u32) -> u32
        ensures { result ≡ slots_in self.now class }
    {
        match class {
            0 => self.small,
            1 => self.medium,
            _ => self.wide,
        }
    }

    /// The first of the words of this class.
    fn part(&self, class: u32) -> u64
        ensures { result ≡ part_of self.now class }
    {
        let first = 352 + 16 * u64::from(self.seats);
        match class {
            0 => first,
            1 => first + 2 * u64::from(self.small),
            _ => first + 2 * u64::from(self.small) + 8 * u64::from(self.medium),
        }
    }

    /// The slot of this number in the class.
    pub fn slot(&self, class: u32, number: u32) -> u32
        requires range { words_of self.now ≤ 2 ^ 28 }
        requires class { class < 3 }
        requires number { number < slots_in self.now class }
        ensures { 2 * result ≡ part_of self.now class + stride class * number }
    {
        ((self.part(class) + stride(class) * u64::from(number)) / 2) as u32
    }

    /// The class of this slot.
    pub fn class(&self, slot: u32) -> u32
        ensures { (class : ℕ) → class < 3 → IsSlot self.now class slot → result ≡ class }
    {
        let word = 2 * u64::from(slot);
        if word < self.part(1) {
            0
        } else if word < self.part(2) {
            1
        } else {
            2
        }
    }

    /// Whether this is a slot of the class.
    pub(crate) fn has_slot(&self, class: u32, slot: u32) -> bool
        ensures { IsTrue result → IsSlot self.now class slot }
    {
        let word = 2 * u64::from(slot);
        let first = self.part(class);
        if word < first {
            return false;
        }
        let stride = stride(class);
        let number = (word - first) / stride;
        first + stride * number == word && number < u64::from(self.slots(class))
    }

    /// The word that counts references to the node in this slot of the class.
    #[inline(always)]
    pub fn count_word(&self, class: u32, slot: u32) -> usize
        ensures { result ≡ count_word self.now class slot }
    {
        let name = slot as usize;
        match class {
            0 => 176
                + 8 * self.seats as usize
                + 2 * self.small as usize
                + 8 * self.medium as usize
                + 24 * self.wide as usize
                + name,
            1 => 2 * name + 7,
            _ => 2 * name + 23,
        }
    }

    /// The word of the cell of this number, below 32, of the class.
    pub fn cell_word(&self, class: u32, number: usize) -> usize
        requires class { class < 3 }
        requires number { number < 32 }
        ensures { result ≡ cell_word self.now class number }
    {
        352 + 16 * self.seats as usize
            + 3 * self.small as usize
            + 8 * self.medium as usize
            + 24 * self.wide as usize
            + 32 * class as usize
            + number
    }
}
