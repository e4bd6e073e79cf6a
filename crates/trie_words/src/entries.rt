//! Entries of branches and lists, two in a word.

ghost use Rattle.std.specs.Prelude.{◌≡◌, ◌<◌};
ghost use Rattle.trie_words.specs.Codes.{entry_code, entry_of, IsEntry, pair_code, pair_of, IsPair};

use crate::names::bit_of;

/// An entry of a main node.
#[derive(Clone, Copy, Debug, Default, PartialEq, Eq, Drop)]
pub struct Entry {
    /// The slot of a single or of an indirection, below 2^27.
    pub slot: u32,
    /// It is a single that was made with the main node, which counts where that is its indirection's own.
    pub own: bool,
    /// A single stands there, no indirection.
    pub is_single: bool,
}

impl Entry {
    /// The entry of this half of a word.
    #[inline(always)]
    pub fn of_half(half: u32) -> Entry
        ensures { result ≡ entry_of half }
    {
        Entry {
            slot: half % (1 << 27),
            own: half / (1 << 27) % 2 == 1,
            is_single: half / (1 << 28) % 2 == 1,
        }
    }

    /// Its half of a word, below 2^29.
    #[inline(always)]
    pub fn to_half(self) -> u32
        requires { IsEntry self }
        ensures { result ≡ entry_code self }
    {
        self.slot + (1 << 27) * bit_of(self.own) as u32 + (1 << 28) * bit_of(self.is_single) as u32
    }
}

/// Two halves of a word.
#[derive(Clone, Copy, Debug, PartialEq, Eq, Drop)]
pub struct Pair {
    /// The low half.
    pub low: u32,
    /// The high half.
    pub high: u32,
}

impl Pair {
    /// The halves of this word.
    #[inline(always)]
    pub fn of_word(word: u64) -> Pair
        ensures { result ≡ pair_of word }
    {
        Pair {
            low: (word % (1 << 32)) as u32,
            high: (word / (1 << 32)) as u32,
        }
    }

    /// The word of these halves.
    #[inline(always)]
    pub fn to_word(self) -> u64
        ensures { result ≡ pair_code self }
    {
        u64::from(self.low) + (1 << 32) * u64::from(self.high)
    }
}
