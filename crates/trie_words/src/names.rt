//! The name of a main node.

ghost use Rattle.std.specs.Prelude.{◌≡◌, ◌<◌};
ghost use Rattle.trie_words.specs.Codes.{name_code, name_of, IsName, bit};

/// A main node as an indirection or another main node names it.
#[derive(Clone, Copy, Debug, PartialEq, Eq, Drop)]
pub struct Name {
    /// Its slot, below 2^27.
    pub slot: u32,
    /// It was made in the generation of the indirection where it stands.
    pub own: bool,
}

/// 1 for true, 0 for false.
#[inline(always)]
pub fn bit_of(flag: bool) -> u64
    ensures { result ≡ bit flag }
{
    if flag { 1 } else { 0 }
}

impl Name {
    /// The name in the low 28 bits of a word.
    #[inline(always)]
    pub fn of_word(word: u64) -> Name
        ensures { result ≡ name_of word }
    {
        Name {
            slot: (word % (1 << 27)) as u32,
            own: word / (1 << 27) % 2 == 1,
        }
    }

    /// The name as a number below 2^28.
    #[inline(always)]
    pub fn to_word(self) -> u64
        requires { IsName self }
        ensures { result ≡ name_code self }
    {
        u64::from(self.slot) + (1 << 27) * bit_of(self.own)
    }
}
