//! The word of an indirection.

ghost use Rattle.std.specs.Prelude.{◌≡◌, ◌<◌};
ghost use Rattle.trie_words.specs.Codes.{link_code, link_of, IsLink};

use crate::names::Name;

/// An indirection: its generation stays, its main node may be replaced.
#[derive(Clone, Copy, Debug, PartialEq, Eq, Drop)]
pub struct Link {
    /// Below 2^36.
    pub generation: u64,
    /// The main node that stands there.
    pub main: Name,
}

impl Link {
    /// The indirection of this word.
    #[inline(always)]
    pub fn of_word(word: u64) -> Link
        ensures { result ≡ link_of word }
    {
        Link {
            generation: word / (1 << 28),
            main: Name::of_word(word),
        }
    }

    /// Its word.
    #[inline(always)]
    pub fn to_word(self) -> u64
        requires { IsLink self }
        ensures { result ≡ link_code self }
    {
        (1 << 28) * self.generation + self.main.to_word()
    }
}
