//! The word of a seat: in which epoch it began its call, and on which handle.

ghost use Rattle.std.specs.Prelude.{◌≡◌, ◌<◌};
ghost use Rattle.trie_words.specs.Codes.{pin_code, pin_of, IsPin};

/// What a seat says of the call that it makes.
#[derive(Clone, Copy, Debug, PartialEq, Eq, Drop)]
pub struct Pin {
    /// The epoch that it read before, below 2^54.
    pub epoch: u64,
    /// The handle that it calls on, below 512; from 256 on none.
    pub handle: u16,
}

impl Pin {
    /// What this word of a seat says; 0 says that it makes no call.
    #[inline(always)]
    pub fn of_word(word: u64) -> Option<Pin>
        ensures { result ≡ pin_of word }
    {
        if word == 0 {
            return None;
        }
        Some(Pin {
            epoch: (word - 1) / (1 << 9),
            handle: ((word - 1) % (1 << 9)) as u16,
        })
    }

    /// The word that says it.
    #[inline(always)]
    pub fn to_word(self) -> u64
        requires { IsPin self }
        ensures { result ≡ pin_code self }
    {
        1 + u64::from(self.handle) + (1 << 9) * self.epoch
    }
}
