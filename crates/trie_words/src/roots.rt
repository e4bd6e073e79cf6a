//! The word of a handle.

ghost use Rattle.std.specs.Prelude.{◌≡◌, ◌<◌};
ghost use Rattle.trie_words.specs.Codes.{root_code, root_of, IsRootWord};

/// What stands in the word of a handle.
#[derive(Clone, Copy, Debug, PartialEq, Eq, Drop)]
pub enum RootWord {
    /// The handle is closed.
    Closed,
    /// It is open, may be written, and has the root in this slot.
    Writable(u32),
    /// It is open for readers, and has the root in this slot.
    ReadOnly(u32),
    /// It is open and may be written; what its root is the offer in this slot says.
    Offered(u32),
    /// The offer in this slot opens it, as soon as that is carried out.
    Opening(u32),
    /// A call is to open it.
    Reserved,
    /// A seat would close it: it may be written, and has the root in this slot.
    ClosingWritable {
        /// The slot of the root, below 2^27.
        root: u32,
        /// The seat that would close it.
        seat: u8,
    },
    /// A seat would close it: it is for readers, and has the root in this slot.
    ClosingReadOnly {
        /// The slot of the root, below 2^27.
        root: u32,
        /// The seat that would close it.
        seat: u8,
    },
}

impl RootWord {
    /// What this word says.
    #[inline(always)]
    pub fn of_word(word: u64) -> RootWord
        ensures { result ≡ root_of word }
    {
        let slot = (word % (1 << 27)) as u32;
        let seat = (word / (1 << 27) % (1 << 8)) as u8;
        match word / (1 << 35) {
            0 => RootWord::Closed,
            1 => RootWord::Writable(slot),
            2 => RootWord::ReadOnly(slot),
            3 => RootWord::Offered(slot),
            4 => RootWord::Opening(slot),
            5 => RootWord::Reserved,
            6 => RootWord::ClosingWritable { root: slot, seat },
            _ => RootWord::ClosingReadOnly { root: slot, seat },
        }
    }

    /// The word that says it.
    #[inline(always)]
    pub fn to_word(self) -> u64
        requires { IsRootWord self }
        ensures { result ≡ root_code self }
    {
        match self {
            RootWord::Closed => 0,
            RootWord::Writable(slot) => u64::from(slot) + (1 << 35),
            RootWord::ReadOnly(slot) => u64::from(slot) + 2 * (1 << 35),
            RootWord::Offered(slot) => u64::from(slot) + 3 * (1 << 35),
            RootWord::Opening(slot) => u64::from(slot) + 4 * (1 << 35),
            RootWord::Reserved => 5 * (1 << 35),
            RootWord::ClosingWritable { root, seat } => {
                u64::from(root) + (1 << 27) * u64::from(seat) + 6 * (1 << 35)
            }
            RootWord::ClosingReadOnly { root, seat } => {
                u64::from(root) + (1 << 27) * u64::from(seat) + 7 * (1 << 35)
            }
        }
    }
}
