//! Which calls of the map are made.

/// What spreads keys over 64 bits: 2 to the 64th over the golden ratio.
const SPREAD: u64 = 0x9E37_79B9_7F4A_7C15;

/// How the calls of a thread are chosen.
#[derive(Clone, Copy, Debug, PartialEq, Eq)]
pub(crate) enum Load {
    /// Gets, puts and removals, 6 : 6 : 4.
    Mix,
    /// Gets alone.
    Get,
    /// Puts alone.
    Put,
    /// Puts alone, of each key in turn.
    Insert,
    /// The same, of keys that are spread over 64 bits.
    Spread,
    /// The mix, and now and then a copy that is frozen, read and closed, and isn't counted as a call.
    Copies,
    /// A freeze, a get of what it opens, the first change after it, and a close.
    Copy,
    /// Puts and removals, 3 : 1.
    Change,
    /// A freeze, a count of what it opens, and a close.
    Count,
    /// A freeze, many gets of what it opens, and a close, by one thread, while the others `Change`.
    Reading,
    /// Puts alone by one thread, while the others `Count`.
    Counted,
}

impl Load {
    /// The one of this name.
    pub(crate) fn named(name: &str) -> Option<Load> {
        match name {
            "mix" => Some(Load::Mix),
            "get" => Some(Load::Get),
            "put" => Some(Load::Put),
            "insert" => Some(Load::Insert),
            "spread" => Some(Load::Spread),
            "copies" => Some(Load::Copies),
            "copy" => Some(Load::Copy),
            "reading" => Some(Load::Reading),
            "counted" => Some(Load::Counted),
            _ => None,
        }
    }

    /// What all threads but the first call until that one has made its calls, where those alone are counted.
    pub(crate) fn beside(self) -> Option<Load> {
        match self {
            Load::Reading => Some(Load::Change),
            Load::Counted => Some(Load::Count),
            _ => None,
        }
    }

    /// The key of this number, from 0 on.
    pub(crate) fn key(self, number: u64) -> u64 {
        match self {
            Load::Spread => number.wrapping_add(1).wrapping_mul(SPREAD),
            _ => number,
        }
    }
}
