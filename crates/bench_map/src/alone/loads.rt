//! Which calls of a map that one thread calls are made.

/// How the calls are chosen.
#[derive(Clone, Copy, Debug, PartialEq, Eq)]
pub(crate) enum Load {
    /// Gets, puts and removals, 6 : 6 : 4.
    Mix,
    /// Gets alone.
    Get,
    /// Puts alone.
    Put,
    /// Puts alone, of each key in turn.
    Insert,
    /// The mix, with a freeze, a get of what it opens and a close now and then.
    Freeze,
    /// A freeze, the first change after it, and a close.
    Copy,
    /// The same, and what has changed since the freeze.
    Diff,
    /// Counts alone.
    Count,
    /// Parts of a listing alone, of 64 entries.
    Part,
    /// The same in the map's own order.
    Scan,
}

impl Load {
    /// The one of this name.
    pub(crate) fn named(name: &str) -> Option<Load> {
        match name {
            "mix" => Some(Load::Mix),
            "get" => Some(Load::Get),
            "put" => Some(Load::Put),
            "insert" => Some(Load::Insert),
            "freeze" => Some(Load::Freeze),
            "copy" => Some(Load::Copy),
            "diff" => Some(Load::Diff),
            "count" => Some(Load::Count),
            "part" => Some(Load::Part),
            "scan" => Some(Load::Scan),
            _ => None,
        }
    }
}
