//! The kinds of atomic steps.

ghost use Rattle.std.specs.Prelude.{◌≡◌, Some};
ghost use Rattle.ctrie_base.specs.Kinds.{name_of};

use std::fmt;

/// What one atomic step does. Ten kinds are taken by an operation, the last three by a sweep.
#[derive(Clone, Copy, Debug, PartialEq, Eq)]
pub enum Kind {
    /// An operation begins.
    Begin,
    /// Reads a root word.
    ReadRoot,
    /// Compares and swaps a root word.
    SwapRoot,
    /// Reads an indirection's main word.
    ReadMain,
    /// Compares and swaps an indirection's main word.
    SwapMain,
    /// Reads a main node's `prev` word.
    ReadPrev,
    /// Compares and swaps a main node's `prev` word.
    SwapPrev,
    /// Reads one slot that never changes.
    Look,
    /// Takes one slot for a new node.
    Make,
    /// An operation ends with its reply.
    End,
    /// Reads the epoch that one actor's operation recorded.
    ScanPin,
    /// The epoch grows by one.
    Advance,
    /// Frees one slot of limbo.
    FreeOne,
}

impl Kind {
    /// Its name in scripts, as `read-root`.
    pub fn name(self) -> &'static str
        ensures { result.now ≡ name_of self }
    {
        match self {
            Kind::Begin => "begin",
            Kind::ReadRoot => "read-root",
            Kind::SwapRoot => "swap-root",
            Kind::ReadMain => "read-main",
            Kind::SwapMain => "swap-main",
            Kind::ReadPrev => "read-prev",
            Kind::SwapPrev => "swap-prev",
            Kind::Look => "look",
            Kind::Make => "make",
            Kind::End => "end",
            Kind::ScanPin => "scan-pin",
            Kind::Advance => "advance",
            Kind::FreeOne => "free-one",
        }
    }
}

impl fmt::Display for Kind {
    ghost output = { λ k. Some (name_of k) };

    fn fmt<W: fmt::Write>(&self, f: &mut fmt::Formatter<W>) -> fmt::Result {
        f.write_str(self.name())
    }
}
