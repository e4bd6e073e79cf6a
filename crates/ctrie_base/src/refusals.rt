//! Why a call was refused.

ghost use Rattle.std.specs.Prelude.{◌≡◌, Some};
ghost use Rattle.ctrie_base.specs.Refusals.{number_of, name_of};
ghost use Rattle.ctrie_base.specs.declared.refusals.Refusal.TheVariants.{Memory};

use std::alloc::{AllocError, AllocFailed};
use std::error::Error;
use std::fmt;

/// Why a call was refused. What holds after it stands beside each.
#[derive(Clone, Copy, Debug, PartialEq, Eq)]
pub enum Refusal {
    /// The call's handle isn't open. No operation begins, nothing changes.
    NoHandle = 1,
    /// A call that changes the map, a snapshot or a freeze, on a read-only handle. Nothing changes.
    ReadOnly = 2,
    /// `entries` or `count` on a writable handle. Nothing changes.
    NotReadOnly = 3,
    /// A snapshot or a freeze while 256 handles are open or reserved. Nothing changes.
    HandlesFull = 4,
    /// A close while an operation on that handle runs, or `reclaim` while any runs. Nothing changes.
    Busy = 5,
    /// A begin while the actor's operation runs. Nothing changes.
    ActorBusy = 6,
    /// The actor is 0 or above the limit. Nothing changes.
    NoActor = 7,
    /// The actor runs no operation. Nothing changes.
    Idle = 8,
    /// The machine has taken all its steps: this one isn't taken.
    Spent = 9,
    /// No slot was free. The operation ends without effect.
    NoSlots = 10,
    /// A growth was really refused. The step that wanted it, or the call without steps, changes nothing.
    Memory = 11,
    /// A limit, or a runner's number of seats, is out of range. Nothing is made.
    BadLimits = 12,
    /// A line has wrong words, or a wrong number of them. Nothing is run or written.
    BadLine = 20,
    /// A word that must be a number isn't one in range. Nothing is run or written.
    BadNumber = 21,
    /// A line of the header has a fault, or is missing. Nothing is run or written.
    BadHeader = 22,
    /// There are more lines than the limit. Nothing is run or written.
    TooLong = 23,
    /// An order line is missing, stands twice, or has something else than one `slots` line after it.
    /// Nothing is written.
    BadOrder = 24,
}

impl Refusal {
    /// The number that stands for it in reports: 1 to 12, or 20 to 24.
    pub fn number(self) -> u8
        ensures { result ≡ number_of self }
    {
        self as u8
    }

    /// Its name in reports and messages, as `NoHandle`.
    pub fn name(self) -> &'static str
        ensures { result.now ≡ name_of self }
    {
        match self {
            Refusal::NoHandle => "NoHandle",
            Refusal::ReadOnly => "ReadOnly",
            Refusal::NotReadOnly => "NotReadOnly",
            Refusal::HandlesFull => "HandlesFull",
            Refusal::Busy => "Busy",
            Refusal::ActorBusy => "ActorBusy",
            Refusal::NoActor => "NoActor",
            Refusal::Idle => "Idle",
            Refusal::Spent => "Spent",
            Refusal::NoSlots => "NoSlots",
            Refusal::Memory => "Memory",
            Refusal::BadLimits => "BadLimits",
            Refusal::BadLine => "BadLine",
            Refusal::BadNumber => "BadNumber",
            Refusal::BadHeader => "BadHeader",
            Refusal::TooLong => "TooLong",
            Refusal::BadOrder => "BadOrder",
        }
    }
}

impl fmt::Display for Refusal {
    ghost output = { λ r. Some (name_of r) };

    fn fmt<W: fmt::Write>(&self, f: &mut fmt::Formatter<W>) -> fmt::Result {
        f.write_str(self.name())
    }
}

impl Error for Refusal {}

impl From<AllocError> for Refusal {
    ghost from_gives = { λ _ r. r ≡ Memory };

    fn from(_e: AllocError) -> Refusal {
        Refusal::Memory
    }
}

impl<T: Drop> From<AllocFailed<T>> for Refusal {
    ghost from_gives = { λ _ r. r ≡ Memory };

    fn from(_e: AllocFailed<T>) -> Refusal {
        Refusal::Memory
    }
}
