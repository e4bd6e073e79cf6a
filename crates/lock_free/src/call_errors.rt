//! Why a call of a seat was refused.

ghost use Rattle.std.specs.Prelude.{◌≡◌};
ghost use Rattle.lock_free.specs.SeatCalls.{error_of, walk_error};

use crate::calling::Denial;
use crate::walking::WalkError;

/// Why a call was refused. No map has changed then.
#[derive(Clone, Copy, Debug, PartialEq, Eq)]
pub enum CallError {
    /// The handle isn't open, or is only being opened.
    NoHandle,
    /// A change by a read-only handle.
    ReadOnly,
    /// A call for a read-only handle, by one that may be written.
    NotReadOnly,
    /// The key has no value and is to get one, and 32 other keys have its hash.
    Crowded,
    /// No slot is free for what the call has to make. A change, a copy or a clear with a runtime has waited first, where slots that its seat has
    /// retired were to be free soon.
    Full,
    /// It didn't come through in its number of tries, and nothing of it is under way; or no slot was free in them, but some that its seat has
    /// retired are to be soon. It may come through if it is made again.
    Spent,
    /// A copy, where each of the 256 handles is open or about to be opened.
    HandlesFull,
    /// A close, while another seat is in a call on the handle, is about to begin or to open it, or would close it too.
    Busy,
    /// A copy or a clear, where no generation is left for a root: 2^36 are given out in the life of a map.
    WornOut,
    /// Memory was refused to a list that a call makes.
    Memory,
}

impl From<Denial> for CallError {
    ghost from_gives = { λ why error. error ≡ error_of why };

    fn from(why: Denial) -> CallError {
        match why {
            Denial::NoHandle => CallError::NoHandle,
            Denial::ReadOnly => CallError::ReadOnly,
            Denial::NotReadOnly => CallError::NotReadOnly,
        }
    }
}

impl From<WalkError> for CallError {
    ghost from_gives = { λ why error. error ≡ walk_error why };

    fn from(why: WalkError) -> CallError {
        match why {
            WalkError::Memory => CallError::Memory,
            WalkError::Spent => CallError::Spent,
        }
    }
}
