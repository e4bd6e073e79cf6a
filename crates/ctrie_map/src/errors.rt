//! Why a call was refused.

ghost use Rattle.std.specs.Prelude.{◌≡◌};
ghost use Rattle.ctrie_map.specs.declared.errors.MapError.TheVariants.{Memory};
ghost use Rattle.ctrie_map.specs.Performing.{of_refusal};

use ctrie_base::Refusal;
use std::alloc::AllocError;
use thiserror::Error;

/// Why a call was refused. No map has changed then.
#[derive(Clone, Copy, Debug, PartialEq, Eq, Error)]
pub enum MapError {
    /// The handle isn't open.
    #[error("the handle isn't open")]
    NoHandle,
    /// A change by a read-only handle, or a restore of it. A copy never.
    #[error("the map is read-only")]
    ReadOnly,
    /// A snapshot, a freeze, a `restore` from another handle, a `put_all` or a `retain` while 256 handles are open; and a
    /// `copy_under` where the number is open, or is none below 256.
    #[error("no handle is free")]
    HandlesFull,
    /// The key has no value and is to get one, and 32 other keys have its hash.
    #[error("too many keys have this hash")]
    Crowded,
    /// A call that adds a key or a copy, exactly where `free` is 0. Another change only where `free` is 0 and other handles are
    /// open: its last step before this answer was to make a node, and no slot was free, not even of the reserve. A `put_all`, or a
    /// `retain` where other handles are open, only where `free` is less than 24 and 571 a pair: its copy, or the change of a key
    /// in it, found no slot. A removal whose repair of the trie finds no slot is done.
    #[error("no slot is free")]
    Full,
    /// The number of slots isn't from 3 to 1,000,000, or that of a shared map's shards isn't from 1 to 64.
    #[error("the number of slots or shards is out of range")]
    BadSizes,
    /// No more steps are left than a change, a copy or a close may take with the sweep after it, of the 2^45 - 2^21 of a
    /// map's life. A `restore`, a `put_all` and a `retain` that has pairs to remove want their own steps besides. The map can
    /// still be read.
    #[error("the map is worn out")]
    WornOut,
    /// Memory was refused to a new map, or to a list that a call makes.
    #[error("no memory")]
    Memory,
}

impl From<Refusal> for MapError {
    ghost from_gives = { λ refusal error. error ≡ of_refusal refusal };

    fn from(refusal: Refusal) -> MapError {
        match refusal {
            Refusal::NoHandle => MapError::NoHandle,
            Refusal::ReadOnly => MapError::ReadOnly,
            Refusal::HandlesFull => MapError::HandlesFull,
            Refusal::Spent => MapError::WornOut,
            Refusal::BadLimits => MapError::BadSizes,
            _ => MapError::Memory,
        }
    }
}

impl From<AllocError> for MapError {
    ghost from_gives = { λ refused error. error ≡ Memory };

    fn from(_refused: AllocError) -> MapError {
        MapError::Memory
    }
}
