//! Maps for threads, and what may be wanting.

use ctrie_base::HashKind;
use lock_free::{OpenError, Sizes};
use std::alloc::{AllocError, AllocFailed};
use std::{fmt, io};

/// Why there is no answer.
#[derive(Clone, Copy, Debug)]
pub enum Trouble {
    /// Memory was refused.
    Memory,
    /// The map has too few slots for the calls.
    Full,
    /// The history couldn't be written.
    Output,
}

impl fmt::Display for Trouble {
    fn fmt<W: fmt::Write>(&self, f: &mut fmt::Formatter<W>) -> fmt::Result {
        f.write_str(match self {
            Trouble::Memory => "no memory",
            Trouble::Full => "the map is full",
            Trouble::Output => "the output failed",
        })
    }
}

impl From<AllocError> for Trouble {
    fn from(_: AllocError) -> Trouble {
        Trouble::Memory
    }
}

impl<T: Drop> From<AllocFailed<T>> for Trouble {
    fn from(_: AllocFailed<T>) -> Trouble {
        Trouble::Memory
    }
}

impl From<io::Error> for Trouble {
    fn from(_: io::Error) -> Trouble {
        Trouble::Output
    }
}

impl From<OpenError> for Trouble {
    fn from(error: OpenError) -> Trouble {
        match error {
            OpenError::BadSizes => Trouble::Full,
            OpenError::Memory => Trouble::Memory,
        }
    }
}

/// The sizes of a map for so many calls of so many threads: few slots are used again, and a call may take some fifty.
pub fn sizes_for(threads: u8, hash: HashKind, calls: u64) -> Sizes {
    let wide = calls.clamp(64, 4_000_000) as u32;
    Sizes {
        seats: threads,
        hash,
        small: wide * 8,
        medium: wide * 2,
        wide,
    }
}
