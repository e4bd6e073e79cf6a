//! Failures.

ghost use Rattle.std.specs.Prelude.{◌≡◌};
ghost use Rattle.counted_io.specs.declared.failures.Failure.TheVariants.{Memory};

use std::alloc::AllocError;
use thiserror::Error;

/// Why not all was read, or not all was written.
#[derive(Clone, Copy, Debug, PartialEq, Eq, Error)]
pub enum Failure {
    /// A call of the reader failed.
    #[error("a call of the reader failed")]
    Read,
    /// A call of the writer failed. A beginning of the text may have been written.
    #[error("a call of the writer failed")]
    Write,
    /// A growth was really refused.
    #[error("memory was refused")]
    Memory,
}

impl From<AllocError> for Failure {
    ghost from_gives = { λ _ f. f ≡ Memory };

    fn from(_e: AllocError) -> Failure {
        Failure::Memory
    }
}
