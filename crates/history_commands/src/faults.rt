//! Faults.

ghost use Rattle.std.specs.Prelude.{◌≡◌};
ghost use Rattle.history_commands.specs.Faults.{status_of, of_failure, of_text};
ghost use Rattle.history_commands.specs.declared.faults.Fault.TheVariants.{Memory};

use counted_io::Failure;
use ctrie_base::Refusal;
use std::alloc::AllocError;
use text_lines::Told;
use thiserror::Error;

/// Why nothing, or not all, was carried out.
#[derive(Clone, Copy, Debug, PartialEq, Eq, Error)]
pub enum Fault {
    /// A line of the input, counted from 1, has a fault. Nothing was written.
    #[error("line {0}: {1}")]
    Line(u64, Refusal),
    /// A call of the reader failed. Nothing was written.
    #[error("ctrie: read")]
    Read,
    /// A call of the writer failed. A beginning of the output may have been written.
    #[error("ctrie: write")]
    Write,
    /// Memory was really refused. Nothing was written.
    #[error("ctrie: memory")]
    Memory,
    /// The program's words name no command. No call over a reader and a writer answers it.
    #[error("ctrie: usage")]
    Usage,
}

impl From<AllocError> for Fault {
    ghost from_gives = { λ _ f. f ≡ Memory };

    fn from(_e: AllocError) -> Fault {
        Fault::Memory
    }
}

impl From<Failure> for Fault {
    ghost from_gives = { λ e f. f ≡ of_failure e };

    fn from(failure: Failure) -> Fault {
        match failure {
            Failure::Read => Fault::Read,
            Failure::Write => Fault::Write,
            Failure::Memory => Fault::Memory,
        }
    }
}

impl From<Told> for Fault {
    ghost from_gives = { λ e f. f ≡ of_text e };

    fn from(told: Told) -> Fault {
        match told {
            Told::Line(number, refusal) => Fault::Line(number, refusal),
            Told::Memory => Fault::Memory,
        }
    }
}

impl Fault {
    /// The exit status that tells of it: 1 for what the user wrote, 2 for reading, writing and memory.
    pub fn status(self) -> u8
        ensures { result ≡ status_of self }
    {
        match self {
            Fault::Line(_, _) | Fault::Usage => 1,
            Fault::Read | Fault::Write | Fault::Memory => 2,
        }
    }
}
