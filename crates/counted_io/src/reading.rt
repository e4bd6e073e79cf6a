//! Reading all of the input.

ghost use Rattle.std.specs.Prelude.{◌≡◌, ◌<◌, ◌^◌, ℕ, List, IfOk, OnOk, IfErr, IfSome, IsTrue, ◌↔◌};
ghost use Rattle.std.specs.IoError.{error_kind};
ghost use Rattle.std.specs.Io.KnownBytes.{IsAtEnd};
ghost use Rattle.counted_io.specs.Counts.{inner_of, failures};
ghost use Rattle.counted_io.specs.Failures.{IsOfReading};

use crate::counting::Counted;
use crate::failures::Failure;
use std::alloc::Global;
use std::io;
use std::io::{ErrorKind, Read};

/// How many bytes one call asks for.
const PIECE: usize = 8192;

/// Whether a call failed only because it was interrupted, so that it is to be made again.
pub fn is_interrupted(error: &io::Error) -> bool
    ensures { IsTrue result ↔ (error_kind error.now ≡ ErrorKind.Interrupted) }
{
    error.kind() == ErrorKind::Interrupted
}

/// All bytes that the reader has left. An interrupted call is made again.
pub fn read_all<R: Read>(alloc: Global, input: &mut Counted<R>) -> Result<Vec<u8>, Failure>
    requires { failures input.old < 2 ^ 63 }
    ensures bytes { IfOk result (λ text. IfSome (R.remaining (inner_of input.old)) (λ bytes. text.items ≡ bytes)) }
    ensures end { OnOk result (IsAtEnd (R.remaining (inner_of input.new))) }
    ensures failures { IfErr result (IsOfReading (failures input.old < failures input.new)) }
{
    let mut text = Vec::new(alloc);
    let mut piece = [0; PIECE];
    for _ in 0..u64::MAX {
        match input.read(&mut piece) {
            Ok(0) => return Ok(text),
            Ok(count) => text.extend_from_slice(&piece[..count])?,
            Err(error) if is_interrupted(&error) => {}
            Err(_) => return Err(Failure::Read),
        }
    }
    Err(Failure::Memory)
}
