//! Writing all of the output.

ghost use Rattle.std.specs.Prelude.{◌≡◌, ◌<◌, ◌^◌, ℕ, OnOk, OnErr, IsOkUnless};
ghost use Rattle.std.specs.Io.KnownBytes.{Appends};
ghost use Rattle.counted_io.specs.Counts.{inner_of, failures};
ghost use Rattle.counted_io.specs.Beginnings.{AppendsBeginning};

use crate::counting::Counted;
use crate::failures::Failure;
use crate::reading::is_interrupted;
use std::io::Write;

/// Writes the text and nothing else. An interrupted call is made again. After an error a beginning of
/// the text was written.
pub fn write_all<W: Write>(output: &mut Counted<W>, text: &[u8]) -> Result<(), Failure>
    requires { failures output.old < 2 ^ 63 }
    ensures ok { OnOk result (Appends (W.contents (inner_of output.old)) (W.contents (inner_of output.new)) text.now) }
    ensures part { OnErr result (AppendsBeginning (W.contents (inner_of output.old)) (W.contents (inner_of output.new)) text.now) }
    ensures failed { OnErr result (failures output.old < failures output.new) }
    ensures only_write { IsOkUnless result Failure.Write }
{
    let mut written = 0;
    for _ in 0..u64::MAX {
        if written == text.len() {
            break;
        }
        match output.write(&text[written..]) {
            Ok(0) => return Err(Failure::Write),
            Ok(count) => written += count,
            Err(error) if is_interrupted(&error) => {}
            Err(_) => return Err(Failure::Write),
        }
    }
    if written < text.len() {
        return Err(Failure::Write);
    }
    output.flush().map_err(|_| Failure::Write)
}
