//! Checking a history.

ghost use Rattle.std.specs.Prelude.{◌≡◌, ◌≢◌, ◌<◌, ◌^◌, ℕ, IfOk, OnOk, IfErr, IfSome};
ghost use Rattle.std.specs.Io.KnownBytes.{Appends, Keeps, IsAtEnd};
ghost use Rattle.counted_io.specs.Counts.{inner_of, failures};
ghost use Rattle.history_commands.specs.Verdicts.{IsVerdict, HasLineFault, IsOfHistory, AppendsPart, verdict_line};

use crate::faults::Fault;
use counted_io::{Counted, read_all, write_all};
use history::is_order;
use history_text::read_history;
use std::alloc::Global;
use std::io::{Read, Write};

/// Whether the order that the text gives is legal for its events.
pub(crate) fn judge(alloc: Global, text: &[u8]) -> Result<bool, Fault>
    ensures verdict { IfOk result (IsVerdict text.now) }
    ensures faults { IfErr result (IsOfHistory text.now) }
{
    let given = read_history(alloc, text)?;
    let events = given.events.as_slice();
    let order = given.order.as_slice();
    match is_order(alloc, events, order, given.hash) {
        Ok(legal) => Ok(legal),
        Err(_) => Err(Fault::Memory),
    }
}

/// The line that tells the verdict.
fn line_of(legal: bool) -> &'static str
    ensures { result.now ≡ verdict_line legal }
{
    if legal { "legal\n" } else { "not legal\n" }
}

/// Reads a history to its end, and writes the line `legal` or `not legal`, as it answers: whether the
/// order that it gives is legal for its events.
pub fn check_history<R: Read, W: Write>(
    alloc: Global,
    input: &mut Counted<R>,
    output: &mut Counted<W>,
) -> Result<bool, Fault>
    requires input_count { failures input.old < 2 ^ 63 }
    requires output_count { failures output.old < 2 ^ 63 }

    // The answer is right of what the reader had, which has no fault; and just its line was written.
    ensures verdict { IfOk result (λ legal. IfSome (R.remaining (inner_of input.old)) (λ text. IsVerdict text legal)) }
    ensures written { IfOk result (λ legal.
        Appends (W.contents (inner_of output.old)) (W.contents (inner_of output.new)) (verdict_line legal)) }
    ensures all_read { OnOk result (IsAtEnd (R.remaining (inner_of input.new))) }

    // What each fault tells.
    ensures line { (number : ℕ) (refusal : _) → result ≡ Err (Fault.Line number refusal)
        → IfSome (R.remaining (inner_of input.old)) (λ text. HasLineFault text number refusal) }
    ensures read { result ≡ Err Fault.Read → failures input.old < failures input.new }
    ensures write { result ≡ Err Fault.Write → failures output.old < failures output.new }
    ensures never_usage { result ≢ Err Fault.Usage }

    // Nothing was written before a fault but one of writing, and before that a beginning of the line.
    ensures silent { IfErr result (λ fault. fault ≢ Fault.Write →
        Keeps (W.contents (inner_of output.old)) (W.contents (inner_of output.new))) }
    ensures part { result ≡ Err Fault.Write → IfSome (R.remaining (inner_of input.old)) (λ text.
        AppendsPart (W.contents (inner_of output.old)) (W.contents (inner_of output.new)) text) }
{
    let text = read_all(alloc, input)?;
    let legal = judge(alloc, text.as_slice())?;
    write_all(output, line_of(legal).as_bytes())?;
    Ok(legal)
}
