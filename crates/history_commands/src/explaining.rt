//! Explaining why a history isn't legal.

ghost use Rattle.std.specs.Prelude.{◌≡◌, ◌≢◌, ◌<◌, ◌^◌, ℕ, IfOk, OnOk, IfErr, IfSome};
ghost use Rattle.std.specs.Option.{option_copied};
ghost use Rattle.std.specs.Io.KnownBytes.{Keeps, IsAtEnd};
ghost use Rattle.std.specs.String.{string_bytes};
ghost use Rattle.counted_io.specs.Counts.{inner_of, failures};
ghost use Rattle.history_commands.specs.Verdicts.{IsVerdict, HasLineFault, IsOfHistory};
ghost use Rattle.history_commands.specs.Written.{AppendsSuch, AppendsPartOf};
ghost use Rattle.history_commands.specs.Explanations.{IsReason, IsExplanation, ExplainsVerdict, explanation};

use crate::faults::Fault;
use counted_io::{Counted, read_all, write_all};
use history::{OrderFault, first_fault};
use history_text::{FaultText, read_history};
use std::alloc::{AllocError, Global};
use std::io::{Read, Write};

/// The first reason why the order that the text gives isn't legal for its events, if there is one.
fn reason_in(alloc: Global, text: &[u8]) -> Result<Option<OrderFault>, Fault>
    ensures reason { IfOk result (IsReason text.now) }
    ensures faults { IfErr result (IsOfHistory text.now) }
{
    let given = read_history(alloc, text)?;
    let events = given.events.as_slice();
    let order = given.order.as_slice();
    match first_fault(alloc, events, order, given.hash) {
        Ok(reason) => Ok(reason),
        Err(_) => Err(Fault::Memory),
    }
}

/// The lines that tell the reason, or that there is none.
fn explanation(alloc: Global, reason: Option<&OrderFault>) -> Result<String, AllocError>
    ensures { IfOk result (λ text. string_bytes text ≡ explanation (option_copied reason.entry)) }
{
    match reason {
        None => format!(in alloc; "legal\n"),
        Some(reason) => format!(in alloc; "not legal\n{}\n", FaultText(reason)),
    }
}

/// Reads a history to its end, and writes the line `legal`; or `not legal` and a second line, the first
/// reason. It answers whether the order that the history gives is legal for its events.
pub fn explain_history<R: Read, W: Write>(
    alloc: Global,
    input: &mut Counted<R>,
    output: &mut Counted<W>,
) -> Result<bool, Fault>
    requires input_count { failures input.old < 2 ^ 63 }
    requires output_count { failures output.old < 2 ^ 63 }

    // The answer is right of what the reader had, which has no fault; and just what explains it was written: whatever
    // the reader had, something that tells this answer.
    ensures verdict { IfOk result (λ legal. IfSome (R.remaining (inner_of input.old)) (λ text. IsVerdict text legal)) }
    ensures written { IfOk result (λ legal. IfSome (R.remaining (inner_of input.old)) (λ text.
        AppendsSuch (IsExplanation text legal) (W.contents (inner_of output.old)) (W.contents (inner_of output.new)))) }
    ensures told { IfOk result (λ legal.
        AppendsSuch (ExplainsVerdict legal) (W.contents (inner_of output.old)) (W.contents (inner_of output.new))) }
    ensures all_read { OnOk result (IsAtEnd (R.remaining (inner_of input.new))) }

    // What each fault tells.
    ensures line { (number : ℕ) (refusal : _) → result ≡ Err (Fault.Line number refusal)
        → IfSome (R.remaining (inner_of input.old)) (λ text. HasLineFault text number refusal) }
    ensures read { result ≡ Err Fault.Read → failures input.old < failures input.new }
    ensures write { result ≡ Err Fault.Write → failures output.old < failures output.new }
    ensures never_usage { result ≢ Err Fault.Usage }

    // Nothing was written before a fault but one of writing, and before that a beginning of the lines.
    ensures silent { IfErr result (λ fault. fault ≢ Fault.Write →
        Keeps (W.contents (inner_of output.old)) (W.contents (inner_of output.new))) }
    ensures part { result ≡ Err Fault.Write → IfSome (R.remaining (inner_of input.old)) (λ text.
        AppendsPartOf (λ bytes. (legal : _) × IsExplanation text legal bytes)
        (W.contents (inner_of output.old)) (W.contents (inner_of output.new))) }
{
    let text = read_all(alloc, input)?;
    let reason = reason_in(alloc, text.as_slice())?;
    let lines = explanation(alloc, reason.as_ref())?;
    write_all(output, lines.as_bytes())?;
    Ok(reason.is_none())
}
