//! Running a script.

ghost use Rattle.std.specs.Prelude.{◌≡◌, ◌≢◌, ◌<◌, ◌^◌, ℕ, IfOk, OnOk, IfErr, IfSome};
ghost use Rattle.std.specs.Io.KnownBytes.{Keeps, IsAtEnd};
ghost use Rattle.std.specs.String.{string_bytes};
ghost use Rattle.counted_io.specs.Counts.{inner_of, failures};
ghost use Rattle.script_commands.specs.Legality.{AppendsJudged};
ghost use Rattle.script_commands.specs.Scripts.{IsReport, HasScriptFault, IsOfScript, AppendsReport, AppendsReportPart};

use crate::reports::report_of;
use counted_io::{Counted, read_all, write_all};
use history_commands::Fault;
use script_text::read_script;
use std::alloc::Global;
use std::io::{Read, Write};

/// The report of the script that the text is.
fn carried_out(alloc: Global, text: &[u8]) -> Result<String, Fault>
    ensures report { IfOk result (λ report. IsReport text.now (string_bytes report)) }
    ensures faults { IfErr result (IsOfScript text.now) }
{
    step_machine::alone_it_ends();
    step_machine::closes_end();
    let script = read_script(alloc, text)?;
    Ok(report_of(alloc, &script)?)
}

/// Reads a script to its end, carries it out, and writes the report.
///
/// `Line` tells a fault of the text and where it is; `Read` and `Write` a failed call of the reader or the writer; else
/// it is `Memory`. A beginning of the report may be written before `Write`, and nothing before the others.
pub fn run_script<R: Read, W: Write>(
    alloc: Global,
    input: &mut Counted<R>,
    output: &mut Counted<W>,
) -> Result<(), Fault>
    requires input_count { failures input.old < 2 ^ 63 }
    requires output_count { failures output.old < 2 ^ 63 }

    // What the reader had is a script without a fault, and just its report was written. A `finish` or `do` has
    // ended its operation, unless its call is entries or count, while enough steps are left.
    ensures written { OnOk result (IfSome (R.remaining (inner_of input.old)) (λ text.
        AppendsReport (W.contents (inner_of output.old)) (W.contents (inner_of output.new)) text)) }
    ensures all_read { OnOk result (IsAtEnd (R.remaining (inner_of input.new))) }

    // Whatever the reader had: what was written is the text of a history and of an order that is legal for it,
    // and a check of it answers true.
    ensures legal { OnOk result (AppendsJudged (W.contents (inner_of output.old)) (W.contents (inner_of output.new))) }

    // What each fault tells.
    ensures line { (number : ℕ) (refusal : _) → result ≡ Err (Fault.Line number refusal)
        → IfSome (R.remaining (inner_of input.old)) (λ text. HasScriptFault text number refusal) }
    ensures read { result ≡ Err Fault.Read → failures input.old < failures input.new }
    ensures write { result ≡ Err Fault.Write → failures output.old < failures output.new }
    ensures never_usage { result ≢ Err Fault.Usage }

    // Nothing was written before a fault but one of writing, and before that a beginning of the report.
    ensures silent { IfErr result (λ fault. fault ≢ Fault.Write →
        Keeps (W.contents (inner_of output.old)) (W.contents (inner_of output.new))) }
    ensures part { result ≡ Err Fault.Write → IfSome (R.remaining (inner_of input.old)) (λ text.
        AppendsReportPart (W.contents (inner_of output.old)) (W.contents (inner_of output.new)) text) }
{
    let text = read_all(alloc, input)?;
    let report = carried_out(alloc, text.as_slice())?;
    write_all(output, report.as_bytes())?;
    Ok(())
}
