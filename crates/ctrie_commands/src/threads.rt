//! Carrying out a script for threads.

ghost use Rattle.std.specs.Prelude.{◌≡◌, ◌≢◌, ◌<◌, ◌≤◌, ◌+◌, ◌^◌, ℕ, IfOk, OnOk, IfErr, IfSome, Err};
ghost use Rattle.std.specs.Io.KnownBytes.{Keeps, IsAtEnd};
ghost use Rattle.std.specs.String.{string_bytes};
ghost use Rattle.counted_io.specs.Counts.{inner_of, failures};
ghost use Rattle.lock_runner.specs.Seats.{AreSeatsOf};
ghost use Rattle.lock_runner.specs.Opening.{IsMade};
ghost use Rattle.ctrie_commands.specs.Beneath.script_text.specs.Views.{read};
ghost use Rattle.script_commands.specs.Legality.{AppendsJudged};
ghost use Rattle.ctrie_commands.specs.Working.{AreGathered};
ghost use Rattle.ctrie_commands.specs.Threads.{with_sweeper, IsReportOf, IsThreadReport, HasThreadFault, IsOfThreadScript, AppendsThreadReport, AppendsThreadReportPart};

use crate::groups::work_all;
use crate::working::Worker;
use counted_io::{Counted, read_all, write_all};
use lock_runner::{Between, Limits, Runner, Seat, Unfinished};
use script_commands::{
    Fault, Script, ThreadLine, read_thread_script, report_of_record, tell_denied,
};
use std::alloc::{AllocError, Global};
use std::io::{Read, Write};
use std::sync::Wait;
use std::thread::Threads;

/// A runner with a seat for each of the actors, and one more for the sweep.
fn runner_of(alloc: Global, limits: Limits) -> Result<(Runner, Vec<Seat>), Fault>
    requires { limits.actors ≤ 63 }
    ensures made { IfOk result (λ made. IsMade (with_sweeper limits) (limits.actors + 1) made.0 made.1.items) }
    ensures seats { IfOk result (λ made. AreSeatsOf made.0 made.1.items) }
    ensures memory { IfErr result (λ fault. fault ≡ Fault.Memory) }
{
    let actors = limits.actors + 1;
    // The limits that a script says are in range.
    match Runner::new(alloc, Limits { actors, ..limits }, actors) {
        Ok(made) => Ok(made),
        Err(_) => Err(Fault::Memory),
    }
}

/// The seats, and the lines of their denials.
fn gathered(alloc: Global, workers: Vec<Worker>) -> Result<(Vec<Seat>, String), AllocError>
    ensures { IfOk result (λ got. AreGathered workers.items got.0.items (string_bytes got.1)) }
{
    let mut seats = Vec::new(alloc);
    let mut denied = String::new(alloc);
    for worker in workers {
        tell_denied(&mut denied, worker.seat.actor(), &worker.denied)?;
        seats.push(worker.seat)?;
    }
    Ok((seats, denied))
}

/// The report of what threads made of the script.
fn reported<R: Threads + Wait + Sync, B: Between + Sync>(
    rt: &R,
    alloc: Global,
    script: &Script<ThreadLine>,
    between: &B,
) -> Result<String, Fault>
    requires { script.now.limits.actors ≤ 63 }
    ensures report { IfOk result (λ text. IsReportOf (read script.now) (string_bytes text)) }
    ensures memory { IfErr result (λ fault. fault ≡ Fault.Memory) }
{
    let (runner, seats) = runner_of(alloc, script.limits)?;
    let workers = work_all(rt, alloc, &runner, script, between, seats)?;
    let (seats, denied) = gathered(alloc, workers)?;
    match runner.finish(seats) {
        Ok(record) => Ok(report_of_record(alloc, &record, denied.as_str())?),
        Err(Unfinished::Memory(_)) => Err(Fault::Memory),
        // All seats came back.
        Err(Unfinished::Missing(_, _)) => unreachable!(),
    }
}

/// The report of what threads made of the script that the text is.
fn carried_out<R: Threads + Wait + Sync, B: Between + Sync>(
    rt: &R,
    alloc: Global,
    text: &[u8],
    between: &B,
) -> Result<String, Fault>
    ensures report { IfOk result (λ report. IsThreadReport text.now (string_bytes report)) }
    ensures faults { IfErr result (IsOfThreadScript text.now) }
{
    let script = read_thread_script(alloc, text)?;
    reported(rt, alloc, &script, between)
}

/// Reads a script for threads to its end, carries it out, and writes the report of what came of it.
///
/// Each actor that has lines is a thread that performs their calls in their order, and one actor more takes
/// the steps of the sweep. Where a thread can't be made, the caller does what it had to do. `between` is
/// called between two steps of a call. The faults are those of `run_script`.
pub fn run_threads<R: Threads + Wait + Sync, I: Read, W: Write, B: Between + Sync>(
    rt: &R,
    alloc: Global,
    input: &mut Counted<I>,
    output: &mut Counted<W>,
    between: &B,
) -> Result<(), Fault>
    requires input_count { failures input.old < 2 ^ 63 }
    requires output_count { failures output.old < 2 ^ 63 }

    // What the reader had is a script without a fault, and just the report of a run was written in which
    // the calls of each actor's lines were performed in their order, but for those that it tells as denied,
    // and all steps of the sweep were taken, unless it tells one as denied.
    ensures written { OnOk result (IfSome (I.remaining (inner_of input.old)) (λ text.
        AppendsThreadReport (W.contents (inner_of output.old)) (W.contents (inner_of output.new)) text)) }
    ensures all_read { OnOk result (IsAtEnd (I.remaining (inner_of input.new))) }

    // Whatever the reader had: what was written is the text of a history and of an order that is legal for it,
    // and a check of it answers true.
    ensures legal { OnOk result (AppendsJudged (W.contents (inner_of output.old)) (W.contents (inner_of output.new))) }

    // What each fault tells.
    ensures line { (number : ℕ) (refusal : _) → result ≡ Err (Fault.Line number refusal)
        → IfSome (I.remaining (inner_of input.old)) (λ text. HasThreadFault text number refusal) }
    ensures read { result ≡ Err Fault.Read → failures input.old < failures input.new }
    ensures write { result ≡ Err Fault.Write → failures output.old < failures output.new }
    ensures never_usage { result ≢ Err Fault.Usage }

    // Nothing was written before a fault but one of writing, and before that a beginning of the report.
    ensures silent { IfErr result (λ fault. fault ≢ Fault.Write →
        Keeps (W.contents (inner_of output.old)) (W.contents (inner_of output.new))) }
    ensures part { result ≡ Err Fault.Write → IfSome (I.remaining (inner_of input.old)) (λ text.
        AppendsThreadReportPart (W.contents (inner_of output.old)) (W.contents (inner_of output.new)) text) }
{
    let text = read_all(alloc, input)?;
    let report = carried_out(rt, alloc, text.as_slice(), between)?;
    write_all(output, report.as_bytes())?;
    Ok(())
}
