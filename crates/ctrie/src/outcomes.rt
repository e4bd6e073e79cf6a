//! What comes of a request.

ghost use Rattle.std.specs.Prelude.{◌≡◌, ◌≢◌, ◌<◌, ◌^◌, ℕ, Bool, Ok, Err, IfOk, OnOk, IfErr, IfSome};
ghost use Rattle.std.specs.Io.KnownBytes.{Keeps, IsAtEnd};
ghost use Rattle.counted_io.specs.Counts.{inner_of, failures};
ghost use Rattle.ctrie.specs.Beneath.script_commands.specs.Legality.{AppendsJudged};
ghost use Rattle.ctrie.specs.Beneath.history_commands.specs.Written.{AppendsSuch, AppendsPartOf};
ghost use Rattle.ctrie.specs.Outcomes.{Tells, TellsLegality, HasFault, judged, done, sought};

use ctrie_commands::{
    Counted, Fault, Nothing, Search, check_history, draw_history, explain_history, order_history,
    run_script, run_threads,
};
use ctrie_words::Request;
use std::alloc::Global;
use std::io::{Read, Write};
use std::sync::Wait;
use std::thread::Threads;

/// How what was asked for came out.
#[derive(Clone, Copy, Debug, PartialEq, Eq)]
pub enum Outcome {
    /// The script was carried out.
    Done,
    /// The order is legal for its history.
    Legal,
    /// It isn't; or no order is.
    NotLegal,
    /// Whether an order is legal isn't known, since the steps didn't suffice.
    Unknown,
}

/// How the judgement of a history comes out.
fn judged(legal: Result<bool, Fault>) -> Result<Outcome, Fault>
    ensures { result ≡ judged legal }
{
    match legal {
        Ok(true) => Ok(Outcome::Legal),
        Ok(false) => Ok(Outcome::NotLegal),
        Err(fault) => Err(fault),
    }
}

/// How the carrying out of a script comes out.
fn done(carried_out: Result<(), Fault>) -> Result<Outcome, Fault>
    ensures { result ≡ done carried_out }
{
    match carried_out {
        Ok(()) => Ok(Outcome::Done),
        Err(fault) => Err(fault),
    }
}

/// How a search for an order comes out.
fn sought(search: Result<Search, Fault>) -> Result<Outcome, Fault>
    ensures { result ≡ sought search }
{
    match search {
        Ok(Search::Found) => Ok(Outcome::Legal),
        Ok(Search::NotThere) => Ok(Outcome::NotLegal),
        Ok(Search::Spent) => Ok(Outcome::Unknown),
        Err(fault) => Err(fault),
    }
}

/// Reads a text to its end, does with it what is asked for, and writes what tells of it.
pub fn carry_out<R: Threads + Wait + Sync, I: Read, W: Write>(
    rt: &R,
    alloc: Global,
    request: Request<'_>,
    input: &mut Counted<I>,
    output: &mut Counted<W>,
) -> Result<Outcome, Fault>
    requires input_count { failures input.old < 2 ^ 63 }
    requires output_count { failures output.old < 2 ^ 63 }

    // What was asked for came out so with what the reader had, and just what tells of it was written.
    ensures written { IfOk result (λ outcome. IfSome (I.remaining (inner_of input.old)) (λ text.
        AppendsSuch (Tells request.entry text outcome) (W.contents (inner_of output.old)) (W.contents (inner_of output.new)))) }
    ensures all_read { OnOk result (IsAtEnd (I.remaining (inner_of input.new))) }

    // Whatever the reader had: of a history just what tells the verdict was written, and of a script a text of which a
    // check answers true.
    ensures verdict { (legal : Bool) → result ≡ judged (Ok legal)
        → AppendsSuch (TellsLegality request.entry legal) (W.contents (inner_of output.old)) (W.contents (inner_of output.new)) }
    ensures legal { result ≡ Ok Outcome.Done → AppendsJudged (W.contents (inner_of output.old)) (W.contents (inner_of output.new)) }

    // What each fault tells.
    ensures line { (number : ℕ) (refusal : _) → result ≡ Err (Fault.Line number refusal)
        → IfSome (I.remaining (inner_of input.old)) (λ text. HasFault request.entry text number refusal) }
    ensures read { result ≡ Err Fault.Read → failures input.old < failures input.new }
    ensures write { result ≡ Err Fault.Write → failures output.old < failures output.new }
    ensures never_usage { result ≢ Err Fault.Usage }

    // Nothing was written before a fault but one of writing, and before that a beginning.
    ensures silent { IfErr result (λ fault. fault ≢ Fault.Write →
        Keeps (W.contents (inner_of output.old)) (W.contents (inner_of output.new))) }
    ensures part { result ≡ Err Fault.Write → IfSome (I.remaining (inner_of input.old)) (λ text.
        AppendsPartOf (λ bytes. (outcome : _) × Tells request.entry text outcome bytes)
        (W.contents (inner_of output.old)) (W.contents (inner_of output.new))) }
{
    match request {
        Request::Check(_) => judged(check_history(alloc, input, output)),
        Request::Run(_) => done(run_script(alloc, input, output)),
        Request::Threads(_) => done(run_threads(rt, alloc, input, output, &Nothing)),
        Request::Explain(_) => judged(explain_history(alloc, input, output)),
        Request::Draw(_) => judged(draw_history(alloc, input, output)),
        Request::Order(_, steps) => sought(order_history(alloc, steps, input, output)),
    }
}
