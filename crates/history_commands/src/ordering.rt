//! Looking for a legal order of a history.

ghost use Rattle.std.specs.Prelude.{◌≡◌, ◌≢◌, ◌<◌, ◌^◌, ℕ, Ok, IfOk, OnOk, IfErr, IfSome};
ghost use Rattle.std.specs.Io.KnownBytes.{Keeps, IsAtEnd};
ghost use Rattle.counted_io.specs.Counts.{inner_of, failures};
ghost use Rattle.history_text.specs.Views.{given};
ghost use Rattle.history_commands.specs.Verdicts.{IsOfHistory, SaysHistory};
ghost use Rattle.history_commands.specs.Written.{AppendsSuch, AppendsPartOf};
ghost use Rattle.history_commands.specs.Orders.{HasNoLegalOrder, HasOrderFault, IsOfOrdered, ShowsSearch, TellsSearch, with_order};

use crate::checking::judge;
use crate::faults::Fault;
use counted_io::{Counted, read_all, write_all};
use history_text::{Given, OrderText, read_history};
use order_search::{Search, find_order};
use std::alloc::{AllocError, Global};
use std::io::{Read, Write};

/// The text, and after it the line of an order.
fn with_order(alloc: Global, text: &[u8], order: &[u64]) -> Result<Vec<u8>, AllocError>
    ensures { IfOk result (λ bytes. bytes.items ≡ with_order text.now order.now) }
{
    let line = format!(in alloc; "\n{}\n", OrderText(order))?;
    let mut bytes = Vec::new(alloc);
    bytes.extend_from_slice(text)?;
    bytes.extend_from_slice(line.as_bytes())?;
    Ok(bytes)
}

/// The history that the text says.
fn given_in(alloc: Global, text: &[u8]) -> Result<Given, Fault>
    ensures given { IfOk result (λ g. SaysHistory text.now (given g)) }
    ensures faults { IfErr result (IsOfHistory text.now) }
{
    Ok(read_history(alloc, text)?)
}

/// Looks for an order that is legal for the history that the text says with an order's line after it. The vector has it then.
fn looked_for(alloc: Global, text: &[u8], steps: u64, order: &mut Vec<u64>) -> Result<Search, Fault>
    ensures not_there { result ≡ Ok Search.NotThere → HasNoLegalOrder text.now }
    ensures faults { IfErr result (IsOfOrdered text.now) }
{
    let first = with_order(alloc, text, &[])?;
    let given = given_in(alloc, first.as_slice())?;
    match find_order(alloc, given.events.as_slice(), given.hash, steps, order) {
        Ok(search) => Ok(search),
        Err(_) => Err(Fault::Memory),
    }
}

/// The text with this order, if a check of it answers true.
fn with_legal_order(alloc: Global, text: &[u8], order: &[u64]) -> Result<Option<Vec<u8>>, Fault>
    ensures legal { IfOk result (λ found. IfSome found (λ bytes. TellsSearch text.now Search.Found bytes.items)) }
    ensures faults { IfErr result (IsOfOrdered text.now) }
{
    let bytes = with_order(alloc, text, order)?;
    if judge(alloc, bytes.as_slice())? {
        Ok(Some(bytes))
    } else {
        Ok(None)
    }
}

/// What came of the search, and what tells of it.
fn told_of(alloc: Global, text: &[u8], steps: u64) -> Result<(Search, Vec<u8>), Fault>
    ensures tells { IfOk result (λ told. TellsSearch text.now told.0 told.1.items) }
    ensures shows { IfOk result (λ told. ShowsSearch told.0 told.1.items) }
    ensures faults { IfErr result (IsOfOrdered text.now) }
{
    let mut order = Vec::new(alloc);
    match looked_for(alloc, text, steps, &mut order)? {
        Search::Found => {
            if let Some(bytes) = with_legal_order(alloc, text, order.as_slice())? {
                return Ok((Search::Found, bytes));
            }
        }
        Search::NotThere => return Ok((Search::NotThere, line_of(alloc, "not legal\n")?)),
        Search::Spent => {}
    }
    Ok((Search::Spent, line_of(alloc, "not known\n")?))
}

/// The line's bytes.
fn line_of(alloc: Global, line: &str) -> Result<Vec<u8>, AllocError>
    ensures { IfOk result (λ bytes. bytes.items ≡ line.now) }
{
    let mut bytes = Vec::new(alloc);
    bytes.extend_from_slice(line.as_bytes())?;
    Ok(bytes)
}

/// Reads a history without an order to its end, and looks for a legal one by so many steps at most. It writes the history with
/// the order's line after it; or the line `not legal`, where no order is legal; or `not known`, where the steps didn't suffice.
pub fn order_history<R: Read, W: Write>(
    alloc: Global,
    steps: u64,
    input: &mut Counted<R>,
    output: &mut Counted<W>,
) -> Result<Search, Fault>
    requires input_count { failures input.old < 2 ^ 63 }
    requires output_count { failures output.old < 2 ^ 63 }

    // What was written tells what came of the search in what the reader had; and whatever the reader had, it is a history
    // whose order is legal where one was found, and else the line that tells the answer.
    ensures written { IfOk result (λ search. IfSome (R.remaining (inner_of input.old)) (λ text.
        AppendsSuch (TellsSearch text search) (W.contents (inner_of output.old)) (W.contents (inner_of output.new)))) }
    ensures told { IfOk result (λ search.
        AppendsSuch (ShowsSearch search) (W.contents (inner_of output.old)) (W.contents (inner_of output.new))) }
    ensures all_read { OnOk result (IsAtEnd (R.remaining (inner_of input.new))) }

    // What each fault tells.
    ensures line { (number : ℕ) (refusal : _) → result ≡ Err (Fault.Line number refusal)
        → IfSome (R.remaining (inner_of input.old)) (λ text. HasOrderFault text number refusal) }
    ensures read { result ≡ Err Fault.Read → failures input.old < failures input.new }
    ensures write { result ≡ Err Fault.Write → failures output.old < failures output.new }
    ensures never_usage { result ≢ Err Fault.Usage }

    // Nothing was written before a fault but one of writing, and before that a beginning of what tells.
    ensures silent { IfErr result (λ fault. fault ≢ Fault.Write →
        Keeps (W.contents (inner_of output.old)) (W.contents (inner_of output.new))) }
    ensures part { result ≡ Err Fault.Write → IfSome (R.remaining (inner_of input.old)) (λ text.
        AppendsPartOf (λ bytes. (search : _) × TellsSearch text search bytes)
        (W.contents (inner_of output.old)) (W.contents (inner_of output.new))) }
{
    let text = read_all(alloc, input)?;
    let (search, bytes) = told_of(alloc, text.as_slice(), steps)?;
    write_all(output, bytes.as_slice())?;
    Ok(search)
}
