//! Commands, read from their words.

ghost use Rattle.std.specs.Prelude.{◌≡◌};
ghost use Rattle.text_lines.specs.Words.{nows};
ghost use Rattle.script_text.specs.Commands.{command_of, named_command, begin_of, do_of, go_of, until_of, finish_of, sweep_of, times_word, kind_word, script_call, opening_call};

use crate::commands::Command;
use crate::names::{CommandName, kind_named};
use ctrie_base::{Kind, Refusal};
use history::Call;
use history_text::{CallName, actor_word, call_of, handle_word, opens};
use text_lines::{both, number_from};

/// What the words of a line say. The name and the number of words are wrong with BadLine, a number
/// with BadNumber.
#[tactic(auto, unfolding(crate::specs::Commands::command_of))]
pub fn command_of(words: &[&[u8]]) -> Result<Command, Refusal>
    ensures { result ≡ command_of (nows words.now) }
{
    let [name, more @ ..] = words else {
        return Err(Refusal::BadLine);
    };
    named_command(CommandName::of(name), more)
}

/// What the words after the name of a command say.
fn named_command(name: Option<CommandName>, words: &[&[u8]]) -> Result<Command, Refusal>
    ensures { result ≡ named_command name (nows words.now) }
{
    match name {
        Some(CommandName::Actor) => begin_of(words),
        Some(CommandName::Go) => go_of(words),
        Some(CommandName::Until) => until_of(words),
        Some(CommandName::Finish) => finish_of(words),
        Some(CommandName::Do) => do_of(words),
        Some(CommandName::Sweep) => sweep_of(words),
        None => Err(Refusal::BadLine),
    }
}

/// The command that the words after `actor` say.
#[tactic(auto, unfolding(crate::specs::Commands::begin_of))]
fn begin_of(words: &[&[u8]]) -> Result<Command, Refusal>
    ensures { result ≡ begin_of (nows words.now) }
{
    let [actor, call @ ..] = words else {
        return Err(Refusal::BadLine);
    };
    let (actor, call) = both(actor_word(actor), script_call(call))?;
    Ok(Command::Begin { actor, call })
}

/// The command that the words after `do` say.
#[tactic(auto, unfolding(crate::specs::Commands::do_of))]
fn do_of(words: &[&[u8]]) -> Result<Command, Refusal>
    ensures { result ≡ do_of (nows words.now) }
{
    let [actor, call @ ..] = words else {
        return Err(Refusal::BadLine);
    };
    let (actor, call) = both(actor_word(actor), script_call(call))?;
    Ok(Command::Do { actor, call })
}

/// The command that the words after `go` say.
#[tactic(auto, unfolding(crate::specs::Commands::go_of))]
fn go_of(words: &[&[u8]]) -> Result<Command, Refusal>
    ensures { result ≡ go_of (nows words.now) }
{
    let [actor, times] = words else {
        return Err(Refusal::BadLine);
    };
    let (actor, times) = both(actor_word(actor), times_word(times))?;
    Ok(Command::Go { actor, times })
}

/// The command that the words after `until` say.
#[tactic(auto, unfolding(crate::specs::Commands::until_of))]
fn until_of(words: &[&[u8]]) -> Result<Command, Refusal>
    ensures { result ≡ until_of (nows words.now) }
{
    let [actor, kind] = words else {
        return Err(Refusal::BadLine);
    };
    let (actor, kind) = both(actor_word(actor), kind_word(kind))?;
    Ok(Command::Until { actor, kind })
}

/// The command that the words after `finish` say.
#[tactic(auto, unfolding(crate::specs::Commands::finish_of))]
fn finish_of(words: &[&[u8]]) -> Result<Command, Refusal>
    ensures { result ≡ finish_of (nows words.now) }
{
    let [actor] = words else {
        return Err(Refusal::BadLine);
    };
    let actor = actor_word(actor)?;
    Ok(Command::Finish { actor })
}

/// The command that the words after `sweep` say.
#[tactic(auto, unfolding(crate::specs::Commands::sweep_of))]
fn sweep_of(words: &[&[u8]]) -> Result<Command, Refusal>
    ensures { result ≡ sweep_of (nows words.now) }
{
    let [times] = words else {
        return Err(Refusal::BadLine);
    };
    let times = times_word(times)?;
    Ok(Command::Sweep { times })
}

/// A word that must say how often: a number from 1 to 1,000,000.
fn times_word(word: &[u8]) -> Result<u32, Refusal>
    ensures { result ≡ times_word word.now }
{
    let times = number_from(word, 1, 1_000_000)?;
    Ok(times as u32)
}

/// A word that must name a kind of an operation's steps, else BadLine.
fn kind_word(word: &[u8]) -> Result<Kind, Refusal>
    ensures { result ≡ kind_word word.now }
{
    match kind_named(word) {
        Some(kind) => Ok(kind),
        None => Err(Refusal::BadLine),
    }
}

/// The call that these words say. A snapshot and a freeze name no handle to open.
#[tactic(auto, unfolding(crate::specs::Commands::script_call))]
fn script_call(words: &[&[u8]]) -> Result<Call, Refusal>
    ensures { result ≡ script_call (nows words.now) }
{
    let [name, more @ ..] = words else {
        return Err(Refusal::BadLine);
    };
    let name = CallName::of(name);
    if opens(name) {
        return opening_call(name, more);
    }
    let (call, _) = call_of(words)?;
    Ok(call)
}

/// The snapshot or the freeze that the words after its name say.
#[tactic(auto, unfolding(crate::specs::Commands::opening_call))]
fn opening_call(name: Option<CallName>, words: &[&[u8]]) -> Result<Call, Refusal>
    ensures { result ≡ opening_call name (nows words.now) }
{
    let [handle] = words else {
        return Err(Refusal::BadLine);
    };
    let handle = handle_word(handle)?;
    match name {
        Some(CallName::Snapshot) => Ok(Call::Snapshot { handle }),
        _ => Ok(Call::Freeze { handle }),
    }
}
