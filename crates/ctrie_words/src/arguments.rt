//! The program's words.

ghost use Rattle.std.specs.Prelude.{◌≡◌, map, false, Some, IfOk, codes, option_and_then};
ghost use Rattle.clap.specs.Words.{app_of, first_value, found_of, kind_of, subcommand_rows_of, with_subcommand};
ghost use Rattle.ctrie_words.specs.Requests.{Asks, IsMatched, program, wants_file, wants_steps, steps_in, has_globals, nothing_for, path_of};

use clap::error::ErrorKind;
use clap::{Arg, ArgAction, ArgMatches};
use std::alloc::{AllocError, Global};
use std::convert::AsStr;
use text_lines::number_of;

/// What the program is asked to do.
#[derive(Clone, Copy, Debug, PartialEq, Eq)]
pub enum Request<'a> {
    /// To check the order of the history in this file.
    Check(&'a str),
    /// To run the script in this file.
    Run(&'a str),
    /// To run the script in this file by threads.
    Threads(&'a str),
    /// To tell why the history in this file isn't legal.
    Explain(&'a str),
    /// To draw the history in this file.
    Draw(&'a str),
    /// To look for an order of the history in this file, by so many steps.
    Order(&'a str, u64),
}

impl<'a> Request<'a> {
    /// The file that is asked for.
    pub fn path(&self) -> &'a str
        ensures { result ≡ path_of self.now }
    {
        match *self {
            Request::Check(path)
            | Request::Run(path)
            | Request::Threads(path)
            | Request::Explain(path)
            | Request::Draw(path)
            | Request::Order(path, _) => path,
        }
    }
}

/// Want of memory, or words that are no command or ask for help.
fn nothing_by<'a>(error: &clap::Error) -> Result<Option<Request<'a>>, AllocError>
    ensures { result ≡ nothing_for (kind_of error.now) }
{
    match error.kind() {
        ErrorKind::OutOfMemory => Err(AllocError),
        _ => Ok(None),
    }
}

/// The request that the matches make.
fn matched<'a>(matches: &ArgMatches<'a>) -> Option<Request<'a>>
    ensures { IsMatched (subcommand_rows_of matches.now) result }
{
    let (name, found) = matches.subcommand()?;
    let path = found.get_str("FILE")?;
    if name == "check" {
        Some(Request::Check(path))
    } else if name == "run" {
        Some(Request::Run(path))
    } else if name == "threads" {
        Some(Request::Threads(path))
    } else if name == "explain" {
        Some(Request::Explain(path))
    } else if name == "draw" {
        Some(Request::Draw(path))
    } else if name == "order" {
        ordering(found, path)
    } else {
        None
    }
}

/// The request for an order of the history in this file, by as many steps as the matches say.
fn ordering<'a>(found: &ArgMatches<'a>, path: &'a str) -> Option<Request<'a>>
    ensures { result ≡ option_and_then (λ n. Some (Request.Order path.entry n)) (steps_in (first_value (found_of found.now) (codes "STEPS"))) }
{
    let word = found.get_str("STEPS")?;
    let steps = number_of(word.as_bytes(), u64::MAX)?;
    Some(Request::Order(path, steps))
}

/// A subcommand that wants one file.
fn wants_file<'a>(alloc: Global, name: &'a str) -> Result<clap::Command<'a>, AllocError>
    ensures app { IfOk result (λ command. app_of command ≡ wants_file name.entry.now) }
    ensures local { IfOk result (λ command. has_globals command ≡ false) }
{
    let file = Arg::new(alloc, "FILE")
        .required(true)
        .action(ArgAction::Set);
    clap::Command::new(alloc, name).arg(file)
}

/// The subcommand that wants a number of steps and a file.
fn wants_steps<'a>(alloc: Global, name: &'a str) -> Result<clap::Command<'a>, AllocError>
    ensures app { IfOk result (λ command. app_of command ≡ wants_steps name.entry.now) }
    ensures local { IfOk result (λ command. has_globals command ≡ false) }
{
    let steps = Arg::new(alloc, "STEPS")
        .required(true)
        .action(ArgAction::Set);
    let file = Arg::new(alloc, "FILE")
        .required(true)
        .action(ArgAction::Set);
    clap::Command::new(alloc, name).arg(steps)?.arg(file)
}

/// The command, with one more subcommand that wants a number of steps and a file.
fn with_steps<'a>(
    alloc: Global,
    command: clap::Command<'a>,
    name: &'a str,
) -> Result<clap::Command<'a>, AllocError>
    ensures { IfOk result (λ more. app_of more ≡ with_subcommand (app_of command.entry) (wants_steps name.entry.now).top) }
{
    let wanted = wants_steps(alloc, name)?;
    command.subcommand(wanted)
}

/// The command, with one more subcommand that wants one file.
fn with_file<'a>(
    alloc: Global,
    command: clap::Command<'a>,
    name: &'a str,
) -> Result<clap::Command<'a>, AllocError>
    ensures { IfOk result (λ more. app_of more ≡ with_subcommand (app_of command.entry) (wants_file name.entry.now).top) }
{
    let wanted = wants_file(alloc, name)?;
    command.subcommand(wanted)
}

/// The program's command.
fn program<'a>(alloc: Global) -> Result<clap::Command<'a>, AllocError>
    ensures { IfOk result (λ command. app_of command ≡ program) }
{
    let command = clap::Command::new(alloc, "ctrie").subcommand_required(true);
    let command = with_file(alloc, command, "run")?;
    let command = with_file(alloc, command, "threads")?;
    let command = with_file(alloc, command, "check")?;
    let command = with_file(alloc, command, "explain")?;
    let command = with_file(alloc, command, "draw")?;
    with_steps(alloc, command, "order")
}

/// The request that the words make, of which the first is the program's name; none where they make none, or ask for
/// help.
pub fn request_of<'a, S: AsStr>(
    alloc: Global,
    words: &'a [S],
) -> Result<Option<Request<'a>>, AllocError>
    ensures { IfOk result (Asks (map S.text words.entry.now)) }
{
    match program(alloc)?.try_get_matches_from(words) {
        Ok(matches) => Ok(matched(&matches)),
        Err(error) => nothing_by(&error),
    }
}
