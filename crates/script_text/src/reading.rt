//! Reading a script of any kind from its lines.

ghost use Rattle.std.specs.Prelude.{◌≡◌, ◌≢◌, ◌++◌, ◌∷◌, [], IfOk, OnOk, Ok};
ghost use Rattle.text_lines.specs.Words.{nows, made};
ghost use Rattle.text_lines.specs.Views.{Reads};
ghost use Rattle.script_text.specs.Scripts.{Dialect, ScriptOf, Progress, InLines, format_of};
ghost use Rattle.script_text.specs.Reading.{Reading, command_dialect, script_of};
ghost use Rattle.script_text.specs.Grammar.{IsSpelling, IsShort};
ghost use Rattle.script_text.specs.Views.{seen, read};

use crate::command_words::command_of;
use crate::commands::Command;
use crate::headers::{actors_of, slots_of};
use ctrie_base::{HashKind, Refusal};
use history_text::header_of;
use machine_model::Limits;
use std::alloc::Global;
use text_lines::{LineReader, Told, read_text};

/// What one line after the header says, in scripts of one kind.
pub trait ScriptLine: Drop {
    /// How the lines of such scripts are read.
    ghost dialect: { Dialect Self };

    /// The number of actors that the words `actors N` say. Any fault is BadHeader.
    fn actors_of(words: &[&[u8]]) -> Result<u8, Refusal>
        ensures { result ≡ dialect.actors_of (nows words.now) };

    /// What the words of a line say to this many actors.
    fn line_of(words: &[&[u8]], actors: u8) -> Result<Self, Refusal>
        ensures { result ≡ dialect.line_of actors (nows words.now) };
}

impl ScriptLine for Command {
    ghost dialect = { command_dialect };

    fn actors_of(words: &[&[u8]]) -> Result<u8, Refusal> {
        actors_of(words)
    }

    fn line_of(words: &[&[u8]], _actors: u8) -> Result<Command, Refusal> {
        command_of(words)
    }
}

/// A script: the sizes of its machine, and what to do.
#[derive(Debug, Drop)]
pub struct Script<L> {
    /// What the header says.
    pub limits: Limits,
    /// What the lines after the header say, in their order.
    pub lines: Vec<L>,
}

/// What the lines so far have said.
#[derive(Drop)]
pub(crate) enum Progress<L> {
    /// The line of the slots is still to come.
    Start,
    /// The line of the hash is still to come.
    Sized(u32),
    /// The line of the actors is still to come.
    Hashed(u32, HashKind),
    /// The lines after the header are read.
    InLines(Script<L>),
}

impl<L: ScriptLine> LineReader for Progress<L> {
    type Given = Script<L>;

    ghost State = { Progress L };

    ghost Value = { ScriptOf L };

    ghost format = { format_of L.dialect };

    ghost seen = { seen };

    ghost given = { read };

    fn most_lines() -> u32 {
        100_000
    }

    fn start() -> Progress<L> {
        Progress::Start
    }

    #[tactic(auto, unfolding(crate::specs::Scripts::words_after))]
    fn words_after(self, alloc: Global, words: &[&[u8]]) -> Result<Progress<L>, Refusal> {
        match self {
            Progress::Start => Ok(Progress::Sized(slots_of(words)?)),
            Progress::Sized(slots) => Ok(Progress::Hashed(slots, header_of(words)?)),
            Progress::Hashed(slots, hash) => {
                let actors = L::actors_of(words)?;
                Ok(Progress::InLines(Script {
                    limits: Limits {
                        slots,
                        actors,
                        hash,
                    },
                    lines: Vec::new(alloc),
                }))
            }
            Progress::InLines(script) => {
                let line = L::line_of(words, script.limits.actors)?;
                with_line(script, line)
            }
        }
    }

    // A line of the header may be missing.
    fn all_read(self) -> Result<Script<L>, Refusal> {
        match self {
            Progress::InLines(script) => Ok(script),
            _ => Err(Refusal::BadHeader),
        }
    }
}

/// The script with a line more.
fn with_line<L: Drop>(script: Script<L>, line: L) -> Result<Progress<L>, Refusal>
    ensures { result ≢ Err Refusal.Memory
        → made seen result ≡ Ok (InLines script.limits (script.lines.items ++ line ∷ [])) }
{
    let Script { limits, mut lines } = script;
    lines.push(line)?;
    Ok(Progress::InLines(Script { limits, lines }))
}

/// Reads a script from its text. The first line with a fault is told, or that memory ran out: anything
/// may be answered as `Memory`.
///
/// The lines that are neither empty nor begin with `#` are `slots N`, `hash NAME`, `actors N`, and then
/// a command each.
#[tactic(auto, unfolding(crate::specs::Reading::script_of))]
pub fn read_script(alloc: Global, text: &[u8]) -> Result<Script<Command>, Told>
    // The lines that aren't ignored spell what is read: the three of the header, and a line for each
    // command.
    ensures found { IfOk result (λ script. IsSpelling text.now (read script)) }
    // No longer text is read.
    ensures short { OnOk result (IsShort text.now) }
    // What is spelled so, in at most 100,000 lines, is read, unless memory runs out.
    ensures only { (script : Reading) → IsSpelling text.now script → IsShort text.now
        → Reads read result (Ok script) }
    // What is read, or which fault is told at which line.
    ensures exact { Reads read result (script_of text.now) }
{
    read_text::<Progress<Command>>(alloc, text)
}
