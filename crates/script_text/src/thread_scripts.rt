//! Reading a script for threads: whole calls and steps of the sweep alone.

ghost use Rattle.std.specs.Prelude.{IfOk, OnOk, Ok};
ghost use Rattle.text_lines.specs.Words.{nows};
ghost use Rattle.text_lines.specs.Views.{Reads};
ghost use Rattle.script_text.specs.Grammar.{IsShort};
ghost use Rattle.script_text.specs.Views.{read};
ghost use Rattle.script_text.specs.Threads.Grammar.{IsThreadSpelling};
ghost use Rattle.script_text.specs.Threads.Reading.{Reading, thread_dialect, thread_script_of};

use crate::reading::{Progress, Script, ScriptLine};
use crate::thread_lines::{ThreadLine, thread_actors_of, thread_line_of};
use ctrie_base::Refusal;
use std::alloc::Global;
use text_lines::{Told, read_text};

impl ScriptLine for ThreadLine {
    ghost dialect = { thread_dialect };

    fn actors_of(words: &[&[u8]]) -> Result<u8, Refusal> {
        thread_actors_of(words)
    }

    fn line_of(words: &[&[u8]], actors: u8) -> Result<ThreadLine, Refusal> {
        thread_line_of(words, actors)
    }
}

/// Reads a script for threads from its text. The first line with a fault is told, or that memory ran out:
/// anything may be answered as `Memory`.
///
/// The lines that are neither empty nor begin with `#` are `slots N`, `hash NAME`, `actors N`, and then
/// lines `do A CALL` and `sweep N`.
#[tactic(auto, unfolding(crate::specs::Threads::Reading::thread_script_of))]
pub fn read_thread_script(alloc: Global, text: &[u8]) -> Result<Script<ThreadLine>, Told>
    // The lines that aren't ignored spell what is read, as any other script; it has one actor to spare and
    // lines for threads alone.
    ensures found { IfOk result (λ script. IsThreadSpelling text.now (read script)) }
    // No longer text is read.
    ensures short { OnOk result (IsShort text.now) }
    // What is spelled so, in at most 100,000 lines, is read, unless memory runs out.
    ensures only { (script : Reading) → IsThreadSpelling text.now script → IsShort text.now
        → Reads read result (Ok script) }
    // What is read, or which fault is told at which line.
    ensures exact { Reads read result (thread_script_of text.now) }
{
    read_text::<Progress<ThreadLine>>(alloc, text)
}
