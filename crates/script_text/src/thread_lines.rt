//! What a line of a script for threads says.

ghost use Rattle.std.specs.Prelude.{◌≡◌};
ghost use Rattle.text_lines.specs.Words.{nows};
ghost use Rattle.script_text.specs.Threads.Lines.{thread_actors_of, thread_line_of, thread_line_from, is_for_threads};

use crate::command_words::command_of;
use crate::commands::Command;
use crate::headers::actors_of;
use ctrie_base::Refusal;
use history::Call;

/// What one line after the header says.
#[derive(Clone, Copy, Debug, PartialEq, Eq)]
pub enum ThreadLine {
    /// `do A CALL`: the actor performs the call.
    Do { actor: u8, call: Call },
    /// `sweep N`: this many steps of the sweep.
    Sweep { times: u32 },
}

/// The most actors: one more takes the steps of the sweep.
const MOST_ACTORS: u8 = 63;

/// The number of actors that the words `actors N` say, 1 to 63. Any fault is BadHeader.
pub fn thread_actors_of(words: &[&[u8]]) -> Result<u8, Refusal>
    ensures { result ≡ thread_actors_of (nows words.now) }
{
    let actors = actors_of(words)?;
    if actors > MOST_ACTORS {
        return Err(Refusal::BadHeader);
    }
    Ok(actors)
}

/// What the words of a line say to this many actors. A line that is neither `do` nor `sweep` is BadLine, an
/// actor that isn't among them BadNumber.
#[tactic(auto, unfolding(crate::specs::Threads::Lines::thread_line_of))]
pub fn thread_line_of(words: &[&[u8]], actors: u8) -> Result<ThreadLine, Refusal>
    ensures { result ≡ thread_line_of actors (nows words.now) }
{
    let [name, ..] = words else {
        return Err(Refusal::BadLine);
    };
    if !is_for_threads(name) {
        return Err(Refusal::BadLine);
    }
    thread_line_from(command_of(words)?, actors)
}

/// Whether a line of this name is one for threads.
fn is_for_threads(name: &[u8]) -> bool
    ensures { result ≡ is_for_threads name.now }
{
    name == b"do".as_slice() || name == b"sweep".as_slice()
}

/// The command, if it is one for this many threads.
fn thread_line_from(command: Command, actors: u8) -> Result<ThreadLine, Refusal>
    ensures { result ≡ thread_line_from actors command }
{
    match command {
        Command::Do { actor, call } => {
            if actor == 0 || actor > actors {
                return Err(Refusal::BadNumber);
            }
            Ok(ThreadLine::Do { actor, call })
        }
        Command::Sweep { times } => Ok(ThreadLine::Sweep { times }),
        _ => Err(Refusal::BadLine),
    }
}
