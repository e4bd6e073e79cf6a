//! Reading a history from its lines.

ghost use Rattle.std.specs.Prelude.{◌≡◌, ◌≢◌, IfOk, Ok, Err};
ghost use Rattle.text_lines.specs.Words.{nows, made};
ghost use Rattle.text_lines.specs.Views.{Reads};
ghost use Rattle.history_text.specs.Reading.{Reading, Progress, Start, history_format, named_line, last_line, words_after, history_of};
ghost use Rattle.history_text.specs.Grammar.{IsSpelling, IsShort};
ghost use Rattle.history_text.specs.Views.{seen, given};

use crate::lines::{begin_of, end_of, header_of};
use crate::log::Log;
use crate::names::LineName;
use crate::reply_words::order_of;
use ctrie_base::{HashKind, Refusal};
use history::Event;
use std::alloc::Global;
use text_lines::{LineReader, Told, read_text};

/// A history and its order, as they are read.
#[derive(Debug, Drop)]
pub struct Given {
    /// Which hash the map used.
    pub hash: HashKind,
    /// The events, in order of time.
    pub events: Vec<Event>,
    /// The ids of the operations in the order that is claimed.
    pub order: Vec<u64>,
}

/// What the lines so far have said.
#[derive(Drop)]
pub enum Progress {
    /// The header is still to come.
    Start,
    /// Events are read.
    InEvents(Log),
    /// The order was read.
    Ordered(Given),
    /// The line after the order was read.
    Ended(Given),
}

impl LineReader for Progress {
    type Given = Given;

    ghost State = { Progress };

    ghost Value = { Reading };

    ghost format = { history_format };

    ghost seen = { seen };

    ghost given = { given };

    fn most_lines() -> u32 {
        300_000
    }

    fn start() -> Progress {
        Progress::Start
    }

    #[tactic(auto, unfolding(crate::specs::Reading::words_after))]
    fn words_after(self, alloc: Global, words: &[&[u8]]) -> Result<Progress, Refusal> {
        match self {
            Progress::Start => started(alloc, words),
            Progress::InEvents(log) => match words {
                [] => Err(Refusal::BadLine),
                [word, more @ ..] => named_line(alloc, log, LineName::of(word), more),
            },
            Progress::Ordered(read) => match words {
                [] => Err(Refusal::BadOrder),
                [word, ..] => last_line(read, LineName::of(word)),
            },
            Progress::Ended(_) => Err(Refusal::BadOrder),
        }
    }

    // The header or the order may be missing.
    fn all_read(self) -> Result<Given, Refusal> {
        match self {
            Progress::Start => Err(Refusal::BadHeader),
            Progress::InEvents(_) => Err(Refusal::BadOrder),
            Progress::Ordered(given) | Progress::Ended(given) => Ok(given),
        }
    }
}

/// What the header says.
#[tactic(auto, unfolding(crate::specs::Reading::words_after))]
fn started(alloc: Global, words: &[&[u8]]) -> Result<Progress, Refusal>
    ensures { made seen result ≡ words_after Start (nows words.now) }
{
    let hash = header_of(words)?;
    Ok(Progress::InEvents(Log::new(alloc, hash)))
}

/// What a line after the header says, by its first word and the words after it.
fn named_line(
    alloc: Global,
    log: Log,
    name: Option<LineName>,
    words: &[&[u8]],
) -> Result<Progress, Refusal>
    ensures { result ≢ Err Refusal.Memory
        → made seen result ≡ named_line log.0 log.1 name (nows words.now) }
{
    match name {
        Some(LineName::Begin) => {
            let event = begin_of(&log, words)?;
            Ok(Progress::InEvents(log.with(event)?))
        }
        Some(LineName::End) => {
            let event = end_of(alloc, &log, words)?;
            Ok(Progress::InEvents(log.with(event)?))
        }
        Some(LineName::Denied) => Ok(Progress::InEvents(log)),
        Some(LineName::Order) => {
            let order = order_of(alloc, words)?;
            let (hash, events) = log.into_parts();
            Ok(Progress::Ordered(Given {
                hash,
                events,
                order,
            }))
        }
        _ => Err(Refusal::BadLine),
    }
}

/// What a line after the order says, by its first word.
fn last_line(read: Given, name: Option<LineName>) -> Result<Progress, Refusal>
    ensures { made seen result ≡ last_line (given read) name }
{
    match name {
        Some(LineName::Slots) => Ok(Progress::Ended(read)),
        _ => Err(Refusal::BadOrder),
    }
}

/// Reads a history from its text. The first line with a fault is told, or that memory ran out:
/// anything may be answered as `Memory`.
///
/// The lines that are neither empty nor begin with `#` are `hash NAME`, the events and lines
/// `denied ..`, the order, and at most one line `slots ..`.
#[tactic(auto, unfolding(crate::specs::Reading::history_of))]
pub fn read_history(alloc: Global, text: &[u8]) -> Result<Given, Told>
    // The lines that aren't ignored spell what is read: the header, lines `denied ..`, the events, the
    // order, and at most one line `slots ..`. The events are well formed.
    ensures found { IfOk result (λ g. IsSpelling text.now (given g)) }
    // What is spelled so, in at most 300,000 lines, is read, unless memory runs out.
    ensures only { (read : Reading) → IsSpelling text.now read → IsShort text.now
        → Reads given result (Ok read) }
    // What is read, or which fault is told at which line.
    ensures exact { Reads given result (history_of text.now) }
{
    read_text::<Progress>(alloc, text)
}
