//! Reading a text line by line.

ghost use Rattle.std.specs.Prelude.{◌≡◌, ◌≢◌, ◌<◌, ◌^◌, OnOk, Err};
ghost use Rattle.text_lines.specs.Words.{nows, made};
ghost use Rattle.text_lines.specs.Reading.{Format, line_after, text_of};
ghost use Rattle.text_lines.specs.Views.{Reads, told_at};

use crate::faults::Told;
use crate::lines::{first_line, is_ignored};
use crate::words::cut;
use ctrie_base::Refusal;
use std::alloc::Global;

/// What the lines of a text have said so far, for one kind of text.
pub trait LineReader: Drop {
    /// What a whole text says.
    type Given: Drop;

    /// The values in which contracts see what was read so far.
    ghost State: { Type 0 };

    /// The values in which they see what a whole text says.
    ghost Value: { Type 0 };

    /// How texts of this kind are read.
    ghost format: { Format State Value };

    /// What was read so far, as contracts see it.
    ghost seen: { Self → State };

    /// What a whole text says, as contracts see it.
    ghost given: { Self.Given → Value };

    /// The most lines that a text may have.
    fn most_lines() -> u32
        ensures { result ≡ format.most_lines };

    /// Before the first line.
    fn start() -> Self
        ensures { seen result ≡ format.start };

    /// With the words of a line more. Anything may be answered as `Memory`.
    fn words_after(self, alloc: Global, words: &[&[u8]]) -> Result<Self, Refusal>
        ensures { result ≢ Err Refusal.Memory
            → made seen result ≡ format.words_after (seen self) (nows words.now) };

    /// What is read once no line is left.
    fn all_read(self) -> Result<Self::Given, Refusal>
        ensures { made given result ≡ format.all_read (seen self) };
}

/// What a line, ignored or not, says after what was read before.
#[tactic(auto, unfolding(crate::specs::Reading::line_after))]
fn line_after<R: LineReader>(
    alloc: Global,
    number: u64,
    before: R,
    line: &[u8],
) -> Result<R, Refusal>
    ensures said { result ≢ Err Refusal.Memory
        → made R.seen result ≡ line_after R.format number (R.seen before) line.now }
    ensures bound { OnOk result (number < 2 ^ 32) }
{
    if number > u64::from(R::most_lines()) {
        return Err(Refusal::TooLong);
    }
    if is_ignored(line) {
        return Ok(before);
    }
    let words = cut(alloc, line, b' ')?;
    before.words_after(alloc, &words)
}

/// A refusal at this line, as it is told.
fn told(number: u64, refusal: Refusal) -> Told
    ensures { result ≡ told_at number refusal }
{
    match refusal {
        Refusal::Memory => Told::Memory,
        _ => Told::Line(number, refusal),
    }
}

/// Reads a text. The first line with a fault is told, or that memory ran out: anything may be answered
/// as `Memory`.
pub fn read_text<R: LineReader>(alloc: Global, text: &[u8]) -> Result<R::Given, Told>
    ensures { Reads R.given result (text_of R.format text.now) }
{
    let mut number = 1;
    let mut read = R::start();
    let mut rest = text;
    while !rest.is_empty() {
        let (line, behind) = first_line(rest);
        read = match line_after(alloc, number, read, line) {
            Ok(after) => after,
            Err(refusal) => return Err(told(number, refusal)),
        };
        number += 1;
        rest = behind;
    }
    match read.all_read() {
        Ok(given) => Ok(given),
        Err(refusal) => Err(told(number, refusal)),
    }
}
