//! Words and numbers.

ghost use Rattle.std.specs.Prelude.{◌≡◌, ◌<◌, ◌≤◌, length, IfOk, IfSome};
ghost use Rattle.text_lines.specs.Words.{nows, cut_at, is_odd, number_of, number_word, number_from, both, first_told};

use ctrie_base::Refusal;
use std::alloc::{AllocError, Global};

/// The parts of a text that is cut at each of these bytes.
pub fn cut(alloc: Global, text: &[u8], byte: u8) -> Result<Vec<&[u8]>, AllocError>
    ensures { IfOk result (λ parts. nows parts.items ≡ cut_at byte text.now) }
{
    text.split(|b| *b == byte).collect(alloc)
}

/// The number up to the limit whose decimal text the word is.
pub fn number_of(word: &[u8], limit: u64) -> Option<u64>
    ensures { result ≡ number_of limit word.now }
{
    if word.is_empty() {
        return None;
    }
    if is_odd(word) {
        return None;
    }
    let Ok(text) = str::from_utf8(word) else {
        return None;
    };
    let Ok(number) = text.parse::<u64>() else {
        return None;
    };
    if number <= limit { Some(number) } else { None }
}

/// Whether a word begins as no number does: with a sign, or with a zero before more.
fn is_odd(word: &[u8]) -> bool
    requires { 0 < length word.now }
    ensures { result ≡ is_odd word.now }
{
    word[0] == b'+' || (word[0] == b'0' && word.len() > 1)
}

/// A word that must be a number up to the limit. An empty one is BadLine, another that isn't such a
/// number BadNumber.
pub fn number_word(word: &[u8], limit: u64) -> Result<u64, Refusal>
    ensures value { result ≡ number_word limit word.now }
    ensures bound { IfOk result (λ n. n ≤ limit) }
{
    if word.is_empty() {
        return Err(Refusal::BadLine);
    }
    match number_of(word, limit) {
        Some(number) => Ok(number),
        None => Err(Refusal::BadNumber),
    }
}

/// A word that must be a number from `least` to `limit`. An empty one is BadLine, another that isn't
/// such a number BadNumber.
pub fn number_from(word: &[u8], least: u64, limit: u64) -> Result<u64, Refusal>
    ensures value { result ≡ number_from least limit word.now }
    ensures bound { IfOk result (λ n. n ≤ limit) }
{
    let number = number_word(word, limit)?;
    if number < least {
        return Err(Refusal::BadNumber);
    }
    Ok(number)
}

/// Of two faults of one line BadLine is told before another.
fn first_told(first: Refusal, other: Refusal) -> Refusal
    ensures { result ≡ first_told first other }
{
    match first {
        Refusal::BadLine => Refusal::BadLine,
        _ => other,
    }
}

/// Two parts of a line. Of two faults BadLine is told before another.
pub fn both<A: Drop, B: Drop>(
    first: Result<A, Refusal>,
    other: Result<B, Refusal>,
) -> Result<(A, B), Refusal>
    ensures { result ≡ both first other }
{
    match (first, other) {
        (Ok(first), Ok(other)) => Ok((first, other)),
        (Ok(_), Err(fault)) | (Err(fault), Ok(_)) => Err(fault),
        (Err(first), Err(other)) => Err(first_told(first, other)),
    }
}
