//! Replies and orders, read from their words.

ghost use Rattle.std.specs.Prelude.{◌≡◌, ◌≢◌, ◌∷◌, [], map};
ghost use Rattle.text_lines.specs.Words.{nows, made, wanted, number_of, largest};
ghost use Rattle.history_text.specs.Lines.{equals_at, has_equals, pair_word, pair_words, each, bare_reply, reply_with, is_pairs, plain_reply, reply_of, order_of};
ghost use Rattle.std.specs.List.{list_all};

use crate::names::ReplyName;
use crate::words::{handle_word, value_word};
use ctrie_base::Refusal;
use history::{Pairs, Reply};
use std::alloc::Global;
use text_lines::{both, number_of};

/// The reply that these words say. The name, the number of words and a pair without `=` are wrong
/// with BadLine, a number with BadNumber. Anything may be answered as `Memory`.
#[tactic(auto, unfolding(crate::specs::Lines::reply_of))]
pub fn reply_of(alloc: Global, words: &[&[u8]]) -> Result<Reply, Refusal>
    ensures { result ≢ Err Refusal.Memory → result ≡ reply_of (nows words.now) }
{
    let [name, more @ ..] = words else {
        return Err(Refusal::BadLine);
    };
    let name = ReplyName::of(name);
    if !is_pairs(name) {
        return plain_reply(name, more);
    }
    let pairs = pairs_of(alloc, more)?;
    Ok(Reply::Pairs(Pairs::from_vec(pairs)))
}

fn is_pairs(name: Option<ReplyName>) -> bool
    ensures { result ≡ is_pairs name }
{
    matches!(name, Some(ReplyName::Pairs))
}

fn plain_reply(name: Option<ReplyName>, more: &[&[u8]]) -> Result<Reply, Refusal>
    ensures { result ≡ plain_reply name (nows more.now) }
{
    match more {
        [] => bare_reply(name),
        [word] => reply_with(name, word),
        _ => Err(Refusal::BadLine),
    }
}

fn bare_reply(name: Option<ReplyName>) -> Result<Reply, Refusal>
    ensures { result ≡ bare_reply name }
{
    match name {
        Some(ReplyName::None) => Ok(Reply::Found(None)),
        Some(ReplyName::True) => Ok(Reply::Truth(true)),
        Some(ReplyName::False) => Ok(Reply::Truth(false)),
        Some(ReplyName::Crowded) => Ok(Reply::Crowded),
        Some(ReplyName::Closed) => Ok(Reply::Closed),
        Some(ReplyName::Cleared) => Ok(Reply::Cleared),
        Some(ReplyName::NoSlots) => Ok(Reply::NoSlots),
        _ => Err(Refusal::BadLine),
    }
}

fn reply_with(name: Option<ReplyName>, word: &[u8]) -> Result<Reply, Refusal>
    ensures { result ≡ reply_with name word.now }
{
    match name {
        Some(ReplyName::Some) => Ok(Reply::Found(Some(value_word(word)?))),
        Some(ReplyName::Handle) => Ok(Reply::Opened(handle_word(word)?)),
        Some(ReplyName::Count) => Ok(Reply::Count(value_word(word)?)),
        _ => Err(Refusal::BadLine),
    }
}

/// A number, or BadNumber.
fn wanted(word: &[u8]) -> Result<u64, Refusal>
    ensures { result ≡ wanted (number_of largest word.now) }
{
    match number_of(word, u64::MAX) {
        Some(number) => Ok(number),
        None => Err(Refusal::BadNumber),
    }
}

// Where the first `=` stands.
fn equals_at(word: &[u8]) -> Option<usize>
    ensures { result ≡ equals_at word.now }
{
    word.iter().position(|b| *b == b'=')
}

fn pair_word(word: &[u8]) -> Result<(u64, u64), Refusal>
    ensures { result ≡ pair_word word.now }
{
    match equals_at(word) {
        Some(at) => both(wanted(&word[..at]), wanted(&word[at + 1..])),
        None => Err(Refusal::BadLine),
    }
}

fn all_have_equals(words: &[&[u8]]) -> bool
    ensures { result ≡ list_all has_equals (nows words.now) }
{
    for word in words {
        if equals_at(word).is_none() {
            return false;
        }
    }
    true
}

/// The pairs that these words say.
fn pairs_of(alloc: Global, words: &[&[u8]]) -> Result<Vec<(u64, u64)>, Refusal>
    ensures { result ≢ Err Refusal.Memory
        → made (λ pairs. pairs.items) result ≡ pair_words (nows words.now) }
{
    if !all_have_equals(words) {
        return Err(Refusal::BadLine);
    }
    let mut pairs = Vec::new(alloc);
    for word in words {
        pairs.push(pair_word(word)?)?;
    }
    Ok(pairs)
}

/// The ids that these words say: each must be a number, else BadNumber. Anything may be answered as
/// `Memory`.
pub fn order_of(alloc: Global, words: &[&[u8]]) -> Result<Vec<u64>, Refusal>
    ensures { result ≢ Err Refusal.Memory
        → made (λ order. order.items) result ≡ order_of (nows words.now) }
{
    let mut order = Vec::new(alloc);
    for word in words {
        order.push(wanted(word)?)?;
    }
    Ok(order)
}
