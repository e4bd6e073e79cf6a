//! Event lines and the header, read from their words.

ghost use Rattle.std.specs.Prelude.{◌≡◌, ◌≢◌};
ghost use Rattle.text_lines.specs.Words.{nows};
ghost use Rattle.history_text.specs.Lines.{header_of};
ghost use Rattle.history_text.specs.Running.{begin_of, begin_from, end_of};

use crate::call_words::call_of;
use crate::log::Log;
use crate::names::hash_named;
use crate::reply_words::reply_of;
use ctrie_base::{HashKind, Refusal};
use history::Event;
use std::alloc::Global;
use text_lines::both;

/// The hash that the header names. Any fault is BadHeader.
#[tactic(auto, unfolding(crate::specs::Lines::header_of))]
pub fn header_of(words: &[&[u8]]) -> Result<HashKind, Refusal>
    ensures { result ≡ header_of (nows words.now) }
{
    let [word, name] = words else {
        return Err(Refusal::BadHeader);
    };
    if *word != b"hash".as_slice() {
        return Err(Refusal::BadHeader);
    }
    match hash_named(name) {
        Some(hash) => Ok(hash),
        None => Err(Refusal::BadHeader),
    }
}

/// The begin that the words after `begin` say. Beside wrong words, another id than the next and an
/// actor whose operation runs are BadLine.
#[tactic(auto, unfolding(crate::specs::Running::begin_of))]
pub fn begin_of(log: &Log, words: &[&[u8]]) -> Result<Event, Refusal>
    ensures { result ≡ begin_of log.now.1 (nows words.now) }
{
    let [id, actor, call @ ..] = words else {
        return Err(Refusal::BadLine);
    };
    begin_from(log, id, actor, call)
}

fn begin_from(log: &Log, id: &[u8], actor: &[u8], call: &[&[u8]]) -> Result<Event, Refusal>
    ensures { result ≡ begin_from log.now.1 id.now actor.now (nows call.now) }
{
    let said = both(log.idle_actor(actor), call_of(call));
    let (id, (actor, (call, opens))) = both(log.next_id(id), said)?;
    Ok(Event::Begin {
        id,
        actor,
        call,
        opens,
    })
}

/// The end that the words after `end` say. Beside wrong words, the id of an operation that doesn't
/// run is BadLine. Anything may be answered as `Memory`.
#[tactic(auto, unfolding(crate::specs::Running::end_of))]
pub fn end_of(alloc: Global, log: &Log, words: &[&[u8]]) -> Result<Event, Refusal>
    ensures { result ≢ Err Refusal.Memory → result ≡ end_of log.now.1 (nows words.now) }
{
    let [id, answer @ ..] = words else {
        return Err(Refusal::BadLine);
    };
    let (id, reply) = both(log.running_id(id), reply_of(alloc, answer))?;
    Ok(Event::End { id, reply })
}
