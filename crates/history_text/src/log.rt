//! The events that are read, and the operations that run after them.

ghost use Rattle.std.specs.Prelude.{◌≡◌, ◌==◌, ◌++◌, ◌∷◌, [], List, IfOk};
ghost use Rattle.std.specs.List.{list_any};
ghost use Rattle.history_text.specs.Running.{next_id, idle_actor, running_id};

use crate::words::{actor_word, value_word};
use ctrie_base::{HashKind, Refusal};
use history::Event;
use std::alloc::{AllocError, Global};
use std::marker::Model;

/// The hash and the events that are read so far. Contracts see these two.
#[derive(Drop)]
pub struct Log {
    hash: HashKind,
    events: Vec<Event>,
    next: u64,
    active: Vec<(u64, u8)>,
}

impl Model for Log {
    ghost use Rattle.std.specs.Prelude.{◌≡◌, List};
    ghost use Rattle.ctrie_base.specs.declared.hashes.HashKind.{HashKind};
    ghost use Rattle.history.specs.declared.events.Event.{Event};
    ghost use Rattle.history.specs.Histories.{begun};
    ghost use Rattle.history_text.specs.Running.{running};

    ghost Value = { HashKind × List Event };

    ghost view = { λ l. (l.hash, l.events.items) };

    ghost invariant = { λ l. (l.next ≡ begun l.events.items) × (l.active.items ≡ running l.events.items) };
}

impl Log {
    /// No events yet.
    pub fn new(alloc: Global, hash: HashKind) -> Log
        ensures { result ≡ (hash, []) }
    {
        Log {
            hash,
            events: Vec::new(alloc),
            next: 0,
            active: Vec::new(alloc),
        }
    }

    /// The hash and the events.
    pub fn into_parts(self) -> (HashKind, Vec<Event>)
        ensures hash { result.0 ≡ self.0 }
        ensures events { result.1.items ≡ self.1 }
    {
        let Log {
            hash,
            events,
            next: _,
            active: _,
        } = self;
        (hash, events)
    }

    /// One event more.
    pub fn with(self, event: Event) -> Result<Log, AllocError>
        ensures { IfOk result (λ log. log ≡ (self.0, self.1 ++ event ∷ [])) }
    {
        let Log {
            hash,
            mut events,
            mut next,
            mut active,
        } = self;
        match &event {
            Event::Begin {
                id,
                actor,
                call: _,
                opens: _,
            } => {
                active.push((*id, *actor))?;
                next += 1;
            }
            Event::End { id, reply: _ } => {
                let ended = *id;
                active.retain(|one| one.0 != ended);
            }
        }
        events.push(event)?;
        Ok(Log {
            hash,
            events,
            next,
            active,
        })
    }

    /// The id of the next begin. Another is BadLine.
    pub fn next_id(&self, word: &[u8]) -> Result<u64, Refusal>
        ensures { result ≡ next_id self.now.1 word.now }
    {
        let id = value_word(word)?;
        if id == self.next {
            Ok(id)
        } else {
            Err(Refusal::BadLine)
        }
    }

    /// An actor that runs nothing. Another is BadLine.
    pub fn idle_actor(&self, word: &[u8]) -> Result<u8, Refusal>
        ensures { result ≡ idle_actor self.now.1 word.now }
    {
        let actor = actor_word(word)?;
        if has_actor(&self.active, actor) {
            return Err(Refusal::BadLine);
        }
        Ok(actor)
    }

    /// The id of an operation that runs. Another is BadLine.
    pub fn running_id(&self, word: &[u8]) -> Result<u64, Refusal>
        ensures { result ≡ running_id self.now.1 word.now }
    {
        let id = value_word(word)?;
        if has_id(&self.active, id) {
            return Ok(id);
        }
        Err(Refusal::BadLine)
    }
}

fn has_actor(running: &[(u64, u8)], actor: u8) -> bool
    ensures { result ≡ list_any (λ one. one.1 == actor) running.now }
{
    running.iter().any(|one| one.1 == actor)
}

fn has_id(running: &[(u64, u8)], id: u64) -> bool
    ensures { result ≡ list_any (λ one. one.0 == id) running.now }
{
    running.iter().any(|one| one.0 == id)
}
