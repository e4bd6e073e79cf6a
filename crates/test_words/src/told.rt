//! What threads were told, as one history.

use crate::maps::Trouble;
use history::{Call, Event, Reply};
use history_text::EventText;
use std::alloc::Global;
use std::io::Write;

/// A call with its reply, and when it began and ended, by the count that all threads share.
#[derive(Drop)]
pub struct Told {
    pub begin: u64,
    pub end: u64,
    pub call: Call,
    pub reply: Reply,
}

/// What one thread was told, the last first, and the call that it is in.
#[derive(Drop)]
struct Teller {
    left: Vec<Told>,
    running: Option<(u64, Reply)>,
}

/// For each number of the count the thread that took it, from 1 on, or 0 where its call isn't in the history.
fn takers(alloc: Global, threads: &[Vec<Told>], count: u64) -> Result<Vec<u8>, Trouble> {
    let mut takers = Vec::from_elem(alloc, 0, count as usize)?;
    let mut actor = 0u8;
    for thread in threads {
        actor = actor.saturating_add(1);
        mark_all(&mut takers, thread.as_slice(), actor);
    }
    Ok(takers)
}

/// The numbers of these calls were taken by this thread.
fn mark_all(takers: &mut Vec<u8>, thread: &[Told], actor: u8) {
    for told in thread {
        mark(takers, told.begin, actor);
        mark(takers, told.end, actor);
    }
}

/// This number was taken by this thread.
fn mark(takers: &mut Vec<u8>, number: u64, actor: u8) {
    if let Some(taker) = takers.get_mut(number as usize) {
        *taker = actor;
    }
}

impl Teller {
    /// The event that is next: the end of the call that runs, or the begin of the next one, which is this one of all.
    fn next(&mut self, actor: u8, begun: u64) -> Option<Event> {
        if let Some((id, reply)) = self.running.take() {
            return Some(Event::End { id, reply });
        }
        let told = self.left.pop()?;
        let opens = match told.reply {
            Reply::Opened(handle) => Some(handle),
            _ => None,
        };
        self.running = Some((begun, told.reply));
        Some(Event::Begin {
            id: begun,
            actor,
            call: told.call,
            opens,
        })
    }
}

/// What these threads were told, each in its own order, the last first.
fn tellers(alloc: Global, threads: Vec<Vec<Told>>) -> Result<Vec<Teller>, Trouble> {
    let mut tellers = Vec::new(alloc);
    for mut left in threads {
        left.reverse();
        tellers.push(Teller {
            left,
            running: None,
        })?;
    }
    Ok(tellers)
}

/// Writes the history of what these threads were told: a line for each begin and end, in the order of the count.
pub fn write_history<W: Write>(
    alloc: Global,
    output: &mut W,
    threads: Vec<Vec<Told>>,
    count: u64,
) -> Result<(), Trouble> {
    let takers = takers(alloc, threads.as_slice(), count)?;
    let mut tellers = tellers(alloc, threads)?;
    let mut begun = 0u64;
    for actor in takers {
        let place = usize::from(actor).wrapping_sub(1);
        let Some(teller) = tellers.get_mut(place) else {
            continue;
        };
        let Some(event) = teller.next(actor, begun) else {
            continue;
        };
        if matches!(event, Event::Begin { .. }) {
            begun = begun.wrapping_add(1);
        }
        writeln!(output, "{}", EventText(&event))?;
    }
    Ok(())
}
