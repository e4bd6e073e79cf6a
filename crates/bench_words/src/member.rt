//! One of the threads that call the map.

use crate::caller::{Caller, Share};
use crate::loads::Load;
use bench_calls::{Balance, nanos_since};
use lock_free::{CallError, MapName, NamedSeat, NamedWords};
use std::sync::Wait;
use std::sync::atomic::AtomicBool;
use std::time::{Clock, Instant};

/// A seat, with what came of its calls.
#[derive(Drop)]
pub(crate) struct Member<N: MapName> {
    seat: NamedSeat<N>,
    pub(crate) caller: Caller,
    /// When its calls ended, in nanoseconds since the clock was started for all, before the threads were; 0 where they aren't counted.
    pub(crate) ended: u128,
}

impl<N: MapName> Member<N> {
    /// One that has made no call.
    pub(crate) fn new(seat: NamedSeat<N>) -> Member<N> {
        let caller = Caller::new(u64::from(seat.number()).wrapping_sub(1));
        Member {
            seat,
            caller,
            ended: 0,
        }
    }

    /// Puts this many keys, 0 and on.
    pub(crate) fn fill<R: Wait>(&mut self, rt: &R, words: &NamedWords<N>, keys: u64) {
        self.caller.fill(rt, words, &mut self.seat, keys);
    }

    /// Makes its calls, and notes when it has made all. It counts on its own stack meanwhile: members lie side by side, and a line of the
    /// cache that two threads write passes to and fro between them.
    pub(crate) fn work<R: Wait + Clock + AllocGlobal>(
        &mut self,
        rt: &R,
        words: &NamedWords<N>,
        share: Share,
        start: Option<Instant>,
    ) {
        let mut caller = self.caller;
        caller.call_all(rt, words, &mut self.seat, share);
        self.ended = nanos_since(rt, start);
        self.caller = caller;
    }

    /// Makes such calls until those of another thread are over.
    pub(crate) fn accompany<R: Wait + AllocGlobal>(
        &mut self,
        rt: &R,
        words: &NamedWords<N>,
        share: Share,
        are_over: &AtomicBool,
    ) {
        let mut caller = self.caller;
        caller.call_until(rt, words, &mut self.seat, share, are_over);
        self.caller = caller;
    }

    /// The value of this key.
    fn get<R: Wait>(
        &mut self,
        rt: &R,
        words: &NamedWords<N>,
        key: u64,
    ) -> Result<Option<u64>, CallError> {
        self.seat.get(rt, words, 0, key)
    }
}

/// So often each seat is asked for a key that all are refused, before it is given up.
const TRIES: u64 = 10_000;

/// What is in the map, of this many keys.
pub(crate) fn found<N: MapName, R: Wait>(
    rt: &R,
    words: &NamedWords<N>,
    members: &mut [Member<N>],
    load: Load,
    keys: u64,
) -> Result<Balance, CallError> {
    let mut found = Balance::nothing();
    for number in 0..keys {
        if let Some(value) = value_of(rt, words, members, load.key(number))? {
            found.add(value);
        }
    }
    Ok(found)
}

/// The value of this key. Where slots are wanting, seats make free in calls that are refused what they have retired.
fn value_of<N: MapName, R: Wait>(
    rt: &R,
    words: &NamedWords<N>,
    members: &mut [Member<N>],
    key: u64,
) -> Result<Option<u64>, CallError> {
    let mut told = first_told(rt, words, members, key);
    for _ in 1..TRIES {
        if told.is_ok() {
            return told;
        }
        told = first_told(rt, words, members, key);
    }
    told
}

/// The value of this key, by the first seat that isn't refused; or why the last one was.
fn first_told<N: MapName, R: Wait>(
    rt: &R,
    words: &NamedWords<N>,
    members: &mut [Member<N>],
    key: u64,
) -> Result<Option<u64>, CallError> {
    let mut told = Ok(None);
    for member in members.iter_mut() {
        told = member.get(rt, words, key);
        if told.is_ok() {
            return told;
        }
    }
    told
}
