//! One of the threads that share a map.

use crate::shared::caller::{Caller, Share};
use bench_calls::{Balance, nanos_since};
use shared_map::{Handle, MapCalls, MapError, MapName, NamedMap, NamedMapSeat};
use std::sync::Wait;
use std::time::{Clock, Instant};

/// A seat, with what came of its calls.
#[derive(Drop)]
pub(crate) struct Member<N: MapName> {
    seat: NamedMapSeat<N>,
    pub(crate) caller: Caller,
    /// When its calls began and ended, in nanoseconds since the clock was started for all.
    pub(crate) began: u128,
    pub(crate) ended: u128,
}

impl<N: MapName> Member<N> {
    /// One that has made no call.
    pub(crate) fn new(seat: NamedMapSeat<N>) -> Member<N> {
        let caller = Caller::new(u64::from(seat.number()).wrapping_sub(1));
        Member {
            seat,
            caller,
            began: 0,
            ended: 0,
        }
    }

    /// Puts this many keys, 0 and on.
    pub(crate) fn fill<R: Wait>(&mut self, rt: &R, map: &NamedMap<N>, keys: u64) {
        self.caller.fill(rt, map, &mut self.seat, keys);
    }

    /// Makes its calls, and notes when. It counts on its own stack meanwhile: members lie side by side, and a line of the cache
    /// that two threads write passes to and fro between them.
    pub(crate) fn work<R: Wait + Clock>(
        &mut self,
        rt: &R,
        map: &NamedMap<N>,
        share: Share,
        start: Option<Instant>,
    ) {
        let mut caller = self.caller;
        self.began = nanos_since(rt, start);
        caller.call_all(rt, map, &mut self.seat, share);
        self.ended = nanos_since(rt, start);
        self.caller = caller;
    }

    /// What is in the map, of this many keys.
    pub(crate) fn found<R: Wait>(
        &mut self,
        rt: &R,
        map: &NamedMap<N>,
        keys: u64,
    ) -> Result<Balance, MapError> {
        let mut found = Balance::nothing();
        for key in 0..keys {
            if let Some(value) = self.seat.get(rt, map, Handle::first(), key)? {
                found.add(value);
            }
        }
        Ok(found)
    }
}
