//! A cache of what is slow to work out. Its memory is bounded: when its slots are full it begins anew.

use ctrie_map::{Handle, HashKind, Map, MapError};
use std::alloc::Global;

/// A cache, with how often it knew the answer and how often it began anew.
#[derive(Drop)]
struct Cache {
    map: Map,
    now: Handle,
    hits: u32,
    renewals: u32,
}

/// How many steps the rule of Collatz takes from the number to 1, if at most 1,000.
fn slow(number: u64) -> u64 {
    let mut at = number;
    for steps in 0..1_000 {
        if at <= 1 {
            return steps;
        }
        at = if at.is_multiple_of(2) {
            at / 2
        } else {
            at.saturating_mul(3).saturating_add(1)
        };
    }
    1_000
}

impl Cache {
    /// The first handle stays empty. What is cached stands in copies of it.
    fn new(alloc: Global, slots: u32) -> Result<Cache, MapError> {
        let mut map = Map::new(alloc, slots, HashKind::Wide)?;
        let now = map.snapshot(Handle::first())?;
        Ok(Cache {
            map,
            now,
            hits: 0,
            renewals: 0,
        })
    }

    /// The steps from the number, worked out if they aren't known yet.
    fn steps(&mut self, number: u64) -> Result<u64, MapError> {
        if let Some(steps) = self.map.get(self.now, number)? {
            self.hits = self.hits.saturating_add(1);
            return Ok(steps);
        }
        let steps = slow(number);
        if self.map.put(self.now, number, steps) == Err(MapError::Full) {
            self.begin_anew()?;
            self.map.put(self.now, number, steps)?;
        }
        Ok(steps)
    }

    /// Goes on with an empty copy. A close makes free what this map alone had, and wants no slot itself.
    fn begin_anew(&mut self) -> Result<(), MapError> {
        self.map.close(self.now)?;
        self.now = self.map.snapshot(Handle::first())?;
        self.renewals = self.renewals.saturating_add(1);
        Ok(())
    }
}

/// Asks for 40 numbers, and for 27 after each; the most steps of one.
fn ask_all(cache: &mut Cache) -> Result<u64, MapError> {
    let mut most = 0;
    for number in 1..41 {
        most = cache.steps(number)?.max(most);
        most = cache.steps(27)?.max(most);
    }
    Ok(most)
}

/// Asks a cache of this many slots for all of them three times.
fn ask<R: Print + AllocGlobal>(rt: &R, slots: u32) -> Result<(), MapError> {
    let mut cache = Cache::new(rt.alloc(), slots)?;
    let mut most = 0;
    for _ in 0..3 {
        most = ask_all(&mut cache)?.max(most);
    }
    let known = cache.map.count(cache.now)?;
    let Cache { hits, renewals, .. } = cache;
    let _ = println!(rt;
        "{slots} slots: {hits} hits, {renewals} times anew, {known} known at last, at most {most} steps"
    );
    Ok(())
}

/// A cache of few slots and one of many.
pub(crate) fn run<R: Print + AllocGlobal>(rt: &R) -> Result<(), MapError> {
    ask(rt, 32)?;
    ask(rt, 128)
}
