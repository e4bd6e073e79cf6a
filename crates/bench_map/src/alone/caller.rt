//! Operations on a map that one thread calls, one after the other.

use crate::alone::loads::Load;
use bench_calls::{Drawn, Kind};
use shared_map::{Handle, Map, MapError};

/// After this many operations a copy is frozen, read and closed, where the load has copies now and then.
const EVERY: u64 = 100;

/// How many entries a part of a listing has.
const PART: usize = 64;

/// What was drawn and made so far.
#[derive(Clone, Copy)]
pub(crate) struct Caller {
    load: Load,
    keys: u64,
    drawn: Drawn,
    made: u64,
}

impl Caller {
    /// One that has made no call.
    pub(crate) fn new(load: Load, keys: u64) -> Caller {
        Caller {
            load,
            keys,
            drawn: Drawn::start(0),
            made: 0,
        }
    }

    /// Performs this many operations. How many of them were refused.
    pub(crate) fn perform(&mut self, map: &mut Map, count: u64) -> u64 {
        let mut refused = 0u64;
        for _ in 0..count {
            if self.operate(map).is_err() {
                refused = refused.saturating_add(1);
            }
        }
        refused
    }

    /// Performs the next operation.
    fn operate(&mut self, map: &mut Map) -> Result<(), MapError> {
        self.drawn = self.drawn.next();
        self.made = self.made.wrapping_add(1);
        let key = self.drawn.key(self.keys);
        match self.load {
            Load::Get => self.get(map, key),
            Load::Put => self.put(map, key),
            Load::Insert => self.put(map, self.made % self.keys.max(1)),
            Load::Mix => self.mix(map, key),
            Load::Freeze if self.made % EVERY == 0 => self.freeze(map, key),
            Load::Freeze => self.mix(map, key),
            Load::Copy => self.copy(map, key),
            Load::Diff => self.diff(map, key),
            Load::Count => self.count(map),
            Load::Part => self.part(map, key),
            Load::Scan => self.scan(map, key),
        }
    }

    /// A get, a put or a removal.
    fn mix(&self, map: &mut Map, key: u64) -> Result<(), MapError> {
        match self.drawn.kind() {
            Kind::Get => self.get(map, key),
            Kind::Put => self.put(map, key),
            Kind::Remove => {
                map.remove(Handle::first(), key)?;
                Ok(())
            }
        }
    }

    fn get(&self, map: &Map, key: u64) -> Result<(), MapError> {
        map.get(Handle::first(), key)?;
        Ok(())
    }

    fn put(&self, map: &mut Map, key: u64) -> Result<(), MapError> {
        map.put(Handle::first(), key, self.made)?;
        Ok(())
    }

    /// Freezes the map, gets a key of the copy, and closes it.
    fn freeze(&self, map: &mut Map, key: u64) -> Result<(), MapError> {
        let copy = map.freeze(Handle::first())?;
        map.get(copy, key)?;
        map.close(copy)
    }

    /// Freezes the map, changes a key, and closes the copy.
    fn copy(&self, map: &mut Map, key: u64) -> Result<(), MapError> {
        let copy = map.freeze(Handle::first())?;
        self.put(map, key)?;
        map.close(copy)
    }

    /// Freezes the map, changes a key, asks what has changed, and closes the copy.
    fn diff(&self, map: &mut Map, key: u64) -> Result<(), MapError> {
        let copy = map.freeze(Handle::first())?;
        self.put(map, key)?;
        let _ = map.diff(copy, Handle::first())?;
        map.close(copy)
    }

    fn count(&self, map: &Map) -> Result<(), MapError> {
        map.count(Handle::first())?;
        Ok(())
    }

    fn part(&self, map: &Map, key: u64) -> Result<(), MapError> {
        let _ = map.entries_from(Handle::first(), Some(key), PART)?;
        Ok(())
    }

    fn scan(&self, map: &Map, key: u64) -> Result<(), MapError> {
        let _ = map.scan(Handle::first(), Some(key), PART)?;
        Ok(())
    }
}
