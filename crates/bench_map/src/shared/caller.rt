//! The calls of one thread, with what they come to.

use bench_calls::{Balance, Drawn, Kind};
use shared_map::{Handle, MapCalls, MapError, MapName, NamedMap, NamedMapSeat};
use std::sync::Wait;

/// How many gets are made of a copy.
const READS: u64 = 100;

/// The calls of each thread.
#[derive(Clone, Copy)]
pub(crate) struct Share {
    pub(crate) calls: u64,
    pub(crate) keys: u64,
    /// After this many calls a copy is frozen, read and closed; 0 for never.
    pub(crate) every: u64,
}

/// What was drawn so far, and what the calls came to.
#[derive(Clone, Copy)]
pub(crate) struct Caller {
    drawn: Drawn,
    pub(crate) balance: Balance,
    pub(crate) refused: u64,
}

impl Caller {
    /// That of the thread with this number, from 0 on, which has made no call.
    pub(crate) fn new(thread: u64) -> Caller {
        Caller {
            drawn: Drawn::start(thread),
            balance: Balance::nothing(),
            refused: 0,
        }
    }

    /// Puts this many keys, 0 and on.
    pub(crate) fn fill<N: MapName, R: Wait>(
        &mut self,
        rt: &R,
        map: &NamedMap<N>,
        seat: &mut NamedMapSeat<N>,
        keys: u64,
    ) {
        for key in 0..keys {
            let put = self.put(rt, map, seat, key, key);
            self.count_refusal(put);
        }
    }

    /// Makes all calls of its share, with the copies among them.
    pub(crate) fn call_all<N: MapName, R: Wait>(
        &mut self,
        rt: &R,
        map: &NamedMap<N>,
        seat: &mut NamedMapSeat<N>,
        share: Share,
    ) {
        let mut left = share.calls;
        if share.every > 0 {
            for _ in 0..share.calls / share.every {
                self.call_often(rt, map, seat, share.keys, share.every);
                let read = read_a_copy(rt, map, seat, share.keys);
                self.count_refusal(read);
            }
            left = share.calls % share.every;
        }
        self.call_often(rt, map, seat, share.keys, left);
    }

    /// This many calls of the mix.
    fn call_often<N: MapName, R: Wait>(
        &mut self,
        rt: &R,
        map: &NamedMap<N>,
        seat: &mut NamedMapSeat<N>,
        keys: u64,
        count: u64,
    ) {
        for _ in 0..count {
            let called = self.call(rt, map, seat, keys);
            self.count_refusal(called);
        }
    }

    /// The next call: a get, a put or a removal.
    fn call<N: MapName, R: Wait>(
        &mut self,
        rt: &R,
        map: &NamedMap<N>,
        seat: &mut NamedMapSeat<N>,
        keys: u64,
    ) -> Result<(), MapError> {
        self.drawn = self.drawn.next();
        let key = self.drawn.key(keys);
        match self.drawn.kind() {
            Kind::Get => {
                seat.get(rt, map, Handle::first(), key)?;
                Ok(())
            }
            Kind::Put => self.put(rt, map, seat, key, self.drawn.value()),
            Kind::Remove => {
                let told = seat.remove(rt, map, Handle::first(), key)?;
                self.balance.take(told);
                Ok(())
            }
        }
    }

    fn put<N: MapName, R: Wait>(
        &mut self,
        rt: &R,
        map: &NamedMap<N>,
        seat: &mut NamedMapSeat<N>,
        key: u64,
        value: u64,
    ) -> Result<(), MapError> {
        let told = seat.put(rt, map, Handle::first(), key, value)?;
        self.balance.take(told);
        self.balance.add(value);
        Ok(())
    }

    fn count_refusal(&mut self, called: Result<(), MapError>) {
        self.refused = self.refused.wrapping_add(u64::from(called.is_err()));
    }
}

/// Freezes the map, gets keys of the copy, and closes it.
fn read_a_copy<N: MapName, R: Wait>(
    rt: &R,
    map: &NamedMap<N>,
    seat: &mut NamedMapSeat<N>,
    keys: u64,
) -> Result<(), MapError> {
    let copy = seat.freeze(rt, map, Handle::first())?;
    for read in 0..READS {
        seat.get(rt, map, copy, read % keys.max(1))?;
    }
    seat.close(rt, map, copy)
}
