//! The calls of one thread, with what they come to.

use crate::loads::Load;
use bench_calls::{Balance, Drawn, Kind};
use lock_free::{CallError, MapName, NamedSeat, NamedWords};
use std::sync::Wait;
use std::sync::atomic::{AtomicBool, Ordering};

/// The handle that is writable from the start.
const FIRST: u16 = 0;

/// After this many calls of a thread a copy is frozen, read and closed, where the load has copies now and then.
const EVERY: u64 = 1_000;

/// How many gets are made of such a copy.
const READS: u64 = 100;

/// How many of a copy that is read alone.
const MANY_READS: u64 = 1_000;

/// The calls of a thread.
#[derive(Clone, Copy)]
pub(crate) struct Share {
    pub(crate) load: Load,
    pub(crate) calls: u64,
    pub(crate) keys: u64,
}

/// What was drawn and made so far, and what the calls came to.
#[derive(Clone, Copy)]
pub(crate) struct Caller {
    drawn: Drawn,
    made: u64,
    pub(crate) balance: Balance,
    pub(crate) refused: u64,
}

impl Caller {
    /// That of the thread with this number, from 0 on, which has made no call.
    pub(crate) fn new(thread: u64) -> Caller {
        Caller {
            drawn: Drawn::start(thread),
            made: 0,
            balance: Balance::nothing(),
            refused: 0,
        }
    }

    /// Puts this many keys, 0 and on.
    pub(crate) fn fill<N: MapName, R: Wait>(
        &mut self,
        rt: &R,
        words: &NamedWords<N>,
        seat: &mut NamedSeat<N>,
        keys: u64,
    ) {
        for key in 0..keys {
            let put = self.put(rt, words, seat, key, key);
            self.count_refusal(put);
        }
    }

    /// Makes all calls of its share.
    pub(crate) fn call_all<N: MapName, R: Wait + AllocGlobal>(
        &mut self,
        rt: &R,
        words: &NamedWords<N>,
        seat: &mut NamedSeat<N>,
        share: Share,
    ) {
        for _ in 0..share.calls {
            let called = self.call(rt, words, seat, share.load, share.keys);
            self.count_refusal(called);
        }
    }

    /// Makes calls of its share until they are over.
    pub(crate) fn call_until<N: MapName, R: Wait + AllocGlobal>(
        &mut self,
        rt: &R,
        words: &NamedWords<N>,
        seat: &mut NamedSeat<N>,
        share: Share,
        are_over: &AtomicBool,
    ) {
        for _ in 0..share.calls {
            if are_over.load(Ordering::SeqCst) {
                return;
            }
            let called = self.call(rt, words, seat, share.load, share.keys);
            self.count_refusal(called);
        }
    }

    /// The next call of this load.
    fn call<N: MapName, R: Wait + AllocGlobal>(
        &mut self,
        rt: &R,
        words: &NamedWords<N>,
        seat: &mut NamedSeat<N>,
        load: Load,
        keys: u64,
    ) -> Result<(), CallError> {
        self.drawn = self.drawn.next();
        self.made = self.made.wrapping_add(1);
        let key = self.drawn.key(keys);
        let value = self.drawn.value();
        match load {
            Load::Mix => self.mix(rt, words, seat, key),
            Load::Get => get(rt, words, seat, FIRST, key),
            Load::Put | Load::Counted => self.put(rt, words, seat, key, value),
            Load::Insert | Load::Spread => {
                let key = load.key(self.made % keys.max(1));
                self.put(rt, words, seat, key, value)
            }
            Load::Copies => self.mix_with_copies(rt, words, seat, key, keys),
            Load::Copy => self.copy(rt, words, seat, key),
            Load::Reading => self.read_copy(rt, words, seat, keys, MANY_READS),
            Load::Change => self.change(rt, words, seat, key),
            Load::Count => count(rt, words, seat),
        }
    }

    /// A get, a put or a removal.
    fn mix<N: MapName, R: Wait>(
        &mut self,
        rt: &R,
        words: &NamedWords<N>,
        seat: &mut NamedSeat<N>,
        key: u64,
    ) -> Result<(), CallError> {
        match self.drawn.kind() {
            Kind::Get => get(rt, words, seat, FIRST, key),
            Kind::Put => self.put(rt, words, seat, key, self.drawn.value()),
            Kind::Remove => self.remove(rt, words, seat, key),
        }
    }

    /// A put or a removal.
    fn change<N: MapName, R: Wait>(
        &mut self,
        rt: &R,
        words: &NamedWords<N>,
        seat: &mut NamedSeat<N>,
        key: u64,
    ) -> Result<(), CallError> {
        match self.drawn.kind() {
            Kind::Get | Kind::Put => self.put(rt, words, seat, key, self.drawn.value()),
            Kind::Remove => self.remove(rt, words, seat, key),
        }
    }

    /// The same, and now and then a copy after it.
    fn mix_with_copies<N: MapName, R: Wait>(
        &mut self,
        rt: &R,
        words: &NamedWords<N>,
        seat: &mut NamedSeat<N>,
        key: u64,
        keys: u64,
    ) -> Result<(), CallError> {
        self.mix(rt, words, seat, key)?;
        if self.made % EVERY != 0 {
            return Ok(());
        }
        self.read_copy(rt, words, seat, keys, READS)
    }

    /// Freezes the map, gets so many keys of the copy, and closes it.
    fn read_copy<N: MapName, R: Wait>(
        &mut self,
        rt: &R,
        words: &NamedWords<N>,
        seat: &mut NamedSeat<N>,
        keys: u64,
        reads: u64,
    ) -> Result<(), CallError> {
        let copy = seat.freeze(rt, words, FIRST)?;
        let read = self.read(rt, words, seat, copy, keys, reads);
        seat.close(words, copy)?;
        read
    }

    /// Gets so many keys of a copy.
    fn read<N: MapName, R: Wait>(
        &mut self,
        rt: &R,
        words: &NamedWords<N>,
        seat: &mut NamedSeat<N>,
        copy: u16,
        keys: u64,
        reads: u64,
    ) -> Result<(), CallError> {
        for _ in 0..reads {
            self.drawn = self.drawn.next();
            get(rt, words, seat, copy, self.drawn.key(keys))?;
        }
        Ok(())
    }

    /// Freezes the map, gets a key of the copy, changes that key, and closes the copy.
    fn copy<N: MapName, R: Wait>(
        &mut self,
        rt: &R,
        words: &NamedWords<N>,
        seat: &mut NamedSeat<N>,
        key: u64,
    ) -> Result<(), CallError> {
        let copy = seat.freeze(rt, words, FIRST)?;
        get(rt, words, seat, copy, key)?;
        let put = self.put(rt, words, seat, key, self.drawn.value());
        seat.close(words, copy)?;
        put
    }

    fn put<N: MapName, R: Wait>(
        &mut self,
        rt: &R,
        words: &NamedWords<N>,
        seat: &mut NamedSeat<N>,
        key: u64,
        value: u64,
    ) -> Result<(), CallError> {
        let told = seat.put(rt, words, FIRST, key, value)?;
        self.balance.take(told);
        self.balance.add(value);
        Ok(())
    }

    fn remove<N: MapName, R: Wait>(
        &mut self,
        rt: &R,
        words: &NamedWords<N>,
        seat: &mut NamedSeat<N>,
        key: u64,
    ) -> Result<(), CallError> {
        let told = seat.remove(rt, words, FIRST, key)?;
        self.balance.take(told);
        Ok(())
    }

    fn count_refusal(&mut self, called: Result<(), CallError>) {
        self.refused = self.refused.wrapping_add(u64::from(called.is_err()));
    }
}

/// Gets a key of a handle.
fn get<N: MapName, R: Wait>(
    rt: &R,
    words: &NamedWords<N>,
    seat: &mut NamedSeat<N>,
    handle: u16,
    key: u64,
) -> Result<(), CallError> {
    seat.get(rt, words, handle, key)?;
    Ok(())
}

/// Freezes the map, counts the pairs of the copy, and closes it.
fn count<N: MapName, R: Wait + AllocGlobal>(
    rt: &R,
    words: &NamedWords<N>,
    seat: &mut NamedSeat<N>,
) -> Result<(), CallError> {
    let copy = seat.freeze(rt, words, FIRST)?;
    let counted = seat.count(rt.alloc(), rt, words, copy);
    seat.close(words, copy)?;
    counted?;
    Ok(())
}
