//! A thread's seat, and what it was told.

ghost use Rattle.lock_free.specs.Attempts.{IsTried};

use crate::made::{is_tried, make, reply_to};
use crate::maps::Trouble;
use crate::told::Told;
use crate::tries::try_call;
use history::{Call, Reply};
use lock_free::{CallError, MapName, NamedSeat, NamedWords};
use std::alloc::Global;
use std::sync::Wait;
use std::sync::atomic::{AtomicU64, Ordering};

/// How calls are made.
#[derive(Clone, Copy)]
pub enum Manner {
    /// As long as they take.
    Waits,
    /// In ever more tries, where they can be under way; what is under way goes on by one try after the other.
    Tries,
}

/// A seat, and what it was told.
#[derive(Drop)]
pub struct Caller<N: MapName> {
    seat: NamedSeat<N>,
    told: Vec<Told>,
    /// Whether the last call is in the history: then it is the last that was told.
    is_told: bool,
    /// Why the last call was refused, if it was.
    refused: Option<CallError>,
}

impl<N: MapName> Caller<N> {
    /// Of a seat that was told nothing.
    pub fn new(alloc: Global, seat: NamedSeat<N>) -> Caller<N> {
        Caller {
            seat,
            told: Vec::new(alloc),
            is_told: false,
            refused: None,
        }
    }

    /// The number of its seat.
    pub fn number(&self) -> u8 {
        self.seat.number()
    }

    /// The seat, and all that it was told.
    pub fn into_parts(self) -> (NamedSeat<N>, Vec<Told>) {
        (self.seat, self.told)
    }

    /// The reply to the last call, if it is in the history.
    pub fn reply(&self) -> Option<&Reply> {
        if self.is_told {
            self.told.last().map(|told| &told.reply)
        } else {
            None
        }
    }

    /// Takes notice of what this call was told, and of when.
    fn note(
        &mut self,
        call: Call,
        begin: u64,
        end: u64,
        made: Result<Reply, CallError>,
    ) -> Result<(), Trouble> {
        self.refused = made.as_ref().err().copied();
        let Some(reply) = reply_to(call, made) else {
            self.is_told = false;
            return Ok(());
        };
        self.told.push(Told {
            begin,
            end,
            call,
            reply,
        })?;
        self.is_told = true;
        Ok(())
    }

    /// Makes this call as long as it takes, and notes what it was told.
    pub fn call<R: Wait>(
        self,
        rt: &R,
        alloc: Global,
        words: &NamedWords<N>,
        count: &AtomicU64,
        call: Call,
    ) -> Result<Caller<N>, Trouble> {
        let mut caller = self;
        let begin = count.fetch_add(1, Ordering::SeqCst);
        let made = make(rt, alloc, words, &mut caller.seat, &call);
        let end = count.fetch_add(1, Ordering::SeqCst);
        caller.note(call, begin, end, made)?;
        Ok(caller)
    }

    /// Makes this call in ever more tries, until it is told, and notes what it was told in the end.
    fn try_until_told<R: Wait>(
        self,
        rt: &R,
        words: &NamedWords<N>,
        count: &AtomicU64,
        call: Call,
    ) -> Result<Caller<N>, Trouble>
        requires tried { IsTried call }
    {
        let Caller {
            mut seat,
            told,
            is_told,
            refused,
        } = self;
        let mut tries = 1u64;
        for _ in rt.forever() {
            let begin = count.fetch_add(1, Ordering::SeqCst);
            let (next, made) = try_call(rt, words, seat, tries, call);
            let end = count.fetch_add(1, Ordering::SeqCst);
            seat = next;
            if !matches!(made, Err(CallError::Spent)) {
                let mut caller = Caller {
                    seat,
                    told,
                    is_told,
                    refused,
                };
                caller.note(call, begin, end, made)?;
                return Ok(caller);
            }
            tries = tries.saturating_mul(2);
        }
        unreachable!()
    }

    /// Makes this call in this manner, and notes what it was told.
    pub fn call_so<R: Wait>(
        self,
        rt: &R,
        alloc: Global,
        words: &NamedWords<N>,
        count: &AtomicU64,
        manner: Manner,
        call: Call,
    ) -> Result<Caller<N>, Trouble> {
        if matches!(manner, Manner::Tries) && is_tried(call) {
            self.try_until_told(rt, words, count, call)
        } else {
            self.call(rt, alloc, words, count, call)
        }
    }

    /// Lists what this handle names, and closes it if it is read-only.
    pub fn list<R: Wait>(
        self,
        rt: &R,
        alloc: Global,
        words: &NamedWords<N>,
        count: &AtomicU64,
        handle: u16,
    ) -> Result<Caller<N>, Trouble> {
        let listed = self.call(rt, alloc, words, count, Call::Entries { handle })?;
        if listed.reply().is_some() {
            return listed.call(rt, alloc, words, count, Call::Close { handle });
        }
        let frozen = listed.call(rt, alloc, words, count, Call::Freeze { handle })?;
        let handle = match (frozen.reply(), frozen.refused) {
            (Some(Reply::Opened(copy)), _) => *copy,
            (_, Some(CallError::NoHandle)) => return Ok(frozen),
            _ => return Err(Trouble::Full),
        };
        let listed = frozen.call(rt, alloc, words, count, Call::Entries { handle })?;
        listed.call(rt, alloc, words, count, Call::Close { handle })
    }
}
