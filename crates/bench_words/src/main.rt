//! The speed of the map on words that threads change in single steps.
//!
//! `bench_words LOAD THREADS FILLED COUNT KEYS SMALL MEDIUM WIDE` has each thread make its share of COUNT calls over this many keys, the
//! same for all, on a map with so many slots of each class, in which FILLED keys were put. LOAD is `mix` (gets, puts and removals, 6 : 6 : 4),
//! `get`, `put`, `insert` (each key in turn), `spread` (the same, of keys spread over 64 bits), `copies` (the mix, and after every 1,000
//! calls of a thread a freeze, 100 gets of that and a close, which aren't counted as calls) or `copy` (each call a freeze, a get of that, the
//! first change after it, and a close). In two more one thread makes all COUNT calls, and the others go on until it has ended: `reading`
//! (each call a freeze, 1,000 gets of that and a close; the others put and remove keys, 3 : 1) and `counted` (puts; the others freeze the map,
//! count the pairs of the copy and close it).
//!
//! It writes how many nanoseconds they took, from before the threads are made to the end of the last call that is counted: the map's making
//! and the puts before aren't in it. Then how many calls were refused, those that aren't counted among them; how many of two sums are wrong:
//! the keys, and the values, that came and didn't go by what the threads were told are those that are found in the end, outside that time;
//! and how many words of 8 bytes the map has.
//!
//! A map wants some slots more than its keys take: those that are retired are used again a little later.
//!
//! The exit status is 1 where the words are none of these, and 2 where memory or a map of these sizes isn't had. Without words few calls of
//! each load are made, and a map grows in few slots; nothing is written that hangs on time or schedule.
#![tactic(auto)]

mod caller;
mod loads;
mod member;
mod running;

use crate::running::{Task, Trouble, measure, small};
use std::env;
use std::process::ExitCode;
use std::rt::Env;
use std::sync::Wait;
use std::thread::Threads;
use std::time::Clock;

/// The program's words but its name.
fn words_of<R: Env + AllocGlobal>(rt: &R) -> Result<Vec<String>, Trouble> {
    match env::args(rt) {
        Ok(words) => Ok(words.skip(1).collect::<Vec<String>>(rt.alloc())?),
        Err(_) => Err(Trouble::Memory),
    }
}

/// Does what the program's words ask for. Whether they ask for anything.
fn carry_out<R: Env + Threads + Wait + Sync + Clock + Print + AllocGlobal>(
    rt: &R,
) -> Result<bool, Trouble> {
    let words = words_of(rt)?;
    if words.is_empty() {
        small(rt)?;
        return Ok(true);
    }
    match Task::of(words.as_slice()) {
        Some(task) => {
            measure(rt, task)?;
            Ok(true)
        }
        None => Ok(false),
    }
}

fn main(rt: HostRuntime) -> ExitCode {
    ExitCode::from(match carry_out(&rt) {
        Ok(true) => 0,
        Ok(false) => 1,
        Err(trouble) => {
            let _ = eprintln!(rt; "bench_words: {trouble}");
            2
        }
    })
}
