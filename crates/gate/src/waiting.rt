//! How a seat waits between two tries.
ghost use Rattle.std.specs.Prelude.{◌<◌};

use atomic_table::{Shared, TableRule};
use std::hint::spin_loop;
use std::sync::Wait;
use std::time::Duration;

/// How many pauses a seat that found the gate shut makes, so that who is inside makes many calls while the board
/// is in the cache.
const PAUSES: u32 = 1_024;

/// How long it sleeps then, in microseconds: who is inside may have lost the processor to it.
const NAP: u64 = 20;

/// How many pauses a seat makes that tries often.
const SHORT_PAUSES: u32 = 16;

/// How often it does, before it waits as long as the others.
pub const SHORT_WAITS: u32 = 256;

/// How often a seat has waited for a slot.
#[derive(Drop)]
pub struct Waiting {
    short_waits: u32,
}

impl Waiting {
    /// A seat that tries often, since others wait for it or it won't wait for long, pauses less between two tries.
    pub fn new(tries_often: bool) -> Waiting {
        Waiting {
            short_waits: if tries_often { SHORT_WAITS } else { 0 },
        }
    }

    /// Waits a while for the slot of this word.
    #[cold]
    pub fn pause<R: Wait, S, V, K, P: TableRule<S, V, K>>(
        &mut self,
        rt: &R,
        shared: &Shared<S, V, K, P>,
        word: usize,
    )
        requires { word < shared.now.table_id.words }
    {
        if self.short_waits > 0 {
            self.short_waits -= 1;
            short_pause();
        } else {
            pause(PAUSES);
            sleep(rt, shared, word);
        }
    }
}

/// Sleeps a while, if the word isn't 0.
fn sleep<R: Wait, S, V, K, P: TableRule<S, V, K>>(rt: &R, shared: &Shared<S, V, K, P>, word: usize)
    requires { word < shared.now.table_id.words }
{
    if let Ok(inside) = u32::try_from(shared.peek(word)) {
        if inside != 0 {
            shared.park_timeout(rt, word, inside, Duration::from_micros(NAP));
        }
    }
}

/// The pauses of a seat that tries often.
pub fn short_pause() {
    pause(SHORT_PAUSES);
}

/// This many pauses.
fn pause(times: u32) {
    for _ in 0..times {
        spin_loop();
    }
}
