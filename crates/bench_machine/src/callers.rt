//! Operations on a machine, one after the other.

use crate::calls::{Calls, next_drawn};
use ctrie_base::Refusal;
use history::{Call, Reply};
use lock_runner::{Machine, Step};

/// After this many operations a copy is frozen, read and closed, where the load has copies.
const EVERY: u64 = 100;

/// Whose turn it is, and what was drawn and made so far.
#[derive(Clone, Copy)]
pub(crate) struct Caller {
    calls: Calls,
    keys: u64,
    actors: u8,
    actor: u8,
    drawn: u64,
    made: u64,
}

impl Caller {
    /// One that has made no call. Its actors take turns.
    pub(crate) fn new(calls: Calls, keys: u64, actors: u8) -> Caller {
        Caller {
            calls,
            keys,
            actors,
            actor: 0,
            drawn: 88_172_645_463_325_252,
            made: 0,
        }
    }

    /// Performs this many operations. How many of them found no free slot.
    pub(crate) fn perform(&mut self, machine: &mut Machine, count: u64) -> Result<u64, Refusal> {
        let mut refused = 0u64;
        for _ in 0..count {
            refused = refused.saturating_add(self.operate(machine)?);
        }
        Ok(refused)
    }

    /// Performs the next operation, with the steps of the sweep that follow it. How many operations found
    /// no free slot.
    fn operate(&mut self, machine: &mut Machine) -> Result<u64, Refusal> {
        self.turn();
        let call = self.calls.call(self.drawn, self.made, self.keys);
        self.made = self.made.wrapping_add(1);
        let refused = wants(machine.complete(self.actor, call)?);
        if !matches!(call, Call::Get { .. }) {
            self.sweep(machine)?;
        }
        if self.calls == Calls::Freeze && self.made % EVERY == 0 {
            return Ok(refused.saturating_add(self.copy(machine)?));
        }
        Ok(refused)
    }

    /// The next actor, and the next number.
    fn turn(&mut self) {
        self.actor = if self.actor < self.actors {
            self.actor + 1
        } else {
            1
        };
        self.drawn = next_drawn(self.drawn);
    }

    /// Freezes the map, gets a key of the copy, and closes it.
    fn copy(&self, machine: &mut Machine) -> Result<u64, Refusal> {
        let Some(Reply::Opened(handle)) = machine.complete(self.actor, Call::Freeze { handle: 0 })?
        else {
            return Ok(1);
        };
        let key = self.drawn % self.keys.max(1);
        machine.complete(self.actor, Call::Get { handle, key })?;
        machine.complete(self.actor, Call::Close { handle })?;
        self.sweep(machine)?;
        Ok(0)
    }

    /// The steps of the sweep that follow a write.
    fn sweep(&self, machine: &mut Machine) -> Result<(), Refusal> {
        for _ in 0..self.calls.sweeps() {
            machine.apply(Step::Sweep)?;
        }
        Ok(())
    }
}

/// Whether the operation found no free slot, as a number.
fn wants(reply: Option<Reply>) -> u64 {
    match reply {
        Some(Reply::NoSlots) => 1,
        _ => 0,
    }
}
