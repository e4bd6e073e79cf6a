//! A seat closes a handle.

ghost use Rattle.std.specs.Prelude.{◌≡◌};

use crate::call_errors::CallError;
use crate::call_runs::HANDLES;
use crate::closing::{Shut, close_handle};
use crate::loads::Words;
use crate::seating::Seat;

impl Seat {
    ghost use Rattle.lock_free.specs.Seated.{HasGoneOn};
    ghost use Rattle.lock_free.specs.WholeCalls.{IsToldClose};

    /// Takes the handle away, and its map. It never waits.
    ///
    /// # Errors
    ///
    /// `NoHandle`, and `Busy`, also where the call that opens the handle hasn't returned yet.
    pub fn close(&mut self, words: &Words, handle: u16) -> Result<(), CallError>
        requires table { self.old.table ≡ words.now.table_id }
        ensures seat { HasGoneOn self.old self.new }
        ensures told { IsToldClose self.old.view handle result self.new.view }
    {
        if handle >= HANDLES {
            return Err(CallError::NoHandle);
        }
        match close_handle(words, &mut self.actor, &mut self.stock, self.number, handle) {
            Shut::Closed => Ok(()),
            Shut::Busy => Err(CallError::Busy),
            Shut::NoHandle => Err(CallError::NoHandle),
        }
    }
}
