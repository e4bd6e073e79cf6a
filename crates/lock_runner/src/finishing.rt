//! The end of a runner: one record of all steps.
ghost use Rattle.std.specs.Prelude.{◌≡◌, All};
ghost use Rattle.lock_runner.specs.Seats.{AreSeatsOf, IsTold};
ghost use Rattle.lock_runner.specs.Finishing.{IsFinished};

use crate::asks::Shared;
use crate::runner::Runner;
use crate::seats::Seat;
use step_machine::{Machine, Record};

/// Why a runner gave no record.
#[derive(Drop)]
pub enum Unfinished {
    /// Not all of its seats were there. The runner and the seats come back.
    Missing(Runner, Vec<Seat>),
    /// The order of the record found no memory. The machine has taken all steps.
    Memory(Machine),
}

impl Runner {
    /// One record of all that was done with the seats. Its order is legal for its history, as are those of the
    /// machine that `Memory` hands out. `Missing` exactly where a seat isn't there, and else only `Memory`.
    pub fn finish(self, seats: Vec<Seat>) -> Result<Record, Unfinished>
        requires { AreSeatsOf self seats.items }
        ensures { IsFinished self seats.items result }
    {
        all_are_told(seats.as_slice());
        let Runner { gate } = self;
        let machine = match gate.finish(seats) {
            Ok(Shared { machine }) => machine,
            Err((gate, seats)) => return Err(Unfinished::Missing(Runner { gate }, seats)),
        };
        match machine.into_record() {
            Ok(record) => Ok(record),
            Err(machine) => Err(Unfinished::Memory(machine)),
        }
    }
}

/// Each of these seats has what its machine tells of its actor, and has counted its steps of the sweep.
fn all_are_told(seats: &[Seat])
    ensures { All IsTold seats.now }
{
    for seat in seats {
        seat.is_told();
    }
}

impl Seat {
    /// The seat has what its machine tells of its actor, and has counted its steps of the sweep.
    fn is_told(&self)
        ensures { IsTold self.now }
    {
        let _ = &self.pass;
    }
}
