//! A runner and its seats.
ghost use Rattle.std.specs.Prelude.{◌≡◌, All, IfOk, IfErr, OnOk, map};
ghost use Rattle.lock_runner.specs.Seats.{AreSeatsOf};
ghost use Rattle.lock_runner.specs.Opening.{AreTerms, RefusesTerms, IsMade, IsFreshPass, opened};

use crate::asks::{Pass, Shared};
use crate::runner::Runner;
use crate::seats::Seat;
use ctrie_base::Refusal;
use gate::Gate;
use std::alloc::{AllocError, Global};
use step_machine::{Limits, Machine};

impl Runner {
    /// A runner over a new machine of these sizes, and this many seats: the first is actor 1's, the next is
    /// actor 2's and so on. `BadLimits` exactly where a size is out of range, or the number of seats isn't 1
    /// to the number of actors; and else only `Memory`. Nothing is made then.
    pub fn new(alloc: Global, limits: Limits, seats: u8) -> Result<(Runner, Vec<Seat>), Refusal>
        ensures made { IfOk result (λ made. IsMade limits seats made.0 made.1.items) }
        ensures seats { IfOk result (λ made. AreSeatsOf made.0 made.1.items) }
        ensures in_range { OnOk result (AreTerms limits seats) }
        ensures refused { IfErr result (λ refusal. RefusesTerms limits seats refusal) }
    {
        if seats == 0 || seats > limits.actors {
            return Err(Refusal::BadLimits);
        }
        let machine = Machine::new(alloc, limits)?;
        let Ok((gate, passes)) = Gate::new(alloc, Shared { machine }, seats) else {
            return Err(Refusal::Memory);
        };
        let Ok(seats) = seats_of(alloc, passes, limits) else {
            return Err(Refusal::Memory);
        };
        Ok((Runner { gate }, seats))
    }
}

/// Each seat of the gate becomes its actor's.
fn seats_of(alloc: Global, passes: Vec<Pass>, limits: Limits) -> Result<Vec<Seat>, AllocError>
    requires { All (λ pass. IsFreshPass limits pass) passes.items }
    ensures { IfOk result (λ seats. seats.items ≡ map opened passes.items) }
{
    let mut seats = Vec::new(alloc);
    for pass in passes {
        seats.push(Seat {
            pass,
            answers: Vec::new(alloc),
            running: None,
            sweeps: 0,
            heard: 0,
        })?;
    }
    Ok(seats)
}
