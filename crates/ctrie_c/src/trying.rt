//! A try of a seat at a shared map.

ghost use Rattle.std.specs.Prelude.{◌≡◌, nat_eq, false, IfErr, IfOk};
ghost use Rattle.ctrie_c.specs.Sharing.{AsksIt, Tries};

use crate::codes::NO_MAP;
use crate::held_seats::{HeldSeat, give_seat, take_seat};
use crate::sharing::BUSY;
use shared_map::{Ask, Told};
use std::alloc::Global;

/// Has the held seat ask the map, if no other one has what is asked about; or the code that tells why it has not.
pub(crate) fn try_ask(alloc: Global, held: &mut HeldSeat, ask: Ask) -> Result<Told, u32>
    ensures asked { IfOk result (λ told. AsksIt held.old.state held.new.state ask told) }
    ensures refused { IfErr result (λ code. Tries held.old.state held.new.state code (λ old new. ⊥)) }
    ensures not_yes { IfErr result (λ code. nat_eq code 1 ≡ false) }
{
    match take_seat(alloc, held) {
        None => Err(NO_MAP),
        Some(mut seat) => {
            let told = seat.try_ask(ask);
            give_seat(held, seat);
            match told {
                None => Err(BUSY),
                Some(told) => Ok(told),
            }
        }
    }
}
