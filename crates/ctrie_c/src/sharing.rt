//! Seats at a shared map, each with a share of it.

ghost use Rattle.std.specs.Prelude.{◌≡◌, ◌≢◌, [], IfSome, IfNone, IfOk, IfErr, OnErr};
ghost use Rattle.std.specs.Arc.{arc_value};
ghost use Rattle.ctrie_c.specs.Sharing.{Asks, HasHandedOut, Hears};
ghost use Rattle.shared_map.specs.Seats.{IsSeatOf};

use shared_map::{Ask, MapSeat, ShardCount, SharedMap, Told};
use std::alloc::{AllocError, Global};
use std::marker::Model;
use std::sync::Arc;

/// Another seat has what was asked for.
pub(crate) const BUSY: u32 = 14;

/// No seat is left.
pub(crate) const NO_SEAT: u32 = 15;

/// A seat with a share of its map, and the seats that it may hand out.
#[derive(Drop)]
pub(crate) struct SharingSeat {
    pub(crate) map: Arc<SharedMap, Global>,
    pub(crate) seat: MapSeat,
    pub(crate) spare: Vec<MapSeat>,
}

impl Model for SharingSeat {
    ghost use Rattle.std.specs.Arc.{arc_value};
    ghost use Rattle.ctrie_c.specs.Sharing.{Sharing};
    ghost use Rattle.shared_map.specs.Seats.{AreSeatsOf, IsSeatOf};

    ghost Value = { Sharing };

    ghost view = { λ s. record { map = arc_value s.map; seat = s.seat; spare = s.spare.items } };

    ghost invariant = { λ s. IsSeatOf (arc_value s.map) s.seat × AreSeatsOf (arc_value s.map) s.spare.items };
}

impl SharingSeat {
    /// Asks the map if what it asks for is not taken.
    pub(crate) fn try_ask(&mut self, ask: Ask) -> Option<Told>
        ensures asked { IfSome result (λ told. Asks ask told self.old self.new) }
        ensures busy { IfNone result (self.new ≡ self.old) }
    {
        self.map.try_ask(&mut self.seat, ask)
    }

    /// As `SharedMap::try_hear`.
    pub(crate) fn try_hear(&mut self, count: ShardCount) -> Option<bool>
        ensures heard { IfSome result (λ heard. Hears count heard self.old self.new) }
        ensures busy { IfNone result (self.new ≡ self.old) }
    {
        self.map.try_hear(&mut self.seat, count)
    }

    /// Another seat at the same map, where one is left.
    pub(crate) fn hand_out(&mut self, alloc: Global) -> Result<Option<Box<SharingSeat>>, AllocError>
        ensures handed { IfOk result (λ other. IfSome other (λ seat. HasHandedOut self.old self.new seat.value)) }
        ensures none { IfOk result (λ other. IfNone other ((self.old.spare ≡ []) × (self.new ≡ self.old))) }
        ensures refused { OnErr result ((self.old.spare ≢ []) × (self.new ≡ self.old)) }
    {
        let Some(seat) = self.spare.pop() else {
            return Ok(None);
        };
        match sharing(alloc, &self.map, seat) {
            Ok(other) => Ok(Some(other)),
            Err(seat) => {
                self.spare.push_reserved(seat);
                Err(AllocError)
            }
        }
    }
}

/// The seat with a share of its map, and none to hand out. Where memory runs out the seat comes back.
fn sharing(
    alloc: Global,
    map: &Arc<SharedMap, Global>,
    seat: MapSeat,
) -> Result<Box<SharingSeat>, MapSeat>
    requires { IsSeatOf (arc_value map.now) seat }
    ensures shares { IfOk result (λ other. other.value ≡ record { map = arc_value map.now; seat = seat; spare = [] }) }
    ensures returned { IfErr result (λ back. back ≡ seat) }
{
    let Ok(map) = Arc::try_clone(map) else {
        return Err(seat);
    };
    let spare = Vec::new(alloc);
    match Box::new(alloc, SharingSeat { map, seat, spare }) {
        Ok(other) => Ok(other),
        Err(failed) => {
            let SharingSeat { seat, .. } = failed.value;
            Err(seat)
        }
    }
}
