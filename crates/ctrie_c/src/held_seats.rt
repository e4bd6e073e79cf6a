//! What a thread of a C program holds of a shared map.

ghost use Rattle.std.specs.Prelude.{◌≡◌, Option, Some, None, IfSome, IfNone};
ghost use Rattle.ctrie_c.specs.Sharing.{Sharing};

use crate::loose::Loose;
use crate::sharing::SharingSeat;
use std::alloc::Global;
use std::marker::Model;
use std::ptr::null_mut;

/// A seat behind a pointer, or none where it is null.
#[repr(C)]
pub struct HeldSeat {
    at: *mut u8,
    alloc: Global,
    ghost state: { Option Sharing },
}

impl Model for HeldSeat {
    ghost use Rattle.ctrie_c.specs.Holding.{holds};
    ghost use Rattle.ctrie_c.specs.contracts.sharing.SharingSeat.{the_row};

    ghost also_owns = { λ h. holds the_row h.alloc h.at h.state };
}

impl HeldSeat {
    /// None.
    fn none(alloc: Global) -> HeldSeat
        ensures { result.state ≡ None }
    {
        HeldSeat {
            at: null_mut(),
            alloc,
        }
    }

    /// This seat.
    fn of(seat: Loose<SharingSeat, Global>) -> HeldSeat
        ensures { result.state ≡ Some seat.value }
    {
        let Loose { at, alloc } = seat;
        HeldSeat {
            at: at as *mut u8,
            alloc,
        }
    }

    /// The seat, if there is one.
    fn into_loose(self) -> Option<Loose<SharingSeat, Global>>
        ensures some { IfSome result (λ seat. self.state ≡ Some seat.value) }
        ensures none { IfNone result (self.state ≡ None) }
    {
        let HeldSeat { at, alloc } = self;
        if at.is_null() {
            None
        } else {
            Some(Loose {
                at: at as *mut SharingSeat,
                alloc,
            })
        }
    }

    /// The seat, if there is one, in its box.
    fn into_seat(self) -> Option<Box<SharingSeat>>
        ensures some { IfSome result (λ seat. self.state ≡ Some seat.value) }
        ensures none { IfNone result (self.state ≡ None) }
    {
        match self.into_loose() {
            Some(loose) => Some(loose.into_box()),
            None => None,
        }
    }
}

/// The seat, if there is one; none is held then.
pub(crate) fn take_seat(alloc: Global, held: &mut HeldSeat) -> Option<Box<SharingSeat>>
    ensures empty { held.new.state ≡ None }
    ensures some { IfSome result (λ seat. held.old.state ≡ Some seat.value) }
    ensures none { IfNone result (held.old.state ≡ None) }
{
    std::mem::replace(held, HeldSeat::none(alloc)).into_seat()
}

/// Holds this seat.
pub(crate) fn give_seat(held: &mut HeldSeat, seat: Box<SharingSeat>)
    ensures { held.new.state ≡ Some seat.value }
{
    let _ = std::mem::replace(held, HeldSeat::of(Loose::of(seat))).into_seat();
}
