//! What a thread of a C program holds of a concurrent map.

ghost use Rattle.std.specs.Prelude.{◌≡◌, Option, Some, None, IfSome, IfNone};
ghost use Rattle.ctrie_c.specs.Threading.{Threading};

use crate::loose::Loose;
use crate::threading::ThreadingSeat;
use std::alloc::Global;
use std::marker::Model;
use std::ptr::null_mut;

/// A seat behind a pointer, or none where it is null.
#[repr(C)]
pub struct HeldCaller {
    at: *mut u8,
    alloc: Global,
    ghost state: { Option Threading },
}

impl Model for HeldCaller {
    ghost use Rattle.ctrie_c.specs.Holding.{holds};
    ghost use Rattle.ctrie_c.specs.contracts.threading.ThreadingSeat.{the_row};

    ghost also_owns = { λ h. holds the_row h.alloc h.at h.state };
}

impl HeldCaller {
    /// None.
    fn none(alloc: Global) -> HeldCaller
        ensures { result.state ≡ None }
    {
        HeldCaller {
            at: null_mut(),
            alloc,
        }
    }

    /// This seat.
    fn of(seat: Loose<ThreadingSeat, Global>) -> HeldCaller
        ensures { result.state ≡ Some seat.value }
    {
        let Loose { at, alloc } = seat;
        HeldCaller {
            at: at as *mut u8,
            alloc,
        }
    }

    /// The seat, if there is one.
    fn into_loose(self) -> Option<Loose<ThreadingSeat, Global>>
        ensures some { IfSome result (λ seat. self.state ≡ Some seat.value) }
        ensures none { IfNone result (self.state ≡ None) }
    {
        let HeldCaller { at, alloc } = self;
        if at.is_null() {
            None
        } else {
            Some(Loose {
                at: at as *mut ThreadingSeat,
                alloc,
            })
        }
    }

    /// The seat, if there is one, in its box.
    fn into_seat(self) -> Option<Box<ThreadingSeat>>
        ensures some { IfSome result (λ seat. self.state ≡ Some seat.value) }
        ensures none { IfNone result (self.state ≡ None) }
    {
        match self.into_loose() {
            Some(loose) => Some(loose.into_box()),
            None => None,
        }
    }
}

/// The seat, if there is one; none is held then.
pub(crate) fn take_caller(alloc: Global, held: &mut HeldCaller) -> Option<Box<ThreadingSeat>>
    ensures empty { held.new.state ≡ None }
    ensures some { IfSome result (λ seat. held.old.state ≡ Some seat.value) }
    ensures none { IfNone result (held.old.state ≡ None) }
{
    std::mem::replace(held, HeldCaller::none(alloc)).into_seat()
}

/// Holds this seat.
pub(crate) fn give_caller(held: &mut HeldCaller, seat: Box<ThreadingSeat>)
    ensures { held.new.state ≡ Some seat.value }
{
    let _ = std::mem::replace(held, HeldCaller::of(Loose::of(seat))).into_seat();
}
