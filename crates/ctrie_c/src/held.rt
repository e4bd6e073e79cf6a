//! What a C program holds.

ghost use Rattle.std.specs.Prelude.{◌≡◌, Option, Some, None, IfSome, IfNone};
ghost use Rattle.shared_map.specs.Beneath.ctrie_map.specs.Maps.{MapState};

use crate::loose::Loose;
use shared_map::Map;
use std::alloc::Global;
use std::marker::Model;
use std::ptr::null_mut;

/// A map behind a pointer, or none where it is null.
#[repr(C)]
pub struct HeldMap {
    at: *mut u8,
    alloc: Global,
    ghost state: { Option MapState },
}

impl Model for HeldMap {
    ghost use Rattle.ctrie_c.specs.Holding.{holds};
    ghost use Rattle.shared_map.specs.Beneath.ctrie_map.specs.contracts.map.Map.{the_row};

    ghost also_owns = { λ h. holds the_row h.alloc h.at h.state };
}

impl HeldMap {
    /// None.
    fn none(alloc: Global) -> HeldMap
        ensures { result.state ≡ None }
    {
        HeldMap {
            at: null_mut(),
            alloc,
        }
    }

    /// This map.
    fn of(map: Loose<Map, Global>) -> HeldMap
        ensures { result.state ≡ Some map.value }
    {
        let Loose { at, alloc } = map;
        HeldMap {
            at: at as *mut u8,
            alloc,
        }
    }

    /// The map, if there is one.
    fn into_loose(self) -> Option<Loose<Map, Global>>
        ensures some { IfSome result (λ map. self.state ≡ Some map.value) }
        ensures none { IfNone result (self.state ≡ None) }
    {
        let HeldMap { at, alloc } = self;
        if at.is_null() {
            None
        } else {
            Some(Loose {
                at: at as *mut Map,
                alloc,
            })
        }
    }

    /// The map, if there is one, in its box.
    fn into_map(self) -> Option<Box<Map>>
        ensures some { IfSome result (λ map. self.state ≡ Some map.value) }
        ensures none { IfNone result (self.state ≡ None) }
    {
        match self.into_loose() {
            Some(loose) => Some(loose.into_box()),
            None => None,
        }
    }
}

/// The map, if there is one; none is held then.
pub(crate) fn take(alloc: Global, held: &mut HeldMap) -> Option<Box<Map>>
    ensures empty { held.new.state ≡ None }
    ensures some { IfSome result (λ map. held.old.state ≡ Some map.value) }
    ensures none { IfNone result (held.old.state ≡ None) }
{
    std::mem::replace(held, HeldMap::none(alloc)).into_map()
}

/// Holds this map.
pub(crate) fn give(held: &mut HeldMap, map: Box<Map>)
    ensures { held.new.state ≡ Some map.value }
{
    let _ = std::mem::replace(held, HeldMap::of(Loose::of(map))).into_map();
}
