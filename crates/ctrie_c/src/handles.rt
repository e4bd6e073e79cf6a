//! The call that lists the open handles: it writes into the caller's buffer.

ghost use Rattle.std.specs.Prelude.{◌≡◌, nat_eq, false};
ghost use Rattle.std.specs.FinMap as finite;
ghost use Rattle.shared_map.specs.Beneath.ctrie_map.specs.Maps.{handles_of};
ghost use Rattle.ctrie_c.specs.Answers.{Does, number_told};
ghost use Rattle.ctrie_c.specs.Buffers.{Fills};
ghost use Rattle.ctrie_c.specs.Calls.{ListsHandles};

use crate::codes::{NO, NO_MAP};
use crate::held::{HeldMap, give, take};
use shared_map::Map;
use std::alloc::Global;

/// Answers how many handles are open, and writes the first of these in ascending order, as many as there is room for.
#[unsafe(no_mangle)]
pub extern "C" fn ctrie_open_handles(
    alloc: Global,
    held: &mut HeldMap,
    handles: &mut [u16],
    count: &mut u32,
) -> u32
    ensures does { Does held.old.state held.new.state result (ListsHandles handles.old handles.new (number_told result count.new)) }
    ensures kept { nat_eq result 0 ≡ false → count.new ≡ count.old }
    ensures stays { nat_eq result 0 ≡ false → handles.new ≡ handles.old }
    ensures not_yes { nat_eq result 1 ≡ false }
{
    match take(alloc, held) {
        None => NO_MAP,
        Some(map) => {
            write(&map, handles);
            *count = map.handles();
            give(held, map);
            NO
        }
    }
}

/// Writes as many of the open handles as there is room for.
fn write(map: &Map, handles: &mut [u16])
    ensures { Fills (finite.keys (handles_of map.now)) handles.old handles.new }
{
    let mut open_handles = map.open_handles();
    let mut count = 0;
    while count < handles.len() {
        let Some(handle) = open_handles.next() else {
            return;
        };
        handles[count] = handle.number();
        count += 1;
    }
}
