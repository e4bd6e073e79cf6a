//! Calls that open and close handles.

ghost use Rattle.std.specs.Prelude.{◌≡◌, nat_eq, false};
ghost use Rattle.ctrie_c.specs.Calls.{ClosesIt, Freezes, RestoresIt, Snapshots};
ghost use Rattle.ctrie_c.specs.Answers.{Does, done_told, number_told};

use crate::codes::{NO_MAP, tell_done, tell_handle};
use crate::held::{HeldMap, give, take};
use shared_map::Handle;
use std::alloc::Global;

/// Opens a writable copy, and answers its handle.
#[unsafe(no_mangle)]
pub extern "C" fn ctrie_snapshot(
    alloc: Global,
    held: &mut HeldMap,
    handle: u16,
    copy: &mut u16,
) -> u32
    ensures does { Does held.old.state held.new.state result (Snapshots handle (number_told result copy.new)) }
    ensures kept { nat_eq result 0 ≡ false → copy.new ≡ copy.old }
    ensures not_yes { nat_eq result 1 ≡ false }
{
    match take(alloc, held) {
        None => NO_MAP,
        Some(mut map) => {
            let told = map.snapshot(Handle::new(handle));
            give(held, map);
            tell_handle(told, copy)
        }
    }
}

/// Opens a read-only copy, and answers its handle.
#[unsafe(no_mangle)]
pub extern "C" fn ctrie_freeze(
    alloc: Global,
    held: &mut HeldMap,
    handle: u16,
    copy: &mut u16,
) -> u32
    ensures does { Does held.old.state held.new.state result (Freezes handle (number_told result copy.new)) }
    ensures kept { nat_eq result 0 ≡ false → copy.new ≡ copy.old }
    ensures not_yes { nat_eq result 1 ≡ false }
{
    match take(alloc, held) {
        None => NO_MAP,
        Some(mut map) => {
            let told = map.freeze(Handle::new(handle));
            give(held, map);
            tell_handle(told, copy)
        }
    }
}

/// Gives the handle the map of the copy, which stays.
#[unsafe(no_mangle)]
pub extern "C" fn ctrie_restore(alloc: Global, held: &mut HeldMap, handle: u16, copy: u16) -> u32
    ensures does { Does held.old.state held.new.state result (RestoresIt handle copy (done_told result)) }
    ensures not_yes { nat_eq result 1 ≡ false }
{
    match take(alloc, held) {
        None => NO_MAP,
        Some(mut map) => {
            let told = map.restore(Handle::new(handle), Handle::new(copy));
            give(held, map);
            tell_done(told)
        }
    }
}

/// Takes the handle away, and its map.
#[unsafe(no_mangle)]
pub extern "C" fn ctrie_close(alloc: Global, held: &mut HeldMap, handle: u16) -> u32
    ensures does { Does held.old.state held.new.state result (ClosesIt handle (done_told result)) }
    ensures not_yes { nat_eq result 1 ≡ false }
{
    match take(alloc, held) {
        None => NO_MAP,
        Some(mut map) => {
            let told = map.close(Handle::new(handle));
            give(held, map);
            tell_done(told)
        }
    }
}
