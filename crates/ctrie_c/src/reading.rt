//! Calls that change nothing.

ghost use Rattle.std.specs.Prelude.{◌≡◌, nat_eq, false};
ghost use Rattle.ctrie_c.specs.Calls.{Contains, Counts, CountsFree, CountsHandles, CountsSlots, Finds, Gets, TellsOpen, TellsWritable};
ghost use Rattle.ctrie_c.specs.Answers.{Does, number_told, truth_told, value_told};
ghost use Rattle.ctrie_c.specs.Listing.{pair_told};

use crate::codes::{NO, NO_MAP, tell_count, tell_pair, tell_truth, tell_value};
use crate::held::{HeldMap, give, take};
use crate::listing::Pair;
use shared_map::Handle;
use std::alloc::Global;

/// Answers the key's value, if it has one.
#[unsafe(no_mangle)]
pub extern "C" fn ctrie_get(
    alloc: Global,
    held: &mut HeldMap,
    handle: u16,
    key: u64,
    value: &mut u64,
) -> u32
    ensures does { Does held.old.state held.new.state result (Gets handle key (value_told result value.new)) }
    ensures kept { nat_eq result 1 ≡ false → value.new ≡ value.old }
{
    match take(alloc, held) {
        None => NO_MAP,
        Some(map) => {
            let told = map.get(Handle::new(handle), key);
            give(held, map);
            tell_value(told, value)
        }
    }
}

/// Answers whether the key has a value.
#[unsafe(no_mangle)]
pub extern "C" fn ctrie_contains(alloc: Global, held: &mut HeldMap, handle: u16, key: u64) -> u32
    ensures does { Does held.old.state held.new.state result (Contains handle key (truth_told result)) }
{
    match take(alloc, held) {
        None => NO_MAP,
        Some(map) => {
            let told = map.contains(Handle::new(handle), key);
            give(held, map);
            tell_truth(told)
        }
    }
}

/// Answers whether the handle is open.
#[unsafe(no_mangle)]
pub extern "C" fn ctrie_is_open(alloc: Global, held: &mut HeldMap, handle: u16) -> u32
    ensures does { Does held.old.state held.new.state result (TellsOpen handle (truth_told result)) }
{
    match take(alloc, held) {
        None => NO_MAP,
        Some(map) => {
            let told = map.is_open(Handle::new(handle));
            give(held, map);
            tell_truth(Ok(told))
        }
    }
}

/// Answers whether the handle's map may be changed by it.
#[unsafe(no_mangle)]
pub extern "C" fn ctrie_is_writable(alloc: Global, held: &mut HeldMap, handle: u16) -> u32
    ensures does { Does held.old.state held.new.state result (TellsWritable handle (truth_told result)) }
{
    match take(alloc, held) {
        None => NO_MAP,
        Some(map) => {
            let told = map.is_writable(Handle::new(handle));
            give(held, map);
            tell_truth(told)
        }
    }
}

/// Answers how many keys have a value.
#[unsafe(no_mangle)]
pub extern "C" fn ctrie_count(
    alloc: Global,
    held: &mut HeldMap,
    handle: u16,
    count: &mut u64,
) -> u32
    ensures does { Does held.old.state held.new.state result (Counts handle (number_told result count.new)) }
    ensures kept { nat_eq result 0 ≡ false → count.new ≡ count.old }
    ensures not_yes { nat_eq result 1 ≡ false }
{
    match take(alloc, held) {
        None => NO_MAP,
        Some(map) => {
            let told = map.count(Handle::new(handle));
            give(held, map);
            tell_count(told, count)
        }
    }
}

/// Answers a key with its value, whichever is found first, if there is one.
#[unsafe(no_mangle)]
pub extern "C" fn ctrie_first(
    alloc: Global,
    held: &mut HeldMap,
    handle: u16,
    pair: &mut Pair,
) -> u32
    ensures does { Does held.old.state held.new.state result (Finds handle (pair_told result pair.new)) }
    ensures kept { nat_eq result 1 ≡ false → pair.new ≡ pair.old }
{
    match take(alloc, held) {
        None => NO_MAP,
        Some(map) => {
            let told = map.first(Handle::new(handle));
            give(held, map);
            tell_pair(told, pair)
        }
    }
}

/// Answers how many handles are open.
#[unsafe(no_mangle)]
pub extern "C" fn ctrie_handles(alloc: Global, held: &mut HeldMap, handles: &mut u32) -> u32
    ensures does { Does held.old.state held.new.state result (CountsHandles (number_told result handles.new)) }
    ensures kept { nat_eq result 0 ≡ false → handles.new ≡ handles.old }
    ensures not_yes { nat_eq result 1 ≡ false }
{
    match take(alloc, held) {
        None => NO_MAP,
        Some(map) => {
            *handles = map.handles();
            give(held, map);
            NO
        }
    }
}

/// Answers how many slots were asked for.
#[unsafe(no_mangle)]
pub extern "C" fn ctrie_slots(alloc: Global, held: &mut HeldMap, slots: &mut u32) -> u32
    ensures does { Does held.old.state held.new.state result (CountsSlots (number_told result slots.new)) }
    ensures kept { nat_eq result 0 ≡ false → slots.new ≡ slots.old }
    ensures not_yes { nat_eq result 1 ≡ false }
{
    match take(alloc, held) {
        None => NO_MAP,
        Some(map) => {
            *slots = map.slots();
            give(held, map);
            NO
        }
    }
}

/// Answers how many of these no open handle reaches.
#[unsafe(no_mangle)]
pub extern "C" fn ctrie_free_slots(alloc: Global, held: &mut HeldMap, free: &mut u32) -> u32
    ensures does { Does held.old.state held.new.state result (CountsFree (number_told result free.new)) }
    ensures kept { nat_eq result 0 ≡ false → free.new ≡ free.old }
    ensures not_yes { nat_eq result 1 ≡ false }
{
    match take(alloc, held) {
        None => NO_MAP,
        Some(map) => {
            *free = map.free();
            give(held, map);
            NO
        }
    }
}
