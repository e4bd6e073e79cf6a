//! Calls that change a map.

ghost use Rattle.std.specs.Prelude.{◌≡◌, nat_eq, false};
ghost use Rattle.ctrie_c.specs.Calls.{Clears, Pops, Puts, PutsIfAbsent, Removes, RemovesIf, Replaces, ReplacesIf};
ghost use Rattle.ctrie_c.specs.Answers.{Does, done_told, truth_told, value_told};
ghost use Rattle.ctrie_c.specs.Listing.{pair_told};

use crate::codes::{NO_MAP, tell_done, tell_pair, tell_truth, tell_value};
use crate::held::{HeldMap, give, take};
use crate::listing::Pair;
use shared_map::Handle;
use std::alloc::Global;

/// Sets the key's value, and answers the value before, if it had one.
#[unsafe(no_mangle)]
pub extern "C" fn ctrie_put(
    alloc: Global,
    held: &mut HeldMap,
    handle: u16,
    key: u64,
    value: u64,
    before: &mut u64,
) -> u32
    ensures does { Does held.old.state held.new.state result (Puts handle key value (value_told result before.new)) }
    ensures kept { nat_eq result 1 ≡ false → before.new ≡ before.old }
{
    match take(alloc, held) {
        None => NO_MAP,
        Some(mut map) => {
            let told = map.put(Handle::new(handle), key, value);
            give(held, map);
            tell_value(told, before)
        }
    }
}

/// Sets the value of a key that has none, and answers the value that it has already, if it has one.
#[unsafe(no_mangle)]
pub extern "C" fn ctrie_put_if_absent(
    alloc: Global,
    held: &mut HeldMap,
    handle: u16,
    key: u64,
    value: u64,
    before: &mut u64,
) -> u32
    ensures does { Does held.old.state held.new.state result (PutsIfAbsent handle key value (value_told result before.new)) }
    ensures kept { nat_eq result 1 ≡ false → before.new ≡ before.old }
{
    match take(alloc, held) {
        None => NO_MAP,
        Some(mut map) => {
            let told = map.put_if_absent(Handle::new(handle), key, value);
            give(held, map);
            tell_value(told, before)
        }
    }
}

/// Sets the value of a key that has one, and answers the value before, if it had one.
#[unsafe(no_mangle)]
pub extern "C" fn ctrie_replace(
    alloc: Global,
    held: &mut HeldMap,
    handle: u16,
    key: u64,
    value: u64,
    before: &mut u64,
) -> u32
    ensures does { Does held.old.state held.new.state result (Replaces handle key value (value_told result before.new)) }
    ensures kept { nat_eq result 1 ≡ false → before.new ≡ before.old }
{
    match take(alloc, held) {
        None => NO_MAP,
        Some(mut map) => {
            let told = map.replace(Handle::new(handle), key, value);
            give(held, map);
            tell_value(told, before)
        }
    }
}

/// Sets the value of a key that has the value `before`, and answers whether it had it.
#[unsafe(no_mangle)]
pub extern "C" fn ctrie_replace_if(
    alloc: Global,
    held: &mut HeldMap,
    handle: u16,
    key: u64,
    before: u64,
    value: u64,
) -> u32
    ensures does { Does held.old.state held.new.state result (ReplacesIf handle key before value (truth_told result)) }
{
    match take(alloc, held) {
        None => NO_MAP,
        Some(mut map) => {
            let told = map.replace_if(Handle::new(handle), key, before, value);
            give(held, map);
            tell_truth(told)
        }
    }
}

/// Removes the key, and answers the value before, if it had one.
#[unsafe(no_mangle)]
pub extern "C" fn ctrie_remove(
    alloc: Global,
    held: &mut HeldMap,
    handle: u16,
    key: u64,
    before: &mut u64,
) -> u32
    ensures does { Does held.old.state held.new.state result (Removes handle key (value_told result before.new)) }
    ensures kept { nat_eq result 1 ≡ false → before.new ≡ before.old }
{
    match take(alloc, held) {
        None => NO_MAP,
        Some(mut map) => {
            let told = map.remove(Handle::new(handle), key);
            give(held, map);
            tell_value(told, before)
        }
    }
}

/// Removes a key that has this value, and answers whether it had it.
#[unsafe(no_mangle)]
pub extern "C" fn ctrie_remove_if(
    alloc: Global,
    held: &mut HeldMap,
    handle: u16,
    key: u64,
    value: u64,
) -> u32
    ensures does { Does held.old.state held.new.state result (RemovesIf handle key value (truth_told result)) }
{
    match take(alloc, held) {
        None => NO_MAP,
        Some(mut map) => {
            let told = map.remove_if(Handle::new(handle), key, value);
            give(held, map);
            tell_truth(told)
        }
    }
}

/// Takes a key out, whichever is found first, and answers it with the value that it had, if there is one.
#[unsafe(no_mangle)]
pub extern "C" fn ctrie_pop(alloc: Global, held: &mut HeldMap, handle: u16, pair: &mut Pair) -> u32
    ensures does { Does held.old.state held.new.state result (Pops handle (pair_told result pair.new)) }
    ensures kept { nat_eq result 1 ≡ false → pair.new ≡ pair.old }
{
    match take(alloc, held) {
        None => NO_MAP,
        Some(mut map) => {
            let told = map.pop(Handle::new(handle));
            give(held, map);
            tell_pair(told, pair)
        }
    }
}

/// Removes all keys.
#[unsafe(no_mangle)]
pub extern "C" fn ctrie_clear(alloc: Global, held: &mut HeldMap, handle: u16) -> u32
    ensures does { Does held.old.state held.new.state result (Clears handle (done_told result)) }
    ensures not_yes { nat_eq result 1 ≡ false }
{
    match take(alloc, held) {
        None => NO_MAP,
        Some(mut map) => {
            let told = map.clear(Handle::new(handle));
            give(held, map);
            tell_done(told)
        }
    }
}
