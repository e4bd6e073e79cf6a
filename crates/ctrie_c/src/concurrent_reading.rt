//! Calls of a seat at a concurrent map that change nothing. Each is a call in a number of tries.

ghost use Rattle.std.specs.Prelude.{◌≡◌, nat_eq, false};
ghost use Rattle.history.specs.declared.calls.Call.TheVariants as call;
ghost use Rattle.history.specs.declared.replies.Reply.TheVariants as reply;
ghost use Rattle.ctrie_c.specs.Threading.{Asks, DoesSo, SaysContained, SaysCount, SaysFound, SaysFront, Walks};

use crate::codes::{NO, NO_MAP};
use crate::concurrent_codes::{tell_contained, tell_counted, tell_found};
use crate::concurrent_trying::try_call;
use crate::held_callers::{HeldCaller, give_caller, take_caller};
use crate::listing::Pair;
use crate::shared_reading::write_front;
use concurrent_map::{Call, Handle};
use std::alloc::Global;

/// Answers the key's value, if it has one.
#[unsafe(no_mangle)]
pub extern "C" fn ctrie_concurrent_try_get(
    alloc: Global,
    held: &mut HeldCaller,
    tries: u64,
    handle: u16,
    key: u64,
    value: &mut u64,
) -> u32
    ensures does { Asks (call.Get handle key) (SaysFound value.new) result held.old.state held.new.state }
    ensures kept { nat_eq result 1 ≡ false → value.new ≡ value.old }
{
    tell_found(
        try_call(alloc, held, tries, Call::Get { handle, key }),
        value,
    )
}

/// Answers whether the key has a value.
#[unsafe(no_mangle)]
pub extern "C" fn ctrie_concurrent_try_contains(
    alloc: Global,
    held: &mut HeldCaller,
    tries: u64,
    handle: u16,
    key: u64,
) -> u32
    ensures does { Asks (call.Get handle key) SaysContained result held.old.state held.new.state }
{
    tell_contained(try_call(alloc, held, tries, Call::Get { handle, key }))
}

/// Answers how many keys of a read-only copy have a value.
#[unsafe(no_mangle)]
pub extern "C" fn ctrie_concurrent_try_count(
    alloc: Global,
    held: &mut HeldCaller,
    tries: u64,
    handle: u16,
    count: &mut u64,
) -> u32
    ensures does { DoesSo (Walks reply.Count (call.Count handle)) (SaysCount count.new) result held.old.state held.new.state }
    ensures kept { nat_eq result 0 ≡ false → count.new ≡ count.old }
{
    match take_caller(alloc, held) {
        None => NO_MAP,
        Some(mut seat) => {
            let told = seat.try_count(alloc, tries, Handle::new(handle));
            give_caller(held, seat);
            tell_counted(told, count)
        }
    }
}

/// Answers how many keys of a read-only copy have a value, and writes the first of them with their values, by rising key, as many as there
/// is room for.
#[unsafe(no_mangle)]
pub extern "C" fn ctrie_concurrent_try_entries(
    alloc: Global,
    held: &mut HeldCaller,
    tries: u64,
    handle: u16,
    pairs: &mut [Pair],
    count: &mut u64,
) -> u32
    ensures does { DoesSo (Walks reply.Pairs (call.Entries handle)) (SaysFront pairs.old pairs.new count.new) result held.old.state held.new.state }
    ensures kept { nat_eq result 0 ≡ false → count.new ≡ count.old }
    ensures stays { nat_eq result 0 ≡ false → pairs.new ≡ pairs.old }
{
    match take_caller(alloc, held) {
        None => NO_MAP,
        Some(mut seat) => {
            let told = seat.try_entries(alloc, tries, Handle::new(handle));
            give_caller(held, seat);
            match told {
                Err(code) => code,
                Ok(all) => {
                    *count = write_front(all.as_slice(), pairs);
                    NO
                }
            }
        }
    }
}
