//! Calls of a seat at a concurrent map that change it. Each is a call in a number of tries.

ghost use Rattle.std.specs.Prelude.{◌≡◌, nat_eq, false};
ghost use Rattle.history.specs.declared.calls.Call.TheVariants as call;
ghost use Rattle.ctrie_c.specs.Threading.{Asks, Closes, DoesSo, SaysCleared, SaysDone, SaysFound, SaysOpened, SaysTruth};

use crate::codes::NO_MAP;
use crate::concurrent_codes::{tell_cleared, tell_closed, tell_found, tell_opened, tell_whether};
use crate::concurrent_trying::try_call;
use crate::held_callers::{HeldCaller, give_caller, take_caller};
use concurrent_map::{Call, Handle};
use std::alloc::Global;

/// Sets the key's value, and answers the value before, if it had one.
#[unsafe(no_mangle)]
pub extern "C" fn ctrie_concurrent_try_put(
    alloc: Global,
    held: &mut HeldCaller,
    tries: u64,
    handle: u16,
    key: u64,
    value: u64,
    before: &mut u64,
) -> u32
    ensures does { Asks (call.Put handle key value) (SaysFound before.new) result held.old.state held.new.state }
    ensures kept { nat_eq result 1 ≡ false → before.new ≡ before.old }
{
    tell_found(
        try_call(alloc, held, tries, Call::Put { handle, key, value }),
        before,
    )
}

/// Sets the value of a key that has none, and answers the value that it has already, if it has one.
#[unsafe(no_mangle)]
pub extern "C" fn ctrie_concurrent_try_put_if_absent(
    alloc: Global,
    held: &mut HeldCaller,
    tries: u64,
    handle: u16,
    key: u64,
    value: u64,
    before: &mut u64,
) -> u32
    ensures does { Asks (call.PutIfAbsent handle key value) (SaysFound before.new) result held.old.state held.new.state }
    ensures kept { nat_eq result 1 ≡ false → before.new ≡ before.old }
{
    tell_found(
        try_call(alloc, held, tries, Call::PutIfAbsent { handle, key, value }),
        before,
    )
}

/// Sets the value of a key that has one, and answers the value before, if it had one.
#[unsafe(no_mangle)]
pub extern "C" fn ctrie_concurrent_try_replace(
    alloc: Global,
    held: &mut HeldCaller,
    tries: u64,
    handle: u16,
    key: u64,
    value: u64,
    before: &mut u64,
) -> u32
    ensures does { Asks (call.Replace handle key value) (SaysFound before.new) result held.old.state held.new.state }
    ensures kept { nat_eq result 1 ≡ false → before.new ≡ before.old }
{
    tell_found(
        try_call(alloc, held, tries, Call::Replace { handle, key, value }),
        before,
    )
}

/// Sets the value of a key that has the value `old`, and answers whether it had it.
#[unsafe(no_mangle)]
pub extern "C" fn ctrie_concurrent_try_replace_if(
    alloc: Global,
    held: &mut HeldCaller,
    tries: u64,
    handle: u16,
    key: u64,
    old: u64,
    new: u64,
) -> u32
    ensures does { Asks (call.ReplaceIf handle key old new) SaysTruth result held.old.state held.new.state }
{
    tell_whether(try_call(
        alloc,
        held,
        tries,
        Call::ReplaceIf {
            handle,
            key,
            old,
            new,
        },
    ))
}

/// Removes the key, and answers the value before, if it had one.
#[unsafe(no_mangle)]
pub extern "C" fn ctrie_concurrent_try_remove(
    alloc: Global,
    held: &mut HeldCaller,
    tries: u64,
    handle: u16,
    key: u64,
    before: &mut u64,
) -> u32
    ensures does { Asks (call.Remove handle key) (SaysFound before.new) result held.old.state held.new.state }
    ensures kept { nat_eq result 1 ≡ false → before.new ≡ before.old }
{
    tell_found(
        try_call(alloc, held, tries, Call::Remove { handle, key }),
        before,
    )
}

/// Removes a key that has this value, and answers whether it had it.
#[unsafe(no_mangle)]
pub extern "C" fn ctrie_concurrent_try_remove_if(
    alloc: Global,
    held: &mut HeldCaller,
    tries: u64,
    handle: u16,
    key: u64,
    value: u64,
) -> u32
    ensures does { Asks (call.RemoveIf handle key value) SaysTruth result held.old.state held.new.state }
{
    tell_whether(try_call(alloc, held, tries, Call::RemoveIf { handle, key, value }))
}

/// Removes all keys.
#[unsafe(no_mangle)]
pub extern "C" fn ctrie_concurrent_try_clear(
    alloc: Global,
    held: &mut HeldCaller,
    tries: u64,
    handle: u16,
) -> u32
    ensures does { Asks (call.Clear handle) SaysCleared result held.old.state held.new.state }
{
    tell_cleared(try_call(alloc, held, tries, Call::Clear { handle }))
}

/// Opens a writable copy, and answers its handle.
#[unsafe(no_mangle)]
pub extern "C" fn ctrie_concurrent_try_snapshot(
    alloc: Global,
    held: &mut HeldCaller,
    tries: u64,
    handle: u16,
    copy: &mut u16,
) -> u32
    ensures does { Asks (call.Snapshot handle) (SaysOpened copy.new) result held.old.state held.new.state }
    ensures kept { nat_eq result 0 ≡ false → copy.new ≡ copy.old }
{
    tell_opened(
        try_call(alloc, held, tries, Call::Snapshot { handle }),
        copy,
    )
}

/// Opens a read-only copy, and answers its handle.
#[unsafe(no_mangle)]
pub extern "C" fn ctrie_concurrent_try_freeze(
    alloc: Global,
    held: &mut HeldCaller,
    tries: u64,
    handle: u16,
    copy: &mut u16,
) -> u32
    ensures does { Asks (call.Freeze handle) (SaysOpened copy.new) result held.old.state held.new.state }
    ensures kept { nat_eq result 0 ≡ false → copy.new ≡ copy.old }
{
    tell_opened(try_call(alloc, held, tries, Call::Freeze { handle }), copy)
}

/// Closes the handle: its number names nothing then. It is one try.
#[unsafe(no_mangle)]
pub extern "C" fn ctrie_concurrent_close(alloc: Global, held: &mut HeldCaller, handle: u16) -> u32
    ensures { DoesSo (Closes handle) SaysDone result held.old.state held.new.state }
{
    match take_caller(alloc, held) {
        None => NO_MAP,
        Some(mut seat) => {
            let told = seat.close(Handle::new(handle));
            give_caller(held, seat);
            tell_closed(told)
        }
    }
}
