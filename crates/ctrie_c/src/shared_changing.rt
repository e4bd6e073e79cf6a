//! Calls of a seat at a shared map that change it. Each is one try, which waits a short while at most.

ghost use Rattle.std.specs.Prelude.{◌≡◌, nat_eq, false};
ghost use Rattle.history.specs.declared.calls.Call.TheVariants as call;
ghost use Rattle.shared_map.specs.Telling.{done_in, found_in, opened_in, restored_in, truth_in};
ghost use Rattle.shared_map.specs.declared.asks.Ask.TheVariants.{Do, Restore};
ghost use Rattle.ctrie_c.specs.Answers.{done_told, number_told, truth_told, value_told};
ghost use Rattle.ctrie_c.specs.Sharing.{Says, Tries};

use crate::codes::{tell_done, tell_handle, tell_truth, tell_value};
use crate::held_seats::HeldSeat;
use crate::trying::try_ask;
use history::Call;
use shared_map::Ask;
use shared_map::telling::{done, found, opened, restored, truth};
use std::alloc::Global;

/// Sets the key's value, and answers the value before, if it had one.
#[unsafe(no_mangle)]
pub extern "C" fn ctrie_shared_try_put(
    alloc: Global,
    held: &mut HeldSeat,
    handle: u16,
    key: u64,
    value: u64,
    before: &mut u64,
) -> u32
    ensures does { Tries held.old.state held.new.state result (Says found_in (Do (call.Put handle key value)) (value_told result before.new)) }
    ensures kept { nat_eq result 1 ≡ false → before.new ≡ before.old }
{
    match try_ask(alloc, held, Ask::Do(Call::Put { handle, key, value })) {
        Err(code) => code,
        Ok(told) => tell_value(found(told), before),
    }
}

/// Sets the value of a key that has none, and answers the value that it has already, if it has one.
#[unsafe(no_mangle)]
pub extern "C" fn ctrie_shared_try_put_if_absent(
    alloc: Global,
    held: &mut HeldSeat,
    handle: u16,
    key: u64,
    value: u64,
    before: &mut u64,
) -> u32
    ensures does { Tries held.old.state held.new.state result (Says found_in (Do (call.PutIfAbsent handle key value)) (value_told result before.new)) }
    ensures kept { nat_eq result 1 ≡ false → before.new ≡ before.old }
{
    match try_ask(
        alloc,
        held,
        Ask::Do(Call::PutIfAbsent { handle, key, value }),
    ) {
        Err(code) => code,
        Ok(told) => tell_value(found(told), before),
    }
}

/// Sets the value of a key that has one, and answers the value before, if it had one.
#[unsafe(no_mangle)]
pub extern "C" fn ctrie_shared_try_replace(
    alloc: Global,
    held: &mut HeldSeat,
    handle: u16,
    key: u64,
    value: u64,
    before: &mut u64,
) -> u32
    ensures does { Tries held.old.state held.new.state result (Says found_in (Do (call.Replace handle key value)) (value_told result before.new)) }
    ensures kept { nat_eq result 1 ≡ false → before.new ≡ before.old }
{
    match try_ask(alloc, held, Ask::Do(Call::Replace { handle, key, value })) {
        Err(code) => code,
        Ok(told) => tell_value(found(told), before),
    }
}

/// Sets the value of a key that has the value `old`, and answers whether it had it.
#[unsafe(no_mangle)]
pub extern "C" fn ctrie_shared_try_replace_if(
    alloc: Global,
    held: &mut HeldSeat,
    handle: u16,
    key: u64,
    old: u64,
    new: u64,
) -> u32
    ensures does { Tries held.old.state held.new.state result (Says truth_in (Do (call.ReplaceIf handle key old new)) (truth_told result)) }
{
    match try_ask(
        alloc,
        held,
        Ask::Do(Call::ReplaceIf {
            handle,
            key,
            old,
            new,
        }),
    ) {
        Err(code) => code,
        Ok(told) => tell_truth(truth(told)),
    }
}

/// Removes the key, and answers the value before, if it had one.
#[unsafe(no_mangle)]
pub extern "C" fn ctrie_shared_try_remove(
    alloc: Global,
    held: &mut HeldSeat,
    handle: u16,
    key: u64,
    before: &mut u64,
) -> u32
    ensures does { Tries held.old.state held.new.state result (Says found_in (Do (call.Remove handle key)) (value_told result before.new)) }
    ensures kept { nat_eq result 1 ≡ false → before.new ≡ before.old }
{
    match try_ask(alloc, held, Ask::Do(Call::Remove { handle, key })) {
        Err(code) => code,
        Ok(told) => tell_value(found(told), before),
    }
}

/// Removes a key that has this value, and answers whether it had it.
#[unsafe(no_mangle)]
pub extern "C" fn ctrie_shared_try_remove_if(
    alloc: Global,
    held: &mut HeldSeat,
    handle: u16,
    key: u64,
    value: u64,
) -> u32
    ensures does { Tries held.old.state held.new.state result (Says truth_in (Do (call.RemoveIf handle key value)) (truth_told result)) }
{
    match try_ask(alloc, held, Ask::Do(Call::RemoveIf { handle, key, value })) {
        Err(code) => code,
        Ok(told) => tell_truth(truth(told)),
    }
}

/// Removes all keys.
#[unsafe(no_mangle)]
pub extern "C" fn ctrie_shared_try_clear(alloc: Global, held: &mut HeldSeat, handle: u16) -> u32
    ensures does { Tries held.old.state held.new.state result (Says done_in (Do (call.Clear handle)) (done_told result)) }
    ensures not_yes { nat_eq result 1 ≡ false }
{
    match try_ask(alloc, held, Ask::Do(Call::Clear { handle })) {
        Err(code) => code,
        Ok(told) => tell_done(done(told)),
    }
}

/// Opens a writable copy, and answers its handle.
#[unsafe(no_mangle)]
pub extern "C" fn ctrie_shared_try_snapshot(
    alloc: Global,
    held: &mut HeldSeat,
    handle: u16,
    copy: &mut u16,
) -> u32
    ensures does { Tries held.old.state held.new.state result (Says opened_in (Do (call.Snapshot handle)) (number_told result copy.new)) }
    ensures kept { nat_eq result 0 ≡ false → copy.new ≡ copy.old }
    ensures not_yes { nat_eq result 1 ≡ false }
{
    match try_ask(alloc, held, Ask::Do(Call::Snapshot { handle })) {
        Err(code) => code,
        Ok(told) => tell_handle(opened(told), copy),
    }
}

/// Opens a read-only copy, and answers its handle.
#[unsafe(no_mangle)]
pub extern "C" fn ctrie_shared_try_freeze(
    alloc: Global,
    held: &mut HeldSeat,
    handle: u16,
    copy: &mut u16,
) -> u32
    ensures does { Tries held.old.state held.new.state result (Says opened_in (Do (call.Freeze handle)) (number_told result copy.new)) }
    ensures kept { nat_eq result 0 ≡ false → copy.new ≡ copy.old }
    ensures not_yes { nat_eq result 1 ≡ false }
{
    match try_ask(alloc, held, Ask::Do(Call::Freeze { handle })) {
        Err(code) => code,
        Ok(told) => tell_handle(opened(told), copy),
    }
}

/// Gives the handle the map of the copy, which stays.
#[unsafe(no_mangle)]
pub extern "C" fn ctrie_shared_try_restore(
    alloc: Global,
    held: &mut HeldSeat,
    handle: u16,
    copy: u16,
) -> u32
    ensures does { Tries held.old.state held.new.state result (Says restored_in (Restore handle copy) (done_told result)) }
    ensures not_yes { nat_eq result 1 ≡ false }
{
    match try_ask(alloc, held, Ask::Restore { handle, copy }) {
        Err(code) => code,
        Ok(told) => tell_done(restored(told)),
    }
}

/// Takes the handle away, and its map.
#[unsafe(no_mangle)]
pub extern "C" fn ctrie_shared_try_close(alloc: Global, held: &mut HeldSeat, handle: u16) -> u32
    ensures does { Tries held.old.state held.new.state result (Says done_in (Do (call.Close handle)) (done_told result)) }
    ensures not_yes { nat_eq result 1 ≡ false }
{
    match try_ask(alloc, held, Ask::Do(Call::Close { handle })) {
        Err(code) => code,
        Ok(told) => tell_done(done(told)),
    }
}
