//! Calls of a seat at a shared map that change nothing. Each is one try, which waits a short while at most.

ghost use Rattle.std.specs.Prelude.{◌≡◌, nat_eq, false, length, Ok};
ghost use Rattle.history.specs.declared.calls.Call.TheVariants as call;
ghost use Rattle.shared_map.specs.Telling.{contained_in, counted_in, first_in, found_in, has_room_in, number_in, open_in, writable_in};
ghost use Rattle.shared_map.specs.declared.asks.Ask.TheVariants.{Do, First, Free, Handles, HasRoom, IsWritable};
ghost use Rattle.ctrie_c.specs.Answers.{number_told, truth_told, value_told};
ghost use Rattle.ctrie_c.specs.Listing.{pair_told};
ghost use Rattle.ctrie_c.specs.Sharing.{HearsSo, IsFront, ListsFront, Says, TellsLast, Tries, count_of, count_told};

use crate::codes::{NO, NO_MAP, refusal, tell_count, tell_pair, tell_truth, tell_value};
use crate::counts::Count;
use crate::held_seats::{HeldSeat, give_seat, take_seat};
use crate::listing::{Cursor, Pair, write};
use crate::sharing::BUSY;
use crate::trying::try_ask;
use history::Call;
use shared_map::telling::{contained, counted, first, found, has_room, listed, number, writable};
use shared_map::{Ask, ShardCount};
use std::alloc::Global;

/// Answers the key's value, if it has one.
#[unsafe(no_mangle)]
pub extern "C" fn ctrie_shared_try_get(
    alloc: Global,
    held: &mut HeldSeat,
    handle: u16,
    key: u64,
    value: &mut u64,
) -> u32
    ensures does { Tries held.old.state held.new.state result (Says found_in (Do (call.Get handle key)) (value_told result value.new)) }
    ensures kept { nat_eq result 1 ≡ false → value.new ≡ value.old }
{
    match try_ask(alloc, held, Ask::Do(Call::Get { handle, key })) {
        Err(code) => code,
        Ok(told) => tell_value(found(told), value),
    }
}

/// Answers whether the key has a value.
#[unsafe(no_mangle)]
pub extern "C" fn ctrie_shared_try_contains(
    alloc: Global,
    held: &mut HeldSeat,
    handle: u16,
    key: u64,
) -> u32
    ensures does { Tries held.old.state held.new.state result (Says contained_in (Do (call.Get handle key)) (truth_told result)) }
{
    match try_ask(alloc, held, Ask::Do(Call::Get { handle, key })) {
        Err(code) => code,
        Ok(told) => tell_truth(contained(told)),
    }
}

/// Answers whether the handle is open.
#[unsafe(no_mangle)]
pub extern "C" fn ctrie_shared_try_is_open(alloc: Global, held: &mut HeldSeat, handle: u16) -> u32
    ensures does { Tries held.old.state held.new.state result (Says (λ told. Ok (open_in told)) (IsWritable handle) (truth_told result)) }
{
    match try_ask(alloc, held, Ask::IsWritable { handle }) {
        Err(code) => code,
        Ok(told) => tell_truth(Ok(writable(told).is_ok())),
    }
}

/// Answers whether the handle's map may be changed by it.
#[unsafe(no_mangle)]
pub extern "C" fn ctrie_shared_try_is_writable(
    alloc: Global,
    held: &mut HeldSeat,
    handle: u16,
) -> u32
    ensures does { Tries held.old.state held.new.state result (Says writable_in (IsWritable handle) (truth_told result)) }
{
    match try_ask(alloc, held, Ask::IsWritable { handle }) {
        Err(code) => code,
        Ok(told) => tell_truth(writable(told)),
    }
}

/// Answers a key with its value, whichever is found first, if there is one.
#[unsafe(no_mangle)]
pub extern "C" fn ctrie_shared_try_first(
    alloc: Global,
    held: &mut HeldSeat,
    handle: u16,
    pair: &mut Pair,
) -> u32
    ensures does { Tries held.old.state held.new.state result (Says first_in (First handle) (pair_told result pair.new)) }
    ensures kept { nat_eq result 1 ≡ false → pair.new ≡ pair.old }
{
    match try_ask(alloc, held, Ask::First { handle }) {
        Err(code) => code,
        Ok(told) => tell_pair(first(told), pair),
    }
}

/// Answers how many keys have a value.
#[unsafe(no_mangle)]
pub extern "C" fn ctrie_shared_try_count(
    alloc: Global,
    held: &mut HeldSeat,
    handle: u16,
    count: &mut u64,
) -> u32
    ensures does { Tries held.old.state held.new.state result (Says counted_in (Do (call.Count handle)) (number_told result count.new)) }
    ensures kept { nat_eq result 0 ≡ false → count.new ≡ count.old }
    ensures not_yes { nat_eq result 1 ≡ false }
{
    match try_ask(alloc, held, Ask::Do(Call::Count { handle })) {
        Err(code) => code,
        Ok(told) => tell_count(counted(told), count),
    }
}

/// Answers how many handles are open.
#[unsafe(no_mangle)]
pub extern "C" fn ctrie_shared_try_handles(
    alloc: Global,
    held: &mut HeldSeat,
    handles: &mut u64,
) -> u32
    ensures does { Tries held.old.state held.new.state result (Says (λ told. Ok (number_in told)) Handles (number_told result handles.new)) }
    ensures kept { nat_eq result 0 ≡ false → handles.new ≡ handles.old }
    ensures not_yes { nat_eq result 1 ≡ false }
{
    match try_ask(alloc, held, Ask::Handles) {
        Err(code) => code,
        Ok(told) => tell_count(Ok(number(told)), handles),
    }
}

/// Answers how many slots no open handle reaches.
#[unsafe(no_mangle)]
pub extern "C" fn ctrie_shared_try_free_slots(
    alloc: Global,
    held: &mut HeldSeat,
    free: &mut u64,
) -> u32
    ensures does { Tries held.old.state held.new.state result (Says (λ told. Ok (number_in told)) Free (number_told result free.new)) }
    ensures kept { nat_eq result 0 ≡ false → free.new ≡ free.old }
    ensures not_yes { nat_eq result 1 ≡ false }
{
    match try_ask(alloc, held, Ask::Free) {
        Err(code) => code,
        Ok(told) => tell_count(Ok(number(told)), free),
    }
}

/// Answers whether a slot is free in each shard.
#[unsafe(no_mangle)]
pub extern "C" fn ctrie_shared_try_has_room(alloc: Global, held: &mut HeldSeat) -> u32
    ensures does { Tries held.old.state held.new.state result (Says (λ told. Ok (has_room_in told)) HasRoom (truth_told result)) }
{
    match try_ask(alloc, held, Ask::HasRoom) {
        Err(code) => code,
        Ok(told) => tell_truth(Ok(has_room(told))),
    }
}

/// Answers how many keys have a value, and writes the first of them with their values, by rising key, as many as there is room for.
#[unsafe(no_mangle)]
pub extern "C" fn ctrie_shared_try_entries(
    alloc: Global,
    held: &mut HeldSeat,
    handle: u16,
    pairs: &mut [Pair],
    count: &mut u64,
) -> u32
    ensures does { Tries held.old.state held.new.state result (ListsFront pairs.old pairs.new handle (number_told result count.new)) }
    ensures kept { nat_eq result 0 ≡ false → count.new ≡ count.old }
    ensures stays { nat_eq result 0 ≡ false → pairs.new ≡ pairs.old }
    ensures not_yes { nat_eq result 1 ≡ false }
{
    match try_ask(alloc, held, Ask::Do(Call::Entries { handle })) {
        Err(code) => code,
        Ok(told) => match listed(told) {
            Err(error) => refusal(error),
            Ok(all) => tell_count(Ok(write_front(all.as_slice(), pairs)), count),
        },
    }
}

/// Writes the first of these, as many as there is room for, and answers how many there are.
pub(crate) fn write_front(all: &[(u64, u64)], pairs: &mut [Pair]) -> u64
    ensures count { result ≡ length all.now }
    ensures front { IsFront all.now pairs.old pairs.new }
{
    let room = pairs.len();
    let part = if all.len() < room { all } else { &all[..room] };
    let _ = write(part, &mut Cursor::start(), pairs);
    all.len() as u64
}

/// Answers a shard, and how many calls about it the seat knows of: after a call of its own one that this was about, and its number
/// there.
#[unsafe(no_mangle)]
pub extern "C" fn ctrie_shared_last(alloc: Global, held: &mut HeldSeat, last: &mut Count) -> u32
    ensures does { TellsLast held.old.state held.new.state result (count_told result last.new) }
    ensures kept { nat_eq result 0 ≡ false → last.new ≡ last.old }
    ensures not_yes { nat_eq result 1 ≡ false }
{
    match take_seat(alloc, held) {
        None => NO_MAP,
        Some(seat) => {
            let known = seat.seat.last();
            give_seat(held, seat);
            *last = Count {
                shard: known.shard as u64,
                calls: known.calls,
            };
            NO
        }
    }
}

/// As `SharedMap::try_hear`: whether this many calls about a shard stand in the log that the seat finds.
#[tactic(auto, using(crate::proofs::Tries::heard_so))]
#[unsafe(no_mangle)]
pub extern "C" fn ctrie_shared_try_hear(alloc: Global, held: &mut HeldSeat, count: &Count) -> u32
    ensures does { Tries held.old.state held.new.state result (HearsSo (count_of count.now) (truth_told result)) }
{
    match take_seat(alloc, held) {
        None => NO_MAP,
        Some(mut seat) => {
            let heard = seat.try_hear(ShardCount {
                shard: count.shard as usize,
                calls: count.calls,
            });
            give_seat(held, seat);
            match heard {
                None => BUSY,
                Some(heard) => tell_truth(Ok(heard)),
            }
        }
    }
}
