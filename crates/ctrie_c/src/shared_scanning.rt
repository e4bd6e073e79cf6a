//! The call of a seat that lists a shared map shard by shard, in parts. It tries once, and doesn't wait.

ghost use Rattle.std.specs.Prelude.{◌≡◌, nat_eq, false, length, take};
ghost use Rattle.ctrie_c.specs.Answers.{number_told};
ghost use Rattle.ctrie_c.specs.Listing.{Writes};
ghost use Rattle.ctrie_c.specs.Sharing.{ScansShard, TellsShards, Tries};

use crate::codes::{NO, NO_MAP, refusal, tell_count};
use crate::held_seats::{HeldSeat, give_seat, take_seat};
use crate::listing::{Cursor, Pair, write};
use crate::trying::try_ask;
use shared_map::Ask;
use shared_map::telling::part;
use std::alloc::Global;

/// Writes the next pairs of those that lie in a shard, in the map's own order, and answers how many; none are left there where there
/// are fewer than there is room for.
#[unsafe(no_mangle)]
pub extern "C" fn ctrie_shared_try_scan(
    alloc: Global,
    held: &mut HeldSeat,
    handle: u16,
    shard: u64,
    cursor: &mut Cursor,
    pairs: &mut [Pair],
    count: &mut u64,
) -> u32
    ensures does { Tries held.old.state held.new.state result (ScansShard shard cursor.old pairs.old cursor.new pairs.new handle (number_told result count.new)) }
    ensures kept { nat_eq result 0 ≡ false → count.new ≡ count.old }
    ensures stays { nat_eq result 0 ≡ false → (cursor.new ≡ cursor.old) × (pairs.new ≡ pairs.old) }
    ensures not_yes { nat_eq result 1 ≡ false }
{
    let scan = Ask::Scan {
        handle,
        shard: shard as usize,
        after: cursor.last_key(),
        room: pairs.len(),
    };
    match try_ask(alloc, held, scan) {
        Err(code) => code,
        Ok(told) => match part(told) {
            Err(error) => refusal(error),
            Ok(part) => tell_count(Ok(write_part(part.as_slice(), cursor, pairs)), count),
        },
    }
}

/// Writes this part, as far as there is room for it.
fn write_part(part: &[(u64, u64)], cursor: &mut Cursor, pairs: &mut [Pair]) -> u64
    ensures { Writes (take (length pairs.old) part.now) cursor.old pairs.old result cursor.new pairs.new }
{
    let room = pairs.len();
    let part = if part.len() < room {
        part
    } else {
        &part[..room]
    };
    write(part, cursor, pairs) as u64
}

/// Answers how many shards there are.
#[unsafe(no_mangle)]
pub extern "C" fn ctrie_shared_shards(alloc: Global, held: &mut HeldSeat, shards: &mut u64) -> u32
    ensures does { TellsShards held.old.state held.new.state result (number_told result shards.new) }
    ensures kept { nat_eq result 0 ≡ false → shards.new ≡ shards.old }
    ensures not_yes { nat_eq result 1 ≡ false }
{
    match take_seat(alloc, held) {
        None => NO_MAP,
        Some(seat) => {
            *shards = seat.map.shards() as u64;
            give_seat(held, seat);
            NO
        }
    }
}
