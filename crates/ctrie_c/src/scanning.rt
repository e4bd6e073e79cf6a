//! The call that lists a map in the map's own order, in parts, of which each costs what it hands out.

ghost use Rattle.std.specs.Prelude.{◌≡◌, nat_eq, false};
ghost use Rattle.ctrie_c.specs.Answers.{Does, number_told};
ghost use Rattle.ctrie_c.specs.Listing.{Scans};

use crate::codes::{NO_MAP, refusal, tell_count};
use crate::held::{HeldMap, give, take};
use crate::listing::{Cursor, Pair, write};
use shared_map::Handle;
use std::alloc::Global;

/// Writes the next pairs of a map in its own order, and answers how many; none are left where there are fewer than there is room for.
#[unsafe(no_mangle)]
pub extern "C" fn ctrie_scan(
    alloc: Global,
    held: &mut HeldMap,
    handle: u16,
    cursor: &mut Cursor,
    pairs: &mut [Pair],
    count: &mut u64,
) -> u32
    ensures does { Does held.old.state held.new.state result (Scans cursor.old pairs.old cursor.new pairs.new handle (number_told result count.new)) }
    ensures kept { nat_eq result 0 ≡ false → count.new ≡ count.old }
    ensures stays { nat_eq result 0 ≡ false → (cursor.new ≡ cursor.old) × (pairs.new ≡ pairs.old) }
    ensures not_yes { nat_eq result 1 ≡ false }
{
    match take(alloc, held) {
        None => NO_MAP,
        Some(map) => {
            let part = map.scan(Handle::new(handle), cursor.last_key(), pairs.len());
            give(held, map);
            match part {
                Ok(part) => tell_count(Ok(write(part.as_slice(), cursor, pairs) as u64), count),
                Err(error) => refusal(error),
            }
        }
    }
}
