//! The call that lists a map, in parts: it writes into the caller's buffer, so nothing is allocated for the caller.

ghost use Rattle.std.specs.Prelude.{◌≡◌, ◌≤◌, nat_eq, false, length};
ghost use Rattle.ctrie_c.specs.Answers.{Does, number_told};
ghost use Rattle.ctrie_c.specs.Listing.{Lists, Writes, last_of};

use crate::codes::{NO_MAP, refusal, tell_count};
use crate::held::{HeldMap, give, take};
use shared_map::Handle;
use std::alloc::Global;

/// A key with its value.
#[repr(C)]
#[derive(Clone, Copy)]
pub struct Pair {
    /// The key.
    pub key: u64,
    /// Its value.
    pub value: u64,
}

/// How far a listing has come.
#[repr(C)]
#[derive(Clone, Copy)]
pub struct Cursor {
    /// The last key that was listed.
    pub last: u64,
    /// Whether one was.
    pub begun: bool,
}

impl Cursor {
    /// Before all keys.
    pub(crate) fn start() -> Cursor {
        Cursor {
            last: 0,
            begun: false,
        }
    }

    /// The last key that was listed, if one was.
    pub(crate) fn last_key(self) -> Option<u64>
        ensures { result ≡ last_of self }
    {
        if self.begun { Some(self.last) } else { None }
    }
}

/// Writes the next pairs of a map by rising key, and answers how many; none are left where there are fewer than there is room for.
#[unsafe(no_mangle)]
pub extern "C" fn ctrie_entries(
    alloc: Global,
    held: &mut HeldMap,
    handle: u16,
    cursor: &mut Cursor,
    pairs: &mut [Pair],
    count: &mut u64,
) -> u32
    ensures does { Does held.old.state held.new.state result (Lists cursor.old pairs.old cursor.new pairs.new handle (number_told result count.new)) }
    ensures kept { nat_eq result 0 ≡ false → count.new ≡ count.old }
    ensures stays { nat_eq result 0 ≡ false → (cursor.new ≡ cursor.old) × (pairs.new ≡ pairs.old) }
    ensures not_yes { nat_eq result 1 ≡ false }
{
    match take(alloc, held) {
        None => NO_MAP,
        Some(map) => {
            let part = map.entries_from(Handle::new(handle), cursor.last_key(), pairs.len());
            give(held, map);
            match part {
                Ok(part) => tell_count(Ok(write(part.as_slice(), cursor, pairs) as u64), count),
                Err(error) => refusal(error),
            }
        }
    }
}

/// Writes this part.
pub(crate) fn write(part: &[(u64, u64)], cursor: &mut Cursor, pairs: &mut [Pair]) -> usize
    requires { length part.now ≤ length pairs.old }
    ensures { Writes part.now cursor.old pairs.old result cursor.new pairs.new }
{
    let mut count = 0;
    while count < part.len() {
        let (key, value) = part[count];
        pairs[count] = Pair { key, value };
        *cursor = Cursor {
            last: key,
            begun: true,
        };
        count += 1;
    }
    count
}
