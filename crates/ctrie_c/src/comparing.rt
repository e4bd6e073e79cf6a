//! The call that compares two handles' maps: it writes into the caller's buffer.

ghost use Rattle.std.specs.Prelude.{◌≡◌, nat_eq, false, map};
ghost use Rattle.ctrie_c.specs.Answers.{Does, number_told};
ghost use Rattle.ctrie_c.specs.Buffers.{Fills};
ghost use Rattle.ctrie_c.specs.Comparing.{Differs, difference_told};

use crate::codes::{NO_MAP, refusal, tell_count};
use crate::held::{HeldMap, give, take};
use shared_map::Handle;
use std::alloc::Global;

/// A key of which two maps have different values.
#[repr(C)]
#[derive(Clone, Copy)]
pub struct Difference {
    /// The key.
    pub key: u64,
    /// Its value in the older map, or 0.
    pub before: u64,
    /// Its value in the newer map, or 0.
    pub after: u64,
    /// Whether it has a value in the older map.
    pub was_there: bool,
    /// Whether it has one in the newer map.
    pub is_there: bool,
}

impl Difference {
    /// This difference, as it is told.
    fn told(found: shared_map::Difference) -> Difference
        ensures { result ≡ difference_told found }
    {
        Difference {
            key: found.key,
            before: found.before.unwrap_or(0),
            after: found.after.unwrap_or(0),
            was_there: found.before.is_some(),
            is_there: found.after.is_some(),
        }
    }
}

/// Answers how many keys have different values in two maps, and writes the first of these in ascending order, as many as there is
/// room for.
#[unsafe(no_mangle)]
pub extern "C" fn ctrie_diff(
    alloc: Global,
    held: &mut HeldMap,
    older: u16,
    newer: u16,
    differences: &mut [Difference],
    count: &mut u64,
) -> u32
    ensures does { Does held.old.state held.new.state result (Differs differences.old differences.new older newer (number_told result count.new)) }
    ensures kept { nat_eq result 0 ≡ false → count.new ≡ count.old }
    ensures stays { nat_eq result 0 ≡ false → differences.new ≡ differences.old }
    ensures not_yes { nat_eq result 1 ≡ false }
{
    match take(alloc, held) {
        None => NO_MAP,
        Some(map) => {
            let found = map.diff(Handle::new(older), Handle::new(newer));
            give(held, map);
            match found {
                Ok(found) => {
                    write(found.as_slice(), differences);
                    tell_count(Ok(found.len() as u64), count)
                }
                Err(error) => refusal(error),
            }
        }
    }
}

/// Writes as many of these as there is room for.
fn write(found: &[shared_map::Difference], differences: &mut [Difference])
    ensures { Fills (map difference_told found.now) differences.old differences.new }
{
    let mut count = 0;
    while count < found.len() && count < differences.len() {
        differences[count] = Difference::told(found[count]);
        count += 1;
    }
}
