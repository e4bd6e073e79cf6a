//! The call that sets several keys, all or none.

ghost use Rattle.std.specs.Prelude.{◌≡◌, nat_eq, false};
ghost use Rattle.ctrie_c.specs.Answers.{Does, done_told};
ghost use Rattle.ctrie_c.specs.Calls.{PutsThem};

use crate::codes::{NO_MAP, tell_done};
use crate::held::{HeldMap, give, take};
use crate::listing::Pair;
use shared_map::{Handle, Map, MapError};
use std::alloc::Global;

/// Sets the values of all these keys, or of none.
#[unsafe(no_mangle)]
pub extern "C" fn ctrie_put_all(
    alloc: Global,
    held: &mut HeldMap,
    handle: u16,
    pairs: &[Pair],
) -> u32
    ensures does { Does held.old.state held.new.state result (PutsThem handle pairs.now (done_told result)) }
    ensures not_yes { nat_eq result 1 ≡ false }
{
    match take(alloc, held) {
        None => NO_MAP,
        Some(mut map) => {
            let told = put_all(alloc, &mut map, handle, pairs);
            give(held, map);
            tell_done(told)
        }
    }
}

/// The same of a map.
fn put_all(alloc: Global, map: &mut Map, handle: u16, pairs: &[Pair]) -> Result<(), MapError>
    ensures { PutsThem handle pairs.now result map.old map.new }
{
    let entries: Vec<(u64, u64)> = pairs
        .iter()
        .map(|pair| (pair.key, pair.value))
        .collect(alloc)?;
    map.put_all(Handle::new(handle), entries.as_slice())
}
