//! Calls that make a map and free it.

ghost use Rattle.std.specs.Prelude.{◌≡◌, ◌+◌, ◌-◌, ◌*◌, ◌^◌, min, Some, None};
ghost use Rattle.ctrie_c.specs.Calls.{Makes, kind_of};

use crate::codes::{BAD_HASH, HAS_MAP, NO, refusal};
use crate::held::{HeldMap, give, take};
use shared_map::{HashKind, Map, MapError, slots_for};
use std::alloc::Global;

/// How many slots to ask for, for this many keys.
#[unsafe(no_mangle)]
pub extern "C" fn ctrie_slots_for(keys: u32) -> u32
    ensures { result ≡ min (3 * keys + 40) (2 ^ 32 - 1) }
{
    slots_for(keys)
}

/// Makes a map with this many slots, whose keys are hashed so, where there is none.
#[unsafe(no_mangle)]
pub extern "C" fn ctrie_new(alloc: Global, held: &mut HeldMap, slots: u32, hash: u32) -> u32
    ensures { Makes (kind_of hash) slots result held.old.state held.new.state }
{
    let Some(kind) = kind_by(hash) else {
        return BAD_HASH;
    };
    match take(alloc, held) {
        None => make(alloc, held, slots, kind),
        Some(map) => {
            give(held, map);
            HAS_MAP
        }
    }
}

/// Frees the map, if there is one.
#[unsafe(no_mangle)]
pub extern "C" fn ctrie_free(alloc: Global, held: &mut HeldMap)
    ensures { held.new.state ≡ None }
{
    let _ = take(alloc, held);
}

/// Makes a map where there is none.
fn make(alloc: Global, held: &mut HeldMap, slots: u32, kind: HashKind) -> u32
    requires { held.old.state ≡ None }
    ensures { Makes (Some kind) slots result None held.new.state }
{
    match Map::new(alloc, slots, kind) {
        Err(error) => refusal(error),
        Ok(map) => match Box::new(alloc, map) {
            Err(_) => refusal(MapError::Memory),
            Ok(map) => {
                give(held, map);
                NO
            }
        },
    }
}

/// The hash of this number.
pub(crate) fn kind_by(number: u32) -> Option<HashKind>
    ensures { result ≡ kind_of number }
{
    match number {
        0 => Some(HashKind::Low),
        1 => Some(HashKind::Fold),
        2 => Some(HashKind::Wide),
        3 => Some(HashKind::Block),
        _ => None,
    }
}
