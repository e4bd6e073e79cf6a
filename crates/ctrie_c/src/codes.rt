//! The codes that tell what a call did.

ghost use Rattle.std.specs.Prelude.{◌≡◌, ◌<◌, nat_eq, false};
ghost use Rattle.ctrie_c.specs.Answers.{code_limit, refusal_of, value_told, truth_told, number_told, done_told};
ghost use Rattle.ctrie_c.specs.Listing.{pair_told};

use crate::listing::Pair;
use shared_map::{Handle, MapError};

/// Done: false, or no value.
pub(crate) const NO: u32 = 0;

/// Done: true, or a value.
pub(crate) const YES: u32 = 1;

/// There is no map.
pub(crate) const NO_MAP: u32 = 11;

/// There is a map already.
pub(crate) const HAS_MAP: u32 = 12;

/// No hash has this number.
pub(crate) const BAD_HASH: u32 = 13;

/// Why the map refused.
pub(crate) fn refusal(error: MapError) -> u32
    ensures refusal { refusal_of result ≡ error }
    ensures not_no { nat_eq result 0 ≡ false }
    ensures not_yes { nat_eq result 1 ≡ false }
    ensures bound { result < code_limit }
{
    match error {
        MapError::NoHandle => 2,
        MapError::ReadOnly => 3,
        MapError::HandlesFull => 4,
        MapError::Crowded => 5,
        MapError::Full => 6,
        MapError::BadSizes => 7,
        MapError::WornOut => 8,
        MapError::Memory => 9,
    }
}

/// The code of a value, which is written where there is one.
pub(crate) fn tell_value(told: Result<Option<u64>, MapError>, value: &mut u64) -> u32
    ensures told { value_told result value.new ≡ told }
    ensures bound { result < code_limit }
    ensures kept { nat_eq result 1 ≡ false → value.new ≡ value.old }
{
    match told {
        Ok(None) => NO,
        Ok(Some(found)) => {
            *value = found;
            YES
        }
        Err(error) => refusal(error),
    }
}

/// The code of a key with its value, which are written where there is one.
pub(crate) fn tell_pair(told: Result<Option<(u64, u64)>, MapError>, pair: &mut Pair) -> u32
    ensures told { pair_told result pair.new ≡ told }
    ensures bound { result < code_limit }
    ensures kept { nat_eq result 1 ≡ false → pair.new ≡ pair.old }
{
    match told {
        Ok(None) => NO,
        Ok(Some((key, value))) => {
            *pair = Pair { key, value };
            YES
        }
        Err(error) => refusal(error),
    }
}

/// The code of what is so or isn't.
pub(crate) fn tell_truth(told: Result<bool, MapError>) -> u32
    ensures told { truth_told result ≡ told }
    ensures bound { result < code_limit }
{
    match told {
        Ok(false) => NO,
        Ok(true) => YES,
        Err(error) => refusal(error),
    }
}

/// The code of what is done.
pub(crate) fn tell_done(told: Result<(), MapError>) -> u32
    ensures told { done_told result ≡ told }
    ensures bound { result < code_limit }
    ensures not_yes { nat_eq result 1 ≡ false }
{
    match told {
        Ok(()) => NO,
        Err(error) => refusal(error),
    }
}

/// The code of a count, which is written unless it was refused.
pub(crate) fn tell_count(told: Result<u64, MapError>, count: &mut u64) -> u32
    ensures told { number_told result count.new ≡ told }
    ensures bound { result < code_limit }
    ensures not_yes { nat_eq result 1 ≡ false }
    ensures kept { nat_eq result 0 ≡ false → count.new ≡ count.old }
{
    match told {
        Ok(found) => {
            *count = found;
            NO
        }
        Err(error) => refusal(error),
    }
}

/// The code of a handle, which is written unless it was refused.
pub(crate) fn tell_handle(told: Result<Handle, MapError>, handle: &mut u16) -> u32
    ensures told { number_told result handle.new ≡ told }
    ensures bound { result < code_limit }
    ensures not_yes { nat_eq result 1 ≡ false }
    ensures kept { nat_eq result 0 ≡ false → handle.new ≡ handle.old }
{
    match told {
        Ok(found) => {
            *handle = found.number();
            NO
        }
        Err(error) => refusal(error),
    }
}
