//! What comes out of a map in several shards.

use shared_map::{Handle, Map, MapError};

/// How many keys the shards have together.
pub(crate) fn count(shards: &[Map]) -> Result<u64, MapError> {
    let mut sum = 0u64;
    for shard in shards {
        sum = sum.wrapping_add(shard.count(Handle::first())?);
    }
    Ok(sum)
}
