//! What the methods tell of a reply of `Map::call`: `Crowded` and `Full` where the reply is that, and a refusal as it is.

ghost use Rattle.std.specs.Prelude.{◌≡◌};
ghost use Rattle.ctrie_map.specs.Telling.{done_in, found_in, opened_in, truth_in};

use crate::errors::MapError;
use crate::handle::Handle;
use history::Reply;

/// A value, or none. `Full` of any reply that tells neither a value nor that the key is crowded, as `NoSlots`.
pub fn found(told: Result<Reply, MapError>) -> Result<Option<u64>, MapError>
    ensures { result ≡ found_in told }
{
    match told? {
        Reply::Found(value) => Ok(value),
        Reply::Crowded => Err(MapError::Crowded),
        _ => Err(MapError::Full),
    }
}

/// Whether something was done. `Full` of any reply that tells neither this nor that the key is crowded.
pub fn truth(told: Result<Reply, MapError>) -> Result<bool, MapError>
    ensures { result ≡ truth_in told }
{
    match told? {
        Reply::Truth(truth) => Ok(truth),
        Reply::Crowded => Err(MapError::Crowded),
        _ => Err(MapError::Full),
    }
}

/// A new handle. `Full` of any reply that opens none, but of `Crowded`.
pub fn opened(told: Result<Reply, MapError>) -> Result<Handle, MapError>
    ensures { result ≡ opened_in told }
{
    match told? {
        Reply::Opened(handle) => Ok(Handle::new(handle)),
        Reply::Crowded => Err(MapError::Crowded),
        _ => Err(MapError::Full),
    }
}

/// Nothing but that a map is cleared or a handle closed. `Full` of any other reply, but of `Crowded`.
pub fn done(told: Result<Reply, MapError>) -> Result<(), MapError>
    ensures { result ≡ done_in told }
{
    match told? {
        Reply::Cleared | Reply::Closed => Ok(()),
        Reply::Crowded => Err(MapError::Crowded),
        _ => Err(MapError::Full),
    }
}
