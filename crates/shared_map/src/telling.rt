//! What the calls tell of an answer.

ghost use Rattle.std.specs.Prelude.{◌≡◌, IfOk, IfErr, Ok, Err};
ghost use Rattle.shared_map.specs.Telling.{contained_in, counted_in, done_in, first_in, found_in, has_room_in, listed_in, number_in, opened_in, part_in, restored_in, truth_in, writable_in};

use crate::asks::{Answer, Told, reply_told};
use ctrie_map::{Handle, MapError, telling as replies};
use history::Reply;

/// A value.
pub fn found(told: Told) -> Result<Option<u64>, MapError>
    ensures { result ≡ found_in told }
{
    replies::found(reply_told(told))
}

/// Whether something was done.
pub fn truth(told: Told) -> Result<bool, MapError>
    ensures { result ≡ truth_in told }
{
    replies::truth(reply_told(told))
}

/// A new handle.
pub fn opened(told: Told) -> Result<Handle, MapError>
    ensures { result ≡ opened_in told }
{
    replies::opened(reply_told(told))
}

/// Nothing but that it is done.
pub fn done(told: Told) -> Result<(), MapError>
    ensures { result ≡ done_in told }
{
    replies::done(reply_told(told))
}

/// Whether there is a value.
pub fn contained(told: Told) -> Result<bool, MapError>
    ensures { result ≡ contained_in told }
{
    match found(told) {
        Ok(value) => Ok(value.is_some()),
        Err(error) => Err(error),
    }
}

/// Pairs.
pub fn listed(told: Told) -> Result<Vec<(u64, u64)>, MapError>
    ensures listed { IfOk result (λ pairs. listed_in told ≡ Ok pairs.items) }
    ensures refused { IfErr result (λ error. listed_in told ≡ Err error) }
{
    match reply_told(told)? {
        Reply::Pairs(pairs) => Ok(pairs.into_vec()),
        _ => Err(MapError::Memory),
    }
}

/// How many there are.
pub fn counted(told: Told) -> Result<u64, MapError>
    ensures { result ≡ counted_in told }
{
    match reply_told(told)? {
        Reply::Count(number) => Ok(number),
        _ => Err(MapError::Memory),
    }
}

/// The same of what is never refused.
pub fn number(told: Told) -> u64
    ensures { result ≡ number_in told }
{
    match counted(told) {
        Ok(number) => number,
        Err(_) => 0,
    }
}

/// Whether there is room.
pub fn has_room(told: Told) -> bool
    ensures { result ≡ has_room_in told }
{
    match reply_told(told) {
        Ok(Reply::Truth(truth)) => truth,
        _ => false,
    }
}

/// A part of the entries.
pub fn part(told: Told) -> Result<Vec<(u64, u64)>, MapError>
    ensures part { IfOk result (λ pairs. part_in told ≡ Ok pairs.items) }
    ensures refused { IfErr result (λ error. part_in told ≡ Err error) }
{
    match told? {
        Answer::Part(pairs) => Ok(pairs.into_vec()),
        _ => Err(MapError::Memory),
    }
}

/// A key with its value, if there is one.
pub fn first(told: Told) -> Result<Option<(u64, u64)>, MapError>
    ensures { result ≡ first_in told }
{
    match told? {
        Answer::First(pair) => Ok(pair),
        _ => Err(MapError::Memory),
    }
}

/// Whether the handle's map may be changed by it.
pub fn writable(told: Told) -> Result<bool, MapError>
    ensures { result ≡ writable_in told }
{
    match told? {
        Answer::Writable(writable) => Ok(writable),
        _ => Err(MapError::Memory),
    }
}

/// Nothing but that the handle has the other one's map.
pub fn restored(told: Told) -> Result<(), MapError>
    ensures { result ≡ restored_in told }
{
    match told? {
        Answer::Restored => Ok(()),
        _ => Err(MapError::Memory),
    }
}
