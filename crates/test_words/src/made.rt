//! A call of a seat, as it stands in a history.

ghost use Rattle.std.specs.Prelude.{◌≡◌, true};
ghost use Rattle.lock_free.specs.Attempts.{IsKeyed, IsTried};

use history::{Call, Pairs, Reply};
use lock_free::{CallError, MapName, NamedSeat, NamedWords};
use std::alloc::Global;
use std::sync::Wait;

/// The reply to a call that was told an error, if it is in the history: then a key was crowded, or no slot was had.
fn reply_of(error: CallError) -> Option<Reply> {
    match error {
        CallError::Crowded => Some(Reply::Crowded),
        CallError::Full | CallError::WornOut | CallError::Memory => Some(Reply::NoSlots),
        _ => None,
    }
}

/// The reply to this call, which was told this, if it is in the history. A copy that was refused isn't: its handle has no number.
pub fn reply_to(call: Call, made: Result<Reply, CallError>) -> Option<Reply> {
    match made {
        Ok(reply) => Some(reply),
        Err(error) => match call {
            Call::Snapshot { .. } | Call::Freeze { .. } => None,
            _ => reply_of(error),
        },
    }
}

/// Whether something of the call can be under way.
pub fn is_tried(call: Call) -> bool
    ensures { result ≡ true → IsTried call }
{
    !matches!(
        call,
        Call::Close { .. } | Call::Count { .. } | Call::Entries { .. }
    )
}

/// Makes this call. Returns what it was told.
pub fn make<N: MapName, R: Wait>(
    rt: &R,
    alloc: Global,
    words: &NamedWords<N>,
    seat: &mut NamedSeat<N>,
    call: &Call,
) -> Result<Reply, CallError> {
    match *call {
        Call::Snapshot { handle } => seat.snapshot(rt, words, handle).map(Reply::Opened),
        Call::Freeze { handle } => seat.freeze(rt, words, handle).map(Reply::Opened),
        Call::Clear { handle } => seat.clear(rt, words, handle).map(|_| Reply::Cleared),
        Call::Close { handle } => seat.close(words, handle).map(|_| Reply::Closed),
        Call::Count { handle } => seat.count(alloc, rt, words, handle).map(Reply::Count),
        Call::Entries { handle } => match seat.entries(alloc, rt, words, handle) {
            Ok(pairs) => Ok(Reply::Pairs(Pairs::from_vec(pairs))),
            Err(error) => Err(error),
        },
        _ => make_on_key(rt, words, seat, call),
    }
}

/// Makes this call on a key.
fn make_on_key<N: MapName, R: Wait>(
    rt: &R,
    words: &NamedWords<N>,
    seat: &mut NamedSeat<N>,
    call: &Call,
) -> Result<Reply, CallError>
    requires keyed { IsKeyed call.now }
{
    match *call {
        Call::Get { handle, key } => seat.get(rt, words, handle, key).map(Reply::Found),
        Call::Put { handle, key, value } => {
            seat.put(rt, words, handle, key, value).map(Reply::Found)
        }
        Call::PutIfAbsent { handle, key, value } => seat
            .put_if_absent(rt, words, handle, key, value)
            .map(Reply::Found),
        Call::Replace { handle, key, value } => seat
            .replace(rt, words, handle, key, value)
            .map(Reply::Found),
        Call::ReplaceIf {
            handle,
            key,
            old,
            new,
        } => seat
            .replace_if(rt, words, handle, key, old, new)
            .map(Reply::Truth),
        Call::Remove { handle, key } => seat.remove(rt, words, handle, key).map(Reply::Found),
        Call::RemoveIf { handle, key, value } => seat
            .remove_if(rt, words, handle, key, value)
            .map(Reply::Truth),
        _ => unreachable!(),
    }
}
