//! The codes that say what a call on a concurrent map did.

ghost use Rattle.std.specs.Prelude.{◌≡◌, nat_eq, false, IfOk};
ghost use Rattle.history.specs.declared.replies.Reply.TheVariants.{Cleared};
ghost use Rattle.concurrent_map.specs.Beneath.lock_free.specs.KeyReplies.{TellsHandle, TellsTruth, TellsValue};
ghost use Rattle.ctrie_c.specs.Threading.{SaysCleared, SaysContained, SaysCount, SaysDone, SaysFound, SaysOpened, SaysTruth, Tells, code_of, coded};

use crate::codes::{NO, YES};
use crate::sharing::BUSY;
use concurrent_map::{CallError, Reply};

/// The number of seats is out of range, or the map would be too large.
pub(crate) const BAD_SIZES: u32 = 7;

/// Memory was refused.
pub(crate) const MEMORY: u32 = 9;

/// The call is under way.
pub(crate) const AGAIN: u32 = 17;

/// The call is out of tries, and nothing of it is under way.
pub(crate) const SPENT: u32 = 18;

/// Why a call was refused.
fn refused(why: CallError) -> u32
    ensures { result ≡ code_of why }
{
    match why {
        CallError::NoHandle => 2,
        CallError::ReadOnly => 3,
        CallError::HandlesFull => 4,
        CallError::Crowded => 5,
        CallError::Full => 6,
        CallError::WornOut => 8,
        CallError::Memory => MEMORY,
        CallError::NotReadOnly => 10,
        CallError::Busy => BUSY,
        CallError::Spent => SPENT,
    }
}

/// The answer, or the code of why there is none.
pub(crate) fn coded<A: Drop>(told: Result<A, CallError>) -> Result<A, u32>
    ensures { result ≡ coded told }
{
    match told {
        Ok(answer) => Ok(answer),
        Err(why) => Err(refused(why)),
    }
}

/// The code of the value that a key had, which is written where there is one.
pub(crate) fn tell_found(told: Result<Reply, u32>, value: &mut u64) -> u32
    requires { IfOk told TellsValue }
    ensures told { Tells (SaysFound value.new) told result }
    ensures kept { nat_eq result 1 ≡ false → value.new ≡ value.old }
{
    match told {
        Ok(Reply::Found(None)) => NO,
        Ok(Reply::Found(Some(found))) => {
            *value = found;
            YES
        }
        Ok(_) => unreachable!(),
        Err(code) => code,
    }
}

/// The code of whether a key has a value.
pub(crate) fn tell_contained(told: Result<Reply, u32>) -> u32
    requires { IfOk told TellsValue }
    ensures { Tells SaysContained told result }
{
    match told {
        Ok(Reply::Found(None)) => NO,
        Ok(Reply::Found(Some(_))) => YES,
        Ok(_) => unreachable!(),
        Err(code) => code,
    }
}

/// The code of whether it was so.
pub(crate) fn tell_whether(told: Result<Reply, u32>) -> u32
    requires { IfOk told TellsTruth }
    ensures { Tells SaysTruth told result }
{
    match told {
        Ok(Reply::Truth(false)) => NO,
        Ok(Reply::Truth(true)) => YES,
        Ok(_) => unreachable!(),
        Err(code) => code,
    }
}

/// The code of a clear.
pub(crate) fn tell_cleared(told: Result<Reply, u32>) -> u32
    requires { IfOk told (λ answer. answer ≡ Cleared) }
    ensures { Tells SaysCleared told result }
{
    match told {
        Ok(_) => NO,
        Err(code) => code,
    }
}

/// The code of a handle that was opened, which is written.
pub(crate) fn tell_opened(told: Result<Reply, u32>, handle: &mut u16) -> u32
    requires { IfOk told TellsHandle }
    ensures told { Tells (SaysOpened handle.new) told result }
    ensures kept { nat_eq result 0 ≡ false → handle.new ≡ handle.old }
{
    match told {
        Ok(Reply::Opened(opened)) => {
            *handle = opened;
            NO
        }
        Ok(_) => unreachable!(),
        Err(code) => code,
    }
}

/// The code of a close.
pub(crate) fn tell_closed(told: Result<(), u32>) -> u32
    ensures { Tells SaysDone told result }
{
    match told {
        Ok(()) => NO,
        Err(code) => code,
    }
}

/// The code of how many there are, which is written.
pub(crate) fn tell_counted(told: Result<u64, u32>, count: &mut u64) -> u32
    ensures told { Tells (SaysCount count.new) told result }
    ensures kept { nat_eq result 0 ≡ false → count.new ≡ count.old }
{
    match told {
        Ok(counted) => {
            *count = counted;
            NO
        }
        Err(code) => code,
    }
}
