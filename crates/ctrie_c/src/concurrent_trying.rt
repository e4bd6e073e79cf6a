//! A call of a seat at a concurrent map, in a number of tries.

ghost use Rattle.std.specs.Prelude.{IfOk};
ghost use Rattle.concurrent_map.specs.Beneath.lock_free.specs.Attempts.{IsTried};
ghost use Rattle.concurrent_map.specs.Beneath.lock_free.specs.KeyReplies.{FitsCall};
ghost use Rattle.ctrie_c.specs.Threading.{Makes, Settles};

use crate::codes::NO_MAP;
use crate::held_callers::{HeldCaller, give_caller, take_caller};
use concurrent_map::{Call, Reply};
use std::alloc::Global;

/// Makes this call of the held seat in so many tries. Returns the reply, or the code that says why there is none.
pub(crate) fn try_call(
    alloc: Global,
    held: &mut HeldCaller,
    tries: u64,
    call: Call,
) -> Result<Reply, u32>
    requires { IsTried call }
    ensures made { Makes call result held.old.state held.new.state }
    ensures fits { IfOk result (FitsCall call) }
{
    match take_caller(alloc, held) {
        None => Err(NO_MAP),
        Some(mut seat) => {
            let told = seat.try_call(tries, call);
            give_caller(held, seat);
            told
        }
    }
}

/// Goes on with the call of the held seat that is under way, if one is, in this number of tries, and answers whether it is over. Its own
/// answer is lost.
#[unsafe(no_mangle)]
pub extern "C" fn ctrie_concurrent_try_settle(
    alloc: Global,
    held: &mut HeldCaller,
    tries: u64,
) -> u32
    ensures { Settles result held.old.state held.new.state }
{
    match take_caller(alloc, held) {
        None => NO_MAP,
        Some(mut seat) => {
            let code = seat.try_settle(tries);
            give_caller(held, seat);
            code
        }
    }
}
