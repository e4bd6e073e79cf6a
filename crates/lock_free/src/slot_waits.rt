//! Calls that have found no slot, while some are to be free for their seat soon: they wait, and begin anew. So do those that came to nothing.

ghost use Rattle.std.specs.Prelude.{◌≡◌, ◌≤◌, None, IsTrue};
ghost use Rattle.lock_free.specs.declared.rules.View.{View};
ghost use Rattle.lock_free.specs.Attempts.{IsKeyed, IsTried};
ghost use Rattle.lock_free.specs.Limbos.{HasReclaimedSome};
ghost use Rattle.lock_free.specs.Loading.{IsSound};
ghost use Rattle.lock_free.specs.SlotWaits.{HasToldAtLast, HasTriedInVain, IsInVain};
ghost use Rattle.lock_free.specs.Stocks.{IsStock};
ghost use Rattle.lock_free.specs.TriedCalls.{HasTold};
ghost use Rattle.lock_free.specs.WholeCalls.{HasLeft, RestsWith, SameSeat};

use crate::call_errors::CallError;
use crate::freeing::make_free;
use crate::key_runs::run_call;
use crate::lacks::Lack;
use crate::loads::{Actor, Words};
use crate::stock::Stock;
use crate::try_runs::run_to_end;
use history::{Call, Reply};
use std::sync::Wait;
use std::thread;

/// Whether a call that was told this, and has begun anew so often, is to begin anew: it has found no slot, while some are to be free for its seat
/// soon; or it lacked nothing, but what it was to share with others had gone meanwhile.
#[inline(always)]
fn begins_anew(stock: &Stock, told: &Result<Reply, CallError>, tried: u32) -> bool
    ensures { IsTrue result → IsInVain told.now }
{
    match told {
        Err(CallError::Full) => {
            matches!(stock.lacked(), Lack::SlotSoon) && tried < stock.patience().tries
        }
        Err(CallError::Spent) => matches!(stock.lacked(), Lack::Nothing),
        _ => false,
    }
}

/// Looks at the epoch until that has grown, or so many times; before the first of each sixteen looks other threads may run. Where the call has lacked nothing there is
/// nothing to wait for.
fn wait_for_epoch(words: &Words, actor: &mut Actor, stock: &mut Stock)
    requires table { actor.old.table_id ≡ words.now.table_id }
    requires sound { IsSound words.now.table_id.words actor.old.me.0 }
    requires stock { IsStock stock.old actor.old.me.0 }
    ensures table { actor.new.table_id ≡ actor.old.table_id }
    ensures sound { IsSound words.now.table_id.words actor.new.me.0 }
    ensures stock { IsStock stock.new actor.new.me.0 }
    ensures reclaimed { HasReclaimedSome actor.old.me.0 actor.new.me.0 }
{
    if matches!(stock.lacked(), Lack::Nothing) {
        return;
    }
    let epoch = stock.epoch();
    for look in 0..stock.patience().looks {
        if look % 16 == 0 {
            thread::yield_now();
        }
        make_free(words, actor, stock);
        if stock.epoch() != epoch {
            return;
        }
    }
}

/// A call by this seat, `seat`, which was refused such slots, or came to nothing, begins anew as long as that is so.
#[cold]
#[inline(never)]
fn call_anew<R: Wait>(
    rt: &R,
    words: &Words,
    actor: &mut Actor,
    stock: &mut Stock,
    seat: u8,
    call: Call,
) -> Result<Reply, CallError>
    requires table { actor.old.table_id ≡ words.now.table_id }
    requires sound { IsSound words.now.table_id.words actor.old.me.0 }
    requires stock { IsStock stock.old actor.old.me.0 }
    requires its { actor.old.me.0.actor ≡ seat }
    requires few { actor.old.me.0.actor ≤ actor.old.me.0.sizes.seats }
    requires tried { IsTried call }
    requires ready { RestsWith actor.old.me.0 None }
    ensures table { actor.new.table_id ≡ actor.old.table_id }
    ensures sound { IsSound words.now.table_id.words actor.new.me.0 }
    ensures stock { IsStock stock.new actor.new.me.0 }
    ensures told { (before : View) → HasTriedInVain before call actor.old.me.0 → HasToldAtLast before call result actor.new.me.0 }
    ensures left { HasLeft actor.old.me.0 actor.new.me.0 }
{
    let mut tried = 0u32;
    for _ in rt.forever() {
        wait_for_epoch(words, actor, stock);
        let told = run_to_end(rt, words, actor, stock, seat, call);
        tried = tried.saturating_add(1);
        if !begins_anew(stock, &told, tried) {
            stock.stop_waiting();
            return told;
        }
    }
    unreachable!()
}

/// A call by this seat, `seat`, that was told this: where it has found no slot, while some are to be free for the seat soon, or came to nothing, it
/// begins anew.
#[inline(always)]
fn wait_for_slots<R: Wait>(
    rt: &R,
    words: &Words,
    actor: &mut Actor,
    stock: &mut Stock,
    seat: u8,
    call: Call,
    told: Result<Reply, CallError>,
) -> Result<Reply, CallError>
    requires table { actor.old.table_id ≡ words.now.table_id }
    requires sound { IsSound words.now.table_id.words actor.old.me.0 }
    requires stock { IsStock stock.old actor.old.me.0 }
    requires its { actor.old.me.0.actor ≡ seat }
    requires few { actor.old.me.0.actor ≤ actor.old.me.0.sizes.seats }
    requires tried { IsTried call }
    requires ready { RestsWith actor.old.me.0 None }
    ensures table { actor.new.table_id ≡ actor.old.table_id }
    ensures sound { IsSound words.now.table_id.words actor.new.me.0 }
    ensures stock { IsStock stock.new actor.new.me.0 }
    ensures told { (before : View) → SameSeat before actor.old.me.0 → HasTold before call told actor.old.me.0 → HasToldAtLast before call result actor.new.me.0 }
    ensures left { HasLeft actor.old.me.0 actor.new.me.0 }
{
    if begins_anew(stock, &told, 0) {
        call_anew(rt, words, actor, stock, seat, call)
    } else {
        told
    }
}

/// A call of any kind by this seat, `seat`, as long as it takes; it waits for slots in between.
pub(crate) fn run_at_last<R: Wait>(
    rt: &R,
    words: &Words,
    actor: &mut Actor,
    stock: &mut Stock,
    seat: u8,
    call: Call,
) -> Result<Reply, CallError>
    requires table { actor.old.table_id ≡ words.now.table_id }
    requires sound { IsSound words.now.table_id.words actor.old.me.0 }
    requires stock { IsStock stock.old actor.old.me.0 }
    requires its { actor.old.me.0.actor ≡ seat }
    requires few { actor.old.me.0.actor ≤ actor.old.me.0.sizes.seats }
    requires tried { IsTried call }
    requires ready { RestsWith actor.old.me.0 None }
    ensures table { actor.new.table_id ≡ actor.old.table_id }
    ensures sound { IsSound words.now.table_id.words actor.new.me.0 }
    ensures stock { IsStock stock.new actor.new.me.0 }
    ensures told { HasToldAtLast actor.old.me.0 call result actor.new.me.0 }
    ensures left { HasLeft actor.old.me.0 actor.new.me.0 }
{
    let told = run_to_end(rt, words, actor, stock, seat, call);
    wait_for_slots(rt, words, actor, stock, seat, call, told)
}

/// A call on a key by this seat, `seat`, in the same manner.
#[inline(always)]
pub(crate) fn key_at_last<R: Wait>(
    rt: &R,
    words: &Words,
    actor: &mut Actor,
    stock: &mut Stock,
    seat: u8,
    call: Call,
) -> Result<Reply, CallError>
    requires table { actor.old.table_id ≡ words.now.table_id }
    requires sound { IsSound words.now.table_id.words actor.old.me.0 }
    requires stock { IsStock stock.old actor.old.me.0 }
    requires its { actor.old.me.0.actor ≡ seat }
    requires few { actor.old.me.0.actor ≤ actor.old.me.0.sizes.seats }
    requires keyed { IsKeyed call }
    requires ready { RestsWith actor.old.me.0 None }
    ensures table { actor.new.table_id ≡ actor.old.table_id }
    ensures sound { IsSound words.now.table_id.words actor.new.me.0 }
    ensures stock { IsStock stock.new actor.new.me.0 }
    ensures told { HasToldAtLast actor.old.me.0 call result actor.new.me.0 }
    ensures left { HasLeft actor.old.me.0 actor.new.me.0 }
{
    let told = run_call(rt, words, actor, stock, seat, call);
    wait_for_slots(rt, words, actor, stock, seat, call, told)
}
