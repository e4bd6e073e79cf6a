//! Calls of each kind that can be under way, in a number of tries or as long as it takes. Those that open a handle reserve a number first, and give it back where
//! they are refused.

ghost use Rattle.std.specs.Prelude.{◌≡◌, ◌<◌, ◌≤◌, ◌⊎◌, ℕ, false, Some, None};
ghost use Rattle.history.specs.declared.calls.Call.{Call as AnyCall};
ghost use Rattle.machine_model.specs.Calls.{copies, opens_handle};
ghost use Rattle.lock_free.specs.declared.rules.View.{View};
ghost use Rattle.lock_free.specs.Attempts.{IsTried};
ghost use Rattle.lock_free.specs.BegunCalls.{HasReservedFor};
ghost use Rattle.lock_free.specs.Calling.{IsRunning};
ghost use Rattle.lock_free.specs.Loading.{IsSound};
ghost use Rattle.lock_free.specs.Parking.{IsCome};
ghost use Rattle.lock_free.specs.Seeking.{IsCalled};
ghost use Rattle.lock_free.specs.Stocks.{IsStock};
ghost use Rattle.lock_free.specs.TriedCalls.{settled, HasRunTry, HasTold, HoldsNumber, IsParkedCall};
ghost use Rattle.lock_free.specs.UnderWay.{HasLeftBy, HasRunOut, IsGoing, IsUnderWay};
ghost use Rattle.lock_free.specs.WholeCalls.{HasLeft, RestsWith};

use crate::call_errors::CallError;
use crate::call_runs::{HANDLES, Ran, come_out, run_on_within, run_with, run_within};
use crate::laws::seats_are_explained;
use crate::loads::{Actor, Words};
use crate::numbers::{give_back, reserve};
use crate::parking::{Came, Parked};
use crate::stock::Stock;
use history::{Access, Call, Reply};
use std::sync::Wait;

/// Whether the call opens a handle.
fn opens_handle(call: Call) -> bool
    ensures { result ≡ opens_handle call }
{
    matches!(call, Call::Snapshot { .. } | Call::Freeze { .. })
}

/// Reserves a number for the handle that this call opens, if it opens one.
#[inline(always)]
fn reserve_for(words: &Words, actor: &mut Actor, call: Call) -> Result<Option<u16>, CallError>
    requires table { actor.old.table_id ≡ words.now.table_id }
    requires sound { IsSound words.now.table_id.words actor.old.me.0 }
    requires ready { RestsWith actor.old.me.0 None }
    ensures table { actor.new.table_id ≡ actor.old.table_id }
    ensures sound { IsSound words.now.table_id.words actor.new.me.0 }
    ensures reserved { HasReservedFor actor.old.me.0 call result actor.new.me.0 }
{
    if call.handle() >= HANDLES {
        return Err(CallError::NoHandle);
    }
    if !opens_handle(call) {
        return Ok(None);
    }
    match reserve(words, actor) {
        Some(number) => Ok(Some(number)),
        None => Err(CallError::HandlesFull),
    }
}

/// Gives the number back that was reserved for a call, where that was refused.
fn settle_number(words: &Words, actor: &mut Actor, opens: Option<u16>, ran: &Ran)
    requires table { actor.old.table_id ≡ words.now.table_id }
    requires sound { IsSound words.now.table_id.words actor.old.me.0 }
    requires low { (number : ℕ) → opens ≡ Some number → number < 256 }
    requires holds { HoldsNumber actor.old.me.0 opens ran.now }
    ensures table { actor.new.table_id ≡ actor.old.table_id }
    ensures sound { IsSound words.now.table_id.words actor.new.me.0 }
    ensures settled { actor.new.me.0 ≡ settled opens ran.now actor.old.me.0 }
{
    let Some(number) = opens else {
        return;
    };
    if let Ran::Told(Err(_)) = ran {
        give_back(words, actor, number);
    }
}

/// A call by this seat, `seat`, whose begin and each of whose loops take so many tries at most.
pub(crate) fn try_within(
    tries: u64,
    words: &Words,
    actor: &mut Actor,
    stock: &mut Stock,
    seat: u8,
    call: Call,
) -> Ran
    requires table { actor.old.table_id ≡ words.now.table_id }
    requires sound { IsSound words.now.table_id.words actor.old.me.0 }
    requires stock { IsStock stock.old actor.old.me.0 }
    requires its { actor.old.me.0.actor ≡ seat }
    requires few { actor.old.me.0.actor ≤ actor.old.me.0.sizes.seats }
    requires tried { IsTried call }
    requires ready { RestsWith actor.old.me.0 None }
    ensures table { actor.new.table_id ≡ actor.old.table_id }
    ensures sound { IsSound words.now.table_id.words actor.new.me.0 }
    ensures stock { IsStock stock.new actor.new.me.0 }
    ensures run { HasRunTry actor.old.me.0 call result actor.new.me.0 ⊎ HasRunOut actor.old.me.0 result actor.new.me.0 }
    ensures left { HasLeftBy actor.old.me.0 call result actor.new.me.0 }
{
    seats_are_explained();
    let opens = match reserve_for(words, actor, call) {
        Ok(opens) => opens,
        Err(why) => return Ran::Told(Err(why)),
    };
    let ran = run_within(tries, words, actor, stock, seat, call, opens);
    settle_number(words, actor, opens, &ran);
    ran
}

/// A call by this seat, `seat`, which begins as often as it takes.
#[inline(always)]
fn try_begun<R: Wait>(
    rt: &R,
    words: &Words,
    actor: &mut Actor,
    stock: &mut Stock,
    seat: u8,
    call: Call,
) -> Ran
    requires table { actor.old.table_id ≡ words.now.table_id }
    requires sound { IsSound words.now.table_id.words actor.old.me.0 }
    requires stock { IsStock stock.old actor.old.me.0 }
    requires its { actor.old.me.0.actor ≡ seat }
    requires few { actor.old.me.0.actor ≤ actor.old.me.0.sizes.seats }
    requires tried { IsTried call }
    requires ready { RestsWith actor.old.me.0 None }
    ensures table { actor.new.table_id ≡ actor.old.table_id }
    ensures sound { IsSound words.now.table_id.words actor.new.me.0 }
    ensures stock { IsStock stock.new actor.new.me.0 }
    ensures run { HasRunTry actor.old.me.0 call result actor.new.me.0 }
    ensures left { HasLeftBy actor.old.me.0 call result actor.new.me.0 }
{
    seats_are_explained();
    let opens = match reserve_for(words, actor, call) {
        Ok(opens) => opens,
        Err(why) => return Ran::Told(Err(why)),
    };
    let ran = run_with(rt, words, actor, stock, seat, call, opens);
    settle_number(words, actor, opens, &ran);
    ran
}

/// What is under way of a call by this seat, `seat`, goes on in so many tries.
pub(crate) fn try_on(
    tries: u64,
    words: &Words,
    actor: &mut Actor,
    stock: &mut Stock,
    seat: u8,
    call: Call,
    access: Access,
    parked: Parked,
) -> Ran
    requires table { actor.old.table_id ≡ words.now.table_id }
    requires sound { IsSound words.now.table_id.words actor.old.me.0 }
    requires stock { IsStock stock.old actor.old.me.0 }
    requires its { actor.old.me.0.actor ≡ seat }
    requires few { actor.old.me.0.actor ≤ actor.old.me.0.sizes.seats }
    requires going { IsGoing actor.old.me.0 call access parked }
    ensures table { actor.new.table_id ≡ actor.old.table_id }
    ensures sound { IsSound words.now.table_id.words actor.new.me.0 }
    ensures stock { IsStock stock.new actor.new.me.0 }
    ensures run { (before : View) (any : AnyCall) → IsTried any → IsParkedCall before any actor.old.me.0 → HasRunTry before any result actor.new.me.0 }
    ensures left { HasLeftBy actor.old.me.0 call result actor.new.me.0 }
{
    seats_are_explained();
    let opens = parked.opens();
    let ran = run_on_within(tries, words, actor, stock, seat, call, access, parked);
    settle_number(words, actor, opens, &ran);
    ran
}

/// The same, until the call is over.
fn until_over<R: Wait>(
    rt: &R,
    words: &Words,
    actor: &mut Actor,
    stock: &mut Stock,
    seat: u8,
    call: Call,
    access: Access,
    parked: Parked,
) -> Result<Reply, CallError>
    requires table { actor.old.table_id ≡ words.now.table_id }
    requires sound { IsSound words.now.table_id.words actor.old.me.0 }
    requires stock { IsStock stock.old actor.old.me.0 }
    requires its { actor.old.me.0.actor ≡ seat }
    requires few { actor.old.me.0.actor ≤ actor.old.me.0.sizes.seats }
    requires going { IsGoing actor.old.me.0 call access parked }
    ensures table { actor.new.table_id ≡ actor.old.table_id }
    ensures sound { IsSound words.now.table_id.words actor.new.me.0 }
    ensures stock { IsStock stock.new actor.new.me.0 }
    ensures told { (before : View) (any : AnyCall) → IsTried any → IsParkedCall before any actor.old.me.0 → HasTold before any result actor.new.me.0 }
    ensures left { HasLeft actor.old.me.0 actor.new.me.0 }
{
    let (mut access, mut parked) = (access, parked);
    for _ in rt.forever() {
        match try_on(u64::MAX, words, actor, stock, seat, call, access, parked) {
            Ran::Told(told) => return told,
            Ran::UnderWay(allowed, next) => {
                access = allowed;
                parked = next;
            }
        }
    }
    unreachable!()
}

/// A call that opens no handle, whose tries have come to this, is brought to its end, as long as it takes.
pub(crate) fn end_call<R: Wait>(
    rt: &R,
    words: &Words,
    actor: &mut Actor,
    stock: &mut Stock,
    seat: u8,
    call: Call,
    access: Access,
    came: Came,
) -> Result<Reply, CallError>
    requires table { actor.old.table_id ≡ words.now.table_id }
    requires sound { IsSound words.now.table_id.words actor.old.me.0 }
    requires stock { IsStock stock.old actor.old.me.0 }
    requires its { actor.old.me.0.actor ≡ seat }
    requires few { actor.old.me.0.actor ≤ actor.old.me.0.sizes.seats }
    requires tried { IsTried call }
    requires running { IsRunning actor.old.me.0 }
    requires keyed { copies call ≡ false }
    requires called { IsCalled actor.old.me.0 call access }
    requires none { actor.old.me.0.opens ≡ None }
    requires come { IsCome actor.old.me.0 came }
    ensures table { actor.new.table_id ≡ actor.old.table_id }
    ensures sound { IsSound words.now.table_id.words actor.new.me.0 }
    ensures stock { IsStock stock.new actor.new.me.0 }
    ensures told { (before : View) → IsUnderWay before call None actor.old.me.0 → HasTold before call result actor.new.me.0 }
    ensures left { HasLeft actor.old.me.0 actor.new.me.0 }
{
    seats_are_explained();
    match come_out(words, actor, stock, seat, call, access, came) {
        Ran::Told(told) => told,
        Ran::UnderWay(allowed, parked) => until_over(
            rt, words, actor, stock, seat, call, allowed, parked,
        ),
    }
}

/// A call by this seat, `seat`, as long as it takes.
pub(crate) fn run_to_end<R: Wait>(
    rt: &R,
    words: &Words,
    actor: &mut Actor,
    stock: &mut Stock,
    seat: u8,
    call: Call,
) -> Result<Reply, CallError>
    requires table { actor.old.table_id ≡ words.now.table_id }
    requires sound { IsSound words.now.table_id.words actor.old.me.0 }
    requires stock { IsStock stock.old actor.old.me.0 }
    requires its { actor.old.me.0.actor ≡ seat }
    requires few { actor.old.me.0.actor ≤ actor.old.me.0.sizes.seats }
    requires tried { IsTried call }
    requires ready { RestsWith actor.old.me.0 None }
    ensures table { actor.new.table_id ≡ actor.old.table_id }
    ensures sound { IsSound words.now.table_id.words actor.new.me.0 }
    ensures stock { IsStock stock.new actor.new.me.0 }
    ensures told { HasTold actor.old.me.0 call result actor.new.me.0 }
    ensures left { HasLeft actor.old.me.0 actor.new.me.0 }
{
    match try_begun(rt, words, actor, stock, seat, call) {
        Ran::Told(told) => told,
        Ran::UnderWay(access, parked) => until_over(
            rt, words, actor, stock, seat, call, access, parked,
        ),
    }
}
