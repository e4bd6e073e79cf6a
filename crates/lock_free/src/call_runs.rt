//! Whole calls in a number of tries.

ghost use Rattle.std.specs.Prelude.{◌≡◌, ◌<◌, ◌≤◌, ◌⊎◌, ℕ, false, is_some, None, Some};
ghost use Rattle.machine_model.specs.Calls.{copies, handle_of, opens_handle};
ghost use Rattle.machine_model.specs.Lines.{new_try};
ghost use Rattle.lock_free.specs.declared.call_errors.CallError.{CallError as Error};
ghost use Rattle.lock_free.specs.Attempts.{IsEnding, IsTried};
ghost use Rattle.lock_free.specs.CellWords.{HasTidied};
ghost use Rattle.lock_free.specs.Holding.{IsOn};
ghost use Rattle.lock_free.specs.Loading.{IsSound};
ghost use Rattle.lock_free.specs.Parking.{opens_of, IsCome, IsToOpenAs};
ghost use Rattle.lock_free.specs.Passing.{IsOnWay};
ghost use Rattle.lock_free.specs.SeatCalls.{told_by, IsLackOf};
ghost use Rattle.lock_free.specs.Seeking.{IsCalled};
ghost use Rattle.lock_free.specs.Stocks.{IsStock};
ghost use Rattle.lock_free.specs.UnderWay.{HasComeOut, HasFinished, HasLeftWith, HasRunOn, HasRunOut, HasRunTill, HasRunWith, IsGoing};
ghost use Rattle.lock_free.specs.WholeCalls.{RestsWith};

use crate::beginning::{begin_call, begin_call_within};
use crate::call_errors::CallError;
use crate::copy_runs::{is_copy, run_tried};
use crate::freeing::{let_go, make_free};
use crate::heaps::give_over;
use crate::lacks::Lack;
use crate::loads::{Actor, Words};
use crate::parking::{Came, Parked, go_on};
use crate::reading::Way;
use crate::seating::end_with;
use crate::stock::Stock;
use history::{Access, Call, Reply};
use std::sync::Wait;

/// So many handles there are at most.
pub(crate) const HANDLES: u16 = 256;

/// How far a call has come.
#[derive(Drop)]
pub enum Ran {
    /// It is over, and its caller is told this.
    Told(Result<Reply, CallError>),
    /// This is under way, on a handle that allows that.
    UnderWay(Access, Parked),
}

/// What the caller is told of this reply; where the operation has given up it lacked this.
#[inline(always)]
fn told_by(reply: Reply, lack: CallError) -> Result<Reply, CallError>
    ensures { result ≡ told_by reply lack }
{
    match reply {
        Reply::Crowded => Err(CallError::Crowded),
        Reply::NoSlots => Err(lack),
        other => Ok(other),
    }
}

/// What an operation of this call lacked that has given up. One in a number of tries is out of these rather than without a slot, where some are to
/// be free soon: its caller calls again.
#[inline(always)]
fn lack_of(stock: &Stock, call: Call) -> CallError
    ensures { IsLackOf call result }
{
    match stock.lacked() {
        Lack::Slot | Lack::SlotSoon => CallError::Full,
        Lack::Generation if is_copy(call) => CallError::WornOut,
        Lack::Generation | Lack::Tries | Lack::Nothing => CallError::Spent,
    }
}

/// What the caller of this call is told of this reply.
#[inline(always)]
fn told_of(stock: &Stock, call: Call, reply: Reply) -> Result<Reply, CallError>
    ensures { (lack : Error) × IsLackOf call lack × (result ≡ told_by reply lack) }
{
    match reply {
        Reply::NoSlots => Err(lack_of(stock, call)),
        other => told_by(other, CallError::Full),
    }
}

/// Where the seat is to look at the epoch, makes some of what it has retired free for it, and gives others some of what it has over; but after
/// no copy, since the word of the number that it has reserved may name one of these slots.
#[inline(always)]
fn tidy_up(words: &Words, actor: &mut Actor, stock: &mut Stock, call: Call, is_due: bool)
    requires table { actor.old.table_id ≡ words.now.table_id }
    requires sound { IsSound words.now.table_id.words actor.old.me.0 }
    requires stock { IsStock stock.old actor.old.me.0 }
    requires unopened { copies call ≡ false → actor.old.me.0.opens ≡ None }
    ensures table { actor.new.table_id ≡ actor.old.table_id }
    ensures sound { IsSound words.now.table_id.words actor.new.me.0 }
    ensures stock { IsStock stock.new actor.new.me.0 }
    ensures tidied { HasTidied actor.old.me.0 actor.new.me.0 }
{
    if !is_due {
        return;
    }
    make_free(words, actor, stock);
    if is_copy(call) {
        stock.note_to_give();
    } else if stock.has_to_give() {
        give_over(words, actor, stock);
    }
}

/// Ends the operation of this call by this seat, `seat`, with this reply, or as one that gives up. Some of what the seat has retired may be free
/// for it then, or for others.
#[inline(always)]
pub(crate) fn finish_call(
    words: &Words,
    actor: &mut Actor,
    stock: &mut Stock,
    seat: u8,
    call: Call,
    answered: Option<Reply>,
) -> Result<Reply, CallError>
    requires table { actor.old.table_id ≡ words.now.table_id }
    requires sound { IsSound words.now.table_id.words actor.old.me.0 }
    requires stock { IsStock stock.old actor.old.me.0 }
    requires its { actor.old.me.0.actor ≡ seat }
    requires few { actor.old.me.0.actor ≤ actor.old.me.0.sizes.seats }
    requires ending { IsEnding actor.old.me.0 answered }
    requires unopened { copies call ≡ false → actor.old.me.0.opens ≡ None }
    ensures table { actor.new.table_id ≡ actor.old.table_id }
    ensures sound { IsSound words.now.table_id.words actor.new.me.0 }
    ensures stock { IsStock stock.new actor.new.me.0 }
    ensures finished { HasFinished actor.old.me.0 call result actor.new.me.0 }
{
    let is_due = stock.is_due();
    let_go(words, actor, stock, is_due);
    let reply = end_with(words, actor, stock, seat, answered);
    let told = told_of(stock, call, reply);
    tidy_up(words, actor, stock, call, is_due);
    told
}

/// Ends the operation of this call by this seat, `seat`, on a handle that allows this, unless something of it is under way.
#[inline(always)]
pub(crate) fn come_out(
    words: &Words,
    actor: &mut Actor,
    stock: &mut Stock,
    seat: u8,
    call: Call,
    access: Access,
    came: Came,
) -> Ran
    requires table { actor.old.table_id ≡ words.now.table_id }
    requires sound { IsSound words.now.table_id.words actor.old.me.0 }
    requires stock { IsStock stock.old actor.old.me.0 }
    requires its { actor.old.me.0.actor ≡ seat }
    requires few { actor.old.me.0.actor ≤ actor.old.me.0.sizes.seats }
    requires come { IsCome actor.old.me.0 came }
    requires unopened { copies call ≡ false → actor.old.me.0.opens ≡ None }
    ensures table { actor.new.table_id ≡ actor.old.table_id }
    ensures sound { IsSound words.now.table_id.words actor.new.me.0 }
    ensures stock { IsStock stock.new actor.new.me.0 }
    ensures out { HasComeOut actor.old.me.0 call access result actor.new.me.0 }
{
    match came {
        Came::Answered(reply) => {
            let answered = Some(reply);
            Ran::Told(finish_call(words, actor, stock, seat, call, answered))
        }
        Came::Spent => Ran::Told(finish_call(words, actor, stock, seat, call, None)),
        Came::Parked(parked) => Ran::UnderWay(access, parked),
    }
}

/// The rest of a call by this seat, `seat`, which has begun on this way and is to open this handle, or none. Each of its loops takes so many
/// tries at most.
#[inline(always)]
fn run_begun(
    tries: u64,
    words: &Words,
    actor: &mut Actor,
    stock: &mut Stock,
    seat: u8,
    call: Call,
    way: Way,
    opens: Option<u16>,
) -> Ran
    requires table { actor.old.table_id ≡ words.now.table_id }
    requires sound { IsSound words.now.table_id.words actor.old.me.0 }
    requires stock { IsStock stock.old actor.old.me.0 }
    requires its { actor.old.me.0.actor ≡ seat }
    requires few { actor.old.me.0.actor ≤ actor.old.me.0.sizes.seats }
    requires called { IsCalled actor.old.me.0 call way.access }
    requires way { IsOnWay actor.old.me.0 way }
    requires low { way.handle < 256 }
    requires opens { IsToOpenAs actor.old.me.0 opens }
    requires at { IsOn actor.old.me.0 new_try }
    requires unopened { copies call ≡ false → actor.old.me.0.opens ≡ None }
    ensures table { actor.new.table_id ≡ actor.old.table_id }
    ensures sound { IsSound words.now.table_id.words actor.new.me.0 }
    ensures stock { IsStock stock.new actor.new.me.0 }
    ensures run { HasRunTill actor.old.me.0 call way.access result actor.new.me.0 }
{
    let came = run_tried(tries, words, actor, stock, call, way, opens);
    come_out(words, actor, stock, seat, call, way.access, came)
}

/// A call by this seat, `seat`, which has reserved this number for it if it opens a handle. It begins as often as it takes.
#[inline(always)]
pub(crate) fn run_with<R: Wait>(
    rt: &R,
    words: &Words,
    actor: &mut Actor,
    stock: &mut Stock,
    seat: u8,
    call: Call,
    opens: Option<u16>,
) -> Ran
    requires table { actor.old.table_id ≡ words.now.table_id }
    requires sound { IsSound words.now.table_id.words actor.old.me.0 }
    requires stock { IsStock stock.old actor.old.me.0 }
    requires its { actor.old.me.0.actor ≡ seat }
    requires few { actor.old.me.0.actor ≤ actor.old.me.0.sizes.seats }
    requires low { handle_of call < 256 }
    requires tried { IsTried call }
    requires number { opens_handle call ≡ is_some opens }
    requires reserved { (number : ℕ) → opens ≡ Some number → number < 256 }
    requires ready { RestsWith actor.old.me.0 opens }
    ensures table { actor.new.table_id ≡ actor.old.table_id }
    ensures sound { IsSound words.now.table_id.words actor.new.me.0 }
    ensures stock { IsStock stock.new actor.new.me.0 }
    ensures run { HasRunWith actor.old.me.0 call opens result actor.new.me.0 }
    ensures left { HasLeftWith actor.old.me.0 call opens result actor.new.me.0 }
{
    match begin_call(rt, words, actor, stock, seat, call) {
        Ok(way) => run_begun(u64::MAX, words, actor, stock, seat, call, way, opens),
        Err(why) => Ran::Told(Err(why)),
    }
}

/// The same, where its begin and each of its loops take so many tries at most.
#[inline(always)]
pub(crate) fn run_within(
    tries: u64,
    words: &Words,
    actor: &mut Actor,
    stock: &mut Stock,
    seat: u8,
    call: Call,
    opens: Option<u16>,
) -> Ran
    requires table { actor.old.table_id ≡ words.now.table_id }
    requires sound { IsSound words.now.table_id.words actor.old.me.0 }
    requires stock { IsStock stock.old actor.old.me.0 }
    requires its { actor.old.me.0.actor ≡ seat }
    requires few { actor.old.me.0.actor ≤ actor.old.me.0.sizes.seats }
    requires low { handle_of call < 256 }
    requires tried { IsTried call }
    requires number { opens_handle call ≡ is_some opens }
    requires reserved { (number : ℕ) → opens ≡ Some number → number < 256 }
    requires ready { RestsWith actor.old.me.0 opens }
    ensures table { actor.new.table_id ≡ actor.old.table_id }
    ensures sound { IsSound words.now.table_id.words actor.new.me.0 }
    ensures stock { IsStock stock.new actor.new.me.0 }
    ensures run { HasRunWith actor.old.me.0 call opens result actor.new.me.0 ⊎ HasRunOut actor.old.me.0 result actor.new.me.0 }
    ensures left { HasLeftWith actor.old.me.0 call opens result actor.new.me.0 }
{
    match begin_call_within(tries, words, actor, stock, seat, call) {
        Ok(way) => run_begun(tries, words, actor, stock, seat, call, way, opens),
        Err(why) => Ran::Told(Err(why)),
    }
}

/// What is under way of a call by this seat, `seat`, goes on in so many tries.
pub(crate) fn run_on_within(
    tries: u64,
    words: &Words,
    actor: &mut Actor,
    stock: &mut Stock,
    seat: u8,
    call: Call,
    access: Access,
    parked: Parked,
) -> Ran
    requires table { actor.old.table_id ≡ words.now.table_id }
    requires sound { IsSound words.now.table_id.words actor.old.me.0 }
    requires stock { IsStock stock.old actor.old.me.0 }
    requires its { actor.old.me.0.actor ≡ seat }
    requires few { actor.old.me.0.actor ≤ actor.old.me.0.sizes.seats }
    requires going { IsGoing actor.old.me.0 call access parked }
    ensures table { actor.new.table_id ≡ actor.old.table_id }
    ensures sound { IsSound words.now.table_id.words actor.new.me.0 }
    ensures stock { IsStock stock.new actor.new.me.0 }
    ensures run { HasRunOn actor.old.me.0 call result actor.new.me.0 }
    ensures left { HasLeftWith actor.old.me.0 call (opens_of parked) result actor.new.me.0 }
{
    let came = go_on(tries, words, actor, stock, call, access, parked);
    come_out(words, actor, stock, seat, call, access, came)
}
