//! A call of a seat begins, or its caller is told why not.

ghost use Rattle.std.specs.Prelude.{◌≡◌, ◌<◌, ◌≤◌, IfErr};
ghost use Rattle.machine_model.specs.Calls.{handle_of};
ghost use Rattle.lock_free.specs.BegunCalls.{HasBegunCall, HasTriedToBegin, IsReadyFor, RestsAgain};
ghost use Rattle.lock_free.specs.Loading.{IsSound};
ghost use Rattle.lock_free.specs.Stocks.{IsStock};

use crate::call_errors::CallError;
use crate::calling::{start, start_within};
use crate::lacks::Manner;
use crate::loads::{Actor, Words};
use crate::reading::Way;
use crate::stock::Stock;
use history::Call;
use std::sync::Wait;

/// Begins this call of this seat, `seat`, as often as it takes.
#[inline(always)]
pub(crate) fn begin_call<R: Wait>(
    rt: &R,
    words: &Words,
    actor: &mut Actor,
    stock: &mut Stock,
    seat: u8,
    call: Call,
) -> Result<Way, CallError>
    requires table { actor.old.table_id ≡ words.now.table_id }
    requires sound { IsSound words.now.table_id.words actor.old.me.0 }
    requires stock { IsStock stock.old actor.old.me.0 }
    requires its { actor.old.me.0.actor ≡ seat }
    requires few { actor.old.me.0.actor ≤ actor.old.me.0.sizes.seats }
    requires low { handle_of call < 256 }
    requires ready { IsReadyFor actor.old.me.0 call }
    ensures table { actor.new.table_id ≡ actor.old.table_id }
    ensures sound { IsSound words.now.table_id.words actor.new.me.0 }
    ensures stock { IsStock stock.new actor.new.me.0 }
    ensures begun { HasBegunCall actor.old.me.0 call result actor.new.me.0 }
    ensures rests { IfErr result (λ why. RestsAgain actor.old.me.0 actor.new.me.0) }
{
    stock.begin(Manner::Waits);
    match start(rt, words, actor, seat, stock.epoch(), &call) {
        Ok(way) => Ok(way),
        Err(denial) => Err(CallError::from(denial)),
    }
}

/// The same in so many looks.
#[inline(always)]
pub(crate) fn begin_call_within(
    tries: u64,
    words: &Words,
    actor: &mut Actor,
    stock: &mut Stock,
    seat: u8,
    call: Call,
) -> Result<Way, CallError>
    requires table { actor.old.table_id ≡ words.now.table_id }
    requires sound { IsSound words.now.table_id.words actor.old.me.0 }
    requires stock { IsStock stock.old actor.old.me.0 }
    requires its { actor.old.me.0.actor ≡ seat }
    requires few { actor.old.me.0.actor ≤ actor.old.me.0.sizes.seats }
    requires low { handle_of call < 256 }
    requires ready { IsReadyFor actor.old.me.0 call }
    ensures table { actor.new.table_id ≡ actor.old.table_id }
    ensures sound { IsSound words.now.table_id.words actor.new.me.0 }
    ensures stock { IsStock stock.new actor.new.me.0 }
    ensures begun { HasTriedToBegin actor.old.me.0 call result actor.new.me.0 }
    ensures rests { IfErr result (λ why. RestsAgain actor.old.me.0 actor.new.me.0) }
{
    stock.begin(Manner::Tries);
    match start_within(tries, words, actor, seat, stock.epoch(), &call) {
        Ok(Some(way)) => Ok(way),
        Ok(None) => Err(CallError::Spent),
        Err(denial) => Err(CallError::from(denial)),
    }
}
