//! The change of one key, from BUILD to the end of its SWAP.

ghost use Rattle.std.specs.Prelude.{◌≡◌, ◌<◌, IfErr, IfOk};
ghost use Rattle.lock_free.specs.Attempts.{attempted, attempted_by};
ghost use Rattle.lock_free.specs.Leaving.{IsUpdate, LeavesChange, LeavesSwap};
ghost use Rattle.lock_free.specs.Loading.{IsSound};
ghost use Rattle.lock_free.specs.Passing.{IsOnWay};
ghost use Rattle.lock_free.specs.Stocks.{IsStock};
ghost use Rattle.lock_free.specs.Updating.{HasChanged, HasUpdated, IsAtChange, IsAtUpdate};

use crate::attempts::Attempt;
use crate::building::{Builder, build, drops_at};
use crate::changing::{Edit, build_main, drops_of};
use crate::leaving::Swapping;
use crate::loads::{Actor, Words};
use crate::makes::{class_for, entries_in};
use crate::parking::{Came, Parked};
use crate::reading::{Given, Way};
use crate::stock::Stock;
use crate::swapping::{Swapped, swap_made_within};
use crate::tasks::changed_reply;
use history::Call;
use machine_model::Site;

/// What a SWAP makes of a try of this call, whose key had this value before, or none.
fn attempted(swapped: Option<Swapped>, call: Call, former: Option<u64>) -> Attempt
    ensures { result ≡ attempted swapped call former }
{
    match swapped {
        None => Attempt::Comes(Came::Spent),
        Some(Swapped::Commits(_)) => Attempt::Comes(Came::Answered(changed_reply(call, former))),
        Some(Swapped::Fails(_)) => Attempt::Again,
        Some(Swapped::Misses) => Attempt::Again,
    }
}

/// The same of one whose SWAP may be under way.
pub(crate) fn attempted_by(
    swapped: Result<Option<Swapped>, Swapping>,
    call: Call,
    former: Option<u64>,
) -> Attempt
    ensures { result ≡ attempted_by swapped call former }
{
    match swapped {
        Ok(swapped) => attempted(swapped, call, former),
        Err(left) => Attempt::Comes(Came::Parked(Parked::Changes(left, former))),
    }
}

/// Makes what gives the key its new value, and swaps it in: the operation is answered, or begins a new try. None where no slot is had: then
/// it is in BUILD still. An `Err` has its SWAP that is under way.
#[inline(always)]
pub fn update_within(
    tries: u64,
    words: &Words,
    actor: &mut Actor,
    stock: &mut Stock,
    way: Way,
    indirection: u32,
    by: Builder,
    given: Given,
    site: Site,
    former: Option<u64>,
) -> Result<Option<Swapped>, Swapping>
    requires table { actor.old.table_id ≡ words.now.table_id }
    requires sound { IsSound words.now.table_id.words actor.old.me.0 }
    requires stock { IsStock stock.old actor.old.me.0 }
    requires way { IsOnWay actor.old.me.0 way }
    requires at { IsAtUpdate actor.old.me.0 by given site former indirection }
    ensures table { actor.new.table_id ≡ actor.old.table_id }
    ensures sound { IsSound words.now.table_id.words actor.new.me.0 }
    ensures stock { IsStock stock.new actor.new.me.0 }
    ensures updated { IfOk result (λ updated. HasUpdated actor.old.me.0 former updated actor.new.me.0) }
    ensures left { IfErr result (λ left. LeavesSwap (IsUpdate former) actor.old.me.0 left actor.new.me.0) }
{
    let count = entries_in(given.header.shape);
    let Some(fresh) = build(tries, words, actor, stock, by, given, count, site, former) else {
        return Ok(None);
    };
    match swap_made_within(
        tries,
        words,
        actor,
        stock,
        way,
        indirection,
        given.link,
        class_for(count),
        fresh,
        drops_at(site),
        &[],
    ) {
        Ok(swapped) => Ok(Some(swapped)),
        Err(swapping) => Err(swapping),
    }
}

/// Makes this change of the main node that READ gave, where the operation's key has this flag, and swaps it in: the operation is answered,
/// or climbs after a tomb, or begins a new try. None where no slot is had: then it is where it was. An `Err` has its SWAP that is under
/// way.
#[inline(always)]
pub fn change_main_within(
    tries: u64,
    words: &Words,
    actor: &mut Actor,
    stock: &mut Stock,
    way: Way,
    indirection: u32,
    given: Given,
    flag: u32,
    change: Edit,
) -> Result<Option<Swapped>, Swapping>
    requires table { actor.old.table_id ≡ words.now.table_id }
    requires sound { IsSound words.now.table_id.words actor.old.me.0 }
    requires stock { IsStock stock.old actor.old.me.0 }
    requires way { IsOnWay actor.old.me.0 way }
    requires some { 0 < flag }
    requires at { IsAtChange actor.old.me.0 indirection given flag change }
    ensures table { actor.new.table_id ≡ actor.old.table_id }
    ensures sound { IsSound words.now.table_id.words actor.new.me.0 }
    ensures stock { IsStock stock.new actor.new.me.0 }
    ensures changed { IfOk result (λ changed. HasChanged actor.old.me.0 changed actor.new.me.0) }
    ensures left { IfErr result (λ left. LeavesChange actor.old.me.0 left actor.new.me.0) }
{
    let main = given.link.main;
    let count = entries_in(given.header.shape);
    let Some(fresh) = build_main(
        tries,
        words,
        actor,
        stock,
        main,
        given.header.shape,
        count,
        flag,
        change,
    ) else {
        return Ok(None);
    };
    match swap_made_within(
        tries,
        words,
        actor,
        stock,
        way,
        indirection,
        given.link,
        class_for(count),
        fresh,
        drops_of(change),
        &[],
    ) {
        Ok(swapped) => Ok(Some(swapped)),
        Err(swapping) => Err(swapping),
    }
}
