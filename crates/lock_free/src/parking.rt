//! Calls that are out of tries while something of theirs is under way.

ghost use Rattle.std.specs.Prelude.{◌≡◌, Option};
ghost use Rattle.machine_model.specs.Calls.{changed_reply};
ghost use Rattle.lock_free.specs.Leaving.{EndsOrMay, IsClimbAfter, IsRepair, IsUpdate};
ghost use Rattle.lock_free.specs.Loading.{IsSound};
ghost use Rattle.lock_free.specs.Parking.{HasRunTo, HasWoundUp, IsBare, IsOwnLeft, IsParked, IsSwapFor, StillOwns, left_so};
ghost use Rattle.lock_free.specs.Seeking.{IsCalled};
ghost use Rattle.lock_free.specs.Stocks.{IsStock};
ghost use Rattle.lock_free.specs.declared.parking.Came.TheVariants as came;

use crate::calling::cut_short;
use crate::copy_runs::copy_goes_on;
use crate::leaving::{Completing, Left, Swapping};
use crate::loads::{Actor, Words};
use crate::reading::Way;
use crate::reclaiming::Decided;
use crate::stock::Stock;
use crate::swapping::swap_on;
use crate::tasks::changed_reply;
use history::{Access, Call, Reply};

/// What is under way of a call that is out of tries: it is published, and what it comes to isn't known yet.
#[derive(Clone, Copy, Drop)]
pub enum Parked {
    /// The SWAP of a repair on the way to its key.
    Repairs(Swapping),
    /// The SWAP of its change of a key that had this value.
    Changes(Swapping, Option<u64>),
    /// The SWAP of a climb after its removal of a key that had this value.
    Climbs(Swapping, Option<u64>),
    /// The COMPLETE of the own offer of a copy that opens this handle, or of a clear.
    Copies(Completing, Option<u16>),
}

impl Parked {
    ghost use Rattle.lock_free.specs.Parking.{opens_of};

    /// The number that is reserved for the handle which its call opens.
    pub(crate) fn opens(&self) -> Option<u16>
        ensures { result ≡ opens_of self.now }
    {
        match *self {
            Parked::Copies(_, opens) => opens,
            _ => None,
        }
    }
}

/// What a call comes to in a number of tries.
#[derive(Drop)]
pub enum Came {
    /// Its operation is to end with this reply.
    Answered(Reply),
    /// It is out of tries, or no slot is had, and nothing of it is under way: its operation may give up, as one that finds no slot.
    Spent,
    /// It is out of tries, and this is under way.
    Parked(Parked),
}

/// What a try comes to that is out of tries, or has no slot.
pub(crate) fn left_so(left: Left) -> Came
    requires { IsOwnLeft left }
    ensures { result ≡ left_so left }
{
    match left {
        Left::MayGiveUp => Came::Spent,
        Left::Swapping(swapping) => Came::Parked(Parked::Repairs(swapping)),
        Left::Completing(_) => unreachable!(),
    }
}

/// The SWAP of a repair goes on. Once it has come to its end the operation may give up.
fn repair_on(
    tries: u64,
    words: &Words,
    actor: &mut Actor,
    stock: &mut Stock,
    call: Call,
    access: Access,
    swapping: Swapping,
) -> Came
    requires table { actor.old.table_id ≡ words.now.table_id }
    requires sound { IsSound words.now.table_id.words actor.old.me.0 }
    requires stock { IsStock stock.old actor.old.me.0 }
    requires called { IsCalled actor.old.me.0 call access }
    requires parked { IsSwapFor IsRepair actor.old.me.0 swapping }
    ensures table { actor.new.table_id ≡ actor.old.table_id }
    ensures sound { IsSound words.now.table_id.words actor.new.me.0 }
    ensures stock { IsStock stock.new actor.new.me.0 }
    ensures run { HasRunTo actor.old.me.0 result actor.new.me.0 }
{
    let handle = call.handle();
    match swap_on(tries, words, actor, stock, Way { handle, access }, swapping) {
        Ok(_) => Came::Spent,
        Err(next) => Came::Parked(Parked::Repairs(next)),
    }
}

/// Brings an operation whose change was committed to its end; a climb at which it may be is given up. Returns its reply, of a key that had
/// this value.
fn wind_up(words: &Words, actor: &mut Actor, call: Call, former: Option<u64>) -> Reply
    requires table { actor.old.table_id ≡ words.now.table_id }
    requires sound { IsSound words.now.table_id.words actor.old.me.0 }
    requires bare { IsBare actor.old.me.0 }
    requires ends { EndsOrMay actor.old.me.0 (changed_reply call former) }
    ensures table { actor.new.table_id ≡ actor.old.table_id }
    ensures sound { IsSound words.now.table_id.words actor.new.me.0 }
    ensures stays { StillOwns actor.old.me.0 actor.new.me.0 }
    ensures wound { HasWoundUp actor.old.me.0 result actor.new.me.0 }
{
    cut_short(words, actor);
    changed_reply(call, former)
}

/// The SWAP of a change goes on. Once it was committed the operation is to be answered, and once it was refused it may give up.
fn change_on(
    tries: u64,
    words: &Words,
    actor: &mut Actor,
    stock: &mut Stock,
    call: Call,
    access: Access,
    swapping: Swapping,
    former: Option<u64>,
) -> Came
    requires table { actor.old.table_id ≡ words.now.table_id }
    requires sound { IsSound words.now.table_id.words actor.old.me.0 }
    requires stock { IsStock stock.old actor.old.me.0 }
    requires called { IsCalled actor.old.me.0 call access }
    requires parked { IsSwapFor (IsUpdate former) actor.old.me.0 swapping }
    ensures table { actor.new.table_id ≡ actor.old.table_id }
    ensures sound { IsSound words.now.table_id.words actor.new.me.0 }
    ensures stock { IsStock stock.new actor.new.me.0 }
    ensures run { HasRunTo actor.old.me.0 result actor.new.me.0 }
{
    let handle = call.handle();
    match swap_on(tries, words, actor, stock, Way { handle, access }, swapping) {
        Ok(Decided::Commits(_)) => Came::Answered(wind_up(words, actor, call, former)),
        Ok(Decided::Fails(_)) => Came::Spent,
        Err(next) => Came::Parked(Parked::Changes(next, former)),
    }
}

/// The SWAP of a climb goes on. Once it has come to its end the operation is to be answered.
fn climb_on(
    tries: u64,
    words: &Words,
    actor: &mut Actor,
    stock: &mut Stock,
    call: Call,
    access: Access,
    swapping: Swapping,
    former: Option<u64>,
) -> Came
    requires table { actor.old.table_id ≡ words.now.table_id }
    requires sound { IsSound words.now.table_id.words actor.old.me.0 }
    requires stock { IsStock stock.old actor.old.me.0 }
    requires called { IsCalled actor.old.me.0 call access }
    requires parked { IsSwapFor (IsClimbAfter former) actor.old.me.0 swapping }
    ensures table { actor.new.table_id ≡ actor.old.table_id }
    ensures sound { IsSound words.now.table_id.words actor.new.me.0 }
    ensures stock { IsStock stock.new actor.new.me.0 }
    ensures run { HasRunTo actor.old.me.0 result actor.new.me.0 }
{
    let handle = call.handle();
    match swap_on(tries, words, actor, stock, Way { handle, access }, swapping) {
        Ok(_) => Came::Answered(wind_up(words, actor, call, former)),
        Err(next) => Came::Parked(Parked::Climbs(next, former)),
    }
}

/// What is under way of this call, on a handle that allows this, goes on in so many tries.
pub(crate) fn go_on(
    tries: u64,
    words: &Words,
    actor: &mut Actor,
    stock: &mut Stock,
    call: Call,
    access: Access,
    parked: Parked,
) -> Came
    requires table { actor.old.table_id ≡ words.now.table_id }
    requires sound { IsSound words.now.table_id.words actor.old.me.0 }
    requires stock { IsStock stock.old actor.old.me.0 }
    requires called { IsCalled actor.old.me.0 call access }
    requires parked { IsParked actor.old.me.0 parked }
    ensures table { actor.new.table_id ≡ actor.old.table_id }
    ensures sound { IsSound words.now.table_id.words actor.new.me.0 }
    ensures stock { IsStock stock.new actor.new.me.0 }
    ensures run { HasRunTo actor.old.me.0 result actor.new.me.0 }
{
    match parked {
        Parked::Repairs(swapping) => repair_on(tries, words, actor, stock, call, access, swapping),
        Parked::Changes(swapping, former) => change_on(
            tries, words, actor, stock, call, access, swapping, former,
        ),
        Parked::Climbs(swapping, former) => climb_on(
            tries, words, actor, stock, call, access, swapping, former,
        ),
        Parked::Copies(completing, opens) => copy_goes_on(
            tries, words, actor, stock, call, access, opens, completing,
        ),
    }
}
