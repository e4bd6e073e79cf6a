//! COPY of a call, in a number of tries, and from where its own offer stands.

ghost use Rattle.std.specs.Prelude.{◌≡◌, ◌<◌, IfErr, IfOk};
ghost use Rattle.machine_model.specs.Calls.{copies};
ghost use Rattle.machine_model.specs.Copying.{copied_reply};
ghost use Rattle.machine_model.specs.Lines.{new_try};
ghost use Rattle.lock_free.specs.CopySteps.{copy_kind, is_snapshot, HasSettledCopy, IsAtTry, IsCopying, IsKind, IsOwnCompleting, LeavesCopy};
ghost use Rattle.lock_free.specs.Holding.{IsOn};
ghost use Rattle.lock_free.specs.Loading.{IsSound};
ghost use Rattle.lock_free.specs.OwnOffers.{IsOwnCopy};
ghost use Rattle.lock_free.specs.Parking.{HasRunTo, IsCopyLeft, IsToOpenAs};
ghost use Rattle.lock_free.specs.Passing.{IsOnWay};
ghost use Rattle.lock_free.specs.Seeking.{IsCalled};
ghost use Rattle.lock_free.specs.Stocks.{IsStock};

use crate::attempts::run_key;
use crate::copies::{complete_own_on, make_copy_within};
use crate::copy_roots::CopyKind;
use crate::leaving::{Completing, Left};
use crate::loads::{Actor, Words};
use crate::parking::{Came, Parked};
use crate::parting::part_copy;
use crate::reading::Way;
use crate::stock::Stock;
use history::{Access, Call, Reply};

/// Which copy a call makes.
fn kind_of(call: Call) -> CopyKind
    ensures { result ≡ copy_kind call }
{
    match call {
        Call::Clear { .. } => CopyKind::Clear,
        Call::Snapshot { .. } => CopyKind::Snapshot,
        _ => CopyKind::Freeze,
    }
}

/// The reply to a copy that was made, which opens this handle, or to a clear.
fn copied_reply(call: Call, opens: Option<u16>) -> Reply
    ensures { result ≡ copied_reply call opens }
{
    match call {
        Call::Clear { .. } => Reply::Cleared,
        _ => Reply::Opened(opens.unwrap_or(0)),
    }
}

/// Settles the seat's own offer from there on, within so many tries, and parts it: the handle that it opens is open then, if it was carried
/// out. Returns whether it was; or from where it goes on.
fn settle_own(
    tries: u64,
    words: &Words,
    actor: &mut Actor,
    stock: &mut Stock,
    way: Way,
    which: CopyKind,
    opens: Option<u16>,
    completing: Completing,
) -> Result<bool, Completing>
    requires table { actor.old.table_id ≡ words.now.table_id }
    requires sound { IsSound words.now.table_id.words actor.old.me.0 }
    requires stock { IsStock stock.old actor.old.me.0 }
    requires way { IsOnWay actor.old.me.0 way }
    requires completing { IsOwnCompleting actor.old.me.0 way.handle completing }
    requires which { IsKind actor.old.me.0 which }
    requires own { IsOwnCopy actor.old.me.0 way.handle completing.offer opens (is_snapshot which) }
    ensures table { actor.new.table_id ≡ actor.old.table_id }
    ensures sound { IsSound words.now.table_id.words actor.new.me.0 }
    ensures stock { IsStock stock.new actor.new.me.0 }
    ensures settled { IfOk result (λ done. HasSettledCopy actor.old.me.0 done actor.new.me.0) }
    ensures on { IfErr result (λ next. LeavesCopy actor.old.me.0 which way.handle opens next actor.new.me.0) }
{
    let carried = match complete_own_on(tries, words, actor, stock, way, which, completing) {
        Ok(carried) => carried,
        Err(next) => return Err(next),
    };
    let handle = way.handle;
    part_copy(words, actor, stock, handle, which, opens, completing.offer);
    Ok(carried)
}

/// The COMPLETE of the own offer of this call's copy, on a handle that allows this, goes on in so many tries. Once it was carried out the
/// operation is to be answered, and once it was taken back it may give up.
pub(crate) fn copy_goes_on(
    tries: u64,
    words: &Words,
    actor: &mut Actor,
    stock: &mut Stock,
    call: Call,
    access: Access,
    opens: Option<u16>,
    completing: Completing,
) -> Came
    requires table { actor.old.table_id ≡ words.now.table_id }
    requires sound { IsSound words.now.table_id.words actor.old.me.0 }
    requires stock { IsStock stock.old actor.old.me.0 }
    requires called { IsCalled actor.old.me.0 call access }
    requires parked { IsCopyLeft actor.old.me.0 completing opens }
    ensures table { actor.new.table_id ≡ actor.old.table_id }
    ensures sound { IsSound words.now.table_id.words actor.new.me.0 }
    ensures stock { IsStock stock.new actor.new.me.0 }
    ensures run { HasRunTo actor.old.me.0 result actor.new.me.0 }
{
    let handle = call.handle();
    let way = Way { handle, access };
    match settle_own(
        tries,
        words,
        actor,
        stock,
        way,
        kind_of(call),
        opens,
        completing,
    ) {
        Ok(true) => Came::Answered(copied_reply(call, opens)),
        Ok(false) => Came::Spent,
        Err(next) => Came::Parked(Parked::Copies(next, opens)),
    }
}

/// COPY of this call, which has begun on this way and opens that handle, or none, in so many tries.
pub(crate) fn run_copy(
    tries: u64,
    words: &Words,
    actor: &mut Actor,
    stock: &mut Stock,
    call: Call,
    way: Way,
    opens: Option<u16>,
) -> Came
    requires table { actor.old.table_id ≡ words.now.table_id }
    requires sound { IsSound words.now.table_id.words actor.old.me.0 }
    requires stock { IsStock stock.old actor.old.me.0 }
    requires called { IsCalled actor.old.me.0 call way.access }
    requires way { IsOnWay actor.old.me.0 way }
    requires low { way.handle < 256 }
    requires copying { IsCopying actor.old.me.0 (copy_kind call) way.handle opens }
    requires at { IsAtTry actor.old.me.0 }
    ensures table { actor.new.table_id ≡ actor.old.table_id }
    ensures sound { IsSound words.now.table_id.words actor.new.me.0 }
    ensures stock { IsStock stock.new actor.new.me.0 }
    ensures run { HasRunTo actor.old.me.0 result actor.new.me.0 }
{
    match make_copy_within(tries, words, actor, stock, way, kind_of(call), opens) {
        Ok(true) => Came::Answered(copied_reply(call, opens)),
        Ok(false) => Came::Spent,
        Err(left) => match left {
            Left::MayGiveUp => Came::Spent,
            Left::Swapping(_) => unreachable!(),
            Left::Completing(next) => Came::Parked(Parked::Copies(next, opens)),
        },
    }
}

/// Whether the call is a copy or a clear.
pub(crate) fn is_copy(call: Call) -> bool
    ensures { result ≡ copies call }
{
    matches!(
        call,
        Call::Clear { .. } | Call::Snapshot { .. } | Call::Freeze { .. }
    )
}

/// The tries of a call on a key, of a clear or of a copy, which has begun on this way and opens that handle, or none.
pub(crate) fn run_tried(
    tries: u64,
    words: &Words,
    actor: &mut Actor,
    stock: &mut Stock,
    call: Call,
    way: Way,
    opens: Option<u16>,
) -> Came
    requires table { actor.old.table_id ≡ words.now.table_id }
    requires sound { IsSound words.now.table_id.words actor.old.me.0 }
    requires stock { IsStock stock.old actor.old.me.0 }
    requires called { IsCalled actor.old.me.0 call way.access }
    requires way { IsOnWay actor.old.me.0 way }
    requires low { way.handle < 256 }
    requires opens { IsToOpenAs actor.old.me.0 opens }
    requires at { IsOn actor.old.me.0 new_try }
    ensures table { actor.new.table_id ≡ actor.old.table_id }
    ensures sound { IsSound words.now.table_id.words actor.new.me.0 }
    ensures stock { IsStock stock.new actor.new.me.0 }
    ensures run { HasRunTo actor.old.me.0 result actor.new.me.0 }
{
    if is_copy(call) {
        run_copy(tries, words, actor, stock, call, way, opens)
    } else {
        run_key(tries, words, actor, stock, call, way.access)
    }
}
