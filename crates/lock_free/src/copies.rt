//! COPY within a number of tries.

ghost use Rattle.std.specs.Prelude.{◌≡◌, ◌<◌, IfErr, IfOk};
ghost use Rattle.lock_free.specs.CopySteps.{HasCopied, HasCopiedOn, HasHungRoots, HasLeftCopy, HasLeftRoots, HasMadeCopy, HasTriedCopy, IsAtOriginal, IsAtTry, IsCopying, IsKind};
ghost use Rattle.lock_free.specs.CopySteps.{IsOwnCompleting, IsToComplete, LeavesCopy, OriginalOrNot};
ghost use Rattle.lock_free.specs.Loading.{IsSound};
ghost use Rattle.lock_free.specs.Passing.{IsOnWay};
ghost use Rattle.lock_free.specs.Stocks.{IsStock};

use crate::copy_gifts::{release_main, release_root, see_copy_main};
use crate::copy_roots::CopyKind;
use crate::copying::{Copied, prepare};
use crate::giving_up::let_made_go;
use crate::hung_slots::hang_roots;
use crate::leaving::{Completing, Left};
use crate::loads::{Actor, Words};
use crate::makes::class_of;
use crate::offers::{conclude, see_news, see_olds};
use crate::parting::part_copy;
use crate::reading::{Given, Passed, ReadFrom, Way, read_on};
use crate::reclaiming::Kind;
use crate::root_offers::offer_within;
use crate::rooting::{is_expected_on, root_within};
use crate::stock::Stock;

/// Reads the main node of the root in this slot, of which a copy is to be made; or none where it is out of tries.
fn read_original_within(
    tries: u64,
    words: &Words,
    actor: &mut Actor,
    way: Way,
    root: u32,
) -> Option<Given>
    requires table { actor.old.table_id ≡ words.now.table_id }
    requires sound { IsSound words.now.table_id.words actor.old.me.0 }
    requires way { IsOnWay actor.old.me.0 way }
    requires at { IsAtOriginal actor.old.me.0 root }
    ensures table { actor.new.table_id ≡ actor.old.table_id }
    ensures sound { IsSound words.now.table_id.words actor.new.me.0 }
    ensures original { OriginalOrNot actor.old.me.0 result actor.new.me.0 }
{
    match read_on(tries, words, actor, way, root, ReadFrom::Start) {
        Passed::Gives(given) => Some(given),
        Passed::Again(_) => None,
    }
}

/// Hangs the slots of the roots that were made for the seat's own offer in this slot, which was taken back.
fn hang_left(words: &Words, actor: &mut Actor, stock: &mut Stock, offer: u32)
    requires table { actor.old.table_id ≡ words.now.table_id }
    requires sound { IsSound words.now.table_id.words actor.old.me.0 }
    requires left { HasLeftRoots stock.old offer actor.old.me.0 }
    ensures table { actor.new.table_id ≡ actor.old.table_id }
    ensures sound { IsSound words.now.table_id.words actor.new.me.0 }
    ensures stock { IsStock stock.new actor.new.me.0 }
    ensures hung { HasHungRoots actor.old.me.0 actor.new.me.0 }
{
    let roots = see_news(words, actor, offer);
    hang_roots(words, actor, stock, roots);
}

/// Completes the seat's own offer of such a copy from there on, within so many tries. Returns whether it was carried out, by this seat or
/// another: what that gave the seat has let go of; or from where it goes on.
pub fn complete_own_on(
    tries: u64,
    words: &Words,
    actor: &mut Actor,
    stock: &mut Stock,
    way: Way,
    which: CopyKind,
    completing: Completing,
) -> Result<bool, Completing>
    requires table { actor.old.table_id ≡ words.now.table_id }
    requires sound { IsSound words.now.table_id.words actor.old.me.0 }
    requires stock { IsStock stock.old actor.old.me.0 }
    requires way { IsOnWay actor.old.me.0 way }
    requires which { IsKind actor.old.me.0 which }
    requires completing { IsOwnCompleting actor.old.me.0 way.handle completing }
    ensures table { actor.new.table_id ≡ actor.old.table_id }
    ensures sound { IsSound words.now.table_id.words actor.new.me.0 }
    ensures stock { IsStock stock.new actor.new.me.0 }
    ensures copied { IfOk result (λ carried. HasCopied actor.old.me.0 carried actor.new.me.0) }
    ensures on { IfErr result (λ next. HasCopiedOn actor.old.me.0 way.handle completing.offer next actor.new.me.0) }
{
    let is_expected = match is_expected_on(tries, words, actor, way, completing) {
        Ok(is_expected) => is_expected,
        Err(next) => return Err(next),
    };
    let main = see_copy_main(words, actor, which, completing.offer);
    if conclude(words, actor, completing.offer, is_expected) {
        release_root(words, actor, stock, which, completing.root);
        return Ok(true);
    }
    hang_left(words, actor, stock, completing.offer);
    release_main(words, actor, stock, which, main);
    Ok(false)
}

/// Completes the seat's own offer of such a copy, which stands in this slot, within so many tries.
fn complete_own_within(
    tries: u64,
    words: &Words,
    actor: &mut Actor,
    stock: &mut Stock,
    way: Way,
    which: CopyKind,
    slot: u32,
) -> Result<bool, Completing>
    requires table { actor.old.table_id ≡ words.now.table_id }
    requires sound { IsSound words.now.table_id.words actor.old.me.0 }
    requires stock { IsStock stock.old actor.old.me.0 }
    requires way { IsOnWay actor.old.me.0 way }
    requires which { IsKind actor.old.me.0 which }
    requires standing { IsToComplete actor.old.me.0 way.handle slot }
    ensures table { actor.new.table_id ≡ actor.old.table_id }
    ensures sound { IsSound words.now.table_id.words actor.new.me.0 }
    ensures stock { IsStock stock.new actor.new.me.0 }
    ensures copied { IfOk result (λ carried. HasCopied actor.old.me.0 carried actor.new.me.0) }
    ensures on { IfErr result (λ next. HasCopiedOn actor.old.me.0 way.handle slot next actor.new.me.0) }
{
    let root = see_olds(words, actor, slot).low;
    let from = ReadFrom::Start;
    let completing = Completing {
        offer: slot,
        root,
        from,
    };
    complete_own_on(tries, words, actor, stock, way, which, completing)
}

/// A try of a copy on a handle that may be written, from its root, which is in this slot: new roots are made, and an offer of them comes to
/// stand and is completed. Out of tries it is as where no slot is had, or the COMPLETE of its own offer is under way and is returned.
fn try_copy_within(
    tries: u64,
    words: &Words,
    actor: &mut Actor,
    stock: &mut Stock,
    way: Way,
    which: CopyKind,
    opens: Option<u16>,
    root: u32,
) -> Result<Copied, Completing>
    requires table { actor.old.table_id ≡ words.now.table_id }
    requires sound { IsSound words.now.table_id.words actor.old.me.0 }
    requires stock { IsStock stock.old actor.old.me.0 }
    requires way { IsOnWay actor.old.me.0 way }
    requires low { way.handle < 256 }
    requires copying { IsCopying actor.old.me.0 which way.handle opens }
    requires at { IsAtOriginal actor.old.me.0 root }
    ensures table { actor.new.table_id ≡ actor.old.table_id }
    ensures sound { IsSound words.now.table_id.words actor.new.me.0 }
    ensures stock { IsStock stock.new actor.new.me.0 }
    ensures tried { IfOk result (λ tried. HasTriedCopy actor.old.me.0 tried actor.new.me.0) }
    ensures left { IfErr result (λ left. LeavesCopy actor.old.me.0 which way.handle opens left actor.new.me.0) }
{
    let Some(given) = read_original_within(tries, words, actor, way, root) else {
        return Ok(Copied::Full);
    };
    let main = given.link.main.slot;
    let class = class_of(given.header.shape);
    let Some(slot) = prepare(
        tries, words, actor, stock, which, way.handle, opens, root, main, class,
    ) else {
        return Ok(Copied::Full);
    };
    let Some(stands) = offer_within(tries, words, actor, way.handle, root, slot) else {
        return Ok(Copied::Full);
    };
    if !stands {
        let made = stock.give_back();
        let_made_go(words, actor, stock, &made, None, &[]);
        return Ok(Copied::Again);
    }
    stock.note(Kind::Replaced, 1);
    stock.hand_over();
    let carried = match complete_own_within(tries, words, actor, stock, way, which, slot) {
        Ok(carried) => carried,
        Err(next) => return Err(next),
    };
    part_copy(words, actor, stock, way.handle, which, opens, slot);
    Ok(if carried { Copied::Done } else { Copied::Again })
}

/// COPY on a handle that may be written: tries it from the root, so often at most. Returns whether it was carried out: then the operation
/// is to end. Else a slot or a generation was missing, or it was out of tries, and it may give up. An `Err` is out of tries too: the
/// operation may give up, or the COMPLETE of its own offer is under way. Once that was carried out, the handle that it opens is to be
/// opened.
pub fn make_copy_within(
    tries: u64,
    words: &Words,
    actor: &mut Actor,
    stock: &mut Stock,
    way: Way,
    which: CopyKind,
    opens: Option<u16>,
) -> Result<bool, Left>
    requires table { actor.old.table_id ≡ words.now.table_id }
    requires sound { IsSound words.now.table_id.words actor.old.me.0 }
    requires stock { IsStock stock.old actor.old.me.0 }
    requires way { IsOnWay actor.old.me.0 way }
    requires low { way.handle < 256 }
    requires copying { IsCopying actor.old.me.0 which way.handle opens }
    requires at { IsAtTry actor.old.me.0 }
    ensures table { actor.new.table_id ≡ actor.old.table_id }
    ensures sound { IsSound words.now.table_id.words actor.new.me.0 }
    ensures stock { IsStock stock.new actor.new.me.0 }
    ensures made { IfOk result (λ done. HasMadeCopy actor.old.me.0 done actor.new.me.0) }
    ensures left { IfErr result (λ left. HasLeftCopy actor.old.me.0 which way.handle opens left actor.new.me.0) }
{
    for _ in 0..tries {
        let rooted = match root_within(tries, words, actor, way) {
            Ok(rooted) => rooted,
            Err(_) => return Err(Left::MayGiveUp),
        };
        let root = rooted.slot;
        let tried = match try_copy_within(tries, words, actor, stock, way, which, opens, root) {
            Ok(tried) => tried,
            Err(next) => return Err(Left::Completing(next)),
        };
        match tried {
            Copied::Done => return Ok(true),
            Copied::Again => {}
            Copied::Full => return Ok(false),
        }
    }
    Err(Left::MayGiveUp)
}
