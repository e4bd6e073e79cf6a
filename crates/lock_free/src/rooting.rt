//! ROOT: the root of a handle, once no offer stands there.

ghost use Rattle.std.specs.Prelude.{◌≡◌, ◌<◌, ◌^◌, IfErr, IfNone, IfOk, IfSome};
ghost use Rattle.lock_free.specs.declared.leaving.Left.TheVariants as left;
ghost use Rattle.lock_free.specs.HandleWords.{HasOffer};
ghost use Rattle.lock_free.specs.Leaving.{HasCompletedOn, HasLeftOff, HasStayedOrLeft, IsCompleteOf};
ghost use Rattle.lock_free.specs.Loading.{IsSound, Saw};
ghost use Rattle.lock_free.specs.Passing.{IsOnWay};
ghost use Rattle.lock_free.specs.Rooting.{HasHelped, HasReadExpected, HasRooted, IsAtRoot, IsCompleting, IsSettledAt};

use crate::asking::{Named, ask_word, see_generation};
use crate::handles::clean;
use crate::leaving::{Completing, Left};
use crate::loads::{Actor, Words};
use crate::offers::{Fate, complete, meet_offer, see_news, see_olds};
use crate::reading::{Passed, ReadFrom, Way, read_on};
use trie_words::RootWord;

/// The root that a ROOT gives.
#[derive(Clone, Copy, Drop)]
pub struct Rooted {
    /// Where it is.
    pub slot: u32,
    /// Its generation.
    pub generation: u64,
}

/// Takes the settled offer in this slot out of the word of its handle.
pub fn clean_settled(
    words: &Words,
    actor: &mut Actor,
    handle: u16,
    offer: u32,
    is_carried_out: bool,
)
    requires table { actor.old.table_id ≡ words.now.table_id }
    requires sound { IsSound words.now.table_id.words actor.old.me.0 }
    requires low { handle < 256 }
    requires settled { IsSettledAt actor.old.me.0 handle offer is_carried_out }
    ensures table { actor.new.table_id ≡ actor.old.table_id }
    ensures sound { IsSound words.now.table_id.words actor.new.me.0 }
    ensures saw { Saw actor.old.me.0 actor.new.me.0 }
{
    let root = if is_carried_out {
        see_news(words, actor, offer).low
    } else {
        see_olds(words, actor, offer).low
    };
    clean(words, actor, handle, offer, root);
}

/// The READ of a COMPLETE, on to its end within so many tries. Returns whether it gives the main node that the offer expects; or from where
/// it goes on.
pub fn is_expected_on(
    tries: u64,
    words: &Words,
    actor: &mut Actor,
    way: Way,
    completing: Completing,
) -> Result<bool, Completing>
    requires table { actor.old.table_id ≡ words.now.table_id }
    requires sound { IsSound words.now.table_id.words actor.old.me.0 }
    requires way { IsOnWay actor.old.me.0 way }
    requires completing { IsCompleteOf actor.old.me.0 way.handle completing }
    ensures table { actor.new.table_id ≡ actor.old.table_id }
    ensures sound { IsSound words.now.table_id.words actor.new.me.0 }
    ensures expected { IfOk result (λ expected. HasReadExpected actor.old.me.0 completing.offer expected actor.new.me.0) }
    ensures on { IfErr result (λ next. HasCompletedOn actor.old.me.0 way.handle completing.offer next actor.new.me.0) }
{
    match read_on(tries, words, actor, way, completing.root, completing.from) {
        Passed::Again(from) => Err(Completing { from, ..completing }),
        Passed::Gives(given) => {
            let expected = see_olds(words, actor, completing.offer).high;
            Ok(given.link.main.slot == expected)
        }
    }
}

/// COMPLETE of an offer, from its READ on, within so many tries. Returns whether the offer is carried out by now; or from where it goes
/// on.
pub fn complete_on(
    tries: u64,
    words: &Words,
    actor: &mut Actor,
    way: Way,
    completing: Completing,
) -> Result<bool, Completing>
    requires table { actor.old.table_id ≡ words.now.table_id }
    requires sound { IsSound words.now.table_id.words actor.old.me.0 }
    requires way { IsOnWay actor.old.me.0 way }
    requires completing { IsCompleteOf actor.old.me.0 way.handle completing }
    ensures table { actor.new.table_id ≡ actor.old.table_id }
    ensures sound { IsSound words.now.table_id.words actor.new.me.0 }
    ensures helped { IfOk result (λ carried. HasHelped actor.old.me.0 carried actor.new.me.0) }
    ensures on { IfErr result (λ next. HasCompletedOn actor.old.me.0 way.handle completing.offer next actor.new.me.0) }
{
    match is_expected_on(tries, words, actor, way, completing) {
        Ok(is_expected) => Ok(complete(words, actor, completing.offer, is_expected)),
        Err(next) => Err(next),
    }
}

/// COMPLETE of the offer in this slot, within so many tries.
pub fn complete_within(
    tries: u64,
    words: &Words,
    actor: &mut Actor,
    way: Way,
    offer: u32,
) -> Result<bool, Completing>
    requires table { actor.old.table_id ≡ words.now.table_id }
    requires sound { IsSound words.now.table_id.words actor.old.me.0 }
    requires way { IsOnWay actor.old.me.0 way }
    requires completing { IsCompleting actor.old.me.0 way.handle offer }
    ensures table { actor.new.table_id ≡ actor.old.table_id }
    ensures sound { IsSound words.now.table_id.words actor.new.me.0 }
    ensures helped { IfOk result (λ carried. HasHelped actor.old.me.0 carried actor.new.me.0) }
    ensures on { IfErr result (λ next. HasCompletedOn actor.old.me.0 way.handle offer next actor.new.me.0) }
{
    let root = see_olds(words, actor, offer).low;
    let from = ReadFrom::Start;
    complete_on(tries, words, actor, way, Completing { offer, root, from })
}

/// Brings the offer in this slot to its end within so many tries, if it stands still, and takes it out of the word of the handle, if it
/// is settled. False where it is out of tries: then the operation may give up.
#[cold]
#[inline(never)]
fn help_within(tries: u64, words: &Words, actor: &mut Actor, way: Way, offer: u32) -> bool
    requires table { actor.old.table_id ≡ words.now.table_id }
    requires sound { IsSound words.now.table_id.words actor.old.me.0 }
    requires way { IsOnWay actor.old.me.0 way }
    requires at { IsAtRoot actor.old.me.0 }
    requires known { HasOffer actor.old.me.0.sizes actor.old.me.0.account actor.old.me.0.pin way.handle offer }
    ensures table { actor.new.table_id ≡ actor.old.table_id }
    ensures sound { IsSound words.now.table_id.words actor.new.me.0 }
    ensures stays { HasStayedOrLeft actor.old.me.0 result actor.new.me.0 }
{
    let handle = way.handle;
    match meet_offer(words, actor, handle, offer) {
        Fate::Undecided => match complete_within(tries, words, actor, way, offer) {
            Ok(_) => {}
            Err(_) => return false,
        },
        Fate::CarriedOut => clean_settled(words, actor, handle, offer, true),
        Fate::TakenBack => clean_settled(words, actor, handle, offer, false),
    }
    true
}

/// ROOT within so many tries: none where it is out of tries, and then the operation may give up.
#[inline(always)]
pub fn seek_root_within(tries: u64, words: &Words, actor: &mut Actor, way: Way) -> Option<Rooted>
    requires table { actor.old.table_id ≡ words.now.table_id }
    requires sound { IsSound words.now.table_id.words actor.old.me.0 }
    requires way { IsOnWay actor.old.me.0 way }
    requires at { IsAtRoot actor.old.me.0 }
    ensures table { actor.new.table_id ≡ actor.old.table_id }
    ensures sound { IsSound words.now.table_id.words actor.new.me.0 }
    ensures rooted { IfSome result (λ rooted. HasRooted actor.old.me.0 rooted actor.new.me.0) }
    ensures small { IfSome result (λ rooted. rooted.generation < 2 ^ 36) }
    ensures left { IfNone result (HasLeftOff actor.old.me.0 left.MayGiveUp actor.new.me.0) }
{
    for _ in 0..tries {
        match ask_word(words, actor, way.handle) {
            Named::Root(slot) => {
                let generation = see_generation(words, actor, slot);
                return Some(Rooted { slot, generation });
            }
            Named::Offer(offer) => {
                if !help_within(tries, words, actor, way, offer) {
                    return None;
                }
            }
            Named::Nothing => {}
        }
    }
    None
}

/// The same; else the operation may give up.
#[inline(always)]
pub fn root_within(tries: u64, words: &Words, actor: &mut Actor, way: Way) -> Result<Rooted, Left>
    requires table { actor.old.table_id ≡ words.now.table_id }
    requires sound { IsSound words.now.table_id.words actor.old.me.0 }
    requires way { IsOnWay actor.old.me.0 way }
    requires at { IsAtRoot actor.old.me.0 }
    ensures table { actor.new.table_id ≡ actor.old.table_id }
    ensures sound { IsSound words.now.table_id.words actor.new.me.0 }
    ensures rooted { IfOk result (λ rooted. HasRooted actor.old.me.0 rooted actor.new.me.0) }
    ensures small { IfOk result (λ rooted. rooted.generation < 2 ^ 36) }
    ensures left { IfErr result (λ left. HasLeftOff actor.old.me.0 left actor.new.me.0) }
{
    match seek_root_within(tries, words, actor, way) {
        Some(rooted) => Ok(rooted),
        None => Err(Left::MayGiveUp),
    }
}
