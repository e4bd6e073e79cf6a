//! Offers' first words.

ghost use Rattle.std.specs.Prelude.{◌≡◌, ◌<◌, ◌*◌};
ghost use Rattle.lock_free.specs.Loading.{IsSound};
ghost use Rattle.lock_free.specs.HandleWords.{HasOffer};
ghost use Rattle.lock_free.specs.OfferWords.{IsAtAbort, IsAtComplete, HasAborted, HasCompleted, carried_by, outcome_by};
ghost use Rattle.lock_free.specs.Outcomes.{has_concluded, HasConcluded, IsConcluding};
ghost use Rattle.lock_free.specs.RootWords.{AsksAt, HasMetOffer, HasSeenFate, HasSeenNews, HasSeenOlds, KnowsOffer, fate_by};

use crate::loads::{Actor, Words};
use crate::rules::{Completes, Goes, Meets, Sees, View};
use atomic_table::Play;
use history::Call;
use trie_words::Pair;

/// An offer's first word: it is neither carried out nor taken back.
pub(crate) const UNDECIDED: u64 = 0;

/// It is carried out.
const CARRIED_OUT: u64 = 1;

/// It is taken back.
const TAKEN_BACK: u64 = 2;

/// An operation finds what came of its own offer, which is settled now, or was.
pub struct Concludes;

impl Play<Call, View> for Concludes {
    ghost then = { has_concluded };
}

/// What has become of an offer.
#[derive(Clone, Copy, Drop)]
pub enum Fate {
    /// It stands still.
    Undecided,
    /// It was carried out.
    CarriedOut,
    /// It was taken back.
    TakenBack,
}

/// What this first word says of its offer.
pub(crate) fn fate_of(found: u64) -> Fate
    ensures { result ≡ fate_by found }
{
    match found {
        UNDECIDED => Fate::Undecided,
        CARRIED_OUT => Fate::CarriedOut,
        _ => Fate::TakenBack,
    }
}

/// Looks at the offer in this slot, which the word of the handle names, or named, whose root is asked for: where it is undecided, the
/// operation has found it there.
pub fn meet_offer(words: &Words, actor: &mut Actor, handle: u16, offer: u32) -> Fate
    requires table { actor.old.table_id ≡ words.now.table_id }
    requires sound { IsSound words.now.table_id.words actor.old.me.0 }
    requires asking { AsksAt actor.old.me.0 handle }
    requires known { HasOffer actor.old.me.0.sizes actor.old.me.0.account actor.old.me.0.pin handle offer }
    ensures table { actor.new.table_id ≡ actor.old.table_id }
    ensures sound { IsSound words.now.table_id.words actor.new.me.0 }
    ensures met { HasMetOffer actor.old.me.0 handle offer result actor.new.me.0 }
{
    fate_of(words.load::<Meets>(actor, 2 * offer as usize))
}

/// What has become of the offer in this slot.
pub fn see_fate(words: &Words, actor: &mut Actor, offer: u32) -> Fate
    requires table { actor.old.table_id ≡ words.now.table_id }
    requires sound { IsSound words.now.table_id.words actor.old.me.0 }
    requires known { KnowsOffer actor.old.me.0 offer }
    ensures table { actor.new.table_id ≡ actor.old.table_id }
    ensures sound { IsSound words.now.table_id.words actor.new.me.0 }
    ensures seen { HasSeenFate actor.old.me.0 offer result actor.new.me.0 }
{
    fate_of(words.load::<Sees>(actor, 2 * offer as usize))
}

/// The slots of the root that the offer in this slot is to replace, and of the main node that this must have.
pub fn see_olds(words: &Words, actor: &mut Actor, offer: u32) -> Pair
    requires table { actor.old.table_id ≡ words.now.table_id }
    requires sound { IsSound words.now.table_id.words actor.old.me.0 }
    requires known { KnowsOffer actor.old.me.0 offer }
    ensures table { actor.new.table_id ≡ actor.old.table_id }
    ensures sound { IsSound words.now.table_id.words actor.new.me.0 }
    ensures seen { HasSeenOlds actor.old.me.0 offer result actor.new.me.0 }
{
    Pair::of_word(words.load::<Sees>(actor, 2 * offer as usize + 1))
}

/// The slots of the root that the offer in this slot is to make stand, and of that of the handle that it opens.
pub fn see_news(words: &Words, actor: &mut Actor, offer: u32) -> Pair
    requires table { actor.old.table_id ≡ words.now.table_id }
    requires sound { IsSound words.now.table_id.words actor.old.me.0 }
    requires known { KnowsOffer actor.old.me.0 offer }
    ensures table { actor.new.table_id ≡ actor.old.table_id }
    ensures sound { IsSound words.now.table_id.words actor.new.me.0 }
    ensures seen { HasSeenNews actor.old.me.0 offer result actor.new.me.0 }
{
    Pair::of_word(words.load::<Sees>(actor, 2 * offer as usize + 2))
}

/// Takes the offer in this slot back, if it is undecided still. Returns whether it was.
pub fn abort(words: &Words, actor: &mut Actor, offer: u32) -> bool
    requires table { actor.old.table_id ≡ words.now.table_id }
    requires sound { IsSound words.now.table_id.words actor.old.me.0 }
    requires within { 2 * offer < words.now.table_id.words }
    requires aborting { IsAtAbort actor.old.me.0 offer }
    ensures table { actor.new.table_id ≡ actor.old.table_id }
    ensures sound { IsSound words.now.table_id.words actor.new.me.0 }
    ensures aborted { HasAborted actor.old.me.0 result actor.new.me.0 }
{
    words.compare_exchange::<Goes>(actor, 2 * offer as usize, UNDECIDED, TAKEN_BACK) == UNDECIDED
}

/// What becomes of an offer whose root has the expected main node, or hasn't.
fn outcome_of(is_expected: bool) -> u64
    ensures { result ≡ outcome_by is_expected }
{
    if is_expected { CARRIED_OUT } else { TAKEN_BACK }
}

/// Whether an offer is carried out by now, where this was found in its first word.
fn is_carried_out(found: u64, is_expected: bool) -> bool
    ensures { result ≡ carried_by found is_expected }
{
    if found == UNDECIDED {
        is_expected
    } else {
        found == CARRIED_OUT
    }
}

/// Settles the offer in this slot, if it is undecided still: it is carried out if its root had the expected main node, and taken back
/// if not. Returns whether it is carried out by now.
pub fn complete(words: &Words, actor: &mut Actor, offer: u32, is_expected: bool) -> bool
    requires table { actor.old.table_id ≡ words.now.table_id }
    requires sound { IsSound words.now.table_id.words actor.old.me.0 }
    requires within { 2 * offer < words.now.table_id.words }
    requires completing { IsAtComplete actor.old.me.0 offer is_expected }
    ensures table { actor.new.table_id ≡ actor.old.table_id }
    ensures sound { IsSound words.now.table_id.words actor.new.me.0 }
    ensures completed { HasCompleted actor.old.me.0 result actor.new.me.0 }
{
    let outcome = outcome_of(is_expected);
    let found = words.compare_exchange::<Completes>(actor, 2 * offer as usize, UNDECIDED, outcome);
    is_carried_out(found, is_expected)
}

/// The same of the seat's own offer, by which its operation finds what came of it. Where it was carried out the seat holds the old root
/// itself from then on, but for a freeze; where it was taken back, what the roots name that were made for it.
pub fn conclude(words: &Words, actor: &mut Actor, offer: u32, is_expected: bool) -> bool
    requires table { actor.old.table_id ≡ words.now.table_id }
    requires sound { IsSound words.now.table_id.words actor.old.me.0 }
    requires within { 2 * offer < words.now.table_id.words }
    requires concluding { IsConcluding actor.old.me.0 offer is_expected }
    ensures table { actor.new.table_id ≡ actor.old.table_id }
    ensures sound { IsSound words.now.table_id.words actor.new.me.0 }
    ensures concluded { HasConcluded actor.old.me.0 result actor.new.me.0 }
{
    let outcome = outcome_of(is_expected);
    let found = words.compare_exchange::<Concludes>(actor, 2 * offer as usize, UNDECIDED, outcome);
    is_carried_out(found, is_expected)
}
