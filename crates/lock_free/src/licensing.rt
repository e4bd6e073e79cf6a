//! The licence of a READ: the generation of its handle's root, once no offer stands there.

ghost use Rattle.std.specs.Prelude.{◌≡◌, Some};
ghost use Rattle.lock_free.specs.HandleWords.{HasOffer};
ghost use Rattle.lock_free.specs.Loading.{IsSound};
ghost use Rattle.lock_free.specs.Passing.{HasAskedAgain, HasAskedOrNot, IsAsking};

use crate::asking::{Named, ask_word, see_generation};
use crate::loads::{Actor, Words};
use crate::offers::{Fate, abort, meet_offer};
use crate::rooting::clean_settled;

/// Takes the offer in this slot back, if it stands still, and out of the word of its handle, if it is settled.
#[cold]
#[inline(never)]
fn put_aside(words: &Words, actor: &mut Actor, handle: u16, offer: u32)
    requires table { actor.old.table_id ≡ words.now.table_id }
    requires sound { IsSound words.now.table_id.words actor.old.me.0 }
    requires asking { IsAsking actor.old.me.0 handle }
    requires known { HasOffer actor.old.me.0.sizes actor.old.me.0.account actor.old.me.0.pin handle offer }
    ensures table { actor.new.table_id ≡ actor.old.table_id }
    ensures sound { IsSound words.now.table_id.words actor.new.me.0 }
    ensures again { HasAskedAgain actor.old.me.0 actor.new.me.0 }
{
    match meet_offer(words, actor, handle, offer) {
        Fate::Undecided => {
            abort(words, actor, offer);
        }
        Fate::CarriedOut => clean_settled(words, actor, handle, offer, true),
        Fate::TakenBack => clean_settled(words, actor, handle, offer, false),
    }
}

/// The generation of the root of this handle, once no offer stands there, within so many looks: none where it is still to be asked.
#[inline(always)]
pub fn ask_within(tries: u64, words: &Words, actor: &mut Actor, handle: u16) -> Option<u64>
    requires table { actor.old.table_id ≡ words.now.table_id }
    requires sound { IsSound words.now.table_id.words actor.old.me.0 }
    requires asking { IsAsking actor.old.me.0 handle }
    ensures table { actor.new.table_id ≡ actor.old.table_id }
    ensures sound { IsSound words.now.table_id.words actor.new.me.0 }
    ensures asked { HasAskedOrNot actor.old.me.0 result actor.new.me.0 }
{
    for _ in 0..tries {
        match ask_word(words, actor, handle) {
            Named::Root(root) => return Some(see_generation(words, actor, root)),
            Named::Offer(offer) => put_aside(words, actor, handle, offer),
            Named::Nothing => {}
        }
    }
    None
}
