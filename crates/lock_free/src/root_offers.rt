//! An offer comes to stand in the word of a handle.

ghost use Rattle.std.specs.Prelude.{◌≡◌, ◌<◌, Some};
ghost use Rattle.trie_words.specs.Codes.{IsRootWord};
ghost use Rattle.machine_model.specs.declared.actions.Action.TheVariants as act;
ghost use Rattle.machine_model.specs.declared.roots.Descriptor.{Descriptor};
ghost use Rattle.machine_model.specs.Calls.{handle_of};
ghost use Rattle.lock_free.specs.declared.rules.Pinned.{Pinned};
ghost use Rattle.lock_free.specs.HandleWords.{TellsRoot};
ghost use Rattle.lock_free.specs.Loading.{IsAt, IsSound};
ghost use Rattle.lock_free.specs.RootOffers.{HasMadeWay, HasOfferedWithin, HasProposed, HasYielded, IsToOffer, MeetsOffer, proposed_by};

use crate::handles::{root_word_of, unmark};
use crate::loads::{Actor, Words};
use crate::offers::{Fate, fate_of};
use crate::rooting::clean_settled;
use crate::rules::{Proposes, Yields};
use trie_words::RootWord;

/// What came of an exchange that was to bring an offer to stand.
#[derive(Clone, Copy, Drop)]
pub enum Proposed {
    /// The offer stands.
    Stands,
    /// Another root stands there, and all that was made for the offer is given up.
    Misses,
    /// No step was taken: this stands in the handle's word.
    Meets(RootWord),
}

/// What came of it, where this root was expected and this was found.
fn outcome_of(root: u32, found: RootWord) -> Proposed
    ensures { result ≡ proposed_by root found }
{
    match found {
        RootWord::Writable(other) if other == root => Proposed::Stands,
        RootWord::Writable(_) => Proposed::Misses,
        other => Proposed::Meets(other),
    }
}

/// Brings the offer in this slot to stand in the word of the handle, if the root in its slot stands there still.
fn propose(words: &Words, actor: &mut Actor, handle: u16, root: u32, slot: u32) -> Proposed
    requires table { actor.old.table_id ≡ words.now.table_id }
    requires sound { IsSound words.now.table_id.words actor.old.me.0 }
    requires low { handle < 256 }
    requires offering { IsToOffer actor.old.me.0 handle root slot }
    ensures table { actor.new.table_id ≡ actor.old.table_id }
    ensures sound { IsSound words.now.table_id.words actor.new.me.0 }
    ensures proposed { HasProposed actor.old.me.0 handle slot result actor.new.me.0 }
{
    let before = RootWord::Writable(root).to_word();
    let offered = RootWord::Offered(slot).to_word();
    let found = words.compare_exchange::<Proposes>(actor, root_word_of(handle), before, offered);
    outcome_of(root, RootWord::of_word(found))
}

/// Looks at the offer in this slot, which was met where the seat's own is to stand: where it is undecided, the seat's own doesn't, and
/// all that was made for it is given up.
fn yields(words: &Words, actor: &mut Actor, met: u32) -> Fate
    requires table { actor.old.table_id ≡ words.now.table_id }
    requires sound { IsSound words.now.table_id.words actor.old.me.0 }
    requires met { MeetsOffer actor.old.me.0 met }
    ensures table { actor.new.table_id ≡ actor.old.table_id }
    ensures sound { IsSound words.now.table_id.words actor.new.me.0 }
    ensures yielded { HasYielded actor.old.me.0 met result actor.new.me.0 }
{
    fate_of(words.load::<Yields>(actor, 2 * met as usize))
}

/// Makes way for the seat's own offer where this was found in the handle's word: a settled offer, or the mark of a seat that would close
/// the handle, is taken out. Returns whether an undecided offer stands there: then all that was made for the seat's own is given up.
fn make_way(words: &Words, actor: &mut Actor, handle: u16, found: RootWord) -> bool
    requires table { actor.old.table_id ≡ words.now.table_id }
    requires sound { IsSound words.now.table_id.words actor.old.me.0 }
    requires low { handle < 256 }
    requires offering { (offer : Descriptor) × (p : IsAt actor.old.me.0 (act.Offer offer)) × (handle_of p.operation.call ≡ handle) }
    requires fits { IsRootWord found }
    requires pinned { (pinned : Pinned) × (actor.old.me.0.pin ≡ Some pinned) }
    requires tells { TellsRoot actor.old.me.0.sizes actor.old.me.0.account actor.old.me.0.pin handle found }
    ensures table { actor.new.table_id ≡ actor.old.table_id }
    ensures sound { IsSound words.now.table_id.words actor.new.me.0 }
    ensures made { HasMadeWay actor.old.me.0 result actor.new.me.0 }
{
    match found {
        RootWord::Offered(other) => match yields(words, actor, other) {
            Fate::Undecided => return true,
            Fate::CarriedOut => clean_settled(words, actor, handle, other, true),
            Fate::TakenBack => clean_settled(words, actor, handle, other, false),
        },
        RootWord::ClosingWritable { .. } | RootWord::ClosingReadOnly { .. } => {
            unmark(words, actor, handle, found)
        }
        _ => {}
    }
    false
}

/// Brings the offer in this slot to stand in the word of the handle, unless another root than the one in its slot stands there, or
/// another offer: then all that was made for it is given up. Returns whether it stands; or none where it is
/// out of tries, and all is as it was.
pub fn offer_within(
    tries: u64,
    words: &Words,
    actor: &mut Actor,
    handle: u16,
    root: u32,
    slot: u32,
) -> Option<bool>
    requires table { actor.old.table_id ≡ words.now.table_id }
    requires sound { IsSound words.now.table_id.words actor.old.me.0 }
    requires low { handle < 256 }
    requires offering { IsToOffer actor.old.me.0 handle root slot }
    ensures table { actor.new.table_id ≡ actor.old.table_id }
    ensures sound { IsSound words.now.table_id.words actor.new.me.0 }
    ensures offered { HasOfferedWithin actor.old.me.0 slot result actor.new.me.0 }
{
    for _ in 0..tries {
        match propose(words, actor, handle, root, slot) {
            Proposed::Stands => return Some(true),
            Proposed::Misses => return Some(false),
            Proposed::Meets(found) => {
                if make_way(words, actor, handle, found) {
                    return Some(false);
                }
            }
        }
    }
    None
}
