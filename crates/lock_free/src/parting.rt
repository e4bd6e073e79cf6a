//! A seat's own offer comes out of the words of handles once it is settled, and its slot is free again once no seat may rely on it.

ghost use Rattle.std.specs.Prelude.{◌≡◌, ◌<◌, ℕ};
ghost use Rattle.lock_free.specs.CopySteps.{is_snapshot};
ghost use Rattle.machine_model.specs.declared.operations.Operation.{Operation};
ghost use Rattle.lock_free.specs.Loading.{IsSound, Runs};
ghost use Rattle.lock_free.specs.OwnOffers.{has_cleaned_own, has_freed_offer, has_opened_own, has_parted, once_unnamed, once_unopening, unnamed, unopening};
ghost use Rattle.lock_free.specs.OwnOffers.{HasDoneOwn, HasMovedOn, HasFreedOffers, PartsBesides, PartsIfSettled, PartsOrNot};
ghost use Rattle.lock_free.specs.OwnOffers.{IsAtOwnClean, IsAtOwnOpen, IsItsOwn, IsOwnCopy, IsRipeIn, IsSettledOwn, IsToPart};
ghost use Rattle.lock_free.specs.Rooting.{IsSettledAt};
ghost use Rattle.lock_free.specs.RootWords.{IsOpenedBy};
ghost use Rattle.lock_free.specs.Stocks.{HasRoomFor, IsStock};

use crate::advancing::EPOCH_WORD;
use crate::copy_roots::CopyKind;
use crate::handles::root_word_of;
use crate::loads::{Actor, Words};
use crate::offers::{Fate, see_fate, see_news, see_olds};
use crate::rules::View;
use crate::stock::Stock;
use atomic_table::Play;
use history::Call;
use trie_words::RootWord;

/// At most this many slots of offers become free at once.
const AT_ONCE: u64 = 64;

/// A seat takes its own settled offer out of the word of its handle, or it isn't there.
pub struct CleansOwn;

impl Play<Call, View> for CleansOwn {
    ghost then = { has_cleaned_own };
}

/// A seat takes its own settled offer out of the word of the handle that it opens, or it isn't there: the handle is open, or its number only
/// reserved.
pub struct OpensOwn;

impl Play<Call, View> for OpensOwn {
    ghost then = { has_opened_own };
}

/// A seat parts its own offer, which no handle's word names any more.
pub struct PartsOffer;

impl Play<Call, View> for PartsOffer {
    ghost then = { has_parted };
}

/// The slot of an offer that a seat has parted is free for it again.
pub struct FreesOffer;

impl Play<Call, View> for FreesOffer {
    ghost then = { has_freed_offer };
}

/// Takes the seat's own settled offer in this slot out of the word of its handle, if that names it still: the root that it leaves is in
/// this one.
fn clean_own(words: &Words, actor: &mut Actor, handle: u16, offer: u32, root: u32)
    requires table { actor.old.table_id ≡ words.now.table_id }
    requires sound { IsSound words.now.table_id.words actor.old.me.0 }
    requires low { handle < 256 }
    requires cleaning { IsAtOwnClean actor.old.me.0 handle offer root }
    ensures table { actor.new.table_id ≡ actor.old.table_id }
    ensures sound { IsSound words.now.table_id.words actor.new.me.0 }
    ensures cleaned { actor.new.me ≡ (unnamed actor.old.me.0, actor.old.me.1) }
{
    let offered = RootWord::Offered(offer).to_word();
    let plain = RootWord::Writable(root).to_word();
    words.compare_exchange::<CleansOwn>(actor, root_word_of(handle), offered, plain);
}

/// The same where it was carried out, or taken back.
fn clean_own_settled(
    words: &Words,
    actor: &mut Actor,
    handle: u16,
    offer: u32,
    is_carried_out: bool,
)
    requires table { actor.old.table_id ≡ words.now.table_id }
    requires sound { IsSound words.now.table_id.words actor.old.me.0 }
    requires low { handle < 256 }
    requires settled { (c : IsSettledAt actor.old.me.0 handle offer is_carried_out) × IsItsOwn actor.old.me.0 c.0.its }
    ensures table { actor.new.table_id ≡ actor.old.table_id }
    ensures sound { IsSound words.now.table_id.words actor.new.me.0 }
    ensures done { HasDoneOwn once_unnamed actor.old.me.0 actor.new.me.0 }
{
    let root = if is_carried_out {
        see_news(words, actor, offer).low
    } else {
        see_olds(words, actor, offer).low
    };
    clean_own(words, actor, handle, offer, root);
}

/// Takes the seat's own settled offer in this slot out of the word of the handle that it opens, which says this then.
fn open_own(words: &Words, actor: &mut Actor, handle: u16, offer: u32, opened: RootWord)
    requires table { actor.old.table_id ≡ words.now.table_id }
    requires sound { IsSound words.now.table_id.words actor.old.me.0 }
    requires low { handle < 256 }
    requires opening { IsAtOwnOpen actor.old.me.0 handle offer opened }
    ensures table { actor.new.table_id ≡ actor.old.table_id }
    ensures sound { IsSound words.now.table_id.words actor.new.me.0 }
    ensures opened { actor.new.me ≡ (unopening actor.old.me.0, actor.old.me.1) }
{
    let opening = RootWord::Opening(offer).to_word();
    let plain = opened.to_word();
    words.compare_exchange::<OpensOwn>(actor, root_word_of(handle), opening, plain);
}

/// The same where the handle may be written, or is for readers.
fn open_handle(words: &Words, actor: &mut Actor, handle: u16, offer: u32, is_writable: bool)
    requires table { actor.old.table_id ≡ words.now.table_id }
    requires sound { IsSound words.now.table_id.words actor.old.me.0 }
    requires low { handle < 256 }
    requires opened { (h : IsOpenedBy actor.old.me.0 handle offer is_writable) × IsItsOwn actor.old.me.0 h.0.its }
    ensures table { actor.new.table_id ≡ actor.old.table_id }
    ensures sound { IsSound words.now.table_id.words actor.new.me.0 }
    ensures done { HasDoneOwn once_unopening actor.old.me.0 actor.new.me.0 }
{
    let opened = if is_writable {
        RootWord::Writable(see_news(words, actor, offer).high)
    } else {
        RootWord::ReadOnly(see_olds(words, actor, offer).low)
    };
    open_own(words, actor, handle, offer, opened);
}

/// Takes the seat's own settled offer in this slot out of the word of the handle that it opens, if it opens one: it is open where the offer
/// was carried out, and else its number is reserved as before.
fn open_settled(
    words: &Words,
    actor: &mut Actor,
    offer: u32,
    opens: Option<u16>,
    is_writable: bool,
    is_carried_out: bool,
)
    requires table { actor.old.table_id ≡ words.now.table_id }
    requires sound { IsSound words.now.table_id.words actor.old.me.0 }
    requires settled { (handle : ℕ) × IsSettledOwn actor.old.me.0 handle offer opens is_writable is_carried_out }
    ensures table { actor.new.table_id ≡ actor.old.table_id }
    ensures sound { IsSound words.now.table_id.words actor.new.me.0 }
    ensures done { HasDoneOwn once_unopening actor.old.me.0 actor.new.me.0 }
{
    match opens {
        None => {}
        Some(number) => {
            if is_carried_out {
                open_handle(words, actor, number, offer, is_writable);
            } else {
                open_own(words, actor, number, offer, RootWord::Reserved);
            }
        }
    }
}

/// Parts the seat's own offer in this slot, which no handle's word names any more, if the stock has room for the slot.
fn part(words: &Words, actor: &mut Actor, stock: &mut Stock, offer: u32)
    requires table { actor.old.table_id ≡ words.now.table_id }
    requires sound { IsSound words.now.table_id.words actor.old.me.0 }
    requires stock { IsStock stock.old actor.old.me.0 }
    requires parting { IsToPart actor.old.me.0 offer }
    ensures table { actor.new.table_id ≡ actor.old.table_id }
    ensures sound { IsSound words.now.table_id.words actor.new.me.0 }
    ensures stock { IsStock stock.new actor.new.me.0 }
    ensures parted { PartsOrNot actor.old.me.0 offer actor.new.me.0 }
{
    if stock.has_room_to_part() {
        let stamp = words.load::<PartsOffer>(actor, EPOCH_WORD);
        stock.part(offer, stamp);
    }
}

/// Takes the seat's own settled offer in this slot, made on this handle, out of the words of handles, opens the handle that it opens, if
/// it was carried out, and parts it, if the stock has room for its slot.
fn part_settled(
    words: &Words,
    actor: &mut Actor,
    stock: &mut Stock,
    handle: u16,
    offer: u32,
    opens: Option<u16>,
    is_writable: bool,
    is_carried_out: bool,
)
    requires table { actor.old.table_id ≡ words.now.table_id }
    requires sound { IsSound words.now.table_id.words actor.old.me.0 }
    requires stock { IsStock stock.old actor.old.me.0 }
    requires settled { IsSettledOwn actor.old.me.0 handle offer opens is_writable is_carried_out }
    requires runs { (operation : Operation) × Runs actor.old.me.0 operation }
    ensures table { actor.new.table_id ≡ actor.old.table_id }
    ensures sound { IsSound words.now.table_id.words actor.new.me.0 }
    ensures stock { IsStock stock.new actor.new.me.0 }
    ensures moved { HasMovedOn actor.old.me.0 actor.new.me.0 }
    ensures parted { PartsBesides actor.old.me.0 offer actor.new.me.0 }
{
    open_settled(words, actor, offer, opens, is_writable, is_carried_out);
    clean_own_settled(words, actor, handle, offer, is_carried_out);
    part(words, actor, stock, offer);
}

/// Whether such a copy may be written.
fn is_writable(which: CopyKind) -> bool
    ensures { result ≡ is_snapshot which }
{
    match which {
        CopyKind::Snapshot => true,
        CopyKind::Freeze => false,
        CopyKind::Clear => false,
    }
}

/// Takes the seat's own offer of such a copy, in this slot, made on this handle, out of the words of handles, once it is settled; opens the
/// handle that it opens, if it was carried out; and parts it, if the stock has room for its slot.
pub fn part_copy(
    words: &Words,
    actor: &mut Actor,
    stock: &mut Stock,
    handle: u16,
    which: CopyKind,
    opens: Option<u16>,
    offer: u32,
)
    requires table { actor.old.table_id ≡ words.now.table_id }
    requires sound { IsSound words.now.table_id.words actor.old.me.0 }
    requires stock { IsStock stock.old actor.old.me.0 }
    requires own { IsOwnCopy actor.old.me.0 handle offer opens (is_snapshot which) }
    requires runs { (operation : Operation) × Runs actor.old.me.0 operation }
    ensures table { actor.new.table_id ≡ actor.old.table_id }
    ensures sound { IsSound words.now.table_id.words actor.new.me.0 }
    ensures stock { IsStock stock.new actor.new.me.0 }
    ensures moved { HasMovedOn actor.old.me.0 actor.new.me.0 }
    ensures parted { PartsIfSettled actor.old.me.0 offer actor.new.me.0 }
{
    let writable = is_writable(which);
    match see_fate(words, actor, offer) {
        Fate::CarriedOut => {
            part_settled(words, actor, stock, handle, offer, opens, writable, true);
        }
        Fate::TakenBack => {
            part_settled(words, actor, stock, handle, offer, opens, writable, false);
        }
        Fate::Undecided => {}
    }
}

/// Makes the slot of the first offer that the seat has parted free for it again: the epoch that it has seen is later by three.
fn free_first(words: &Words, actor: &mut Actor, stock: &mut Stock)
    requires table { actor.old.table_id ≡ words.now.table_id }
    requires sound { IsSound words.now.table_id.words actor.old.me.0 }
    requires stock { IsStock stock.old actor.old.me.0 }
    requires ripe { IsRipeIn stock.old.pool stock.old.limbo.seen }
    requires room { HasRoomFor stock.old 1 1 }
    ensures table { actor.new.table_id ≡ actor.old.table_id }
    ensures sound { IsSound words.now.table_id.words actor.new.me.0 }
    ensures stock { IsStock stock.new actor.new.me.0 }
    ensures freed { HasFreedOffers actor.old.me.0 actor.new.me.0 }
{
    words.load::<FreesOffer>(actor, EPOCH_WORD);
    stock.free_parted();
}

/// Makes the slots of offers that the seat has parted free for it again, as long as its stock has room for them, and the epoch that it has
/// seen is later by three.
pub fn free_offers(words: &Words, actor: &mut Actor, stock: &mut Stock)
    requires table { actor.old.table_id ≡ words.now.table_id }
    requires sound { IsSound words.now.table_id.words actor.old.me.0 }
    requires stock { IsStock stock.old actor.old.me.0 }
    ensures table { actor.new.table_id ≡ actor.old.table_id }
    ensures sound { IsSound words.now.table_id.words actor.new.me.0 }
    ensures stock { IsStock stock.new actor.new.me.0 }
    ensures freed { HasFreedOffers actor.old.me.0 actor.new.me.0 }
{
    for _done in 0..AT_ONCE {
        if !stock.has_ripe_offer() {
            return;
        }
        free_first(words, actor, stock);
    }
}
