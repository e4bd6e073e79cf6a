//! A slot of a node that had no reference any more becomes free, and the seat lets go of what that held.

ghost use Rattle.std.specs.Prelude.{◌≡◌, ◌*◌, ◌<◌, ◌≤◌, [], length};
ghost use Rattle.lock_free.specs.declared.reclaiming.Kind.TheVariants as kinds;
ghost use Rattle.lock_free.specs.Calling.{IsRunning};
ghost use Rattle.lock_free.specs.Freeing.{has_freed, has_seen_draft};
ghost use Rattle.lock_free.specs.Freeing.{HasFreed, HasFreedSome, HasSeenDraft, IsRipeDeep};
ghost use Rattle.lock_free.specs.Halves.{entries_of_halves};
ghost use Rattle.lock_free.specs.LeftNodes.{entries_beside, is_among, HasLetManyGo, HasLetNamesGo, HasSeenHalf, HasSeenHalves, LeavesMany, LeavesPosition, MayLetGo, MayLetManyGo};
ghost use Rattle.lock_free.specs.Limbos.{HasReclaimedSome, IsLimbo};
ghost use Rattle.lock_free.specs.Loading.{IsSound};
ghost use Rattle.lock_free.specs.Places.{IsSlot};
ghost use Rattle.lock_free.specs.Stocks.{IsStock};

use crate::links::link_in;
use crate::loads::{Actor, Words};
use crate::parting::free_offers;
use crate::raising::{release, release_entries};
use crate::reclaiming::Kind;
use crate::refilling::refill;
use crate::replaced::reclaim_some;
use crate::ripe_nodes::free_deep;
use crate::rules::View;
use crate::sizes::Sizes;
use crate::stock::Stock;
use arrayvec::ArrayVec;
use atomic_table::Play;
use history::Call;
use trie_words::{Entry, Header, Link, Pair, Shape};

/// A slot whose node had no reference any more is free for the seat, which holds what the node held.
pub struct Frees;

impl Play<Call, View> for Frees {
    ghost then = { has_freed };
}

/// A word of a slot is looked at that is free for the seat.
pub struct SeesDraft;

impl Play<Call, View> for SeesDraft {
    ghost then = { has_seen_draft };
}

/// What is added to a count's word where there was no reference: there is one then, which is the free slot's.
const ONE: u64 = 1 << 32;

/// So many of each kind and class are made free at once, at most.
const AT_ONCE: u64 = 64;

/// So many of each class of nodes that were replaced.
const REPLACED_AT_ONCE: u64 = 64;

/// Makes a slot free for the seat that it has retired since its node had no reference any more, once the epoch that it has seen is later
/// by three. From then on the seat holds what the node named. Returns the slot's link.
pub fn reclaim_deep(words: &Words, actor: &mut Actor, sizes: &Sizes, class: u32, slot: u32) -> u32
    requires table { actor.old.table_id ≡ words.now.table_id }
    requires sound { IsSound words.now.table_id.words actor.old.me.0 }
    requires sizes { actor.old.me.0.sizes ≡ sizes.now }
    requires class { class < 3 }
    requires slot { IsSlot sizes.now class slot }
    requires running { IsRunning actor.old.me.0 }
    requires ripe { IsRipeDeep actor.old.me.0 class slot }
    ensures table { actor.new.table_id ≡ actor.old.table_id }
    ensures sound { IsSound words.now.table_id.words actor.new.me.0 }
    ensures freed { HasFreed actor.old.me.0 class slot result actor.new.me.0 }
{
    link_in(words.fetch_add::<Frees>(actor, sizes.count_word(class, slot), ONE))
}

/// A word of a slot that is free for the seat.
pub(crate) fn see_draft(words: &Words, actor: &mut Actor, word: usize) -> u64
    requires table { actor.old.table_id ≡ words.now.table_id }
    requires sound { IsSound words.now.table_id.words actor.old.me.0 }
    requires inside { word < words.now.table_id.words }
    ensures table { actor.new.table_id ≡ actor.old.table_id }
    ensures same { actor.new.me ≡ actor.old.me }
    ensures seen { HasSeenDraft actor.old.me.0 word result }
{
    words.load::<SeesDraft>(actor, word)
}

/// Whether this slot is one of these.
fn is_among(slots: &[u32], slot: u32) -> bool
    ensures { result ≡ is_among slots.now slot }
{
    slots.iter().any(|other| *other == slot)
}

/// Those of these halves whose entries lead to none of these slots.
fn beside(halves: &[u32], left_out: &[u32]) -> ArrayVec<u32, 32>
    requires few { length halves.now ≤ 32 }
    ensures { entries_of_halves result.items ≡ entries_beside left_out.now (entries_of_halves halves.now) }
{
    let mut others = ArrayVec::new();
    for n in 0..halves.len() {
        if !is_among(left_out, Entry::of_half(halves[n]).slot) {
            others.push(halves[n]);
        }
    }
    others
}

/// Lets go of the main node of the indirection that stood in this slot, unless it stands in one of those.
fn release_link(words: &Words, actor: &mut Actor, stock: &mut Stock, slot: u32, left_out: &[u32])
    requires table { actor.old.table_id ≡ words.now.table_id }
    requires sound { IsSound words.now.table_id.words actor.old.me.0 }
    requires sizes { stock.old.sizes ≡ actor.old.me.0.sizes }
    requires limbo { IsLimbo stock.old.limbo actor.old.me.0 }
    requires left { MayLetGo actor.old.me.0 slot kinds.Indirection left_out.now }
    ensures table { actor.new.table_id ≡ actor.old.table_id }
    ensures sound { IsSound words.now.table_id.words actor.new.me.0 }
    ensures same { stock.new ≡ record stock.old { limbo = stock.new.limbo } }
    ensures limbo { IsLimbo stock.new.limbo actor.new.me.0 }
    ensures released { HasLetNamesGo actor.old.me.0 slot kinds.Indirection left_out.now actor.new.me.0 }
{
    let main = Link::of_word(see_draft(words, actor, 2 * slot as usize))
        .main
        .slot;
    if is_among(left_out, main) {
        return;
    }
    let class = stock.sizes().class(main);
    release(words, actor, stock, Kind::Main, class, main);
}

/// The half of the entry at this position of the branch or list that stood in this slot.
fn see_left_half(words: &Words, actor: &mut Actor, slot: u32, position: usize) -> u32
    requires table { actor.old.table_id ≡ words.now.table_id }
    requires sound { IsSound words.now.table_id.words actor.old.me.0 }
    requires left { LeavesPosition actor.old.me.0 slot position }
    ensures table { actor.new.table_id ≡ actor.old.table_id }
    ensures same { actor.new.me ≡ actor.old.me }
    ensures seen { HasSeenHalf actor.old.me.0 slot position result }
{
    let word = 2 * slot as usize + 1 + position / 2;
    let pair = Pair::of_word(see_draft(words, actor, word));
    if position % 2 == 0 {
        pair.low
    } else {
        pair.high
    }
}

/// The halves of so many entries, all of them, into an empty list.
fn see_left_halves(
    words: &Words,
    actor: &mut Actor,
    slot: u32,
    count: usize,
    halves: &mut ArrayVec<u32, 32>,
)
    requires table { actor.old.table_id ≡ words.now.table_id }
    requires sound { IsSound words.now.table_id.words actor.old.me.0 }
    requires left { LeavesMany actor.old.me.0 slot count }
    requires none { halves.old.items ≡ [] }
    ensures table { actor.new.table_id ≡ actor.old.table_id }
    ensures same { actor.new.me ≡ actor.old.me }
    ensures seen { HasSeenHalves actor.old.me.0 slot count (entries_of_halves halves.new.items) }
{
    for position in 0..count {
        halves.push(see_left_half(words, actor, slot, position));
    }
}

/// Lets go of the entries of the branch or list that stood in this slot, so many, but for those that stand in one of those.
fn release_left(
    words: &Words,
    actor: &mut Actor,
    stock: &mut Stock,
    slot: u32,
    count: usize,
    left_out: &[u32],
)
    requires table { actor.old.table_id ≡ words.now.table_id }
    requires sound { IsSound words.now.table_id.words actor.old.me.0 }
    requires sizes { stock.old.sizes ≡ actor.old.me.0.sizes }
    requires limbo { IsLimbo stock.old.limbo actor.old.me.0 }
    requires left { MayLetManyGo actor.old.me.0 slot count left_out.now }
    ensures table { actor.new.table_id ≡ actor.old.table_id }
    ensures sound { IsSound words.now.table_id.words actor.new.me.0 }
    ensures same { stock.new ≡ record stock.old { limbo = stock.new.limbo } }
    ensures limbo { IsLimbo stock.new.limbo actor.new.me.0 }
    ensures released { HasLetManyGo actor.old.me.0 slot count left_out.now actor.new.me.0 }
{
    let mut halves = ArrayVec::new();
    see_left_halves(words, actor, slot, count, &mut halves);
    let others = beside(&halves, left_out);
    release_entries(words, actor, stock, &others, None);
}

/// Lets go of what the main node named that stood in this slot, but for what stands in one of those.
fn release_main(words: &Words, actor: &mut Actor, stock: &mut Stock, slot: u32, left_out: &[u32])
    requires table { actor.old.table_id ≡ words.now.table_id }
    requires sound { IsSound words.now.table_id.words actor.old.me.0 }
    requires sizes { stock.old.sizes ≡ actor.old.me.0.sizes }
    requires limbo { IsLimbo stock.old.limbo actor.old.me.0 }
    requires left { MayLetGo actor.old.me.0 slot kinds.Main left_out.now }
    ensures table { actor.new.table_id ≡ actor.old.table_id }
    ensures sound { IsSound words.now.table_id.words actor.new.me.0 }
    ensures same { stock.new ≡ record stock.old { limbo = stock.new.limbo } }
    ensures limbo { IsLimbo stock.new.limbo actor.new.me.0 }
    ensures released { HasLetNamesGo actor.old.me.0 slot kinds.Main left_out.now actor.new.me.0 }
{
    match Header::of_word(see_draft(words, actor, 2 * slot as usize)).shape {
        Shape::Tomb(single) => {
            if is_among(left_out, single.slot) {
                return;
            }
            release(words, actor, stock, Kind::Single, 0, single.slot);
        }
        Shape::Branch(bitmap) => {
            let count = bitmap.count_ones() as usize;
            release_left(words, actor, stock, slot, count, left_out);
        }
        Shape::List(count) => {
            release_left(words, actor, stock, slot, count as usize, left_out);
        }
    }
}

/// Lets go of what the node of this kind named that stood in this slot, but for what stands in one of those.
pub(crate) fn release_names(
    words: &Words,
    actor: &mut Actor,
    stock: &mut Stock,
    kind: Kind,
    slot: u32,
    left_out: &[u32],
)
    requires table { actor.old.table_id ≡ words.now.table_id }
    requires sound { IsSound words.now.table_id.words actor.old.me.0 }
    requires sizes { stock.old.sizes ≡ actor.old.me.0.sizes }
    requires limbo { IsLimbo stock.old.limbo actor.old.me.0 }
    requires left { MayLetGo actor.old.me.0 slot kind left_out.now }
    ensures table { actor.new.table_id ≡ actor.old.table_id }
    ensures sound { IsSound words.now.table_id.words actor.new.me.0 }
    ensures same { stock.new ≡ record stock.old { limbo = stock.new.limbo } }
    ensures limbo { IsLimbo stock.new.limbo actor.new.me.0 }
    ensures released { HasLetNamesGo actor.old.me.0 slot kind left_out.now actor.new.me.0 }
{
    match kind {
        Kind::Indirection => release_link(words, actor, stock, slot, left_out),
        Kind::Main => release_main(words, actor, stock, slot, left_out),
        Kind::Single | Kind::Replaced => {}
    }
}

/// Makes slots free for the seat whose nodes had no reference any more, and lets go of what these held, where its call has found no slot, or the
/// seat has begun some calls or retired some slots since it last did so.
#[inline(always)]
pub fn let_go(words: &Words, actor: &mut Actor, stock: &mut Stock, is_due: bool)
    requires table { actor.old.table_id ≡ words.now.table_id }
    requires sound { IsSound words.now.table_id.words actor.old.me.0 }
    requires stock { IsStock stock.old actor.old.me.0 }
    requires running { IsRunning actor.old.me.0 }
    ensures table { actor.new.table_id ≡ actor.old.table_id }
    ensures sound { IsSound words.now.table_id.words actor.new.me.0 }
    ensures stock { IsStock stock.new actor.new.me.0 }
    ensures freed { HasFreedSome actor.old.me.0 actor.new.me.0 }
{
    if !is_due {
        return;
    }
    free_deep(AT_ONCE, words, actor, stock);
}

/// Makes slots that the seat has retired free for it again, if the epoch has grown enough since, and takes fresh ones where it wants more.
#[inline(never)]
pub(crate) fn make_free(words: &Words, actor: &mut Actor, stock: &mut Stock)
    requires table { actor.old.table_id ≡ words.now.table_id }
    requires sound { IsSound words.now.table_id.words actor.old.me.0 }
    requires stock { IsStock stock.old actor.old.me.0 }
    ensures table { actor.new.table_id ≡ actor.old.table_id }
    ensures sound { IsSound words.now.table_id.words actor.new.me.0 }
    ensures stock { IsStock stock.new actor.new.me.0 }
    ensures reclaimed { HasReclaimedSome actor.old.me.0 actor.new.me.0 }
{
    reclaim_some(REPLACED_AT_ONCE, words, actor, stock);
    free_offers(words, actor, stock);
    refill(words, actor, stock);
}
