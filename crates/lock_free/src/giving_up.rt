//! An operation gives up what it has made, and its seat lets go of what that named of others.

ghost use Rattle.std.specs.Prelude.{◌≡◌, ◌++◌, ◌*◌, ◌<◌, ◌≤◌, [], IfSome, IsTrue, length};
ghost use Rattle.trie_words.specs.Codes.{header_of};
ghost use Rattle.trie_words.specs.declared.headers.Previous.TheVariants as previous;
ghost use Rattle.lock_free.specs.declared.reclaiming.Kind.TheVariants as kinds;
ghost use Rattle.lock_free.specs.Calling.{MayGiveUp};
ghost use Rattle.lock_free.specs.Freeing.{HasLetGo, HasSeenDraft};
ghost use Rattle.lock_free.specs.LettingMadeGo.{slots_kept, slots_made, GivesAllUp, LeavesOut, MayLetMadeGo};
ghost use Rattle.lock_free.specs.Limbos.{IsLimbo};
ghost use Rattle.lock_free.specs.Loading.{IsSound};
ghost use Rattle.lock_free.specs.Stocks.{IsStock};

use crate::calling::give_up;
use crate::freeing::{release_names, see_draft};
use crate::loads::{Actor, Words};
use crate::reclaiming::Kind;
use crate::stock::{OwnNode, Stock};
use arrayvec::ArrayVec;
use trie_words::{Entry, Header, Previous};

/// The slots of these nodes.
fn slots_of(made: &ArrayVec<OwnNode, 128>) -> ArrayVec<u32, 160>
    ensures slots { result.items ≡ slots_made made.now.items }
    ensures few { length result.items ≤ 128 }
{
    let mut slots = ArrayVec::new();
    for n in 0..made.len() {
        slots.push(made[n].slot);
    }
    slots
}

/// Those of what the entries of these halves lead to come after them.
fn add_kept(slots: &mut ArrayVec<u32, 160>, kept: &[u32])
    requires few { length kept.now ≤ 32 }
    requires room { length slots.old.items ≤ 128 }
    ensures { slots.new.items ≡ slots.old.items ++ slots_kept kept.now }
{
    for n in 0..kept.len() {
        slots.push(Entry::of_half(kept[n]).slot);
    }
}

/// Whether the main node in this slot of the seat's own isn't over another one, by its header.
fn is_over_none(words: &Words, actor: &mut Actor, slot: u32) -> bool
    requires table { actor.old.table_id ≡ words.now.table_id }
    requires sound { IsSound words.now.table_id.words actor.old.me.0 }
    requires inside { 2 * slot < words.now.table_id.words }
    ensures table { actor.new.table_id ≡ actor.old.table_id }
    ensures same { actor.new.me ≡ actor.old.me }
    ensures none { IsTrue result → (found : _) × HasSeenDraft actor.old.me.0 (2 * slot) found × ((header_of found).previous ≡ previous.None) }
{
    let header = Header::of_word(see_draft(words, actor, 2 * slot as usize));
    matches!(header.previous, Previous::None)
}

/// How many of the slots are left out of what this node named: all of them, if it is the fresh main node of a SWAP; else those of what was
/// made. None where that isn't known: then nothing of it is let go of.
fn left_out_of(
    words: &Words,
    actor: &mut Actor,
    own: OwnNode,
    fresh: Option<u32>,
    made: usize,
    all: usize,
) -> Option<usize>
    requires table { actor.old.table_id ≡ words.now.table_id }
    requires sound { IsSound words.now.table_id.words actor.old.me.0 }
    requires inside { 2 * own.slot < words.now.table_id.words }
    ensures table { actor.new.table_id ≡ actor.old.table_id }
    ensures same { actor.new.me ≡ actor.old.me }
    ensures left_out { IfSome result (LeavesOut actor.old.me.0 own fresh made all) }
{
    if fresh == Some(own.slot) {
        return Some(all);
    }
    match own.kind {
        Kind::Main => {
            if is_over_none(words, actor, own.slot) {
                Some(made)
            } else {
                None
            }
        }
        Kind::Replaced | Kind::Single | Kind::Indirection => Some(made),
    }
}

/// Lets go of what these nodes named of others, which its operation has given up. The fresh main node of a SWAP, if it is named, was to take
/// over what the entries of those halves lead to.
#[cold]
#[inline(never)]
pub(crate) fn let_made_go(
    words: &Words,
    actor: &mut Actor,
    stock: &mut Stock,
    made: &ArrayVec<OwnNode, 128>,
    fresh: Option<u32>,
    kept: &[u32],
)
    requires table { actor.old.table_id ≡ words.now.table_id }
    requires sound { IsSound words.now.table_id.words actor.old.me.0 }
    requires sizes { stock.old.sizes ≡ actor.old.me.0.sizes }
    requires limbo { IsLimbo stock.old.limbo actor.old.me.0 }
    requires few { length kept.now ≤ 32 }
    requires may { MayLetMadeGo actor.old.me.0 made.now.items fresh (slots_kept kept.now) }
    ensures table { actor.new.table_id ≡ actor.old.table_id }
    ensures sound { IsSound words.now.table_id.words actor.new.me.0 }
    ensures same { stock.new ≡ record stock.old { limbo = stock.new.limbo } }
    ensures limbo { IsLimbo stock.new.limbo actor.new.me.0 }
    ensures let_go { HasLetGo actor.old.me.0 actor.new.me.0 }
{
    let mut slots = slots_of(made);
    add_kept(&mut slots, kept);
    for n in 0..made.len() {
        let own = made[n];
        let Some(count) = left_out_of(words, actor, own, fresh, made.len(), slots.len()) else {
            continue;
        };
        release_names(words, actor, stock, own.kind, own.slot, &slots[..count]);
    }
}

/// Lets the operation of this seat give up, where nothing of its own is published and pending: what it made is free for the seat again, which
/// lets go of what that held of others.
pub(crate) fn give_all_up(words: &Words, actor: &mut Actor, stock: &mut Stock)
    requires table { actor.old.table_id ≡ words.now.table_id }
    requires sound { IsSound words.now.table_id.words actor.old.me.0 }
    requires stock { IsStock stock.old actor.old.me.0 }
    requires may { MayGiveUp actor.old.me.0 }
    ensures table { actor.new.table_id ≡ actor.old.table_id }
    ensures sound { IsSound words.now.table_id.words actor.new.me.0 }
    ensures stock { IsStock stock.new actor.new.me.0 }
    ensures gave { GivesAllUp actor.old.me.0 actor.new.me.0 }
{
    give_up(words, actor);
    let made = stock.give_back();
    let_made_go(words, actor, stock, &made, None, &[]);
}
