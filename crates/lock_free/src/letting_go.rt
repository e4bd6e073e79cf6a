//! What a seat is given at the end of its SWAP it lets go of.

ghost use Rattle.std.specs.Prelude.{◌≡◌, ◌≤◌, [], length};
ghost use Rattle.proof_claims.specs.Held.{is_in};
ghost use Rattle.lock_free.specs.Freeing.{HasLetGo};
ghost use Rattle.lock_free.specs.Halves.{entries_of_halves};
ghost use Rattle.lock_free.specs.Limbos.{IsLimbo};
ghost use Rattle.lock_free.specs.Loading.{IsSound};
ghost use Rattle.lock_free.specs.SeenNames.{elsewhere, slots_of, HasDropped, HasSeenDropped, HasSeenNames, HasSeenTaken, HoldsMain, MayLetGo, MayLetGoBy, MayLetGoTold, OwesDropped};

use crate::entries::see_halves;
use crate::leaving::{Drops, Swapping};
use crate::loads::{Actor, Words, see_entry, see_main};
use crate::raising::{kind_for, release, release_entries, release_in_place};
use crate::reclaiming::{Decided, Kind};
use crate::stock::Stock;
use arrayvec::ArrayVec;
use trie_words::{Entry, Name, Shape};

/// What the main node in this slot names, into an empty list: the entries of a branch or a list, or a tomb's single.
pub fn see_names(words: &Words, actor: &mut Actor, main: u32, halves: &mut ArrayVec<u32, 32>)
    requires table { actor.old.table_id ≡ words.now.table_id }
    requires sound { IsSound words.now.table_id.words actor.old.me.0 }
    requires held { HoldsMain actor.old.me.0 main }
    requires none { halves.old.items ≡ [] }
    ensures table { actor.new.table_id ≡ actor.old.table_id }
    ensures sound { IsSound words.now.table_id.words actor.new.me.0 }
    ensures seen { HasSeenNames actor.old.me.0 main (entries_of_halves halves.new.items) actor.new.me.0 }
{
    match see_main(words, actor, main).shape {
        Shape::Branch(bitmap) => {
            let count = bitmap.count_ones() as usize;
            see_halves(words, actor, main, count, true, halves);
        }
        Shape::List(count) => see_halves(words, actor, main, count as usize, true, halves),
        Shape::Tomb(single) => halves.push(single.to_half()),
    }
}

/// What one that replaces the main node of this name takes over from it, into an empty list: all that it names, if it is the indirection's
/// own.
pub fn see_taken(words: &Words, actor: &mut Actor, replaced: Name, halves: &mut ArrayVec<u32, 32>)
    requires table { actor.old.table_id ≡ words.now.table_id }
    requires sound { IsSound words.now.table_id.words actor.old.me.0 }
    requires held { HoldsMain actor.old.me.0 replaced.slot }
    requires none { halves.old.items ≡ [] }
    ensures table { actor.new.table_id ≡ actor.old.table_id }
    ensures sound { IsSound words.now.table_id.words actor.new.me.0 }
    ensures seen { HasSeenTaken actor.old.me.0 replaced (entries_of_halves halves.new.items) actor.new.me.0 }
{
    if replaced.own {
        see_names(words, actor, replaced.slot, halves);
    }
}

/// Whether one of these halves leads to this slot.
fn leads_to(halves: &[u32], slot: u32) -> bool
    ensures { result ≡ is_in (slots_of halves.now) slot }
{
    for n in 0..halves.len() {
        if Entry::of_half(halves[n]).slot == slot {
            return true;
        }
    }
    false
}

/// Those of these halves that lead to no slot to which one of the others leads.
fn elsewhere(halves: &[u32], others: &[u32]) -> ArrayVec<u32, 32>
    requires few { length halves.now ≤ 32 }
    ensures { result.items ≡ elsewhere others.now halves.now }
{
    let mut apart = ArrayVec::new();
    for n in 0..halves.len() {
        if !leads_to(others, Entry::of_half(halves[n]).slot) {
            apart.push(halves[n]);
        }
    }
    apart
}

/// Releases what the entries of these halves lead to, but for what the others lead to.
fn release_others(
    words: &Words,
    actor: &mut Actor,
    stock: &mut Stock,
    halves: &[u32],
    others: &[u32],
)
    requires table { actor.old.table_id ≡ words.now.table_id }
    requires sound { IsSound words.now.table_id.words actor.old.me.0 }
    requires sizes { stock.old.sizes ≡ actor.old.me.0.sizes }
    requires limbo { IsLimbo stock.old.limbo actor.old.me.0 }
    requires few { length halves.now ≤ 32 }
    requires holds { MayLetGo actor.old.me.0 (entries_of_halves halves.now) (entries_of_halves others.now) }
    ensures table { actor.new.table_id ≡ actor.old.table_id }
    ensures sound { IsSound words.now.table_id.words actor.new.me.0 }
    ensures same { stock.new ≡ record stock.old { limbo = stock.new.limbo } }
    ensures limbo { IsLimbo stock.new.limbo actor.new.me.0 }
    ensures let_go { HasLetGo actor.old.me.0 actor.new.me.0 }
{
    let apart = elsewhere(halves, others);
    release_entries(words, actor, stock, &apart, None);
}

/// Lets go of what the SWAP gave to the seat that came to this: what of the replaced main node the fresh one doesn't name, or the
/// replaced one itself, where it isn't the indirection's own; or what the fresh one, which was refused, didn't take over.
pub fn let_go_by(
    words: &Words,
    actor: &mut Actor,
    stock: &mut Stock,
    swapping: Swapping,
    decided: Decided,
    olds: &ArrayVec<u32, 32>,
    news: &ArrayVec<u32, 32>,
)
    requires table { actor.old.table_id ≡ words.now.table_id }
    requires sound { IsSound words.now.table_id.words actor.old.me.0 }
    requires sizes { stock.old.sizes ≡ actor.old.me.0.sizes }
    requires limbo { IsLimbo stock.old.limbo actor.old.me.0 }
    requires holds { MayLetGoBy actor.old.me.0 swapping decided olds.now.items news.now.items }
    ensures table { actor.new.table_id ≡ actor.old.table_id }
    ensures sound { IsSound words.now.table_id.words actor.new.me.0 }
    ensures same { stock.new ≡ record stock.old { limbo = stock.new.limbo } }
    ensures limbo { IsLimbo stock.new.limbo actor.new.me.0 }
    ensures let_go { HasLetGo actor.old.me.0 actor.new.me.0 }
{
    match decided {
        Decided::Commits(Some(_)) => release_others(words, actor, stock, olds, news),
        Decided::Commits(None) => {
            let Name { slot, .. } = swapping.replaced;
            release(words, actor, stock, Kind::Main, swapping.class, slot);
        }
        Decided::Fails(_) => release_others(words, actor, stock, news, olds),
    }
}

/// The entry of the main node in this slot that is dropped, if it is known that one is.
#[inline(always)]
pub fn see_dropped(words: &Words, actor: &mut Actor, main: u32, drops: Drops) -> Option<Entry>
    requires table { actor.old.table_id ≡ words.now.table_id }
    requires sound { IsSound words.now.table_id.words actor.old.me.0 }
    requires held { HasDropped actor.old.me.0 main drops }
    ensures table { actor.new.table_id ≡ actor.old.table_id }
    ensures sound { IsSound words.now.table_id.words actor.new.me.0 }
    ensures seen { HasSeenDropped actor.old.me.0 main drops result actor.new.me.0 }
{
    match drops {
        Drops::At(position) => Some(see_entry(words, actor, main, position as u32)),
        _ => None,
    }
}

/// Releases what this entry leads to, if there is one.
#[inline(always)]
fn release_dropped(words: &Words, actor: &mut Actor, stock: &mut Stock, dropped: Option<Entry>)
    requires table { actor.old.table_id ≡ words.now.table_id }
    requires sound { IsSound words.now.table_id.words actor.old.me.0 }
    requires sizes { stock.old.sizes ≡ actor.old.me.0.sizes }
    requires limbo { IsLimbo stock.old.limbo actor.old.me.0 }
    requires holds { OwesDropped actor.old.me.0 dropped }
    ensures table { actor.new.table_id ≡ actor.old.table_id }
    ensures sound { IsSound words.now.table_id.words actor.new.me.0 }
    ensures same { stock.new ≡ record stock.old { limbo = stock.new.limbo } }
    ensures limbo { IsLimbo stock.new.limbo actor.new.me.0 }
    ensures let_go { HasLetGo actor.old.me.0 actor.new.me.0 }
{
    if let Some(entry) = dropped {
        let kind = kind_for(entry.is_single);
        release_in_place(words, actor, stock, kind, 0, entry.slot);
    }
}

/// Lets go of what the SWAP gave to the seat that came to this: the entry that was dropped, or the replaced main node. The fresh one was seen
/// to be committed, so it isn't refused.
#[inline(always)]
pub fn let_go_told(
    words: &Words,
    actor: &mut Actor,
    stock: &mut Stock,
    swapping: Swapping,
    decided: Decided,
    dropped: Option<Entry>,
)
    requires table { actor.old.table_id ≡ words.now.table_id }
    requires sound { IsSound words.now.table_id.words actor.old.me.0 }
    requires sizes { stock.old.sizes ≡ actor.old.me.0.sizes }
    requires limbo { IsLimbo stock.old.limbo actor.old.me.0 }
    requires holds { MayLetGoTold actor.old.me.0 swapping decided dropped }
    ensures table { actor.new.table_id ≡ actor.old.table_id }
    ensures sound { IsSound words.now.table_id.words actor.new.me.0 }
    ensures same { stock.new ≡ record stock.old { limbo = stock.new.limbo } }
    ensures limbo { IsLimbo stock.new.limbo actor.new.me.0 }
    ensures let_go { HasLetGo actor.old.me.0 actor.new.me.0 }
{
    match decided {
        Decided::Commits(Some(_)) => release_dropped(words, actor, stock, dropped),
        Decided::Commits(None) => {
            let Name { slot, .. } = swapping.replaced;
            release(words, actor, stock, Kind::Main, swapping.class, slot);
        }
        Decided::Fails(_) => {}
    }
}
