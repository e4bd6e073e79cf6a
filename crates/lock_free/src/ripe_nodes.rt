//! Nodes that had no reference any more, once no call can be on them: their slots become free, and the seat lets go of what they held.

ghost use Rattle.std.specs.Prelude.{◌≡◌, ◌+◌, ◌<◌, ◌≤◌, ◌≢◌};
ghost use Rattle.lock_free.specs.declared.reclaiming.Kind.TheVariants as kinds;
ghost use Rattle.lock_free.specs.Calling.{IsRunning};
ghost use Rattle.lock_free.specs.Freeing.{HasFreedSome};
ghost use Rattle.lock_free.specs.Limbos.{chains_of};
ghost use Rattle.lock_free.specs.Loading.{IsSound};
ghost use Rattle.lock_free.specs.Stocks.{IsStock};

use crate::freeing::{reclaim_deep, release_names};
use crate::loads::{Actor, Words};
use crate::reclaiming::Kind;
use crate::sizes::Sizes;
use crate::stock::Stock;

/// Makes the first slot of the aged chain of this kind and class, whose epoch is three back, free for the seat, and lets go of what its
/// node held, if there is one, and the stock has room for it. Returns whether it did.
#[inline(always)]
fn free_one(
    words: &Words,
    actor: &mut Actor,
    stock: &mut Stock,
    sizes: Sizes,
    kind: Kind,
    class: u32,
) -> bool
    requires table { actor.old.table_id ≡ words.now.table_id }
    requires sound { IsSound words.now.table_id.words actor.old.me.0 }
    requires stock { IsStock stock.old actor.old.me.0 }
    requires sizes { actor.old.me.0.sizes ≡ sizes }
    requires running { IsRunning actor.old.me.0 }
    requires deep { kind ≢ kinds.Replaced }
    requires class { class < 3 }
    requires ripe { (chains_of stock.old.limbo kind class).aged.stamp + 3 ≤ actor.old.me.0.epoch }
    ensures table { actor.new.table_id ≡ actor.old.table_id }
    ensures sound { IsSound words.now.table_id.words actor.new.me.0 }
    ensures stock { IsStock stock.new actor.new.me.0 }
    ensures freed { HasFreedSome actor.old.me.0 actor.new.me.0 }
{
    let Some(slot) = stock.first_aged(kind, class) else {
        return false;
    };
    if !stock.takes_back(class) {
        return false;
    }
    let link = reclaim_deep(words, actor, &sizes, class, slot);
    stock.lead_on(kind, class, link);
    stock.add(class, slot);
    release_names(words, actor, stock, kind, slot, &[]);
    true
}

/// The same with so many slots at most, one after the other, as long as those of the chain are that old.
#[inline(always)]
fn free_aged(
    tries: u64,
    words: &Words,
    actor: &mut Actor,
    stock: &mut Stock,
    kind: Kind,
    class: u32,
)
    requires table { actor.old.table_id ≡ words.now.table_id }
    requires sound { IsSound words.now.table_id.words actor.old.me.0 }
    requires stock { IsStock stock.old actor.old.me.0 }
    requires running { IsRunning actor.old.me.0 }
    requires deep { kind ≢ kinds.Replaced }
    requires class { class < 3 }
    ensures table { actor.new.table_id ≡ actor.old.table_id }
    ensures sound { IsSound words.now.table_id.words actor.new.me.0 }
    ensures stock { IsStock stock.new actor.new.me.0 }
    ensures freed { HasFreedSome actor.old.me.0 actor.new.me.0 }
{
    let sizes = stock.sizes();
    stock.turn(kind, class);
    for _ in 0..tries {
        if !stock.has_ripe(kind, class) {
            return;
        }
        if !free_one(words, actor, stock, sizes, kind, class) {
            return;
        }
    }
}

/// The same, as a function of its own: seldom are there slots of these kinds.
#[cold]
#[inline(never)]
fn free_apart(
    tries: u64,
    words: &Words,
    actor: &mut Actor,
    stock: &mut Stock,
    kind: Kind,
    class: u32,
)
    requires table { actor.old.table_id ≡ words.now.table_id }
    requires sound { IsSound words.now.table_id.words actor.old.me.0 }
    requires stock { IsStock stock.old actor.old.me.0 }
    requires running { IsRunning actor.old.me.0 }
    requires deep { kind ≢ kinds.Replaced }
    requires class { class < 3 }
    ensures table { actor.new.table_id ≡ actor.old.table_id }
    ensures sound { IsSound words.now.table_id.words actor.new.me.0 }
    ensures stock { IsStock stock.new actor.new.me.0 }
    ensures freed { HasFreedSome actor.old.me.0 actor.new.me.0 }
{
    free_aged(tries, words, actor, stock, kind, class);
}

/// The same, where there are any.
#[inline(always)]
fn free_some(
    tries: u64,
    words: &Words,
    actor: &mut Actor,
    stock: &mut Stock,
    kind: Kind,
    class: u32,
)
    requires table { actor.old.table_id ≡ words.now.table_id }
    requires sound { IsSound words.now.table_id.words actor.old.me.0 }
    requires stock { IsStock stock.old actor.old.me.0 }
    requires running { IsRunning actor.old.me.0 }
    requires deep { kind ≢ kinds.Replaced }
    requires class { class < 3 }
    ensures table { actor.new.table_id ≡ actor.old.table_id }
    ensures sound { IsSound words.now.table_id.words actor.new.me.0 }
    ensures stock { IsStock stock.new actor.new.me.0 }
    ensures freed { HasFreedSome actor.old.me.0 actor.new.me.0 }
{
    if stock.has_retired(kind, class) {
        free_apart(tries, words, actor, stock, kind, class);
    }
}

/// The same with main nodes of each class.
#[inline(always)]
fn free_mains(tries: u64, words: &Words, actor: &mut Actor, stock: &mut Stock)
    requires table { actor.old.table_id ≡ words.now.table_id }
    requires sound { IsSound words.now.table_id.words actor.old.me.0 }
    requires stock { IsStock stock.old actor.old.me.0 }
    requires running { IsRunning actor.old.me.0 }
    ensures table { actor.new.table_id ≡ actor.old.table_id }
    ensures sound { IsSound words.now.table_id.words actor.new.me.0 }
    ensures stock { IsStock stock.new actor.new.me.0 }
    ensures freed { HasFreedSome actor.old.me.0 actor.new.me.0 }
{
    free_some(tries, words, actor, stock, Kind::Main, 0);
    free_some(tries, words, actor, stock, Kind::Main, 1);
    free_some(tries, words, actor, stock, Kind::Main, 2);
}

/// Makes slots free for the seat whose nodes had no reference any more, so many of each kind and class at most, once the epoch is three
/// later, and lets go of what these held. Indirections and singles have small slots.
#[inline(never)]
pub(crate) fn free_deep(tries: u64, words: &Words, actor: &mut Actor, stock: &mut Stock)
    requires table { actor.old.table_id ≡ words.now.table_id }
    requires sound { IsSound words.now.table_id.words actor.old.me.0 }
    requires stock { IsStock stock.old actor.old.me.0 }
    requires running { IsRunning actor.old.me.0 }
    ensures table { actor.new.table_id ≡ actor.old.table_id }
    ensures sound { IsSound words.now.table_id.words actor.new.me.0 }
    ensures stock { IsStock stock.new actor.new.me.0 }
    ensures freed { HasFreedSome actor.old.me.0 actor.new.me.0 }
{
    free_mains(tries, words, actor, stock);
    free_some(tries, words, actor, stock, Kind::Indirection, 0);
    free_aged(tries, words, actor, stock, Kind::Single, 0);
}
