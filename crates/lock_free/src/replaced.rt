//! Slots of replaced nodes become free again for the seat that has retired them.

ghost use Rattle.std.specs.Prelude.{◌≡◌, ℕ, ◌+◌, ◌<◌, ◌≤◌};
ghost use Rattle.lock_free.specs.declared.reclaiming.Kind.TheVariants.{Replaced};
ghost use Rattle.lock_free.specs.Freed.{kept_free, next_chain, FreesFirst, FreesRipe, KeepsOthers};
ghost use Rattle.lock_free.specs.Limbos.{chains_of, HasReclaimedSome};
ghost use Rattle.lock_free.specs.Loading.{IsSound};
ghost use Rattle.lock_free.specs.Stocks.{HasRoomFor, IsStock};

use crate::advancing::{advance, see_epoch};
use crate::loads::{Actor, Words};
use crate::reclaiming::{Kind, reclaim};
use crate::stock::Stock;

/// Makes the first slot of the aged chain of replaced nodes of this class, whose epoch is three back, free for the seat, if there is one,
/// and its stock has room for it. Returns whether it did.
fn free_one(words: &Words, actor: &mut Actor, stock: &mut Stock, class: u32) -> bool
    requires table { actor.old.table_id ≡ words.now.table_id }
    requires sound { IsSound words.now.table_id.words actor.old.me.0 }
    requires stock { IsStock stock.old actor.old.me.0 }
    requires class { class < 3 }
    requires ripe { (chains_of stock.old.limbo Replaced class).aged.stamp + 3 ≤ actor.old.me.0.epoch }
    ensures table { actor.new.table_id ≡ actor.old.table_id }
    ensures sound { IsSound words.now.table_id.words actor.new.me.0 }
    ensures stock { IsStock stock.new actor.new.me.0 }
    ensures ripe { (chains_of stock.new.limbo Replaced class).aged.stamp + 3 ≤ actor.new.me.0.epoch }
    ensures others { KeepsOthers class stock.old.limbo stock.old stock.new.limbo stock.new }
    ensures reclaimed { HasReclaimedSome actor.old.me.0 actor.new.me.0 }
    ensures freed { HasRoomFor stock.old class kept_free → FreesFirst (chains_of stock.old.limbo Replaced class).aged actor.old.me.0 actor.new.me.0 }
{
    let Some(slot) = stock.first_aged(Kind::Replaced, class) else {
        return false;
    };
    if !stock.takes_back(class) {
        return false;
    }
    let sizes = stock.sizes();
    let link = reclaim(words, actor, &sizes, class, slot);
    stock.add(class, slot);
    stock.lead_on(Kind::Replaced, class, link);
    true
}

/// The same with so many slots at most, one after the other.
fn free_some(tries: u64, words: &Words, actor: &mut Actor, stock: &mut Stock, class: u32)
    requires table { actor.old.table_id ≡ words.now.table_id }
    requires sound { IsSound words.now.table_id.words actor.old.me.0 }
    requires stock { IsStock stock.old actor.old.me.0 }
    requires class { class < 3 }
    requires ripe { (chains_of stock.old.limbo Replaced class).aged.stamp + 3 ≤ actor.old.me.0.epoch }
    ensures table { actor.new.table_id ≡ actor.old.table_id }
    ensures sound { IsSound words.now.table_id.words actor.new.me.0 }
    ensures stock { IsStock stock.new actor.new.me.0 }
    ensures others { KeepsOthers class stock.old.limbo stock.old stock.new.limbo stock.new }
    ensures reclaimed { HasReclaimedSome actor.old.me.0 actor.new.me.0 }
    ensures freed { 1 ≤ tries → HasRoomFor stock.old class kept_free → FreesFirst (chains_of stock.old.limbo Replaced class).aged actor.old.me.0 actor.new.me.0 }
{
    for _done in 0..tries {
        if !free_one(words, actor, stock, class) {
            return;
        }
    }
}

/// Makes slots of replaced nodes of this class free again, so many at most, as long as the stock has room for them: those of the aged
/// chain, once the epoch that the seat has seen is three later.
fn free_ripe(tries: u64, words: &Words, actor: &mut Actor, stock: &mut Stock, class: u32)
    requires table { actor.old.table_id ≡ words.now.table_id }
    requires sound { IsSound words.now.table_id.words actor.old.me.0 }
    requires stock { IsStock stock.old actor.old.me.0 }
    requires class { class < 3 }
    ensures table { actor.new.table_id ≡ actor.old.table_id }
    ensures sound { IsSound words.now.table_id.words actor.new.me.0 }
    ensures stock { IsStock stock.new actor.new.me.0 }
    ensures others { KeepsOthers class stock.old.limbo stock.old stock.new.limbo stock.new }
    ensures reclaimed { HasReclaimedSome actor.old.me.0 actor.new.me.0 }
    ensures freed { 1 ≤ tries → HasRoomFor stock.old class kept_free → FreesRipe (next_chain stock.old.limbo class) stock.old.limbo.seen actor.old.me.0 actor.new.me.0 }
{
    stock.turn(Kind::Replaced, class);
    if !stock.has_ripe(Kind::Replaced, class) {
        return;
    }
    free_some(tries, words, actor, stock, class);
}

/// Makes slots of replaced nodes free for the seat again, so many of each class at most, as long as its stock has room for those of that
/// class: those of the aged chain, once the epoch is three later. Where the seat has some to free, it lets the epoch grow, unless a seat is
/// in a call that it began in an earlier one: what one class still has to free holds back no other one.
#[inline(never)]
pub fn reclaim_some(tries: u64, words: &Words, actor: &mut Actor, stock: &mut Stock)
    requires table { actor.old.table_id ≡ words.now.table_id }
    requires sound { IsSound words.now.table_id.words actor.old.me.0 }
    requires stock { IsStock stock.old actor.old.me.0 }
    ensures table { actor.new.table_id ≡ actor.old.table_id }
    ensures sound { IsSound words.now.table_id.words actor.new.me.0 }
    ensures stock { IsStock stock.new actor.new.me.0 }
    ensures reclaimed { HasReclaimedSome actor.old.me.0 actor.new.me.0 }
    ensures freed { 1 ≤ tries → (class : ℕ) → class < 3 → HasRoomFor stock.old class kept_free → FreesRipe (next_chain stock.old.limbo class) actor.old.me.0.epoch actor.old.me.0 actor.new.me.0 }
{
    let epoch = see_epoch(words, actor);
    stock.see(epoch);
    if !stock.has_any() {
        return;
    }
    free_ripe(tries, words, actor, stock, 0);
    free_ripe(tries, words, actor, stock, 1);
    free_ripe(tries, words, actor, stock, 2);
    let sizes = stock.sizes();
    advance(words, actor, &sizes);
}
