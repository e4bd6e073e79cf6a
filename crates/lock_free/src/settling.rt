//! What becomes of the slots that were made for a SWAP, once that has come to its end or has missed.

ghost use Rattle.std.specs.Prelude.{◌≡◌, ◌≤◌, [], length};
ghost use Rattle.lock_free.specs.declared.swapping.Swapped.TheVariants.{Misses};
ghost use Rattle.lock_free.specs.Freeing.{HasLetGo};
ghost use Rattle.lock_free.specs.LettingMadeGo.{fresh_left, kept_over, slots_kept, MayLetMadeGo};
ghost use Rattle.lock_free.specs.Limbos.{IsLimbo};
ghost use Rattle.lock_free.specs.Loading.{IsSound};
ghost use Rattle.lock_free.specs.Stocks.{put_back, settled_pool};

use crate::giving_up::let_made_go;
use crate::loads::{Actor, Words};
use crate::stock::Stock;
use crate::swapping::Swapped;

/// The fresh main node in this slot, unless what it was to take over isn't known.
fn fresh_left(own: bool, kept: &[u32], fresh: u32) -> Option<u32>
    ensures { result ≡ fresh_left own kept.now fresh }
{
    if own && kept.is_empty() {
        None
    } else {
        Some(fresh)
    }
}

/// What was made for a SWAP that has missed is free again, and the seat lets go of what it named of others.
#[cold]
#[inline(never)]
fn give_back_missed(
    words: &Words,
    actor: &mut Actor,
    stock: &mut Stock,
    own: bool,
    fresh: u32,
    kept: &[u32],
)
    requires table { actor.old.table_id ≡ words.now.table_id }
    requires sound { IsSound words.now.table_id.words actor.old.me.0 }
    requires sizes { stock.old.sizes ≡ actor.old.me.0.sizes }
    requires limbo { IsLimbo stock.old.limbo actor.old.me.0 }
    requires few { length kept.now ≤ 32 }
    requires missed { MayLetMadeGo actor.old.me.0 stock.old.made (fresh_left own kept.now fresh) (slots_kept (kept_over own kept.now)) }
    ensures table { actor.new.table_id ≡ actor.old.table_id }
    ensures sound { IsSound words.now.table_id.words actor.new.me.0 }
    ensures sizes { stock.new.sizes ≡ stock.old.sizes }
    ensures pool { stock.new.pool ≡ put_back stock.old.made stock.old.pool }
    ensures made { stock.new.made ≡ [] }
    ensures limbo { IsLimbo stock.new.limbo actor.new.me.0 }
    ensures let_go { HasLetGo actor.old.me.0 actor.new.me.0 }
{
    let made = stock.give_back();
    let left = fresh_left(own, kept, fresh);
    let taken_over = if own { kept } else { &kept[..0] };
    let_made_go(words, actor, stock, &made, left, taken_over);
}

/// What was made for a SWAP that came to this is handed over, or free again: then the seat lets go of what it named of others.
#[inline(always)]
pub fn settle_stock(
    words: &Words,
    actor: &mut Actor,
    stock: &mut Stock,
    swapped: Swapped,
    own: bool,
    fresh: u32,
    kept: &[u32],
)
    requires table { actor.old.table_id ≡ words.now.table_id }
    requires sound { IsSound words.now.table_id.words actor.old.me.0 }
    requires sizes { stock.old.sizes ≡ actor.old.me.0.sizes }
    requires limbo { IsLimbo stock.old.limbo actor.old.me.0 }
    requires few { length kept.now ≤ 32 }
    requires missed { swapped ≡ Misses → MayLetMadeGo actor.old.me.0 stock.old.made (fresh_left own kept.now fresh) (slots_kept (kept_over own kept.now)) }
    ensures table { actor.new.table_id ≡ actor.old.table_id }
    ensures sound { IsSound words.now.table_id.words actor.new.me.0 }
    ensures sizes { stock.new.sizes ≡ stock.old.sizes }
    ensures pool { stock.new.pool ≡ settled_pool swapped stock.old.made stock.old.pool }
    ensures made { stock.new.made ≡ [] }
    ensures limbo { IsLimbo stock.new.limbo actor.new.me.0 }
    ensures let_go { HasLetGo actor.old.me.0 actor.new.me.0 }
{
    match swapped {
        Swapped::Misses => give_back_missed(words, actor, stock, own, fresh, kept),
        Swapped::Commits(_) | Swapped::Fails(_) => stock.hand_over(),
    }
}
