//! What a seat has just retired hangs with all else of its kind and class.

ghost use Rattle.std.specs.Prelude.{◌≡◌};
ghost use Rattle.lock_free.specs.Limbos.{AreNewest, HasHung, IsLimbo, IsNewestOrNone};
ghost use Rattle.lock_free.specs.Loading.{IsSound};

use crate::loads::{Actor, Words};
use crate::reclaiming::{Kind, Retiree};
use crate::stock::Stock;
use trie_words::Pair;

/// Hangs the slots of the roots that the seat has just retired: the lower one, and the higher one unless it is 0.
pub fn hang_roots(words: &Words, actor: &mut Actor, stock: &mut Stock, roots: Pair)
    requires table { actor.old.table_id ≡ words.now.table_id }
    requires sound { IsSound words.now.table_id.words actor.old.me.0 }
    requires sizes { stock.old.sizes ≡ actor.old.me.0.sizes }
    requires newest { AreNewest stock.old.limbo actor.old.me.0 roots }
    ensures table { actor.new.table_id ≡ actor.old.table_id }
    ensures sound { IsSound words.now.table_id.words actor.new.me.0 }
    ensures same { stock.new ≡ record stock.old { limbo = stock.new.limbo } }
    ensures limbo { IsLimbo stock.new.limbo actor.new.me.0 }
    ensures hung { HasHung actor.old.me.0 actor.new.me.0 }
{
    let sizes = stock.sizes();
    stock.hang_next(words, actor, sizes, Kind::Replaced, 0, roots.low);
    if roots.high != 0 {
        stock.hang_next(words, actor, sizes, Kind::Replaced, 0, roots.high);
    }
}

/// Hangs the slot of a replaced node that the seat has just retired, if there is one.
#[inline(always)]
pub fn hang_replaced(words: &Words, actor: &mut Actor, stock: &mut Stock, retired: Option<Retiree>)
    requires table { actor.old.table_id ≡ words.now.table_id }
    requires sound { IsSound words.now.table_id.words actor.old.me.0 }
    requires sizes { stock.old.sizes ≡ actor.old.me.0.sizes }
    requires newest { IsNewestOrNone stock.old.limbo actor.old.me.0 retired }
    ensures table { actor.new.table_id ≡ actor.old.table_id }
    ensures sound { IsSound words.now.table_id.words actor.new.me.0 }
    ensures same { stock.new ≡ record stock.old { limbo = stock.new.limbo } }
    ensures limbo { IsLimbo stock.new.limbo actor.new.me.0 }
    ensures hung { HasHung actor.old.me.0 actor.new.me.0 }
{
    if let Some(retiree) = retired {
        let sizes = stock.sizes();
        stock.hang_one(
            words,
            actor,
            sizes,
            Kind::Replaced,
            retiree.class,
            retiree.slot,
        );
    }
}
