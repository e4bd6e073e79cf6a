//! A seat gives others what it has over, as one heap for each class.

ghost use Rattle.std.specs.Prelude.{◌≡◌, ◌<◌, None};
ghost use Rattle.lock_free.specs.CellWords.{HasTidied};
ghost use Rattle.lock_free.specs.Limbos.{HasReclaimedSome};
ghost use Rattle.lock_free.specs.Loading.{IsSound};
ghost use Rattle.lock_free.specs.Stocks.{IsStock};

use crate::cells::{cell_of, fetch, give_all};
use crate::loads::{Actor, Words};
use crate::stock::Stock;

/// Fetches the heap in a cell of this class, if there is one, and the seat has some over that are to go with it.
fn gather(words: &Words, actor: &mut Actor, stock: &mut Stock, class: u32)
    requires table { actor.old.table_id ≡ words.now.table_id }
    requires sound { IsSound words.now.table_id.words actor.old.me.0 }
    requires stock { IsStock stock.old actor.old.me.0 }
    requires class { class < 3 }
    ensures table { actor.new.table_id ≡ actor.old.table_id }
    ensures sound { IsSound words.now.table_id.words actor.new.me.0 }
    ensures stock { IsStock stock.new actor.new.me.0 }
    ensures gathered { HasReclaimedSome actor.old.me.0 actor.new.me.0 }
{
    if !stock.has_over(class) || stock.first_loose(class) != 0 || !stock.has_room() {
        return;
    }
    let sizes = stock.sizes();
    let number = cell_of(stock, class);
    if let Some(stored) = fetch(words, actor, &sizes, class, number) {
        stock.add(class, stored.slot);
        stock.set_first_loose(class, stored.next);
    }
}

/// Gives away what the seat has over of each class, with what it gathers in a cell for that.
#[inline(never)]
pub(crate) fn give_over(words: &Words, actor: &mut Actor, stock: &mut Stock)
    requires table { actor.old.table_id ≡ words.now.table_id }
    requires sound { IsSound words.now.table_id.words actor.old.me.0 }
    requires stock { IsStock stock.old actor.old.me.0 }
    requires unopened { actor.old.me.0.opens ≡ None }
    ensures table { actor.new.table_id ≡ actor.old.table_id }
    ensures sound { IsSound words.now.table_id.words actor.new.me.0 }
    ensures stock { IsStock stock.new actor.new.me.0 }
    ensures tidied { HasTidied actor.old.me.0 actor.new.me.0 }
{
    gather(words, actor, stock, 0);
    gather(words, actor, stock, 1);
    gather(words, actor, stock, 2);
    give_all(words, actor, stock);
}
