//! A seat takes slots that were never handed out, before its next call wants them.

ghost use Rattle.std.specs.Prelude.{◌≡◌, ◌<◌};
ghost use Rattle.lock_free.specs.Freed.{kept_free};
ghost use Rattle.lock_free.specs.Limbos.{HasReclaimedSome};
ghost use Rattle.lock_free.specs.Loading.{IsSound};
ghost use Rattle.lock_free.specs.Stocks.{HasRoomFor, IsStock};

use crate::loads::{Actor, Words};
use crate::stock::Stock;
use crate::stores::{Tried, try_take};

/// So many tries at most are made for the slots of a class.
const TRIES: u32 = 16;

/// Takes a slot of this class that was never handed out, if there is one. Returns whether there may be more.
fn take_fresh(words: &Words, actor: &mut Actor, stock: &mut Stock, class: u32) -> bool
    requires table { actor.old.table_id ≡ words.now.table_id }
    requires sound { IsSound words.now.table_id.words actor.old.me.0 }
    requires stock { IsStock stock.old actor.old.me.0 }
    requires class { class < 3 }
    requires room { HasRoomFor stock.old class kept_free }
    ensures table { actor.new.table_id ≡ actor.old.table_id }
    ensures sound { IsSound words.now.table_id.words actor.new.me.0 }
    ensures stock { IsStock stock.new actor.new.me.0 }
    ensures taken { HasReclaimedSome actor.old.me.0 actor.new.me.0 }
{
    let sizes = stock.sizes();
    match try_take(words, actor, &sizes, class) {
        Tried::Slot(slot) => {
            stock.add(class, slot);
            true
        }
        Tried::Full => false,
        Tried::Lost => true,
    }
}

/// Takes slots of this class that were never handed out, as long as the seat's next call may want more of them, and there are some.
fn refill_class(words: &Words, actor: &mut Actor, stock: &mut Stock, class: u32)
    requires table { actor.old.table_id ≡ words.now.table_id }
    requires sound { IsSound words.now.table_id.words actor.old.me.0 }
    requires stock { IsStock stock.old actor.old.me.0 }
    requires class { class < 3 }
    ensures table { actor.new.table_id ≡ actor.old.table_id }
    ensures sound { IsSound words.now.table_id.words actor.new.me.0 }
    ensures stock { IsStock stock.new actor.new.me.0 }
    ensures taken { HasReclaimedSome actor.old.me.0 actor.new.me.0 }
{
    for _ in 0..TRIES {
        if !stock.wants(class) || !stock.takes_back(class) {
            return;
        }
        if !take_fresh(words, actor, stock, class) {
            return;
        }
    }
}

/// Takes slots that were never handed out, of each class of which its next call may want more than are free.
pub(crate) fn refill(words: &Words, actor: &mut Actor, stock: &mut Stock)
    requires table { actor.old.table_id ≡ words.now.table_id }
    requires sound { IsSound words.now.table_id.words actor.old.me.0 }
    requires stock { IsStock stock.old actor.old.me.0 }
    ensures table { actor.new.table_id ≡ actor.old.table_id }
    ensures sound { IsSound words.now.table_id.words actor.new.me.0 }
    ensures stock { IsStock stock.new actor.new.me.0 }
    ensures taken { HasReclaimedSome actor.old.me.0 actor.new.me.0 }
{
    refill_class(words, actor, stock, 0);
    refill_class(words, actor, stock, 1);
    refill_class(words, actor, stock, 2);
}
