//! A slot for the next node.

ghost use Rattle.std.specs.Prelude.{◌≡◌, ◌<◌, OnSome};
ghost use Rattle.lock_free.specs.Loading.{IsSound};
ghost use Rattle.lock_free.specs.Stocks.{HasRoom, HasSlotOrNone, IsStock};

use crate::cells::fetch_slot;
use crate::loads::{Actor, Words};
use crate::stock::Stock;
use crate::stores::{Tried, try_take};

/// A slot of this class for the next node: the last of those that are free then. None where all were handed out, or others took each one
/// first at so many tries.
#[inline(always)]
pub fn take(
    tries: u64,
    words: &Words,
    actor: &mut Actor,
    stock: &mut Stock,
    class: u32,
) -> Option<u32>
    requires table { actor.old.table_id ≡ words.now.table_id }
    requires sound { IsSound words.now.table_id.words actor.old.me.0 }
    requires stock { IsStock stock.old actor.old.me.0 }
    requires class { class < 3 }
    ensures table { actor.new.table_id ≡ actor.old.table_id }
    ensures sound { IsSound words.now.table_id.words actor.new.me.0 }
    ensures stock { IsStock stock.new actor.new.me.0 }
    ensures room { OnSome result (HasRoom stock.new 1) }
    ensures slot { HasSlotOrNone actor.old.me.0 class result actor.new.me.0 }
{
    if !stock.has_room() {
        stock.lack();
        return None;
    }
    if let Some(slot) = stock.last(class) {
        return Some(slot);
    }
    for _ in 0..tries {
        match try_take(words, actor, &stock.sizes(), class) {
            Tried::Slot(slot) => {
                stock.add(class, slot);
                return Some(slot);
            }
            Tried::Full => return fetch_slot(words, actor, stock, class),
            Tried::Lost => {}
        }
    }
    None
}
