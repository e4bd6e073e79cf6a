//! Slots that are loose: free for no seat, and whoever takes one up first has it. The link of its count says so, and may lead on to another
//! one. Nobody relies on where it leads: a seat that is led to a slot asks the slot's own count.

ghost use Rattle.std.specs.Prelude.{◌≡◌, ◌<◌, ◌++◌, ℕ, List, [], ◌∷◌, None};
ghost use Rattle.lock_free.specs.Cells.{loose_link};
ghost use Rattle.lock_free.specs.CellWords.{has_loosened, has_taken_up, HasPut, HasTakenUp};
ghost use Rattle.lock_free.specs.Links.{link_in, with_link};
ghost use Rattle.lock_free.specs.Loading.{IsSound};
ghost use Rattle.lock_free.specs.Places.{IsSlot};
ghost use Rattle.lock_free.specs.Rules.{pool_of};

use crate::links::{LOOSE, link_in};
use crate::loads::{Actor, Words};
use crate::rules::View;
use crate::sizes::Sizes;
use atomic_table::Play;
use history::Call;

/// A slot that is free for the seat is loose, or isn't.
pub struct Loosens;

impl Play<Call, View> for Loosens {
    ghost then = { has_loosened };
}

/// A loose slot is free for the seat that takes it up, if it does.
pub struct TakesUp;

impl Play<Call, View> for TakesUp {
    ghost then = { has_taken_up };
}

/// The word of a count with this link in the place of its own.
fn with_link(count: u64, link: u32) -> u64
    ensures { result ≡ with_link count link }
{
    count - u64::from(link_in(count)) + u64::from(link)
}

/// Makes the last slot of this class that is free for the seat loose; it leads on to this one, or to none where that is 0. Returns whether
/// it did.
pub fn loosen(
    words: &Words,
    actor: &mut Actor,
    sizes: &Sizes,
    class: u32,
    slot: u32,
    next: u32,
) -> bool
    requires table { actor.old.table_id ≡ words.now.table_id }
    requires sound { IsSound words.now.table_id.words actor.old.me.0 }
    requires sizes { actor.old.me.0.sizes ≡ sizes.now }
    requires class { class < 3 }
    requires slot { IsSlot sizes.now class slot }
    requires last { (rest : List ℕ) × (pool_of actor.old.me.0.pool class ≡ rest ++ slot ∷ []) }
    requires unopened { class ≡ 1 → actor.old.me.0.opens ≡ None }
    requires next { next < loose_link }
    ensures table { actor.new.table_id ≡ actor.old.table_id }
    ensures sound { IsSound words.now.table_id.words actor.new.me.0 }
    ensures put { HasPut actor.old.me.0 class result actor.new.me.0 }
{
    let word = sizes.count_word(class, slot);
    let count = words.peek(word);
    let loose = with_link(count, LOOSE + next);
    if words.compare_exchange::<Loosens>(actor, word, count, loose) != count {
        return false;
    }
    true
}

/// Takes this slot of the class up, if it is loose. Returns where it led then, 0 for none.
pub fn take_up(
    words: &Words,
    actor: &mut Actor,
    sizes: &Sizes,
    class: u32,
    slot: u32,
) -> Option<u32>
    requires table { actor.old.table_id ≡ words.now.table_id }
    requires sound { IsSound words.now.table_id.words actor.old.me.0 }
    requires sizes { actor.old.me.0.sizes ≡ sizes.now }
    requires class { class < 3 }
    requires slot { IsSlot sizes.now class slot }
    ensures table { actor.new.table_id ≡ actor.old.table_id }
    ensures sound { IsSound words.now.table_id.words actor.new.me.0 }
    ensures taken { HasTakenUp actor.old.me.0 class slot result actor.new.me.0 }
{
    let word = sizes.count_word(class, slot);
    let count = words.peek(word);
    let link = link_in(count);
    if link < LOOSE {
        return None;
    }
    if words.compare_exchange::<TakesUp>(actor, word, count, with_link(count, 0)) != count {
        return None;
    }
    Some(link - LOOSE)
}
