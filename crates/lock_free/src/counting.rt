//! References to nodes are counted, beside the first one of each.

ghost use Rattle.std.specs.Prelude.{◌≡◌, ◌<◌};
ghost use Rattle.machine_model.specs.Beneath.slot_arena.specs.declared.refs.Ref.{Ref as ARef};
ghost use Rattle.lock_free.specs.Counting.{has_lowered, has_raised, is_last, HasAtHand, HasLoweredBy, HasRaised, Owes};
ghost use Rattle.lock_free.specs.Loading.{IsSound};
ghost use Rattle.lock_free.specs.Places.{IsSlot};

use crate::loads::{Actor, Words};
use crate::rules::View;
use crate::sizes::Sizes;
use atomic_table::Play;
use history::Call;

/// A reference more is counted, which the seat holds, or isn't.
pub struct Raises;

impl Play<Call, View> for Raises {
    ghost then = { has_raised };
}

/// A reference less is counted, which the seat held.
pub struct Lowers;

impl Play<Call, View> for Lowers {
    ghost then = { has_lowered };
}

/// The word of a count has the count in its high half: it is one more where this is added to the word.
const ONE: u64 = 1 << 32;

/// One less. What goes out at the top is lost.
const ONE_LESS: u64 = u64::MAX - ONE + 1;

/// What the high half says where there is no reference at all.
const GONE: u64 = ONE - 1;

/// From this count on no reference more is counted.
const FULL: u64 = 1 << 31;

/// What came of trying to count a reference more.
#[derive(Clone, Copy, Drop)]
pub enum Raised {
    /// It is counted, and the seat holds it.
    Done,
    /// There was no reference to it any more.
    Gone,
    /// There are as many as can be counted.
    Full,
    /// Another seat has changed the word at this time.
    Lost,
}

/// What was left where a reference less was counted.
#[derive(Clone, Copy, Drop)]
pub enum Lowered {
    /// There are others.
    Done,
    /// It was the last one: no root leads to the node any more, and the seat has retired its slot.
    Last,
}

/// Tries to count a reference more to the node in this slot, which the operation has at hand: one that the seat holds.
pub fn try_raise(words: &Words, actor: &mut Actor, sizes: &Sizes, class: u32, slot: u32) -> Raised
    requires table { actor.old.table_id ≡ words.now.table_id }
    requires sound { IsSound words.now.table_id.words actor.old.me.0 }
    requires sizes { actor.old.me.0.sizes ≡ sizes.now }
    requires class { class < 3 }
    requires slot { IsSlot sizes.now class slot }
    requires at_hand { (k : ARef) × HasAtHand actor.old.me.0 k class slot }
    ensures table { actor.new.table_id ≡ actor.old.table_id }
    ensures sound { IsSound words.now.table_id.words actor.new.me.0 }
    ensures raised { (k : ARef) → HasAtHand actor.old.me.0 k class slot → HasRaised actor.old.me.0 k result actor.new.me.0 }
{
    let word = sizes.count_word(class, slot);
    let count = words.peek(word);
    let extra = count / ONE;
    if extra == GONE {
        return Raised::Gone;
    }
    if extra >= FULL {
        return Raised::Full;
    }
    if words.compare_exchange::<Raises>(actor, word, count, count + ONE) != count {
        return Raised::Lost;
    }
    Raised::Done
}

/// Counts a reference less to the node in this slot: one that the seat holds, and that isn't the first one to what its operation has
/// just made.
#[inline(always)]
pub fn lower(words: &Words, actor: &mut Actor, sizes: &Sizes, class: u32, slot: u32) -> Lowered
    requires table { actor.old.table_id ≡ words.now.table_id }
    requires sound { IsSound words.now.table_id.words actor.old.me.0 }
    requires sizes { actor.old.me.0.sizes ≡ sizes.now }
    requires class { class < 3 }
    requires slot { IsSlot sizes.now class slot }
    requires owed { (k : ARef) × Owes actor.old.me.0 k class slot }
    ensures table { actor.new.table_id ≡ actor.old.table_id }
    ensures sound { IsSound words.now.table_id.words actor.new.me.0 }
    ensures lowered { (k : ARef) → Owes actor.old.me.0 k class slot → HasLoweredBy actor.old.me.0 k (is_last result) actor.new.me.0 }
{
    if words.fetch_add::<Lowers>(actor, sizes.count_word(class, slot), ONE_LESS) < ONE {
        Lowered::Last
    } else {
        Lowered::Done
    }
}
