//! References more to what an operation has at hand, and those that its seat lets go of.

ghost use Rattle.std.specs.Prelude.{◌≡◌, ◌↔◌, IsTrue, List, Some};
ghost use Rattle.machine_model.specs.Beneath.slot_arena.specs.declared.refs.Ref.{Ref as ARef};
ghost use Rattle.lock_free.specs.Counting.{HasAtHand};
ghost use Rattle.lock_free.specs.Counts.{without_one};
ghost use Rattle.lock_free.specs.Halves.{entries_of_halves};
ghost use Rattle.lock_free.specs.Limbos.{IsLimbo};
ghost use Rattle.lock_free.specs.Loading.{IsSound};
ghost use Rattle.lock_free.specs.Raising.{all_but, kind_for, HasKept, HasRaisedEntries, HasRaisedOrNot, HasReleasedAll, MayRaise, MayRelease, OwesEntry, OwesOne};
ghost use Rattle.trie_words.specs.Codes.{entry_of};

use crate::counting::{Lowered, Raised, lower, try_raise};
use crate::loads::{Actor, Words};
use crate::reclaiming::Kind;
use crate::sizes::Sizes;
use crate::stock::Stock;
use trie_words::Entry;

/// Counts a reference more to the node in this slot, which the operation has at hand: one that the seat holds. Returns whether it did, within
/// so many tries: not where there was none any more, or as many as can be counted.
pub fn raise(
    tries: u64,
    words: &Words,
    actor: &mut Actor,
    sizes: &Sizes,
    class: u32,
    slot: u32,
) -> bool
    requires table { actor.old.table_id ≡ words.now.table_id }
    requires sound { IsSound words.now.table_id.words actor.old.me.0 }
    requires sizes { actor.old.me.0.sizes ≡ sizes.now }
    requires at_hand { (k : ARef) × HasAtHand actor.old.me.0 k class slot }
    ensures table { actor.new.table_id ≡ actor.old.table_id }
    ensures sound { IsSound words.now.table_id.words actor.new.me.0 }
    ensures raised { (k : ARef) → HasAtHand actor.old.me.0 k class slot → HasRaisedOrNot actor.old.me.0 k result actor.new.me.0 }
{
    for _ in 0..tries {
        match try_raise(words, actor, sizes, class, slot) {
            Raised::Done => return true,
            Raised::Lost => {}
            Raised::Gone => return false,
            Raised::Full => return false,
        }
    }
    false
}

/// Counts a reference less to the node of this kind in this slot: one that the seat holds. If it was the last one, the slot hangs with all else
/// that the seat has retired.
#[inline(always)]
pub fn release_in_place(
    words: &Words,
    actor: &mut Actor,
    stock: &mut Stock,
    kind: Kind,
    class: u32,
    slot: u32,
)
    requires table { actor.old.table_id ≡ words.now.table_id }
    requires sound { IsSound words.now.table_id.words actor.old.me.0 }
    requires sizes { stock.old.sizes ≡ actor.old.me.0.sizes }
    requires limbo { IsLimbo stock.old.limbo actor.old.me.0 }
    requires owed { (k : ARef) × OwesOne actor.old.me.0 k kind class slot }
    ensures table { actor.new.table_id ≡ actor.old.table_id }
    ensures sound { IsSound words.now.table_id.words actor.new.me.0 }
    ensures same { stock.new ≡ record stock.old { limbo = stock.new.limbo } }
    ensures limbo { IsLimbo stock.new.limbo actor.new.me.0 }
    ensures released { (k : ARef) → OwesOne actor.old.me.0 k kind class slot → HasKept actor.old.me.0 (without_one k actor.old.me.0.owed) actor.new.me.0 }
{
    let sizes = stock.sizes();
    match lower(words, actor, &sizes, class, slot) {
        Lowered::Last => stock.hang_one(words, actor, sizes, kind, class, slot),
        Lowered::Done => {}
    }
}

/// The same, as a function of its own.
pub fn release(
    words: &Words,
    actor: &mut Actor,
    stock: &mut Stock,
    kind: Kind,
    class: u32,
    slot: u32,
)
    requires table { actor.old.table_id ≡ words.now.table_id }
    requires sound { IsSound words.now.table_id.words actor.old.me.0 }
    requires sizes { stock.old.sizes ≡ actor.old.me.0.sizes }
    requires limbo { IsLimbo stock.old.limbo actor.old.me.0 }
    requires owed { (k : ARef) × OwesOne actor.old.me.0 k kind class slot }
    ensures table { actor.new.table_id ≡ actor.old.table_id }
    ensures sound { IsSound words.now.table_id.words actor.new.me.0 }
    ensures same { stock.new ≡ record stock.old { limbo = stock.new.limbo } }
    ensures limbo { IsLimbo stock.new.limbo actor.new.me.0 }
    ensures released { (k : ARef) → OwesOne actor.old.me.0 k kind class slot → HasKept actor.old.me.0 (without_one k actor.old.me.0.owed) actor.new.me.0 }
{
    release_in_place(words, actor, stock, kind, class, slot);
}

/// Whether this position is left out.
fn is_left_out(but: Option<usize>, position: usize) -> bool
    ensures { IsTrue result ↔ but ≡ Some position }
{
    matches!(but, Some(left_out) if left_out == position)
}

/// What an entry leads to that is a single, or isn't.
pub(crate) fn kind_for(is_single: bool) -> Kind
    ensures { result ≡ kind_for is_single }
{
    if is_single {
        Kind::Single
    } else {
        Kind::Indirection
    }
}

/// Releases what the entry in this half leads to: a reference that the seat holds.
fn release_entry(words: &Words, actor: &mut Actor, stock: &mut Stock, half: u32)
    requires table { actor.old.table_id ≡ words.now.table_id }
    requires sound { IsSound words.now.table_id.words actor.old.me.0 }
    requires sizes { stock.old.sizes ≡ actor.old.me.0.sizes }
    requires limbo { IsLimbo stock.old.limbo actor.old.me.0 }
    requires owed { (k : ARef) × OwesEntry actor.old.me.0 (entry_of half) k }
    ensures table { actor.new.table_id ≡ actor.old.table_id }
    ensures sound { IsSound words.now.table_id.words actor.new.me.0 }
    ensures same { stock.new ≡ record stock.old { limbo = stock.new.limbo } }
    ensures limbo { IsLimbo stock.new.limbo actor.new.me.0 }
    ensures released { (k : ARef) → OwesEntry actor.old.me.0 (entry_of half) k → HasKept actor.old.me.0 (without_one k actor.old.me.0.owed) actor.new.me.0 }
{
    let entry = Entry::of_half(half);
    release(
        words,
        actor,
        stock,
        kind_for(entry.is_single),
        0,
        entry.slot,
    );
}

/// Releases what the entries of these halves lead to, but for the one at that position: a reference to each, which the seat holds.
pub fn release_entries(
    words: &Words,
    actor: &mut Actor,
    stock: &mut Stock,
    halves: &[u32],
    but: Option<usize>,
)
    requires table { actor.old.table_id ≡ words.now.table_id }
    requires sound { IsSound words.now.table_id.words actor.old.me.0 }
    requires sizes { stock.old.sizes ≡ actor.old.me.0.sizes }
    requires limbo { IsLimbo stock.old.limbo actor.old.me.0 }
    requires owed { (refs : List ARef) × MayRelease actor.old.me.0 (entries_of_halves halves.now) but refs }
    ensures table { actor.new.table_id ≡ actor.old.table_id }
    ensures sound { IsSound words.now.table_id.words actor.new.me.0 }
    ensures same { stock.new ≡ record stock.old { limbo = stock.new.limbo } }
    ensures limbo { IsLimbo stock.new.limbo actor.new.me.0 }
    ensures released { (refs : List ARef) → MayRelease actor.old.me.0 (entries_of_halves halves.now) but refs → HasReleasedAll actor.old.me.0 (all_but but refs) actor.new.me.0 }
{
    for n in 0..halves.len() {
        if !is_left_out(but, n) {
            release_entry(words, actor, stock, halves[n]);
        }
    }
}

/// Counts a reference more to what each entry of these halves leads to, but for the one at that position, within so many tries each. Returns
/// whether the seat holds one more to each; if not, it holds what it held before.
pub fn raise_entries(
    tries: u64,
    words: &Words,
    actor: &mut Actor,
    stock: &mut Stock,
    halves: &[u32],
    but: Option<usize>,
) -> bool
    requires table { actor.old.table_id ≡ words.now.table_id }
    requires sound { IsSound words.now.table_id.words actor.old.me.0 }
    requires sizes { stock.old.sizes ≡ actor.old.me.0.sizes }
    requires limbo { IsLimbo stock.old.limbo actor.old.me.0 }
    requires at_hand { (refs : List ARef) × MayRaise actor.old.me.0 (entries_of_halves halves.now) but refs }
    ensures table { actor.new.table_id ≡ actor.old.table_id }
    ensures sound { IsSound words.now.table_id.words actor.new.me.0 }
    ensures same { stock.new ≡ record stock.old { limbo = stock.new.limbo } }
    ensures limbo { IsLimbo stock.new.limbo actor.new.me.0 }
    ensures raised { (refs : List ARef) → MayRaise actor.old.me.0 (entries_of_halves halves.now) but refs → HasRaisedEntries actor.old.me.0 but refs result actor.new.me.0 }
{
    let sizes = stock.sizes();
    for n in 0..halves.len() {
        if is_left_out(but, n) {
            continue;
        }
        let slot = Entry::of_half(halves[n]).slot;
        if !raise(tries, words, actor, &sizes, 0, slot) {
            release_entries(words, actor, stock, &halves[..n], but);
            return false;
        }
    }
    true
}
