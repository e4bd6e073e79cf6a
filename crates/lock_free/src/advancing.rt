//! The epoch: it grows by one at a time, once no seat is in a call that it began in an earlier one.

ghost use Rattle.std.specs.Prelude.{true, ◌≡◌, ◌+◌, ◌<◌, ◌≤◌, ◌^◌};
ghost use Rattle.lock_free.specs.Epochs.{is_in, HasAdvanced, HasChecked, HasCheckedAll, HasSeenEpoch, HasTriedToAdvance};
ghost use Rattle.lock_free.specs.Loading.{IsSound};

use crate::glance_plays::{Advances, Checks, SeesEpoch};
use crate::glances::fell_within;
use crate::loads::{Actor, Words};
use crate::pins::pin_word_of;
use crate::sizes::Sizes;
use trie_words::Pin;

/// The epoch stands in this word.
pub(crate) const EPOCH_WORD: usize = 0;

/// So many epochs there are: a seat's word has room for no more.
const EPOCHS: u64 = 1 << 54;

/// Looks at the epoch.
#[inline(always)]
pub fn see_epoch(words: &Words, actor: &mut Actor) -> u64
    requires table { actor.old.table_id ≡ words.now.table_id }
    requires sound { IsSound words.now.table_id.words actor.old.me.0 }
    ensures table { actor.new.table_id ≡ actor.old.table_id }
    ensures sound { IsSound words.now.table_id.words actor.new.me.0 }
    ensures seen { HasSeenEpoch actor.old.me result actor.new.me }
{
    words.load::<SeesEpoch>(actor, EPOCH_WORD)
}

/// Whether a seat with this pin is in no call, or has begun it in this epoch.
fn is_in(epoch: u64, pin: &Option<Pin>) -> bool
    ensures { result ≡ is_in epoch pin.now }
{
    match pin {
        None => true,
        Some(pin) => pin.epoch == epoch,
    }
}

/// Looks at the pin of the next seat, once this one has gone by so many. Returns whether that seat is in no call that it began before
/// the epoch that this one has seen.
fn check(words: &Words, actor: &mut Actor, epoch: u64, passed: u8) -> bool
    requires table { actor.old.table_id ≡ words.now.table_id }
    requires sound { IsSound words.now.table_id.words actor.old.me.0 }
    requires seen { actor.old.me.0.epoch ≡ epoch }
    requires next { actor.old.me.0.passed.seats ≡ passed }
    requires small { passed + 1 < 256 }
    requires few { passed + 1 ≤ actor.old.me.0.sizes.seats }
    ensures table { actor.new.table_id ≡ actor.old.table_id }
    ensures sound { IsSound words.now.table_id.words actor.new.me.0 }
    ensures checked { HasChecked actor.old.me.0 result actor.new.me.0 }
{
    let found = words.load::<Checks>(actor, pin_word_of(passed + 1));
    is_in(epoch, &Pin::of_word(found))
}

/// Looks at the pins of all seats, one after the other, once the seat has seen the epoch. Returns whether no seat is in a call that it
/// began before that epoch.
fn check_all(words: &Words, actor: &mut Actor, sizes: &Sizes, epoch: u64) -> bool
    requires table { actor.old.table_id ≡ words.now.table_id }
    requires sound { IsSound words.now.table_id.words actor.old.me.0 }
    requires sizes { actor.old.me.0.sizes ≡ sizes.now }
    requires seen { actor.old.me.0.epoch ≡ epoch }
    requires none { actor.old.me.0.passed.seats ≡ 0 }
    ensures table { actor.new.table_id ≡ actor.old.table_id }
    ensures sound { IsSound words.now.table_id.words actor.new.me.0 }
    ensures checked { HasCheckedAll actor.old.me.0 result actor.new.me.0 }
{
    for passed in 0..sizes.seats {
        if !check(words, actor, epoch, passed) {
            return false;
        }
    }
    true
}

/// Lets the epoch grow by one, where it is still the one that the seat has seen, and all glances have fallen and the seat has gone by all
/// others since. Returns
/// whether it was so.
fn grow(words: &Words, actor: &mut Actor, epoch: u64) -> bool
    requires table { actor.old.table_id ≡ words.now.table_id }
    requires sound { IsSound words.now.table_id.words actor.old.me.0 }
    requires seen { actor.old.me.0.epoch ≡ epoch }
    requires fallen { actor.old.me.0.passed.cleared ≡ true }
    requires all { actor.old.me.0.passed.seats ≡ actor.old.me.0.sizes.seats }
    requires low { epoch + 1 < 2 ^ 54 }
    ensures table { actor.new.table_id ≡ actor.old.table_id }
    ensures sound { IsSound words.now.table_id.words actor.new.me.0 }
    ensures grew { HasAdvanced actor.old.me.0 result actor.new.me.0 }
{
    words.compare_exchange::<Advances>(actor, EPOCH_WORD, epoch, epoch + 1) == epoch
}

/// Lets the epoch grow by one, unless a seat is in a call that it began in an earlier one, or another seat lets it grow meanwhile.
/// Returns whether this seat did. It never waits.
pub fn advance(words: &Words, actor: &mut Actor, sizes: &Sizes) -> bool
    requires table { actor.old.table_id ≡ words.now.table_id }
    requires sound { IsSound words.now.table_id.words actor.old.me.0 }
    requires sizes { actor.old.me.0.sizes ≡ sizes.now }
    ensures table { actor.new.table_id ≡ actor.old.table_id }
    ensures sound { IsSound words.now.table_id.words actor.new.me.0 }
    ensures tried { HasTriedToAdvance actor.old.me.0 result actor.new.me.0 }
{
    let epoch = see_epoch(words, actor);
    if epoch >= EPOCHS - 1 || !fell_within(1, words, actor) {
        return false;
    }
    if !check_all(words, actor, sizes, epoch) {
        return false;
    }
    grow(words, actor, epoch)
}
