//! Glances are counted up: whoever glances learns that it has to begin anew.

ghost use Rattle.std.specs.Prelude.{◌≡◌, ◌+◌, ◌<◌, ◌^◌, not, is_some, IfSome};
ghost use Rattle.lock_free.specs.Glances.{HasCleared};
ghost use Rattle.lock_free.specs.Loading.{IsSound};

use crate::glance_plays::{Clears, SeesCount};
use crate::loads::{Actor, Words};

/// Glances are counted in this word.
pub(crate) const GLANCE_WORD: usize = 1;

/// Counts glances up, if so many were counted: all that are under way fall, and the seat knows that they have. Returns whether it was so.
fn count_up(words: &Words, actor: &mut Actor, count: u64) -> bool
    requires table { actor.old.table_id ≡ words.now.table_id }
    requires sound { IsSound words.now.table_id.words actor.old.me.0 }
    requires few { count + 1 < 2 ^ 64 }
    ensures table { actor.new.table_id ≡ actor.old.table_id }
    ensures sound { IsSound words.now.table_id.words actor.new.me.0 }
    ensures cleared { HasCleared actor.old.me.0 result actor.new.me.0 }
{
    words.compare_exchange::<Clears>(actor, GLANCE_WORD, count, count + 1) == count
}

/// Looks at how many glances were counted: none is under way once all that can be counted were. Returns the count, if it can be one more.
fn see_count(words: &Words, actor: &mut Actor) -> Option<u64>
    requires table { actor.old.table_id ≡ words.now.table_id }
    requires sound { IsSound words.now.table_id.words actor.old.me.0 }
    ensures table { actor.new.table_id ≡ actor.old.table_id }
    ensures sound { IsSound words.now.table_id.words actor.new.me.0 }
    ensures cleared { HasCleared actor.old.me.0 (not (is_some result)) actor.new.me.0 }
    ensures few { IfSome result (λ count. count + 1 < 2 ^ 64) }
{
    let count = words.load::<SeesCount>(actor, GLANCE_WORD);
    if count == u64::MAX { None } else { Some(count) }
}

/// Lets all glances fall that are under way, within so many tries. Returns whether it did.
pub fn fell_within(tries: u64, words: &Words, actor: &mut Actor) -> bool
    requires table { actor.old.table_id ≡ words.now.table_id }
    requires sound { IsSound words.now.table_id.words actor.old.me.0 }
    ensures table { actor.new.table_id ≡ actor.old.table_id }
    ensures sound { IsSound words.now.table_id.words actor.new.me.0 }
    ensures cleared { HasCleared actor.old.me.0 result actor.new.me.0 }
{
    for _ in 0..tries {
        let Some(count) = see_count(words, actor) else {
            return true;
        };
        if count_up(words, actor, count) {
            return true;
        }
    }
    false
}
