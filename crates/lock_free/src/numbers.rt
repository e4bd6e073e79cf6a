//! The numbers of handles that calls open.

ghost use Rattle.std.specs.Prelude.{◌≡◌, ◌<◌, Some, None};
ghost use Rattle.lock_free.specs.Loading.{IsSound};
ghost use Rattle.lock_free.specs.Numbers.{naming, without_number, HasReserved, HasTried, IsNaming};
ghost use Rattle.lock_free.specs.SeatWords.{IsIdle};

use crate::handles::root_word_of;
use crate::loads::{Actor, Words};
use crate::rules::{Names, Reserves, Returns};
use trie_words::RootWord;

/// The word of a handle that is closed.
const CLOSED: u64 = 0;

/// The word of a number that a seat has reserved.
const RESERVED: u64 = 5 << 35;

/// Reserves this number, if its handle is closed and nobody has reserved it. Returns whether it was so.
fn try_reserve(words: &Words, actor: &mut Actor, number: u16) -> bool
    requires table { actor.old.table_id ≡ words.now.table_id }
    requires sound { IsSound words.now.table_id.words actor.old.me.0 }
    requires low { number < 256 }
    requires idle { IsIdle actor.old.me.0 }
    requires none { actor.old.me.0.opens ≡ None }
    ensures table { actor.new.table_id ≡ actor.old.table_id }
    ensures sound { IsSound words.now.table_id.words actor.new.me.0 }
    ensures tried { HasTried actor.old.me.0 number result actor.new.me.0 }
{
    words.compare_exchange::<Reserves>(actor, root_word_of(number), CLOSED, RESERVED) == CLOSED
}

/// Reserves a number for the handle that the seat's next call opens. `None` where each of the 256 was found open or reserved, one
/// after the other.
pub fn reserve(words: &Words, actor: &mut Actor) -> Option<u16>
    requires table { actor.old.table_id ≡ words.now.table_id }
    requires sound { IsSound words.now.table_id.words actor.old.me.0 }
    requires idle { IsIdle actor.old.me.0 }
    requires none { actor.old.me.0.opens ≡ None }
    ensures table { actor.new.table_id ≡ actor.old.table_id }
    ensures sound { IsSound words.now.table_id.words actor.new.me.0 }
    ensures reserved { HasReserved actor.old.me.0 result actor.new.me.0 }
{
    for number in 0..256 {
        if words.peek(root_word_of(number)) == CLOSED && try_reserve(words, actor, number) {
            return Some(number);
        }
    }
    None
}

/// Lets the word of the number that the seat has reserved name the offer in this slot, which is to open it.
pub fn name(words: &Words, actor: &mut Actor, number: u16, slot: u32)
    requires table { actor.old.table_id ≡ words.now.table_id }
    requires sound { IsSound words.now.table_id.words actor.old.me.0 }
    requires low { number < 256 }
    requires naming { IsNaming actor.old.me.0 number slot }
    ensures table { actor.new.table_id ≡ actor.old.table_id }
    ensures sound { IsSound words.now.table_id.words actor.new.me.0 }
    ensures named { actor.new.me ≡ (naming actor.old.me.0 slot, actor.old.me.1) }
{
    let named = RootWord::Opening(slot).to_word();
    words.store::<Names>(actor, root_word_of(number), named);
}

/// Gives the number back that the seat has reserved, which runs nothing: its call has not opened it.
pub fn give_back(words: &Words, actor: &mut Actor, number: u16)
    requires table { actor.old.table_id ≡ words.now.table_id }
    requires sound { IsSound words.now.table_id.words actor.old.me.0 }
    requires low { number < 256 }
    requires idle { IsIdle actor.old.me.0 }
    requires reserved { actor.old.me.0.opens ≡ Some number }
    ensures table { actor.new.table_id ≡ actor.old.table_id }
    ensures sound { IsSound words.now.table_id.words actor.new.me.0 }
    ensures returned { actor.new.me ≡ (without_number actor.old.me.0, actor.old.me.1) }
{
    words.store::<Returns>(actor, root_word_of(number), CLOSED);
}
