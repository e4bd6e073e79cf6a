//! COPY: the offer of a new root in the place of the old one is written, and the handle that it opens is opened.

ghost use Rattle.std.specs.Prelude.{◌≡◌, OnSome};
ghost use Rattle.lock_free.specs.CopySteps.{HasDraftedOffer, HasPreparedOrNone, IsCopying, IsReady};
ghost use Rattle.lock_free.specs.Loading.{IsSound};
ghost use Rattle.lock_free.specs.Rules.{IsFree};
ghost use Rattle.lock_free.specs.Stocks.{HasRoom, IsStock};

use crate::copy_roots::{CopyKind, NewRoots, make_roots};
use crate::loads::{Actor, Words};
use crate::numbers::name;
use crate::offers::UNDECIDED;
use crate::stock::Stock;
use crate::stores::draft;
use crate::taken::take;
use trie_words::Pair;

/// What a try of a copy comes to.
#[derive(Clone, Copy, Drop)]
pub enum Copied {
    /// It was carried out, and the operation is to end.
    Done,
    /// It wasn't, and the operation is to begin anew, with the root.
    Again,
    /// A slot or a generation was missing. Nothing of it is known to anybody, and the operation may give up.
    Full,
}

/// Writes an offer in this slot, which is free for the seat: the root in that one and the main node that it has, and the new roots.
fn draft_offer(words: &Words, actor: &mut Actor, slot: u32, root: u32, main: u32, roots: NewRoots)
    requires table { actor.old.table_id ≡ words.now.table_id }
    requires sound { IsSound words.now.table_id.words actor.old.me.0 }
    requires free { IsFree actor.old.me.0 1 slot }
    ensures table { actor.new.table_id ≡ actor.old.table_id }
    ensures sound { IsSound words.now.table_id.words actor.new.me.0 }
    ensures drafted { HasDraftedOffer actor.old.me.0 slot root main roots actor.new.me.0 }
{
    let olds = Pair {
        low: root,
        high: main,
    };
    let news = Pair {
        low: roots.successor,
        high: roots.second.unwrap_or(0),
    };
    draft(words, actor, 2 * slot as usize, UNDECIDED);
    draft(words, actor, 2 * slot as usize + 1, olds.to_word());
    draft(words, actor, 2 * slot as usize + 2, news.to_word());
}

/// Makes the roots of a copy, writes the offer of them in the place of the root in this slot, which has that main node, in a slot of this class, and
/// lets the word of the number that it opens name it. Returns the slot in which it is written, or none where a slot or a generation is missing.
pub fn prepare(
    tries: u64,
    words: &Words,
    actor: &mut Actor,
    stock: &mut Stock,
    which: CopyKind,
    handle: u16,
    opens: Option<u16>,
    root: u32,
    main: u32,
    class: u32,
) -> Option<u32>
    requires table { actor.old.table_id ≡ words.now.table_id }
    requires sound { IsSound words.now.table_id.words actor.old.me.0 }
    requires stock { IsStock stock.old actor.old.me.0 }
    requires copying { IsCopying actor.old.me.0 which handle opens }
    requires ready { IsReady actor.old.me.0 which root main class }
    ensures table { actor.new.table_id ≡ actor.old.table_id }
    ensures sound { IsSound words.now.table_id.words actor.new.me.0 }
    ensures stock { IsStock stock.new actor.new.me.0 }
    ensures room { OnSome result (HasRoom stock.new 1) }
    ensures prepared { HasPreparedOrNone actor.old.me.0 which opens handle root result actor.new.me.0 }
{
    if !stock.has_room_to_part() {
        stock.lack();
        return None;
    }
    let roots = make_roots(tries, words, actor, stock, which, main, class)?;
    let slot = take(tries, words, actor, stock, 1)?;
    draft_offer(words, actor, slot, root, main, roots);
    match opens {
        Some(number) => name(words, actor, number, slot),
        None => {}
    }
    Some(slot)
}
