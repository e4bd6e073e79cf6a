//! The main node that comes to a branch's place once tombs have given way to their singles.

ghost use Rattle.std.specs.Prelude.{◌≡◌, ◌≤◌, length};
ghost use Rattle.trie_words.specs.declared.headers.Previous.TheVariants as previous;
ghost use Rattle.lock_free.specs.Changing.{HasBuilt};
ghost use Rattle.lock_free.specs.Contracting.{counted_in, IsAtContracted, IsLone};
ghost use Rattle.lock_free.specs.Halves.{halves_of};
ghost use Rattle.lock_free.specs.Loading.{IsSound};
ghost use Rattle.lock_free.specs.Raising.{MayHold};
ghost use Rattle.lock_free.specs.SeenEntries.{AreFit, IsOver};
ghost use Rattle.lock_free.specs.Stocks.{IsStock};

use crate::entries::halves_of;
use crate::loads::{Actor, Words};
use crate::replacing::make_shared;
use crate::stock::Stock;
use arrayvec::ArrayVec;
use trie_words::{Entry, Header, Name, Previous, Shape};

/// The single that alone is left, where a tomb may be made of it.
fn lone_single(may_entomb: bool, entries: &ArrayVec<Entry, 32>) -> Option<Entry>
    ensures { IsLone may_entomb entries.now.items result }
{
    if may_entomb && entries.len() == 1 && entries[0].is_single {
        Some(entries[0])
    } else {
        None
    }
}

/// The halves of the entries that are counted: where the main node that is to be replaced is its indirection's own, those of the tombs' singles
/// alone.
fn counted_halves(is_own: bool, entries: &[Entry], singles: &[Entry]) -> ArrayVec<u32, 32>
    requires few { length (counted_in is_own entries.now singles.now) ≤ 32 }
    requires fit { AreFit (counted_in is_own entries.now singles.now) }
    ensures { result.items ≡ halves_of (counted_in is_own entries.now singles.now) }
{
    if is_own {
        halves_of(singles)
    } else {
        halves_of(entries)
    }
}

/// Makes the main node with these entries in the places of those of a branch with this bitmap: a tomb, where one single alone is left and
/// that may be, else a branch. It is to replace the main node of this name, where these singles were tombs': the seat counts a reference to
/// each of them, and to all else that the node names where it doesn't take that over. Returns its slot, or none where no slot is had, or
/// a reference couldn't be counted.
#[cold]
#[inline(never)]
pub fn make_contracted(
    tries: u64,
    words: &Words,
    actor: &mut Actor,
    stock: &mut Stock,
    may_entomb: bool,
    bitmap: u32,
    entries: &ArrayVec<Entry, 32>,
    singles: &[Entry],
    main: Name,
) -> Option<u32>
    requires table { actor.old.table_id ≡ words.now.table_id }
    requires sound { IsSound words.now.table_id.words actor.old.me.0 }
    requires stock { IsStock stock.old actor.old.me.0 }
    requires few { length singles.now ≤ 32 }
    requires making { IsAtContracted actor.old.me.0 may_entomb bitmap entries.now.items }
    requires over { IsOver actor.old.me.0 (previous.Pending main) }
    requires holds { MayHold actor.old.me.0 (counted_in main.own entries.now.items singles.now) None }
    ensures table { actor.new.table_id ≡ actor.old.table_id }
    ensures sound { IsSound words.now.table_id.words actor.new.me.0 }
    ensures stock { IsStock stock.new actor.new.me.0 }
    ensures built { HasBuilt actor.old.me.0 result actor.new.me.0 }
{
    let previous = Previous::Pending(main);
    let counted = counted_halves(main.own, entries, singles);
    match lone_single(may_entomb, entries) {
        Some(single) => {
            let shape = Shape::Tomb(single);
            let header = Header { previous, shape };
            make_shared(tries, words, actor, stock, header, &[], &counted, None)
        }
        None => {
            let shape = Shape::Branch(bitmap);
            let header = Header { previous, shape };
            let halves = halves_of(entries);
            make_shared(tries, words, actor, stock, header, &halves, &counted, None)
        }
    }
}
