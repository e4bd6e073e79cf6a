//! Main nodes that are to replace others: where the one before is its indirection's own, a new one takes over what both name; to what else
//! it names, and its operation hasn't made, the seat counts a reference before.

ghost use Rattle.std.specs.Prelude.{◌≡◌, ◌≤◌, false, length};
ghost use Rattle.machine_model.specs.declared.actions.Action.TheVariants as act;
ghost use Rattle.machine_model.specs.Beneath.slot_arena.specs.declared.refs.Ref.{Ref as ARef};
ghost use Rattle.machine_model.specs.Beneath.slot_arena.specs.declared.nodes.Node.TheVariants.{Tomb};
ghost use Rattle.trie_words.specs.declared.headers.Previous.TheVariants as previous;
ghost use Rattle.lock_free.specs.Changing.{HasBuilt};
ghost use Rattle.lock_free.specs.Halves.{entries_of_halves, AreHalves};
ghost use Rattle.lock_free.specs.Loading.{IsAt, IsSound};
ghost use Rattle.lock_free.specs.Passing.{IsPlaced};
ghost use Rattle.lock_free.specs.Raising.{MayHold, MayReplace, MayReplaceBy};
ghost use Rattle.lock_free.specs.SeenEntries.{IsAtBranch, IsAtList, IsAtMain, IsOver};
ghost use Rattle.lock_free.specs.Stocks.{IsStock};

use crate::loads::{Actor, Words};
use crate::makes::{make_main, make_tomb};
use crate::raising::{raise, raise_entries, release, release_entries};
use crate::reclaiming::Kind;
use crate::stock::Stock;
use trie_words::{Header, Name, Previous, Shape};

/// Makes the main node of this header and the entries of these halves. The seat first counts a reference to what each of the counted entries leads
/// to, but for the one at that position, which its operation has made; all else that the node names its operation has made too, or the node takes
/// it over. Returns its slot, or none where no slot is had, or a reference couldn't be counted: then none of them is counted.
#[cold]
#[inline(never)]
pub fn make_shared(
    tries: u64,
    words: &Words,
    actor: &mut Actor,
    stock: &mut Stock,
    header: Header,
    halves: &[u32],
    counted: &[u32],
    brought: Option<usize>,
) -> Option<u32>
    requires table { actor.old.table_id ≡ words.now.table_id }
    requires sound { IsSound words.now.table_id.words actor.old.me.0 }
    requires stock { IsStock stock.old actor.old.me.0 }
    requires halves { AreHalves halves.now }
    requires making { IsAtMain actor.old.me.0 header.shape (entries_of_halves halves.now) }
    requires over { IsOver actor.old.me.0 header.previous }
    requires holds { MayHold actor.old.me.0 (entries_of_halves counted.now) brought }
    ensures table { actor.new.table_id ≡ actor.old.table_id }
    ensures sound { IsSound words.now.table_id.words actor.new.me.0 }
    ensures stock { IsStock stock.new actor.new.me.0 }
    ensures built { HasBuilt actor.old.me.0 result actor.new.me.0 }
{
    if !raise_entries(tries, words, actor, stock, counted, brought) {
        return None;
    }
    match make_main(tries, words, actor, stock, header, halves) {
        Some(slot) => Some(slot),
        None => {
            release_entries(words, actor, stock, counted, brought);
            None
        }
    }
}

/// Makes the main node of this shape and the entries of these halves, which is to replace the one of this name; the entry at that position
/// leads to what its operation has made.
#[inline(always)]
fn make_over(
    tries: u64,
    words: &Words,
    actor: &mut Actor,
    stock: &mut Stock,
    shape: Shape,
    halves: &[u32],
    brought: Option<usize>,
    main: Name,
) -> Option<u32>
    requires table { actor.old.table_id ≡ words.now.table_id }
    requires sound { IsSound words.now.table_id.words actor.old.me.0 }
    requires stock { IsStock stock.old actor.old.me.0 }
    requires halves { AreHalves halves.now }
    requires making { IsAtMain actor.old.me.0 shape (entries_of_halves halves.now) }
    requires over { IsOver actor.old.me.0 (previous.Pending main) }
    requires holds { MayReplace actor.old.me.0 main.own (entries_of_halves halves.now) brought }
    ensures table { actor.new.table_id ≡ actor.old.table_id }
    ensures sound { IsSound words.now.table_id.words actor.new.me.0 }
    ensures stock { IsStock stock.new actor.new.me.0 }
    ensures built { HasBuilt actor.old.me.0 result actor.new.me.0 }
{
    let previous = Previous::Pending(main);
    let header = Header { previous, shape };
    if main.own {
        make_main(tries, words, actor, stock, header, halves)
    } else {
        make_shared(tries, words, actor, stock, header, halves, halves, brought)
    }
}

/// Makes a branch with this bitmap and the entries of these halves, which is to replace the main node of this name; the entry at that
/// position leads to what its operation has made. Returns its slot, or none where no slot is had, or a reference couldn't be counted.
#[inline(always)]
pub fn make_branch_over(
    tries: u64,
    words: &Words,
    actor: &mut Actor,
    stock: &mut Stock,
    bitmap: u32,
    halves: &[u32],
    brought: Option<usize>,
    main: Name,
) -> Option<u32>
    requires table { actor.old.table_id ≡ words.now.table_id }
    requires sound { IsSound words.now.table_id.words actor.old.me.0 }
    requires stock { IsStock stock.old actor.old.me.0 }
    requires few { length halves.now ≤ 32 }
    requires halves { AreHalves halves.now }
    requires making { IsAtBranch actor.old.me.0 bitmap (entries_of_halves halves.now) }
    requires over { IsOver actor.old.me.0 (previous.Pending main) }
    requires holds { MayReplace actor.old.me.0 main.own (entries_of_halves halves.now) brought }
    ensures table { actor.new.table_id ≡ actor.old.table_id }
    ensures sound { IsSound words.now.table_id.words actor.new.me.0 }
    ensures stock { IsStock stock.new actor.new.me.0 }
    ensures built { HasBuilt actor.old.me.0 result actor.new.me.0 }
{
    let shape = Shape::Branch(bitmap);
    make_over(tries, words, actor, stock, shape, halves, brought, main)
}

/// The same with a list of the singles of these halves.
#[inline(never)]
pub fn make_list_over(
    tries: u64,
    words: &Words,
    actor: &mut Actor,
    stock: &mut Stock,
    halves: &[u32],
    brought: Option<usize>,
    main: Name,
) -> Option<u32>
    requires table { actor.old.table_id ≡ words.now.table_id }
    requires sound { IsSound words.now.table_id.words actor.old.me.0 }
    requires stock { IsStock stock.old actor.old.me.0 }
    requires few { length halves.now ≤ 32 }
    requires halves { AreHalves halves.now }
    requires making { IsAtList actor.old.me.0 (entries_of_halves halves.now) }
    requires over { IsOver actor.old.me.0 (previous.Pending main) }
    requires holds { MayReplace actor.old.me.0 main.own (entries_of_halves halves.now) brought }
    ensures table { actor.new.table_id ≡ actor.old.table_id }
    ensures sound { IsSound words.now.table_id.words actor.new.me.0 }
    ensures stock { IsStock stock.new actor.new.me.0 }
    ensures built { HasBuilt actor.old.me.0 result actor.new.me.0 }
{
    let shape = Shape::List(halves.len() as u32);
    make_over(tries, words, actor, stock, shape, halves, brought, main)
}

/// Makes a tomb of the single of this name, over the main node of which nothing is taken over: the seat counts a reference to the single.
#[cold]
#[inline(never)]
fn make_shared_tomb(
    tries: u64,
    words: &Words,
    actor: &mut Actor,
    stock: &mut Stock,
    single: Name,
    main: Name,
) -> Option<u32>
    requires table { actor.old.table_id ≡ words.now.table_id }
    requires sound { IsSound words.now.table_id.words actor.old.me.0 }
    requires stock { IsStock stock.old actor.old.me.0 }
    requires making { (r : ARef) × IsAt actor.old.me.0 (act.Make (Tomb r)) × IsPlaced actor.old.me.0 r single.slot }
    requires over { IsOver actor.old.me.0 (previous.Pending main) }
    requires holds { MayReplaceBy actor.old.me.0 false single.slot }
    ensures table { actor.new.table_id ≡ actor.old.table_id }
    ensures sound { IsSound words.now.table_id.words actor.new.me.0 }
    ensures stock { IsStock stock.new actor.new.me.0 }
    ensures built { HasBuilt actor.old.me.0 result actor.new.me.0 }
{
    if !raise(tries, words, actor, &stock.sizes(), 0, single.slot) {
        return None;
    }
    let previous = Previous::Pending(main);
    match make_tomb(tries, words, actor, stock, single, previous) {
        Some(slot) => Some(slot),
        None => {
            release(words, actor, stock, Kind::Single, 0, single.slot);
            None
        }
    }
}

/// Makes a tomb of the single of this name, which is to replace the main node of that name. Returns its slot, or none where no slot is had, or a
/// reference couldn't be counted.
pub fn make_tomb_over(
    tries: u64,
    words: &Words,
    actor: &mut Actor,
    stock: &mut Stock,
    single: Name,
    main: Name,
) -> Option<u32>
    requires table { actor.old.table_id ≡ words.now.table_id }
    requires sound { IsSound words.now.table_id.words actor.old.me.0 }
    requires stock { IsStock stock.old actor.old.me.0 }
    requires making { (r : ARef) × IsAt actor.old.me.0 (act.Make (Tomb r)) × IsPlaced actor.old.me.0 r single.slot }
    requires over { IsOver actor.old.me.0 (previous.Pending main) }
    requires holds { MayReplaceBy actor.old.me.0 main.own single.slot }
    ensures table { actor.new.table_id ≡ actor.old.table_id }
    ensures sound { IsSound words.now.table_id.words actor.new.me.0 }
    ensures stock { IsStock stock.new actor.new.me.0 }
    ensures built { HasBuilt actor.old.me.0 result actor.new.me.0 }
{
    if main.own {
        let previous = Previous::Pending(main);
        make_tomb(tries, words, actor, stock, single, previous)
    } else {
        make_shared_tomb(tries, words, actor, stock, single, main)
    }
}
