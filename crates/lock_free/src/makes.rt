//! Nodes of an operation's own: each is written in a slot of its seat's own, and then made.

ghost use Rattle.std.specs.Prelude.{◌≡◌, ◌<◌, ◌^◌, ◌≤◌, length, true};
ghost use Rattle.machine_model.specs.declared.actions.Action.TheVariants as act;
ghost use Rattle.machine_model.specs.Beneath.slot_arena.specs.declared.refs.Ref.{Ref as ARef};
ghost use Rattle.machine_model.specs.Beneath.slot_arena.specs.declared.nodes.Node.TheVariants.{Indirection, Single, Tomb};
ghost use Rattle.lock_free.specs.Halves.{entries_of_halves, AreHalves};
ghost use Rattle.lock_free.specs.Loading.{IsAt, IsSound};
ghost use Rattle.lock_free.specs.Owing.{HoldsRaised};
ghost use Rattle.lock_free.specs.Owning.{MayOwn};
ghost use Rattle.lock_free.specs.Passing.{IsPlaced};
ghost use Rattle.lock_free.specs.Classes.{entries_in, shape_class};
ghost use Rattle.lock_free.specs.Places.{class_for};
ghost use Rattle.lock_free.specs.SeenEntries.{half_at, HasMadeNext, HasWritten, IsAtBranch, IsAtList, IsAtMain, IsOver, IsOwnSlot};
ghost use Rattle.lock_free.specs.Stocks.{IsStock};

use crate::entries::halves_of;
use crate::loads::{Actor, Words};
use crate::reclaiming::Kind;
use crate::stock::Stock;
use crate::stores::{draft, make};
use crate::taken::take;
use trie_words::{Entry, Header, Link, Name, Pair, Previous, Shape};

/// The class of the slot of a main node with so many entries.
#[inline(always)]
pub(crate) fn class_for(entries: usize) -> u32
    ensures { result ≡ class_for entries }
{
    match entries {
        0..=2 => 0,
        3..=12 => 1,
        _ => 2,
    }
}

/// How many entries a main node of this shape has.
#[inline(always)]
pub(crate) fn entries_in(shape: Shape) -> usize
    ensures { result ≡ entries_in shape }
{
    match shape {
        Shape::Branch(bitmap) => bitmap.count_ones() as usize,
        Shape::Tomb(_) => 0,
        Shape::List(count) => count as usize,
    }
}

/// The class of the slot of a main node of this shape.
pub fn class_of(shape: Shape) -> u32
    ensures { result ≡ shape_class shape }
{
    match shape {
        Shape::Branch(bitmap) => class_for(bitmap.count_ones() as usize),
        Shape::Tomb(_) => 0,
        Shape::List(count) => class_for(count as usize),
    }
}

/// Makes a single of this key and value. Returns its slot, or none where no slot is had: then nothing has changed.
#[inline(always)]
pub fn make_single(
    tries: u64,
    words: &Words,
    actor: &mut Actor,
    stock: &mut Stock,
    key: u64,
    value: u64,
) -> Option<u32>
    requires table { actor.old.table_id ≡ words.now.table_id }
    requires sound { IsSound words.now.table_id.words actor.old.me.0 }
    requires stock { IsStock stock.old actor.old.me.0 }
    requires making { IsAt actor.old.me.0 (act.Make (Single key value)) }
    ensures table { actor.new.table_id ≡ actor.old.table_id }
    ensures sound { IsSound words.now.table_id.words actor.new.me.0 }
    ensures stock { IsStock stock.new actor.new.me.0 }
    ensures made { HasMadeNext actor.old.me.0 result actor.new.me.0 }
{
    let slot = take(tries, words, actor, stock, 0)?;
    draft(words, actor, 2 * slot as usize, key);
    make(words, actor, 2 * slot as usize + 1, value);
    stock.note(Kind::Single, 0);
    Some(slot)
}

/// Makes an indirection of this generation, to the main node of this name, which is its own only where the operation has made that one
/// too. Returns its slot, or none where no slot is had: then nothing has changed.
pub fn make_link(
    tries: u64,
    words: &Words,
    actor: &mut Actor,
    stock: &mut Stock,
    generation: u64,
    main: Name,
) -> Option<u32>
    requires table { actor.old.table_id ≡ words.now.table_id }
    requires sound { IsSound words.now.table_id.words actor.old.me.0 }
    requires stock { IsStock stock.old actor.old.me.0 }
    requires generation { generation < 2 ^ 36 }
    requires making { (r : ARef) × (p : IsAt actor.old.me.0 (act.Make (Indirection generation r))) × IsPlaced actor.old.me.0 r main.slot × MayOwn p.operation.line (Indirection generation r) main.own }
    requires raised { HoldsRaised actor.old.me.0 }
    ensures table { actor.new.table_id ≡ actor.old.table_id }
    ensures sound { IsSound words.now.table_id.words actor.new.me.0 }
    ensures stock { IsStock stock.new actor.new.me.0 }
    ensures made { HasMadeNext actor.old.me.0 result actor.new.me.0 }
{
    let slot = take(tries, words, actor, stock, 0)?;
    let link = Link { generation, main };
    make(words, actor, 2 * slot as usize, link.to_word());
    stock.note(Kind::Indirection, 0);
    Some(slot)
}

/// The half for the entry at this position.
#[inline(always)]
fn half_at(halves: &[u32], position: usize) -> u32
    requires small { AreHalves halves.now }
    requires inside { position < length halves.now }
    ensures { result ≡ half_at (entries_of_halves halves.now) position }
{
    halves[position]
}

/// Writes the entries of these halves after the first word of this slot, two in a word.
#[inline(always)]
fn write_entries(words: &Words, actor: &mut Actor, slot: u32, halves: &[u32])
    requires table { actor.old.table_id ≡ words.now.table_id }
    requires sound { IsSound words.now.table_id.words actor.old.me.0 }
    requires fit { AreHalves halves.now }
    requires own { IsOwnSlot actor.old.me.0 slot (length halves.now) }
    ensures table { actor.new.table_id ≡ actor.old.table_id }
    ensures sound { IsSound words.now.table_id.words actor.new.me.0 }
    ensures written { HasWritten actor.old.me.0 slot (entries_of_halves halves.now) (length halves.now) actor.new.me.0 }
{
    let whole = halves.len() / 2;
    for n in 0..whole {
        let pair = Pair {
            low: half_at(halves, 2 * n),
            high: half_at(halves, 2 * n + 1),
        };
        draft(words, actor, 2 * slot as usize + 1 + n, pair.to_word());
    }
    if halves.len() % 2 == 1 {
        let pair = Pair {
            low: half_at(halves, 2 * whole),
            high: 0,
        };
        draft(words, actor, 2 * slot as usize + 1 + whole, pair.to_word());
    }
}

/// Makes the main node with this header and the entries of these halves. Returns its slot, or none where no slot is had: then nothing has changed.
#[inline(always)]
pub fn make_main(
    tries: u64,
    words: &Words,
    actor: &mut Actor,
    stock: &mut Stock,
    header: Header,
    halves: &[u32],
) -> Option<u32>
    requires table { actor.old.table_id ≡ words.now.table_id }
    requires sound { IsSound words.now.table_id.words actor.old.me.0 }
    requires stock { IsStock stock.old actor.old.me.0 }
    requires halves { AreHalves halves.now }
    requires making { IsAtMain actor.old.me.0 header.shape (entries_of_halves halves.now) }
    requires raised { HoldsRaised actor.old.me.0 }
    requires over { IsOver actor.old.me.0 header.previous }
    ensures table { actor.new.table_id ≡ actor.old.table_id }
    ensures sound { IsSound words.now.table_id.words actor.new.me.0 }
    ensures stock { IsStock stock.new actor.new.me.0 }
    ensures made { HasMadeNext actor.old.me.0 result actor.new.me.0 }
{
    let class = class_for(halves.len());
    let slot = take(tries, words, actor, stock, class)?;
    write_entries(words, actor, slot, halves);
    make(words, actor, 2 * slot as usize, header.to_word());
    stock.note(Kind::Main, class);
    Some(slot)
}

/// Makes a tomb of the single of this name, whose header says this of the main node that it is to replace. Returns its slot, or none
/// where no slot is had: then nothing has changed.
#[inline(never)]
pub fn make_tomb(
    tries: u64,
    words: &Words,
    actor: &mut Actor,
    stock: &mut Stock,
    single: Name,
    previous: Previous,
) -> Option<u32>
    requires table { actor.old.table_id ≡ words.now.table_id }
    requires sound { IsSound words.now.table_id.words actor.old.me.0 }
    requires stock { IsStock stock.old actor.old.me.0 }
    requires making { (r : ARef) × IsAt actor.old.me.0 (act.Make (Tomb r)) × IsPlaced actor.old.me.0 r single.slot }
    requires raised { HoldsRaised actor.old.me.0 }
    requires over { IsOver actor.old.me.0 previous }
    ensures table { actor.new.table_id ≡ actor.old.table_id }
    ensures sound { IsSound words.now.table_id.words actor.new.me.0 }
    ensures stock { IsStock stock.new actor.new.me.0 }
    ensures made { HasMadeNext actor.old.me.0 result actor.new.me.0 }
{
    let shape = Shape::Tomb(Entry {
        slot: single.slot,
        own: single.own,
        is_single: true,
    });
    make_main(tries, words, actor, stock, Header { previous, shape }, &[])
}

/// Makes a branch with this bitmap and the entries of these halves, whose header says this of the main node that it is to replace. Returns its
/// slot, or none where no slot is had: then nothing has changed.
#[inline(always)]
pub fn make_branch_of(
    tries: u64,
    words: &Words,
    actor: &mut Actor,
    stock: &mut Stock,
    bitmap: u32,
    halves: &[u32],
    previous: Previous,
) -> Option<u32>
    requires table { actor.old.table_id ≡ words.now.table_id }
    requires sound { IsSound words.now.table_id.words actor.old.me.0 }
    requires stock { IsStock stock.old actor.old.me.0 }
    requires few { length halves.now ≤ 32 }
    requires halves { AreHalves halves.now }
    requires making { IsAtBranch actor.old.me.0 bitmap (entries_of_halves halves.now) }
    requires raised { HoldsRaised actor.old.me.0 }
    requires over { IsOver actor.old.me.0 previous }
    ensures table { actor.new.table_id ≡ actor.old.table_id }
    ensures sound { IsSound words.now.table_id.words actor.new.me.0 }
    ensures stock { IsStock stock.new actor.new.me.0 }
    ensures made { HasMadeNext actor.old.me.0 result actor.new.me.0 }
{
    let shape = Shape::Branch(bitmap);
    make_main(
        tries,
        words,
        actor,
        stock,
        Header { previous, shape },
        halves,
    )
}

/// Makes a list of the singles of these halves, whose header says this of the main node that it is to replace. Returns its slot, or none where no
/// slot is had: then nothing has changed.
#[inline(never)]
pub fn make_list_of(
    tries: u64,
    words: &Words,
    actor: &mut Actor,
    stock: &mut Stock,
    halves: &[u32],
    previous: Previous,
) -> Option<u32>
    requires table { actor.old.table_id ≡ words.now.table_id }
    requires sound { IsSound words.now.table_id.words actor.old.me.0 }
    requires stock { IsStock stock.old actor.old.me.0 }
    requires few { length halves.now ≤ 32 }
    requires halves { AreHalves halves.now }
    requires making { IsAtList actor.old.me.0 (entries_of_halves halves.now) }
    requires raised { HoldsRaised actor.old.me.0 }
    requires over { IsOver actor.old.me.0 previous }
    ensures table { actor.new.table_id ≡ actor.old.table_id }
    ensures sound { IsSound words.now.table_id.words actor.new.me.0 }
    ensures stock { IsStock stock.new actor.new.me.0 }
    ensures made { HasMadeNext actor.old.me.0 result actor.new.me.0 }
{
    let shape = Shape::List(halves.len() as u32);
    make_main(
        tries,
        words,
        actor,
        stock,
        Header { previous, shape },
        halves,
    )
}

/// Makes a branch with this bitmap and these entries, whose header says this of the main node that it is to replace. Returns its
/// slot, or none where no slot is had: then nothing has changed.
pub fn make_branch(
    tries: u64,
    words: &Words,
    actor: &mut Actor,
    stock: &mut Stock,
    bitmap: u32,
    entries: &[Entry],
    previous: Previous,
) -> Option<u32>
    requires table { actor.old.table_id ≡ words.now.table_id }
    requires sound { IsSound words.now.table_id.words actor.old.me.0 }
    requires stock { IsStock stock.old actor.old.me.0 }
    requires few { length entries.now ≤ 32 }
    requires making { IsAtBranch actor.old.me.0 bitmap entries.now }
    requires raised { HoldsRaised actor.old.me.0 }
    requires over { IsOver actor.old.me.0 previous }
    ensures table { actor.new.table_id ≡ actor.old.table_id }
    ensures sound { IsSound words.now.table_id.words actor.new.me.0 }
    ensures stock { IsStock stock.new actor.new.me.0 }
    ensures made { HasMadeNext actor.old.me.0 result actor.new.me.0 }
{
    let halves = halves_of(entries);
    make_branch_of(tries, words, actor, stock, bitmap, &halves, previous)
}

/// Makes a list of these singles, whose header says this of the main node that it is to replace. Returns its slot, or none where no
/// slot is had: then nothing has changed.
pub fn make_list(
    tries: u64,
    words: &Words,
    actor: &mut Actor,
    stock: &mut Stock,
    entries: &[Entry],
    previous: Previous,
) -> Option<u32>
    requires table { actor.old.table_id ≡ words.now.table_id }
    requires sound { IsSound words.now.table_id.words actor.old.me.0 }
    requires stock { IsStock stock.old actor.old.me.0 }
    requires few { length entries.now ≤ 32 }
    requires making { IsAtList actor.old.me.0 entries.now }
    requires raised { HoldsRaised actor.old.me.0 }
    requires over { IsOver actor.old.me.0 previous }
    ensures table { actor.new.table_id ≡ actor.old.table_id }
    ensures sound { IsSound words.now.table_id.words actor.new.me.0 }
    ensures stock { IsStock stock.new actor.new.me.0 }
    ensures made { HasMadeNext actor.old.me.0 result actor.new.me.0 }
{
    let halves = halves_of(entries);
    make_list_of(tries, words, actor, stock, &halves, previous)
}
