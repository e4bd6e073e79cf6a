//! BUILD's last line: a main node from the one before, with one change of its entries.

ghost use Rattle.std.specs.Prelude.{◌≡◌, ◌<◌, count_ones};
ghost use Rattle.trie_words.specs.declared.headers.Shape.TheVariants as shape;
ghost use Rattle.lock_free.specs.Changing.{brought, drops_of, edited_bitmap, CanEdit, HasBuilt, IsChanging, IsNoTomb};
ghost use Rattle.lock_free.specs.Classes.{entries_in};
ghost use Rattle.lock_free.specs.Halves.{halves_edited, FitsHalf};
ghost use Rattle.lock_free.specs.Loading.{IsSound};
ghost use Rattle.lock_free.specs.Stocks.{IsStock};

use crate::entries::see_halves;
use crate::leaving::Drops;
use crate::loads::{Actor, Words};
use crate::replacing::{make_branch_over, make_list_over, make_tomb_over};
use crate::stock::Stock;
use arrayvec::ArrayVec;
use nodes::position_of;
use trie_words::{Entry, Name, Shape};

/// A change of the entries of a main node.
#[derive(Clone, Copy, Drop)]
pub enum Edit {
    /// This entry more, in the place of its key's flag; in a list the last one.
    Insert(Entry),
    /// This entry at that position, in the place of the one that stands there.
    Update(usize, Entry),
    /// No entry any more at that position.
    Remove(usize),
    /// A tomb of this single.
    Entomb(Name),
}

/// Changes the entries of these halves, where one more would come to this place.
#[inline(always)]
fn apply(halves: &mut ArrayVec<u32, 32>, place: usize, change: Edit)
    requires can { CanEdit halves.old.items place change }
    requires fits { FitsHalf change }
    ensures { halves.new.items ≡ halves_edited halves.old.items place change }
{
    match change {
        Edit::Insert(entry) => halves.insert(place, entry.to_half()),
        Edit::Update(position, entry) => halves[position] = entry.to_half(),
        Edit::Remove(position) => {
            halves.remove(position);
        }
        Edit::Entomb(_) => {}
    }
}

/// What of the entries before isn't among the new ones after this change.
pub fn drops_of(change: Edit) -> Drops
    ensures { result ≡ drops_of change }
{
    match change {
        Edit::Insert(_) => Drops::Nothing,
        Edit::Update(position, _) => Drops::At(position),
        Edit::Remove(position) => Drops::At(position),
        Edit::Entomb(_) => Drops::Others,
    }
}

/// Where the new entry stands after this change, if there is one.
fn brought(place: usize, change: Edit) -> Option<usize>
    ensures { result ≡ brought place change }
{
    match change {
        Edit::Insert(_) => Some(place),
        Edit::Update(position, _) => Some(position),
        _ => None,
    }
}

/// The bitmap after the change of an entry with this flag.
fn edited_bitmap(bitmap: u32, flag: u32, change: Edit) -> u32
    ensures { result ≡ edited_bitmap bitmap flag change }
{
    match change {
        Edit::Insert(_) => bitmap | flag,
        Edit::Remove(_) => bitmap ^ flag,
        _ => bitmap,
    }
}

/// Makes a branch from the one of this name and bitmap, with so many entries.
#[inline(always)]
fn build_branch(
    tries: u64,
    words: &Words,
    actor: &mut Actor,
    stock: &mut Stock,
    main: Name,
    bitmap: u32,
    count: usize,
    flag: u32,
    change: Edit,
) -> Option<u32>
    requires table { actor.old.table_id ≡ words.now.table_id }
    requires sound { IsSound words.now.table_id.words actor.old.me.0 }
    requires stock { IsStock stock.old actor.old.me.0 }
    requires some { 0 < flag }
    requires counted { count ≡ count_ones bitmap }
    requires at { IsChanging actor.old.me.0 main (shape.Branch bitmap) flag change }
    requires kept { IsNoTomb change }
    ensures table { actor.new.table_id ≡ actor.old.table_id }
    ensures sound { IsSound words.now.table_id.words actor.new.me.0 }
    ensures stock { IsStock stock.new actor.new.me.0 }
    ensures built { HasBuilt actor.old.me.0 result actor.new.me.0 }
{
    let mut halves = ArrayVec::new();
    see_halves(words, actor, main.slot, count, main.own, &mut halves);
    let place = position_of(flag, bitmap);
    apply(&mut halves, place, change);
    let bitmap = edited_bitmap(bitmap, flag, change);
    make_branch_over(
        tries,
        words,
        actor,
        stock,
        bitmap,
        &halves,
        brought(place, change),
        main,
    )
}

/// Makes a list from the one of this name, with so many singles.
#[cold]
#[inline(never)]
fn build_list(
    tries: u64,
    words: &Words,
    actor: &mut Actor,
    stock: &mut Stock,
    main: Name,
    count: u32,
    flag: u32,
    change: Edit,
) -> Option<u32>
    requires table { actor.old.table_id ≡ words.now.table_id }
    requires sound { IsSound words.now.table_id.words actor.old.me.0 }
    requires stock { IsStock stock.old actor.old.me.0 }
    requires at { IsChanging actor.old.me.0 main (shape.List count) flag change }
    requires kept { IsNoTomb change }
    ensures table { actor.new.table_id ≡ actor.old.table_id }
    ensures sound { IsSound words.now.table_id.words actor.new.me.0 }
    ensures stock { IsStock stock.new actor.new.me.0 }
    ensures built { HasBuilt actor.old.me.0 result actor.new.me.0 }
{
    let mut halves = ArrayVec::new();
    see_halves(
        words,
        actor,
        main.slot,
        count as usize,
        main.own,
        &mut halves,
    );
    apply(&mut halves, count as usize, change);
    make_list_over(
        tries,
        words,
        actor,
        stock,
        &halves,
        brought(count as usize, change),
        main,
    )
}

/// Makes the main node that comes from the one of this name and shape, with so many entries, by this change, where its operation's key has this
/// flag. Returns its slot, or none where no slot is had: then the operation is where it was.
#[inline(always)]
pub fn build_main(
    tries: u64,
    words: &Words,
    actor: &mut Actor,
    stock: &mut Stock,
    main: Name,
    shape: Shape,
    count: usize,
    flag: u32,
    change: Edit,
) -> Option<u32>
    requires table { actor.old.table_id ≡ words.now.table_id }
    requires sound { IsSound words.now.table_id.words actor.old.me.0 }
    requires stock { IsStock stock.old actor.old.me.0 }
    requires some { 0 < flag }
    requires counted { count ≡ entries_in shape }
    requires at { IsChanging actor.old.me.0 main shape flag change }
    ensures table { actor.new.table_id ≡ actor.old.table_id }
    ensures sound { IsSound words.now.table_id.words actor.new.me.0 }
    ensures stock { IsStock stock.new actor.new.me.0 }
    ensures built { HasBuilt actor.old.me.0 result actor.new.me.0 }
{
    match (change, shape) {
        (Edit::Entomb(single), _) => { make_tomb_over(tries, words, actor, stock, single, main) }
        (_, Shape::Branch(bitmap)) => {
            build_branch(
                tries, words, actor, stock, main, bitmap, count, flag, change,
            )
        }
        (_, Shape::List(count)) => build_list(
            tries, words, actor, stock, main, count, flag, change,
        ),
        (_, Shape::Tomb(_)) => unreachable!(),
    }
}
