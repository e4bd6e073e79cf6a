//! Through cells seats give each other free slots: one stands in a cell itself, and leads to loose ones. What finds no room there is loose.

ghost use Rattle.std.specs.Prelude.{◌≡◌, ◌<◌, ◌++◌, ℕ, List, [], ◌∷◌, None, OnSome};
ghost use Rattle.lock_free.specs.CellWords.{has_fetched, has_put, HasFetched, HasFetchedSome, HasGivenSome, HasPut};
ghost use Rattle.lock_free.specs.Loading.{IsSound};
ghost use Rattle.lock_free.specs.Rules.{pool_of};
ghost use Rattle.lock_free.specs.Stocks.{HasRoom, HasSlotOrNone, IsStock};

use crate::links::link_in;
use crate::loads::{Actor, Words};
use crate::loose::{loosen, take_up};
use crate::rules::View;
use crate::sizes::Sizes;
use crate::stock::Stock;
use atomic_table::Play;
use history::Call;

/// A slot that is free for the seat is put into a cell, or isn't.
pub struct Puts;

impl Play<Call, View> for Puts {
    ghost then = { has_put };
}

/// The slot in a cell is free for the seat that fetches it, if it does.
pub struct Fetches;

impl Play<Call, View> for Fetches {
    ghost then = { has_fetched };
}

/// So many cells each class has.
const CELLS: usize = 32;

/// So many of a class a seat makes loose at once, at most.
const LOOSENED: usize = 64;

/// So many a seat fetches at once: enough for some calls, and others find some too.
const FETCHED: usize = 16;

/// The high half of a cell's word begins here.
const HALF: u64 = 1 << 32;

/// What stood in a cell.
#[derive(Clone, Copy, Drop)]
pub struct Stored {
    /// The slot.
    pub slot: u32,
    /// The first of the loose slots to which it led, or 0.
    pub next: u32,
}

/// Puts the last slot of this class that is free for the seat into the cell of this number, if nothing stands in it; it leads to this loose one,
/// or to none where that is 0. Returns whether it did.
pub fn put(
    words: &Words,
    actor: &mut Actor,
    sizes: &Sizes,
    class: u32,
    number: usize,
    slot: u32,
    next: u32,
) -> bool
    requires table { actor.old.table_id ≡ words.now.table_id }
    requires sound { IsSound words.now.table_id.words actor.old.me.0 }
    requires sizes { actor.old.me.0.sizes ≡ sizes.now }
    requires class { class < 3 }
    requires number { number < 32 }
    requires last { (rest : List ℕ) × (pool_of actor.old.me.0.pool class ≡ rest ++ slot ∷ []) }
    requires unopened { actor.old.me.0.opens ≡ None }
    ensures table { actor.new.table_id ≡ actor.old.table_id }
    ensures sound { IsSound words.now.table_id.words actor.new.me.0 }
    ensures put { HasPut actor.old.me.0 class result actor.new.me.0 }
{
    let cell = sizes.cell_word(class, number);
    if words.peek(cell) != 0 {
        return false;
    }
    let stored = HALF * u64::from(next) + u64::from(slot);
    if words.compare_exchange::<Puts>(actor, cell, 0, stored) != 0 {
        return false;
    }
    true
}

/// Fetches the slot of this class that stands in the cell of this number, if one does.
pub fn fetch(
    words: &Words,
    actor: &mut Actor,
    sizes: &Sizes,
    class: u32,
    number: usize,
) -> Option<Stored>
    requires table { actor.old.table_id ≡ words.now.table_id }
    requires sound { IsSound words.now.table_id.words actor.old.me.0 }
    requires sizes { actor.old.me.0.sizes ≡ sizes.now }
    requires class { class < 3 }
    requires number { number < 32 }
    ensures table { actor.new.table_id ≡ actor.old.table_id }
    ensures sound { IsSound words.now.table_id.words actor.new.me.0 }
    ensures fetched { HasFetched actor.old.me.0 class result actor.new.me.0 }
{
    let cell = sizes.cell_word(class, number);
    let stored = words.peek(cell);
    let slot = link_in(stored);
    if slot == 0 {
        return None;
    }
    if words.compare_exchange::<Fetches>(actor, cell, stored, 0) != stored {
        return None;
    }
    let next = (stored / HALF) as u32;
    Some(Stored { slot, next })
}

/// Puts the last free slot of this class into the cell of this number, if nothing stands in it; all that are loose go with it.
fn give_one(words: &Words, actor: &mut Actor, stock: &mut Stock, class: u32, number: usize)
    requires table { actor.old.table_id ≡ words.now.table_id }
    requires sound { IsSound words.now.table_id.words actor.old.me.0 }
    requires stock { IsStock stock.old actor.old.me.0 }
    requires class { class < 3 }
    requires number { number < 32 }
    requires unopened { actor.old.me.0.opens ≡ None }
    ensures table { actor.new.table_id ≡ actor.old.table_id }
    ensures sound { IsSound words.now.table_id.words actor.new.me.0 }
    ensures stock { IsStock stock.new actor.new.me.0 }
    ensures given { HasGivenSome actor.old.me.0 actor.new.me.0 }
{
    let Some(slot) = stock.last(class) else {
        return;
    };
    let sizes = stock.sizes();
    let next = stock.first_loose(class);
    if put(words, actor, &sizes, class, number, slot, next) {
        stock.leave_out(class);
        stock.set_first_loose(class, 0);
    }
}

/// Makes the last free slot of this class loose; it leads on to those that were so before.
fn loosen_one(words: &Words, actor: &mut Actor, stock: &mut Stock, class: u32)
    requires table { actor.old.table_id ≡ words.now.table_id }
    requires sound { IsSound words.now.table_id.words actor.old.me.0 }
    requires stock { IsStock stock.old actor.old.me.0 }
    requires class { class < 3 }
    requires unopened { actor.old.me.0.opens ≡ None }
    ensures table { actor.new.table_id ≡ actor.old.table_id }
    ensures sound { IsSound words.now.table_id.words actor.new.me.0 }
    ensures stock { IsStock stock.new actor.new.me.0 }
    ensures given { HasGivenSome actor.old.me.0 actor.new.me.0 }
{
    let Some(slot) = stock.last(class) else {
        return;
    };
    let sizes = stock.sizes();
    if !sizes.has_slot(class, slot) {
        return;
    }
    let next = stock.first_loose(class);
    if loosen(words, actor, &sizes, class, slot, next) {
        stock.leave_out(class);
        stock.set_first_loose(class, slot);
    }
}

/// Makes free slots of this class loose, until so few are left that the seat keeps them.
fn loosen_rest(words: &Words, actor: &mut Actor, stock: &mut Stock, class: u32)
    requires table { actor.old.table_id ≡ words.now.table_id }
    requires sound { IsSound words.now.table_id.words actor.old.me.0 }
    requires stock { IsStock stock.old actor.old.me.0 }
    requires class { class < 3 }
    requires unopened { actor.old.me.0.opens ≡ None }
    ensures table { actor.new.table_id ≡ actor.old.table_id }
    ensures sound { IsSound words.now.table_id.words actor.new.me.0 }
    ensures stock { IsStock stock.new actor.new.me.0 }
    ensures given { HasGivenSome actor.old.me.0 actor.new.me.0 }
{
    for _ in 0..LOOSENED {
        if !stock.has_over(class) {
            return;
        }
        loosen_one(words, actor, stock, class);
    }
}

/// The cell at which a seat looks first. No other seat has this slot, so that most look elsewhere.
pub(crate) fn cell_of(stock: &Stock, class: u32) -> usize
    ensures { result < 32 }
{
    match stock.last(class) {
        Some(slot) => slot as usize % CELLS,
        None => 0,
    }
}

/// Makes free slots of this class loose, until so few are left that the seat keeps them; and puts the last one into a cell, if one is empty, with
/// all that are loose.
fn give_class(words: &Words, actor: &mut Actor, stock: &mut Stock, class: u32)
    requires table { actor.old.table_id ≡ words.now.table_id }
    requires sound { IsSound words.now.table_id.words actor.old.me.0 }
    requires stock { IsStock stock.old actor.old.me.0 }
    requires class { class < 3 }
    requires unopened { actor.old.me.0.opens ≡ None }
    ensures table { actor.new.table_id ≡ actor.old.table_id }
    ensures sound { IsSound words.now.table_id.words actor.new.me.0 }
    ensures stock { IsStock stock.new actor.new.me.0 }
    ensures given { HasGivenSome actor.old.me.0 actor.new.me.0 }
{
    loosen_rest(words, actor, stock, class);
    let first = cell_of(stock, class);
    for n in 0..CELLS {
        if stock.first_loose(class) == 0 {
            return;
        }
        give_one(words, actor, stock, class, (first + n) % CELLS);
    }
}

/// Gives away free slots of each class of which more are free for the seat than it keeps, and loose ones that it knows of.
pub(crate) fn give_all(words: &Words, actor: &mut Actor, stock: &mut Stock)
    requires table { actor.old.table_id ≡ words.now.table_id }
    requires sound { IsSound words.now.table_id.words actor.old.me.0 }
    requires stock { IsStock stock.old actor.old.me.0 }
    requires unopened { actor.old.me.0.opens ≡ None }
    ensures table { actor.new.table_id ≡ actor.old.table_id }
    ensures sound { IsSound words.now.table_id.words actor.new.me.0 }
    ensures stock { IsStock stock.new actor.new.me.0 }
    ensures given { HasGivenSome actor.old.me.0 actor.new.me.0 }
{
    give_class(words, actor, stock, 0);
    give_class(words, actor, stock, 1);
    give_class(words, actor, stock, 2);
}

/// Fetches one from the cell of this number, with the loose ones to which it leads, if there is room for it and the seat knows of none.
fn fetch_one(words: &Words, actor: &mut Actor, stock: &mut Stock, class: u32, number: usize)
    requires table { actor.old.table_id ≡ words.now.table_id }
    requires sound { IsSound words.now.table_id.words actor.old.me.0 }
    requires stock { IsStock stock.old actor.old.me.0 }
    requires class { class < 3 }
    requires number { number < 32 }
    requires room { HasRoom stock.old 2 }
    ensures table { actor.new.table_id ≡ actor.old.table_id }
    ensures sound { IsSound words.now.table_id.words actor.new.me.0 }
    ensures stock { IsStock stock.new actor.new.me.0 }
    ensures room { HasRoom stock.new 2 }
    ensures fetched { HasFetchedSome actor.old.me.0 class actor.new.me.0 }
{
    if !stock.takes_back(class) || stock.first_loose(class) != 0 {
        return;
    }
    let sizes = stock.sizes();
    if let Some(stored) = fetch(words, actor, &sizes, class, number) {
        stock.add(class, stored.slot);
        stock.set_first_loose(class, stored.next);
    }
}

/// Takes up the first loose slot of this class that the seat knows of, if there is room for it.
fn take_up_one(words: &Words, actor: &mut Actor, stock: &mut Stock, class: u32)
    requires table { actor.old.table_id ≡ words.now.table_id }
    requires sound { IsSound words.now.table_id.words actor.old.me.0 }
    requires stock { IsStock stock.old actor.old.me.0 }
    requires class { class < 3 }
    requires room { HasRoom stock.old 2 }
    ensures table { actor.new.table_id ≡ actor.old.table_id }
    ensures sound { IsSound words.now.table_id.words actor.new.me.0 }
    ensures stock { IsStock stock.new actor.new.me.0 }
    ensures room { HasRoom stock.new 2 }
    ensures fetched { HasFetchedSome actor.old.me.0 class actor.new.me.0 }
{
    if !stock.takes_back(class) {
        return;
    }
    let slot = stock.first_loose(class);
    let sizes = stock.sizes();
    if !sizes.has_slot(class, slot) {
        stock.set_first_loose(class, 0);
        return;
    }
    match take_up(words, actor, &sizes, class, slot) {
        Some(next) => {
            stock.add(class, slot);
            stock.set_first_loose(class, next);
        }
        None => stock.set_first_loose(class, 0),
    }
}

/// Takes up loose slots of this class, some at most.
fn take_up_some(words: &Words, actor: &mut Actor, stock: &mut Stock, class: u32)
    requires table { actor.old.table_id ≡ words.now.table_id }
    requires sound { IsSound words.now.table_id.words actor.old.me.0 }
    requires stock { IsStock stock.old actor.old.me.0 }
    requires class { class < 3 }
    requires room { HasRoom stock.old 2 }
    ensures table { actor.new.table_id ≡ actor.old.table_id }
    ensures sound { IsSound words.now.table_id.words actor.new.me.0 }
    ensures stock { IsStock stock.new actor.new.me.0 }
    ensures room { HasRoom stock.new 2 }
    ensures fetched { HasFetchedSome actor.old.me.0 class actor.new.me.0 }
{
    for _ in 0..FETCHED {
        if stock.has_enough(class, FETCHED) || stock.first_loose(class) == 0 {
            return;
        }
        take_up_one(words, actor, stock, class);
    }
}

/// Takes up loose slots of this class, and fetches others from cells, some at most; it looks at each cell once.
fn fetch_some(words: &Words, actor: &mut Actor, stock: &mut Stock, class: u32)
    requires table { actor.old.table_id ≡ words.now.table_id }
    requires sound { IsSound words.now.table_id.words actor.old.me.0 }
    requires stock { IsStock stock.old actor.old.me.0 }
    requires class { class < 3 }
    requires room { HasRoom stock.old 2 }
    ensures table { actor.new.table_id ≡ actor.old.table_id }
    ensures sound { IsSound words.now.table_id.words actor.new.me.0 }
    ensures stock { IsStock stock.new actor.new.me.0 }
    ensures room { HasRoom stock.new 2 }
    ensures fetched { HasFetchedSome actor.old.me.0 class actor.new.me.0 }
{
    take_up_some(words, actor, stock, class);
    for number in 0..CELLS {
        if stock.has_enough(class, FETCHED) {
            return;
        }
        fetch_one(words, actor, stock, class, number);
        take_up_some(words, actor, stock, class);
    }
}

/// The last slot of this class of those that are free once some are taken up, or fetched from cells; or the call has found no slot.
#[inline(never)]
pub fn fetch_slot(words: &Words, actor: &mut Actor, stock: &mut Stock, class: u32) -> Option<u32>
    requires table { actor.old.table_id ≡ words.now.table_id }
    requires sound { IsSound words.now.table_id.words actor.old.me.0 }
    requires stock { IsStock stock.old actor.old.me.0 }
    requires class { class < 3 }
    requires room { HasRoom stock.old 2 }
    ensures table { actor.new.table_id ≡ actor.old.table_id }
    ensures sound { IsSound words.now.table_id.words actor.new.me.0 }
    ensures stock { IsStock stock.new actor.new.me.0 }
    ensures room { OnSome result (HasRoom stock.new 1) }
    ensures slot { HasSlotOrNone actor.old.me.0 class result actor.new.me.0 }
{
    fetch_some(words, actor, stock, class);
    stock.note_to_give();
    let slot = stock.last(class);
    if slot.is_none() {
        stock.lack();
    }
    slot
}
