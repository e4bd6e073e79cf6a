//! COPY makes the roots of an offer.

ghost use Rattle.std.specs.Prelude.{◌≡◌, ◌++◌, ◌∷◌, ℕ, List, []};
ghost use Rattle.machine_model.specs.Beneath.slot_arena.specs.declared.refs.Ref.{Ref as ARef};
ghost use Rattle.machine_model.specs.declared.copying.CopyLine.TheVariants as copy;
ghost use Rattle.lock_free.specs.Owing.{HoldsRaised};
ghost use Rattle.lock_free.specs.CopySteps.{HasMadeRoots, HasRoot, HasSharedRoot, HasTriedRoot, IsAtCopy, IsAtNewRoot, IsGiven, IsKind};
ghost use Rattle.lock_free.specs.declared.copy_roots.CopyKind.TheVariants as kind;
ghost use Rattle.lock_free.specs.declared.reclaiming.Kind.TheVariants as kinds;
ghost use Rattle.lock_free.specs.Loading.{IsSound};
ghost use Rattle.lock_free.specs.Raising.{MayHoldOne};
ghost use Rattle.lock_free.specs.Rules.{pool_of};
ghost use Rattle.lock_free.specs.Stocks.{IsStock};

use crate::loads::{Actor, Words};
use crate::makes::make_branch;
use crate::raising::{raise, release};
use crate::reclaiming::Kind;
use crate::stock::Stock;
use crate::stores::{GENERATION, draft, make_root};
use crate::taken::take;
use trie_words::{Link, Name, Previous};

/// So many generations can be given out.
const GENERATIONS: u64 = 1 << 36;

/// Which copy an operation makes.
#[derive(Clone, Copy, Drop)]
pub enum CopyKind {
    /// One for readers.
    Freeze,
    /// One that may be written.
    Snapshot,
    /// None: all keys are removed.
    Clear,
}

/// The roots that an operation has made for a copy, by their slots.
#[derive(Clone, Copy, Drop)]
pub struct NewRoots {
    /// The one that is to stand in the place of the old one.
    pub successor: u32,
    /// That of a copy that may be written.
    pub second: Option<u32>,
}

/// Makes a root over the main node of this name in this slot, the last of those that are free, with the generation that is next. Returns
/// false where no generation is left, or it is out of tries.
fn try_roots(
    tries: u64,
    words: &Words,
    actor: &mut Actor,
    stock: &mut Stock,
    slot: u32,
    main: Name,
) -> bool
    requires table { actor.old.table_id ≡ words.now.table_id }
    requires sound { IsSound words.now.table_id.words actor.old.me.0 }
    requires last { (rest : List ℕ) × (pool_of actor.old.me.0.pool 0 ≡ rest ++ slot ∷ []) }
    requires making { IsAtNewRoot actor.old.me.0 main }
    requires raised { HoldsRaised actor.old.me.0 }
    ensures table { actor.new.table_id ≡ actor.old.table_id }
    ensures sound { IsSound words.now.table_id.words actor.new.me.0 }
    ensures stock { stock.new ≡ stock.old }
    ensures tried { HasTriedRoot actor.old.me.0 result actor.new.me.0 }
{
    for _ in 0..tries {
        let generation = words.peek(GENERATION);
        if generation >= GENERATIONS {
            stock.wear_out();
            return false;
        }
        let link = Link { generation, main };
        draft(words, actor, 2 * slot as usize, link.to_word());
        if make_root(words, actor, generation) {
            return true;
        }
    }
    false
}

/// Makes a root over the main node of this name. Returns its slot, or none where no slot or no generation is had.
fn make_new_root(
    tries: u64,
    words: &Words,
    actor: &mut Actor,
    stock: &mut Stock,
    main: Name,
) -> Option<u32>
    requires table { actor.old.table_id ≡ words.now.table_id }
    requires sound { IsSound words.now.table_id.words actor.old.me.0 }
    requires stock { IsStock stock.old actor.old.me.0 }
    requires making { IsAtNewRoot actor.old.me.0 main }
    requires raised { HoldsRaised actor.old.me.0 }
    ensures table { actor.new.table_id ≡ actor.old.table_id }
    ensures sound { IsSound words.now.table_id.words actor.new.me.0 }
    ensures stock { IsStock stock.new actor.new.me.0 }
    ensures made { HasRoot actor.old.me.0 result actor.new.me.0 }
{
    let slot = take(tries, words, actor, stock, 0)?;
    if !try_roots(tries, words, actor, stock, slot, main) {
        return None;
    }
    stock.note(Kind::Indirection, 0);
    Some(slot)
}

/// Makes a root over the main node of this name, in a slot of this class, which another root leads to: the seat counts a reference to it.
/// Returns its slot, or none where no slot or no generation is had, or the reference couldn't be counted.
fn make_shared_root(
    tries: u64,
    words: &Words,
    actor: &mut Actor,
    stock: &mut Stock,
    main: Name,
    class: u32,
) -> Option<u32>
    requires table { actor.old.table_id ≡ words.now.table_id }
    requires sound { IsSound words.now.table_id.words actor.old.me.0 }
    requires stock { IsStock stock.old actor.old.me.0 }
    requires making { IsAtNewRoot actor.old.me.0 main }
    requires holds { MayHoldOne actor.old.me.0 kinds.Main class main.slot }
    ensures table { actor.new.table_id ≡ actor.old.table_id }
    ensures sound { IsSound words.now.table_id.words actor.new.me.0 }
    ensures stock { IsStock stock.new actor.new.me.0 }
    ensures made { HasSharedRoot actor.old.me.0 result actor.new.me.0 }
{
    if !raise(tries, words, actor, &stock.sizes(), class, main.slot) {
        return None;
    }
    match make_new_root(tries, words, actor, stock, main) {
        Some(slot) => Some(slot),
        None => {
            release(words, actor, stock, Kind::Main, class, main.slot);
            None
        }
    }
}

/// An empty branch, and a root over it.
fn make_cleared(tries: u64, words: &Words, actor: &mut Actor, stock: &mut Stock) -> Option<NewRoots>
    requires table { actor.old.table_id ≡ words.now.table_id }
    requires sound { IsSound words.now.table_id.words actor.old.me.0 }
    requires stock { IsStock stock.old actor.old.me.0 }
    requires at { (root : ARef) × (main : ARef) × IsAtCopy actor.old.me.0 (copy.Empty root main) }
    ensures table { actor.new.table_id ≡ actor.old.table_id }
    ensures sound { IsSound words.now.table_id.words actor.new.me.0 }
    ensures stock { IsStock stock.new actor.new.me.0 }
    ensures made { HasMadeRoots actor.old.me.0 kind.Clear result actor.new.me.0 }
{
    let branch = make_branch(tries, words, actor, stock, 0, &[], Previous::None)?;
    let over = Name {
        slot: branch,
        own: true,
    };
    let successor = make_new_root(tries, words, actor, stock, over)?;
    Some(NewRoots {
        successor,
        second: None,
    })
}

/// Two roots over the main node in this slot of this class.
fn make_both(
    tries: u64,
    words: &Words,
    actor: &mut Actor,
    stock: &mut Stock,
    main: u32,
    class: u32,
) -> Option<NewRoots>
    requires table { actor.old.table_id ≡ words.now.table_id }
    requires sound { IsSound words.now.table_id.words actor.old.me.0 }
    requires stock { IsStock stock.old actor.old.me.0 }
    requires which { IsKind actor.old.me.0 kind.Snapshot }
    requires given { IsGiven actor.old.me.0 kind.Snapshot main class }
    ensures table { actor.new.table_id ≡ actor.old.table_id }
    ensures sound { IsSound words.now.table_id.words actor.new.me.0 }
    ensures stock { IsStock stock.new actor.new.me.0 }
    ensures made { HasMadeRoots actor.old.me.0 kind.Snapshot result actor.new.me.0 }
{
    let over = Name {
        slot: main,
        own: false,
    };
    let successor = make_shared_root(tries, words, actor, stock, over, class)?;
    let second = make_shared_root(tries, words, actor, stock, over, class)?;
    Some(NewRoots {
        successor,
        second: Some(second),
    })
}

/// One root over the main node in this slot of this class.
fn make_one(
    tries: u64,
    words: &Words,
    actor: &mut Actor,
    stock: &mut Stock,
    main: u32,
    class: u32,
) -> Option<NewRoots>
    requires table { actor.old.table_id ≡ words.now.table_id }
    requires sound { IsSound words.now.table_id.words actor.old.me.0 }
    requires stock { IsStock stock.old actor.old.me.0 }
    requires which { IsKind actor.old.me.0 kind.Freeze }
    requires given { IsGiven actor.old.me.0 kind.Freeze main class }
    ensures table { actor.new.table_id ≡ actor.old.table_id }
    ensures sound { IsSound words.now.table_id.words actor.new.me.0 }
    ensures stock { IsStock stock.new actor.new.me.0 }
    ensures made { HasMadeRoots actor.old.me.0 kind.Freeze result actor.new.me.0 }
{
    let over = Name {
        slot: main,
        own: false,
    };
    let successor = make_shared_root(tries, words, actor, stock, over, class)?;
    Some(NewRoots {
        successor,
        second: None,
    })
}

/// The roots of a copy of the main node in this slot of this class, or none where a slot or a generation is missing.
pub fn make_roots(
    tries: u64,
    words: &Words,
    actor: &mut Actor,
    stock: &mut Stock,
    which: CopyKind,
    main: u32,
    class: u32,
) -> Option<NewRoots>
    requires table { actor.old.table_id ≡ words.now.table_id }
    requires sound { IsSound words.now.table_id.words actor.old.me.0 }
    requires stock { IsStock stock.old actor.old.me.0 }
    requires which { IsKind actor.old.me.0 which }
    requires given { IsGiven actor.old.me.0 which main class }
    ensures table { actor.new.table_id ≡ actor.old.table_id }
    ensures sound { IsSound words.now.table_id.words actor.new.me.0 }
    ensures stock { IsStock stock.new actor.new.me.0 }
    ensures made { HasMadeRoots actor.old.me.0 which result actor.new.me.0 }
{
    match which {
        CopyKind::Clear => make_cleared(tries, words, actor, stock),
        CopyKind::Snapshot => make_both(tries, words, actor, stock, main, class),
        CopyKind::Freeze => make_one(tries, words, actor, stock, main, class),
    }
}
