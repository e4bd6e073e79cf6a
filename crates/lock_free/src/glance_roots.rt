//! A get begins while its seat glances, and reads the root of its handle.

ghost use Rattle.std.specs.Prelude.{◌≡◌, ◌<◌, ◌+◌, ◌*◌, ◌^◌, IfNone, IfSome, None};
ghost use mathlib.Core.Option.{none};
ghost use Rattle.atomic_table.specs.Table.{step};
ghost use Rattle.history.specs.declared.calls.Call.TheVariants.{Get};
ghost use Rattle.lock_free.specs.Calling.{has_started, IsBeginner};
ghost use Rattle.lock_free.specs.GlanceGets.{plain_access, GlancesOn, HasBegunToGlance, IsGetGlance, WhileItCounts};
ghost use Rattle.lock_free.specs.Glancing.{has_glanced, IsGlancing};
ghost use Rattle.lock_free.specs.Holding.{IsOn};
ghost use Rattle.lock_free.specs.Loading.{IsSound};
ghost use Rattle.machine_model.specs.Lines.{new_try};
ghost use Rattle.lock_free.specs.Passing.{IsOnWay};
ghost use Rattle.lock_free.specs.Places.{root_word};
ghost use Rattle.lock_free.specs.Rooting.{HasRooted};
ghost use Rattle.lock_free.specs.RootWords.{AsksAt, HasAskedRoot, HasSeenGeneration};
ghost use Rattle.lock_free.specs.WholeCalls.{RestsWith};

use crate::asking::{Named, named_of};
use crate::calling::key_fits;
use crate::glance_looks::is_inside;
use crate::glance_plays::Glances;
use crate::glancing::{begin, see};
use crate::handles::root_word_of;
use crate::loads::{Actor, Words};
use crate::reading::Way;
use crate::rooting::Rooted;
use crate::rules::{Asks, Starts};
use history::{Access, Call};
use trie_words::{Link, RootWord};

/// A seat glances for a get.
#[derive(Clone, Copy, Drop)]
pub struct Glancing {
    /// How many glances were counted when it began.
    pub count: u64,
    /// What the handle allows, if the get has begun, and the word of the handle named its root.
    pub access: Option<Access>,
}

/// Looks at the word of this handle, by which the get of this key begins if it is open for it.
#[inline(always)]
fn start(words: &Words, actor: &mut Actor, handle: u16, key: u64) -> u64
    requires table { actor.old.table_id ≡ words.now.table_id }
    requires glances { IsGlancing words.now.table_id.words actor.old.me.0 }
    requires low { handle < 256 }
    requires starts { WhileItCounts (λ v. IsBeginner v (Get handle key)) actor.old.me.0 }
    ensures table { actor.new.table_id ≡ actor.old.table_id }
    ensures started { has_glanced has_started (step words.now.table_id.slots (root_word handle) 0 0 none) actor.old.me result actor.new.me }
{
    key_fits(Call::Get { handle, key });
    words.load::<Glances<Starts>>(actor, root_word_of(handle))
}

/// What an open handle with this word allows, if the word names its root.
#[inline(always)]
fn access_of(found: RootWord) -> Option<Access>
    ensures { result ≡ plain_access found }
{
    match found {
        RootWord::Writable(_) => Some(Access::Writable),
        RootWord::ReadOnly(_) => Some(Access::ReadOnly),
        _ => None,
    }
}

/// Begins to glance for a get. None once all glances that can be counted were: then nothing has changed.
#[inline(always)]
pub fn begin_get(words: &Words, actor: &mut Actor, handle: u16, key: u64) -> Option<Glancing>
    requires table { actor.old.table_id ≡ words.now.table_id }
    requires sound { IsSound words.now.table_id.words actor.old.me.0 }
    requires rests { RestsWith actor.old.me.0 None }
    requires low { handle < 256 }
    ensures table { actor.new.table_id ≡ actor.old.table_id }
    ensures same { IfNone result (actor.new.me.0 ≡ actor.old.me.0) }
    ensures begun { IfSome result (λ glancing. HasBegunToGlance words.now.table_id.words actor.old.me.0 handle key glancing actor.new.me.0) }
{
    let count = begin(words, actor, &Call::Get { handle, key });
    if count == u64::MAX {
        return None;
    }
    let found = start(words, actor, handle, key);
    let access = access_of(RootWord::of_word(found));
    Some(Glancing { count, access })
}

/// Asks for the root of this handle.
#[inline(always)]
fn ask_word(words: &Words, actor: &mut Actor, handle: u16) -> Named
    requires table { actor.old.table_id ≡ words.now.table_id }
    requires glances { IsGetGlance words.now.table_id.words actor.old.me.0 }
    requires low { handle < 256 }
    requires asking { WhileItCounts (λ v. AsksAt v handle × IsOn v new_try) actor.old.me.0 }
    ensures table { actor.new.table_id ≡ actor.old.table_id }
    ensures asked { GlancesOn words.now.table_id.words (λ v w. HasAskedRoot v handle result w) actor.old.me.0 actor.new.me.0 }
{
    let found = words.load::<Glances<Asks>>(actor, root_word_of(handle));
    named_of(RootWord::of_word(found))
}

/// The generation of the root in this slot.
#[inline(always)]
fn see_generation(words: &Words, actor: &mut Actor, root: u32) -> u64
    requires table { actor.old.table_id ≡ words.now.table_id }
    requires glances { IsGetGlance words.now.table_id.words actor.old.me.0 }
    requires inside { 2 * root + 1 < words.now.table_id.words }
    ensures table { actor.new.table_id ≡ actor.old.table_id }
    ensures seen { GlancesOn words.now.table_id.words (λ v w. HasSeenGeneration v root result w) actor.old.me.0 actor.new.me.0 }
    ensures small { result < 2 ^ 36 }
{
    Link::of_word(see(words, actor, 2 * root as usize)).generation
}

/// ROOT, where the word of the handle names the root.
#[inline(always)]
pub fn seek_root(words: &Words, actor: &mut Actor, among: usize, way: Way) -> Option<Rooted>
    requires table { actor.old.table_id ≡ words.now.table_id }
    requires glances { IsGetGlance words.now.table_id.words actor.old.me.0 }
    requires among { among ≡ words.now.table_id.words }
    requires low { way.handle < 256 }
    requires at { WhileItCounts (λ v. IsOnWay v way × IsOn v new_try) actor.old.me.0 }
    ensures table { actor.new.table_id ≡ actor.old.table_id }
    ensures rooted { GlancesOn words.now.table_id.words (λ v w. IfSome result (λ rooted. HasRooted v rooted w)) actor.old.me.0 actor.new.me.0 }
{
    let Named::Root(slot) = ask_word(words, actor, way.handle) else {
        return None;
    };
    if !is_inside(slot, among) {
        return None;
    }
    let generation = see_generation(words, actor, slot);
    Some(Rooted { slot, generation })
}
