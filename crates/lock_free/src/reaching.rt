//! KEY: the way down to a key, to where it ends in a main node, whatever the call does there. It carries no more from level to level than it
//! needs.

ghost use Rattle.std.specs.Prelude.{◌≡◌, ◌<◌, length};
ghost use Rattle.lock_free.specs.Descending.{IsAtEntry, IsOnPath, IsTask};
ghost use Rattle.lock_free.specs.Leaving.{OrSpent};
ghost use Rattle.lock_free.specs.LinkReads.{IsThere};
ghost use Rattle.lock_free.specs.Loading.{IsSound};
ghost use Rattle.lock_free.specs.Reaching.{HasGone, HasReached};

use crate::descending::Path;
use crate::finding::{Turn, meet_link, read_link_turn_within};
use crate::loads::{Actor, Words, see_entry};
use crate::tasks::Task;
use nodes::flag_of;
use trie_words::Link;

/// Where the way to a key ends in a main node.
#[derive(Clone, Copy, Drop)]
pub enum Place {
    /// At the single in this slot, the entry at this position of a branch.
    Single { position: usize, slot: u32 },
    /// At a branch that has no entry for it.
    Absent,
    /// At a list.
    List,
    /// At a tomb, whose single is in this slot.
    Tomb(u32),
    /// At a branch that is to be renewed: an indirection in it is of another generation than the root.
    Renews,
}

/// Where the way to a key ends.
#[derive(Clone, Copy, Drop)]
pub struct Reached {
    /// At the main node of this link.
    pub link: Link,
    /// There.
    pub place: Place,
}

/// What comes of a level.
#[derive(Clone, Copy, Drop)]
pub enum Level {
    /// The way goes on in the indirection in this slot.
    Below(u32),
    /// It ends.
    Here(Reached),
}

/// At the entry at this position of a branch: the way goes on below an indirection, and ends at a single, or at an indirection that is to be
/// renewed.
#[inline(always)]
fn go_to_entry(
    words: &Words,
    actor: &mut Actor,
    task: &Task,
    path: &[u32],
    link: Link,
    position: usize,
) -> Level
    requires table { actor.old.table_id ≡ words.now.table_id }
    requires sound { IsSound words.now.table_id.words actor.old.me.0 }
    requires task { IsTask actor.old.me.0 task.now }
    requires at { IsThere actor.old.me.0 path.now link (IsAtEntry actor.old.me.0 position) }
    ensures table { actor.new.table_id ≡ actor.old.table_id }
    ensures sound { IsSound words.now.table_id.words actor.new.me.0 }
    ensures gone { HasGone actor.old.me.0 task.now path.now result actor.new.me.0 }
{
    let entry = see_entry(words, actor, link.main.slot, position as u32);
    let slot = entry.slot;
    if entry.is_single {
        let place = Place::Single { position, slot };
        return Level::Here(Reached { link, place });
    }
    let below = meet_link(words, actor, slot);
    if task.passes(below.generation) {
        Level::Below(slot)
    } else {
        let place = Place::Renews;
        Level::Here(Reached { link, place })
    }
}

/// The way through the last indirection of the path, or none where it is out of tries.
#[inline(always)]
fn go_through(
    tries: u64,
    words: &Words,
    actor: &mut Actor,
    task: &Task,
    path: &[u32],
) -> Option<Level>
    requires table { actor.old.table_id ≡ words.now.table_id }
    requires sound { IsSound words.now.table_id.words actor.old.me.0 }
    requires task { IsTask actor.old.me.0 task.now }
    requires some { 0 < length path.now }
    requires at { IsOnPath actor.old.me.0 path.now }
    ensures table { actor.new.table_id ≡ actor.old.table_id }
    ensures sound { IsSound words.now.table_id.words actor.new.me.0 }
    ensures gone { OrSpent (λ level. HasGone actor.old.me.0 task.now path.now level actor.new.me.0) result actor.old.me.0 actor.new.me.0 }
{
    let depth = path.len() - 1;
    let flag = flag_of(task.hash, depth);
    let way = task.way();
    let Some((link, turn)) = read_link_turn_within(tries, words, actor, way, path[depth], flag)
    else {
        return None;
    };
    match turn {
        Turn::Entry(position) => Some(go_to_entry(words, actor, task, path, link, position)),
        Turn::Absent => {
            let place = Place::Absent;
            Some(Level::Here(Reached { link, place }))
        }
        Turn::List => {
            let place = Place::List;
            Some(Level::Here(Reached { link, place }))
        }
        Turn::Tomb(single) => {
            let place = Place::Tomb(single);
            Some(Level::Here(Reached { link, place }))
        }
    }
}

/// The way down to the key of a call, from the last indirection of the path. The path has each further indirection then to which the way has
/// come. None where it is out of tries: then the operation may give up.
#[inline(always)]
pub fn go_down_within(
    tries: u64,
    words: &Words,
    actor: &mut Actor,
    task: &Task,
    path: &mut Path,
) -> Option<Reached>
    requires table { actor.old.table_id ≡ words.now.table_id }
    requires sound { IsSound words.now.table_id.words actor.old.me.0 }
    requires task { IsTask actor.old.me.0 task.now }
    requires at { IsOnPath actor.old.me.0 path.old.items }
    ensures table { actor.new.table_id ≡ actor.old.table_id }
    ensures sound { IsSound words.now.table_id.words actor.new.me.0 }
    ensures some { 0 < length path.new.items }
    ensures reached { OrSpent (λ reached. HasReached actor.old.me.0 task.now path.new.items reached actor.new.me.0) result actor.old.me.0 actor.new.me.0 }
{
    for _ in 0..tries {
        let Some(level) = go_through(tries, words, actor, task, path.as_slice()) else {
            return None;
        };
        match level {
            Level::Below(slot) => path.push(slot),
            Level::Here(reached) => return Some(reached),
        }
    }
    None
}
