//! KEY: the way down to a key, from the root to what it comes to.

ghost use Rattle.std.specs.Prelude.{◌≡◌, ◌<◌, ◌&&◌, nat_le, if◌then◌else◌};
ghost use Rattle.history.specs.declared.replies.Reply.TheVariants as reply;
ghost use Rattle.machine_model.specs.declared.building.Site.TheVariants as place;
ghost use Rattle.machine_model.specs.Calls.{inserts};
ghost use Rattle.lock_free.specs.declared.descending.Found.TheVariants as what;
ghost use Rattle.lock_free.specs.Descending.{absent_found, entries_in, rest_in, HasFound, IsAtList};
ghost use Rattle.lock_free.specs.Descending.{IsAtOne, IsAtSibling, IsAtTomb, IsFoundAt, IsHere, IsRemovingAt, IsTask};
ghost use Rattle.lock_free.specs.LinkReads.{IsThere};
ghost use Rattle.lock_free.specs.Loading.{IsSound};

use crate::finding::{Met, meet_single};
use crate::loads::{Actor, Words, look_at_key, look_at_link, see_entry};
use crate::reading::Given;
use crate::tasks::{Task, absent_reply, inserts, when_found};
use arrayvec::ArrayVec;
use history::{Access, Call, Reply};
use machine_model::{Site, WhenFound};
use nodes::MOST_ENTRIES;
use trie_words::{Entry, Link, Shape};

/// The slots of the indirections from the root down; the last is the current one.
pub type Path = ArrayVec<u32, 14>;

/// A change of a key in a main node.
#[derive(Clone, Copy, Drop)]
pub enum Update {
    /// A single of it is made, for this site; the value that the key had.
    Builds { site: Site, former: Option<u64> },
    /// The entry at this position is taken out; the value that the key had.
    Removes { position: usize, former: u64 },
    /// A tomb of this single, the only other entry, takes the place of the main node; the value that the key had.
    Entombs { single: Entry, former: u64 },
}

/// What a call on a key comes to at the end of its way down.
#[derive(Drop)]
pub enum Found {
    /// It answers this, and changes nothing.
    Answers(Reply),
    /// It changes the main node so.
    Changes { update: Update, given: Given },
    /// The branch is to be renewed: an indirection in it is of another generation than the root.
    Renews(Given),
    /// The last indirection but one is to be cleaned: a tomb stands in the last.
    Cleans,
}

/// Where the key is absent: its single is made for this site, or the call answers.
#[inline(always)]
pub fn absent(call: Call, site: Site, given: Given) -> Found
    ensures { result ≡ absent_found call site given }
{
    if inserts(call) {
        Found::Changes {
            update: Update::Builds { site, former: None },
            given,
        }
    } else {
        Found::Answers(absent_reply(call))
    }
}

/// Where the key is absent at the end of a list of this many singles: 32 are the most.
fn absent_listed(call: Call, singles: usize, given: Given) -> Found
    ensures { result ≡ (if inserts call && nat_le 32 singles then what.Answers reply.Crowded else absent_found call place.Absent given) }
{
    if inserts(call) && MOST_ENTRIES <= singles {
        return Found::Answers(Reply::Crowded);
    }
    absent(call, Site::Absent, given)
}

/// How many entries a main node of this shape has.
pub fn entries_in(shape: Shape) -> usize
    ensures { result ≡ entries_in shape }
{
    match shape {
        Shape::Branch(bitmap) => bitmap.count_ones() as usize,
        Shape::Tomb(_) => 1,
        Shape::List(count) => count as usize,
    }
}

/// Takes the key at this position, which has this value, out of a branch of two entries below the root: looks at the other one.
fn remove_beside(
    words: &Words,
    actor: &mut Actor,
    path: &[u32],
    given: Given,
    position: usize,
    former: u64,
) -> Found
    requires table { actor.old.table_id ≡ words.now.table_id }
    requires sound { IsSound words.now.table_id.words actor.old.me.0 }
    requires one { position < 2 }
    requires at { IsHere actor.old.me.0 path.now given (IsAtSibling actor.old.me.0 position former) }
    ensures table { actor.new.table_id ≡ actor.old.table_id }
    ensures sound { IsSound words.now.table_id.words actor.new.me.0 }
    ensures found { HasFound actor.old.me.0 path.now result actor.new.me.0 }
{
    let other = see_entry(words, actor, given.link.main.slot, 1 - position as u32);
    if other.is_single {
        look_at_key(words, actor, other.slot);
        Found::Changes {
            update: Update::Entombs {
                single: other,
                former,
            },
            given,
        }
    } else {
        look_at_link(words, actor, other.slot);
        Found::Changes {
            update: Update::Removes { position, former },
            given,
        }
    }
}

/// What is left in a main node without one of its entries.
#[derive(Clone, Copy, Drop)]
pub enum Rest {
    /// The other entry of a branch alone, below the root.
    Entry,
    /// The other single of a list alone.
    Single,
    /// Anything else.
    Any,
}

/// What is left in a main node of this shape, in the last of this many indirections.
pub(crate) fn rest_in(shape: Shape, indirections: usize) -> Rest
    ensures { result ≡ rest_in shape indirections }
{
    match shape {
        Shape::Branch(bitmap) => {
            if indirections > 1 && bitmap.count_ones() == 2 {
                Rest::Entry
            } else {
                Rest::Any
            }
        }
        Shape::List(count) => { if count == 2 { Rest::Single } else { Rest::Any } }
        Shape::Tomb(_) => Rest::Any,
    }
}

/// Takes the key at this position, which has this value, out of the main node.
pub(crate) fn remove(
    words: &Words,
    actor: &mut Actor,
    path: &[u32],
    given: Given,
    position: usize,
    former: u64,
) -> Found
    requires table { actor.old.table_id ≡ words.now.table_id }
    requires sound { IsSound words.now.table_id.words actor.old.me.0 }
    requires at { IsHere actor.old.me.0 path.now given (IsRemovingAt actor.old.me.0 position former) }
    ensures table { actor.new.table_id ≡ actor.old.table_id }
    ensures sound { IsSound words.now.table_id.words actor.new.me.0 }
    ensures found { HasFound actor.old.me.0 path.now result actor.new.me.0 }
{
    match rest_in(given.header.shape, path.len()) {
        Rest::Entry => remove_beside(words, actor, path, given, position, former),
        Rest::Single => Found::Changes {
            update: Update::Entombs {
                single: see_entry(words, actor, given.link.main.slot, 1 - position as u32),
                former,
            },
            given,
        },
        Rest::Any => Found::Changes {
            update: Update::Removes { position, former },
            given,
        },
    }
}

/// What the call does where its key stands at this position of the main node, with this value.
#[inline(always)]
fn at_key(
    words: &Words,
    actor: &mut Actor,
    call: Call,
    path: &[u32],
    given: Given,
    position: usize,
    value: u64,
) -> Found
    requires table { actor.old.table_id ≡ words.now.table_id }
    requires sound { IsSound words.now.table_id.words actor.old.me.0 }
    requires at { IsHere actor.old.me.0 path.now given (IsFoundAt actor.old.me.0 call position value) }
    ensures table { actor.new.table_id ≡ actor.old.table_id }
    ensures sound { IsSound words.now.table_id.words actor.new.me.0 }
    ensures found { HasFound actor.old.me.0 path.now result actor.new.me.0 }
{
    match when_found(call, value) {
        WhenFound::Answers(reply) => Found::Answers(reply),
        WhenFound::Sets => Found::Changes {
            update: Update::Builds {
                site: Site::At { position },
                former: Some(value),
            },
            given,
        },
        WhenFound::Removes => remove(words, actor, path, given, position, value),
    }
}

/// Looks for the key along the singles of a list.
#[cold]
#[inline(never)]
pub fn search_list(
    words: &Words,
    actor: &mut Actor,
    task: &Task,
    path: &[u32],
    given: Given,
) -> Found
    requires table { actor.old.table_id ≡ words.now.table_id }
    requires sound { IsSound words.now.table_id.words actor.old.me.0 }
    requires task { IsTask actor.old.me.0 task.now }
    requires at { IsHere actor.old.me.0 path.now given (IsAtList actor.old.me.0) }
    ensures table { actor.new.table_id ≡ actor.old.table_id }
    ensures sound { IsSound words.now.table_id.words actor.new.me.0 }
    ensures found { HasFound actor.old.me.0 path.now result actor.new.me.0 }
{
    let singles = entries_in(given.header.shape);
    for position in 0..singles {
        let entry = see_entry(words, actor, given.link.main.slot, position as u32);
        match meet_single(words, actor, task.key, entry.slot) {
            Met::Found(value) => {
                return at_key(words, actor, task.call, path, given, position, value);
            }
            Met::Other => {}
        }
    }
    absent_listed(task.call, singles, given)
}

/// At a tomb, whose single is in this slot: a writable call has it cleaned, a read-only one looks at the single.
#[cold]
#[inline(never)]
pub fn at_tomb(
    words: &Words,
    actor: &mut Actor,
    task: &Task,
    path: &[u32],
    link: Link,
    single: u32,
) -> Found
    requires table { actor.old.table_id ≡ words.now.table_id }
    requires sound { IsSound words.now.table_id.words actor.old.me.0 }
    requires task { IsTask actor.old.me.0 task.now }
    requires at { IsThere actor.old.me.0 path.now link (IsAtTomb actor.old.me.0 task.now.access single) }
    ensures table { actor.new.table_id ≡ actor.old.table_id }
    ensures sound { IsSound words.now.table_id.words actor.new.me.0 }
    ensures found { HasFound actor.old.me.0 path.now result actor.new.me.0 }
{
    match task.access {
        Access::Writable => Found::Cleans,
        Access::ReadOnly => match meet_single(words, actor, task.key, single) {
            Met::Found(value) => Found::Answers(Reply::Found(Some(value))),
            Met::Other => Found::Answers(Reply::Found(None)),
        },
    }
}

/// At the single in this slot, the entry at this position of a branch.
#[inline(always)]
pub fn at_single(
    words: &Words,
    actor: &mut Actor,
    task: &Task,
    path: &[u32],
    given: Given,
    position: usize,
    single: u32,
) -> Found
    requires table { actor.old.table_id ≡ words.now.table_id }
    requires sound { IsSound words.now.table_id.words actor.old.me.0 }
    requires task { IsTask actor.old.me.0 task.now }
    requires at { IsHere actor.old.me.0 path.now given (IsAtOne actor.old.me.0 position single) }
    ensures table { actor.new.table_id ≡ actor.old.table_id }
    ensures sound { IsSound words.now.table_id.words actor.new.me.0 }
    ensures found { HasFound actor.old.me.0 path.now result actor.new.me.0 }
{
    match meet_single(words, actor, task.key, single) {
        Met::Found(value) => at_key(words, actor, task.call, path, given, position, value),
        Met::Other => absent(task.call, Site::Beside { position }, given),
    }
}
