//! The way of a get down to its key, as its seat glances: where nothing stands in the way.

ghost use Rattle.std.specs.Prelude.{◌≡◌, ◌<◌, ◌∷◌, [], IfSome, length};
ghost use Rattle.history.specs.declared.replies.Reply.TheVariants as reply;
ghost use Rattle.machine_model.specs.declared.lines.Line.TheVariants as line;
ghost use Rattle.lock_free.specs.Descending.{IsAtEntry, IsAtOne, IsOnPath, IsTask};
ghost use Rattle.lock_free.specs.GetRuns.{IsLookup};
ghost use Rattle.lock_free.specs.GlanceGets.{GlancesOn, IsGetGlance, WhileItCounts};
ghost use Rattle.lock_free.specs.Holding.{IsOn};
ghost use Rattle.lock_free.specs.LinkReads.{IsThere};
ghost use Rattle.lock_free.specs.Reaching.{HasGone, HasReached, IsAtPlace};

use crate::descending::Path;
use crate::finding::{Met, Turn};
use crate::glance_looks::{meet_link, meet_single, read_turn, see_entry};
use crate::loads::{Actor, Words};
use crate::reaching::{Level, Place, Reached};
use crate::tasks::Task;
use nodes::flag_of;
use trie_words::Link;

/// At the entry at this position of a branch.
#[inline(always)]
fn go_to_entry(
    words: &Words,
    actor: &mut Actor,
    among: usize,
    task: &Task,
    path: &[u32],
    link: Link,
    position: usize,
) -> Option<Level>
    requires table { actor.old.table_id ≡ words.now.table_id }
    requires glances { IsGetGlance words.now.table_id.words actor.old.me.0 }
    requires among { among ≡ words.now.table_id.words }
    requires few { position < 32 }
    requires at { WhileItCounts (λ v. IsTask v task.now × IsThere v path.now link (IsAtEntry v position)) actor.old.me.0 }
    ensures table { actor.new.table_id ≡ actor.old.table_id }
    ensures gone { GlancesOn words.now.table_id.words (λ v w. IfSome result (λ level. HasGone v task.now path.now level w)) actor.old.me.0 actor.new.me.0 }
{
    let Some(entry) = see_entry(words, actor, among, link.main.slot, position as u32) else {
        return None;
    };
    let slot = entry.slot;
    if entry.is_single {
        let place = Place::Single { position, slot };
        return Some(Level::Here(Reached { link, place }));
    }
    let Some(below) = meet_link(words, actor, among, slot) else {
        return None;
    };
    if !task.passes(below.generation) {
        return None;
    }
    Some(Level::Below(slot))
}

/// The way through the last indirection of the path.
#[inline(always)]
fn go_through(
    words: &Words,
    actor: &mut Actor,
    among: usize,
    task: &Task,
    path: &[u32],
) -> Option<Level>
    requires table { actor.old.table_id ≡ words.now.table_id }
    requires glances { IsGetGlance words.now.table_id.words actor.old.me.0 }
    requires among { among ≡ words.now.table_id.words }
    requires some { 0 < length path.now }
    requires at { WhileItCounts (λ v. IsTask v task.now × IsOnPath v path.now) actor.old.me.0 }
    ensures table { actor.new.table_id ≡ actor.old.table_id }
    ensures gone { GlancesOn words.now.table_id.words (λ v w. IfSome result (λ level. HasGone v task.now path.now level w)) actor.old.me.0 actor.new.me.0 }
{
    let depth = path.len() - 1;
    let flag = flag_of(task.hash, depth);
    let Some((link, turn)) = read_turn(words, actor, among, path[depth], flag) else {
        return None;
    };
    match turn {
        Turn::Entry(position) => go_to_entry(words, actor, among, task, path, link, position),
        Turn::Absent => {
            let place = Place::Absent;
            Some(Level::Here(Reached { link, place }))
        }
        Turn::List | Turn::Tomb(_) => None,
    }
}

/// The way down to the key, from the last indirection of the path.
#[inline(always)]
pub fn go_down(
    words: &Words,
    actor: &mut Actor,
    among: usize,
    task: &Task,
    path: &mut Path,
) -> Option<Reached>
    requires table { actor.old.table_id ≡ words.now.table_id }
    requires glances { IsGetGlance words.now.table_id.words actor.old.me.0 }
    requires among { among ≡ words.now.table_id.words }
    requires some { 0 < length path.old.items }
    requires at { WhileItCounts (λ v. IsTask v task.now × IsOnPath v path.old.items) actor.old.me.0 }
    ensures table { actor.new.table_id ≡ actor.old.table_id }
    ensures reached { GlancesOn words.now.table_id.words (λ v w. IfSome result (λ reached. HasReached v task.now path.new.items reached w)) actor.old.me.0 actor.new.me.0 }
{
    for _ in 0..14 {
        let Some(level) = go_through(words, actor, among, task, path.as_slice()) else {
            return None;
        };
        match level {
            Level::Below(slot) => {
                if path.is_full() {
                    return None;
                }
                path.push(slot);
            }
            Level::Here(reached) => return Some(reached),
        }
    }
    None
}

/// The value of the key at the single in this slot, the entry at this position of a branch.
#[inline(always)]
fn value_at(
    words: &Words,
    actor: &mut Actor,
    among: usize,
    task: &Task,
    path: &[u32],
    link: Link,
    position: usize,
    single: u32,
) -> Option<Option<u64>>
    requires table { actor.old.table_id ≡ words.now.table_id }
    requires glances { IsGetGlance words.now.table_id.words actor.old.me.0 }
    requires among { among ≡ words.now.table_id.words }
    requires at { WhileItCounts (λ v. IsLookup v task.now × IsThere v path.now link (IsAtOne v position single)) actor.old.me.0 }
    ensures table { actor.new.table_id ≡ actor.old.table_id }
    ensures found { GlancesOn words.now.table_id.words (λ v w. IfSome result (λ value. IsOn w (line.End (reply.Found value)))) actor.old.me.0 actor.new.me.0 }
{
    match meet_single(words, actor, among, task.key, single) {
        Some(Met::Found(value)) => Some(Some(value)),
        Some(Met::Other) => Some(None),
        None => None,
    }
}

/// The value of the key, where its way has ended there.
#[inline(always)]
pub fn value_there(
    words: &Words,
    actor: &mut Actor,
    among: usize,
    task: &Task,
    path: &[u32],
    reached: Reached,
) -> Option<Option<u64>>
    requires table { actor.old.table_id ≡ words.now.table_id }
    requires glances { IsGetGlance words.now.table_id.words actor.old.me.0 }
    requires among { among ≡ words.now.table_id.words }
    requires at { WhileItCounts (λ v. IsLookup v task.now × IsThere v path.now reached.link (IsAtPlace v task.now reached.place)) actor.old.me.0 }
    ensures table { actor.new.table_id ≡ actor.old.table_id }
    ensures found { GlancesOn words.now.table_id.words (λ v w. IfSome result (λ value. IsOn w (line.End (reply.Found value)))) actor.old.me.0 actor.new.me.0 }
{
    match reached.place {
        Place::Single { position, slot } => {
            let link = reached.link;
            value_at(words, actor, among, task, path, link, position, slot)
        }
        Place::Absent => Some(None),
        Place::List | Place::Tomb(_) | Place::Renews => None,
    }
}
