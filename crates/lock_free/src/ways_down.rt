//! KEY within a number of tries.

ghost use Rattle.std.specs.Prelude.{◌≡◌};
ghost use Rattle.lock_free.specs.Descending.{HasFound, IsOnPath, IsTask};
ghost use Rattle.lock_free.specs.Leaving.{OrSpent};
ghost use Rattle.lock_free.specs.LinkReads.{IsThere};
ghost use Rattle.lock_free.specs.Loading.{HasSeenMain, HoldsSlot, IsSound};
ghost use Rattle.lock_free.specs.Reaching.{IsAtPlace};

use crate::descending::{Found, Path, Update, at_single, at_tomb, search_list};
use crate::loads::{Actor, Words, see_main};
use crate::reaching::{Place, Reached, go_down_within};
use crate::reading::Given;
use crate::tasks::{Task, absent_reply, inserts};
use machine_model::Site;
use trie_words::Link;

/// What the READ of this link gave: the header of the main node is seen once more.
#[inline(always)]
pub fn see_given(words: &Words, actor: &mut Actor, link: Link) -> Given
    requires table { actor.old.table_id ≡ words.now.table_id }
    requires sound { IsSound words.now.table_id.words actor.old.me.0 }
    requires held { HoldsSlot actor.old.me.0 link.main.slot }
    ensures table { actor.new.table_id ≡ actor.old.table_id }
    ensures sound { IsSound words.now.table_id.words actor.new.me.0 }
    ensures seen { HasSeenMain actor.old.me.0 link.main.slot result.header actor.new.me.0 }
    ensures link { result.link ≡ link }
{
    let header = see_main(words, actor, link.main.slot);
    Given { link, header }
}

/// What a call comes to where its way ends there.
pub fn find_there(
    words: &Words,
    actor: &mut Actor,
    task: &Task,
    path: &[u32],
    reached: Reached,
) -> Found
    requires table { actor.old.table_id ≡ words.now.table_id }
    requires sound { IsSound words.now.table_id.words actor.old.me.0 }
    requires task { IsTask actor.old.me.0 task.now }
    requires at { IsThere actor.old.me.0 path.now reached.link (IsAtPlace actor.old.me.0 task.now reached.place) }
    ensures table { actor.new.table_id ≡ actor.old.table_id }
    ensures sound { IsSound words.now.table_id.words actor.new.me.0 }
    ensures found { HasFound actor.old.me.0 path.now result actor.new.me.0 }
{
    let link = reached.link;
    match reached.place {
        Place::Single { position, slot } => {
            let given = see_given(words, actor, link);
            at_single(words, actor, task, path, given, position, slot)
        }
        Place::Absent => {
            if !inserts(task.call) {
                return Found::Answers(absent_reply(task.call));
            }
            let given = see_given(words, actor, link);
            let (site, former) = (Site::Absent, None);
            let update = Update::Builds { site, former };
            Found::Changes { update, given }
        }
        Place::List => {
            let given = see_given(words, actor, link);
            search_list(words, actor, task, path, given)
        }
        Place::Tomb(single) => at_tomb(words, actor, task, path, link, single),
        Place::Renews => Found::Renews(see_given(words, actor, link)),
    }
}

/// The way down to the key of this call, from the last indirection of the path. The path has each further indirection then to which the way
/// has come. None where it is out of tries: then the operation may give up.
pub fn descend_within(
    tries: u64,
    words: &Words,
    actor: &mut Actor,
    task: &Task,
    path: &mut Path,
) -> Option<Found>
    requires table { actor.old.table_id ≡ words.now.table_id }
    requires sound { IsSound words.now.table_id.words actor.old.me.0 }
    requires task { IsTask actor.old.me.0 task.now }
    requires at { IsOnPath actor.old.me.0 path.old.items }
    ensures table { actor.new.table_id ≡ actor.old.table_id }
    ensures sound { IsSound words.now.table_id.words actor.new.me.0 }
    ensures found { OrSpent (λ found. HasFound actor.old.me.0 path.new.items found actor.new.me.0) result actor.old.me.0 actor.new.me.0 }
{
    let Some(reached) = go_down_within(tries, words, actor, task, path) else {
        return None;
    };
    Some(find_there(words, actor, task, path.as_slice(), reached))
}
