//! A get whose seat glances: it is answered with loads alone, where nothing stands in the way and its glance doesn't fall.

ghost use Rattle.std.specs.Prelude.{◌≡◌, ◌<◌, IfSome, None};
ghost use Rattle.history.specs.declared.replies.Reply.TheVariants as reply;
ghost use Rattle.machine_model.specs.declared.lines.Line.TheVariants as line;
ghost use Rattle.history.specs.declared.calls.Call.TheVariants.{Get};
ghost use Rattle.machine_model.specs.Lines.{new_try};
ghost use Rattle.lock_free.specs.GlanceGets.{GlancesOn, HasGlancedAtKey, IsGetGlance, KeepsStock, WhileItCounts};
ghost use Rattle.lock_free.specs.Holding.{IsOn};
ghost use Rattle.lock_free.specs.Loading.{IsSound};
ghost use Rattle.lock_free.specs.Places.{words_of};
ghost use Rattle.lock_free.specs.Seeking.{IsCalled};
ghost use Rattle.lock_free.specs.WholeCalls.{HasLeft, RestsWith};

use crate::descending::Path;
use crate::glance_roots::{begin_get, seek_root};
use crate::glance_ways::{go_down, value_there};
use crate::glancing::{end, stop};
use crate::loads::{Actor, Words};
use crate::reading::Way;
use crate::sizes::Sizes;
use crate::tasks::Task;
use history::{Access, Call};

/// The value of this key, if its way is open on a handle that allows this: its root is named by the handle's word, and each main node on
/// the way is decided, and is no list and no tomb. None of a get that hasn't begun.
#[inline(always)]
fn look(
    words: &Words,
    actor: &mut Actor,
    sizes: &Sizes,
    handle: u16,
    key: u64,
    allowed: Option<Access>,
) -> Option<Option<u64>>
    requires table { actor.old.table_id ≡ words.now.table_id }
    requires glances { IsGetGlance words.now.table_id.words actor.old.me.0 }
    requires sizes { words_of sizes.now ≡ words.now.table_id.words }
    requires hash { WhileItCounts (λ v. v.sizes ≡ sizes.now) actor.old.me.0 }
    requires low { handle < 256 }
    requires at { IfSome allowed (λ access. WhileItCounts (λ v. IsOn v new_try × IsCalled v (Get handle key) access) actor.old.me.0) }
    ensures table { actor.new.table_id ≡ actor.old.table_id }
    ensures found { GlancesOn words.now.table_id.words (λ v w. IfSome result (λ value. IsOn w (line.End (reply.Found value)))) actor.old.me.0 actor.new.me.0 }
{
    let Some(access) = allowed else {
        return None;
    };
    let among = sizes.words() as usize;
    let Some(rooted) = seek_root(words, actor, among, Way { handle, access }) else {
        return None;
    };
    let task = Task::new(
        Call::Get { handle, key },
        access,
        sizes.hash,
        rooted.generation,
    );
    let mut path = Path::new();
    path.push(rooted.slot);
    let Some(reached) = go_down(words, actor, among, &task, &mut path) else {
        return None;
    };
    value_there(words, actor, among, &task, path.as_slice(), reached)
}

/// The value of this key, by a glance: it takes no locked step. None where something stands in the way, or the glance has fallen: then
/// nothing was answered, or that the call was refused.
#[inline(always)]
pub fn glance(
    words: &Words,
    actor: &mut Actor,
    sizes: &Sizes,
    handle: u16,
    key: u64,
) -> Option<Option<u64>>
    requires table { actor.old.table_id ≡ words.now.table_id }
    requires sound { IsSound words.now.table_id.words actor.old.me.0 }
    requires sizes { sizes.now ≡ actor.old.me.0.sizes }
    requires rests { RestsWith actor.old.me.0 None }
    requires low { handle < 256 }
    ensures table { actor.new.table_id ≡ actor.old.table_id }
    ensures sound { IsSound words.now.table_id.words actor.new.me.0 }
    ensures left { HasLeft actor.old.me.0 actor.new.me.0 }
    ensures stock { KeepsStock actor.old.me.0 actor.new.me.0 }
    ensures told { HasGlancedAtKey words.now.table_id.words actor.old.me.0 (Get handle key) result actor.new.me.0 }
{
    let Some(glancing) = begin_get(words, actor, handle, key) else {
        return None;
    };
    let Some(value) = look(words, actor, sizes, handle, key, glancing.access) else {
        stop(words, actor);
        return None;
    };
    if end(words, actor, glancing.count) {
        Some(value)
    } else {
        None
    }
}
