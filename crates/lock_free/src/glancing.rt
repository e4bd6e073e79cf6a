//! A seat glances: it reads without a word that says so, and looks at last whether what it has read counts.

ghost use Rattle.std.specs.Prelude.{◌≡◌, ◌<◌, false, None, Some};
ghost use Rattle.machine_model.specs.Calls.{handle_of};
ghost use Rattle.lock_free.specs.declared.rules.Glance.{Glance};
ghost use Rattle.lock_free.specs.GlanceGets.{GlancesOn, IsGetGlance, IsLooking, WhileItCounts};
ghost use Rattle.lock_free.specs.Glancing.{HasBegunGlance, HasEndedGlance, IsGlancing, MayBegin};
ghost use Rattle.lock_free.specs.Loading.{HasGone, HasSeen, IsSound};
ghost use Rattle.lock_free.specs.Places.{glance_word};
ghost use Rattle.lock_free.specs.SeatWords.{IsAtEnd, IsIdle};
ghost use Rattle.lock_free.specs.Shadows.{inner, HasFallen};

use crate::glance_plays::{BeginsGlance, EndsGlance, Glances, Seeks, StopsGlance};
use crate::glances::GLANCE_WORD;
use crate::loads::{Actor, Words};
use crate::rules::{Goes, Sees};
use history::Call;
use std::marker::Brand;

/// Begins to glance for this call, which is the one that is picked.
fn begin_as<N: Seeks>(words: &Words, actor: &mut Actor, call: &Call) -> u64
    requires table { actor.old.table_id ≡ words.now.table_id }
    requires inside { glance_word < words.now.table_id.words }
    requires its { call.now ≡ N.call }
    requires begins { MayBegin words.now.key words.now.table_id.slots actor.old.id actor.old.me N.call }
    ensures table { actor.new.table_id ≡ actor.old.table_id }
    ensures begun { HasBegunGlance actor.old.me.0 N.call result actor.new.me.0 }
{
    words.load::<BeginsGlance<N>>(actor, GLANCE_WORD)
}

/// Begins to glance for a call. Returns how many glances were counted: where all that can be counted were, it doesn't glance.
pub fn begin(words: &Words, actor: &mut Actor, call: &Call) -> u64
    requires table { actor.old.table_id ≡ words.now.table_id }
    requires sound { IsSound words.now.table_id.words actor.old.me.0 }
    requires idle { IsIdle actor.old.me.0 }
    requires free { actor.old.me.0.pin ≡ None }
    requires low { handle_of call.now < 256 }
    ensures table { actor.new.table_id ≡ actor.old.table_id }
    ensures begun { HasBegunGlance actor.old.me.0 call.now result actor.new.me.0 }
{
    begin_as::<Brand>(words, actor, call)
}

/// Looks at a word, and takes no step.
#[inline(always)]
pub fn see(words: &Words, actor: &mut Actor, word: usize) -> u64
    requires table { actor.old.table_id ≡ words.now.table_id }
    requires glances { IsGetGlance words.now.table_id.words actor.old.me.0 }
    requires inside { word < words.now.table_id.words }
    ensures table { actor.new.table_id ≡ actor.old.table_id }
    ensures on { GlancesOn words.now.table_id.words (λ v w. HasSeen v word result w) actor.old.me.0 actor.new.me.0 }
{
    words.load::<Glances<Sees>>(actor, word)
}

/// Looks at a word, by the next step of its operation.
#[inline(always)]
pub fn go(words: &Words, actor: &mut Actor, word: usize) -> u64
    requires table { actor.old.table_id ≡ words.now.table_id }
    requires glances { IsGetGlance words.now.table_id.words actor.old.me.0 }
    requires inside { word < words.now.table_id.words }
    requires looks { WhileItCounts IsLooking actor.old.me.0 }
    ensures table { actor.new.table_id ≡ actor.old.table_id }
    ensures on { GlancesOn words.now.table_id.words (λ v w. HasGone v word result w) actor.old.me.0 actor.new.me.0 }
{
    words.load::<Glances<Goes>>(actor, word)
}

/// Ends the glance that began when so many were counted. Returns whether what it has seen counts: its operation has ended then. If not it was
/// ended for it.
pub fn end(words: &Words, actor: &mut Actor, count: u64) -> bool
    requires table { actor.old.table_id ≡ words.now.table_id }
    requires glances { IsGlancing words.now.table_id.words actor.old.me.0 }
    requires ends { (g : Glance) → actor.old.me.0.glance ≡ Some g → (g.read ≡ count) × (g.lost ≡ false → IsAtEnd (inner actor.old.me.0 g)) }
    ensures table { actor.new.table_id ≡ actor.old.table_id }
    ensures sound { IsSound words.now.table_id.words actor.new.me.0 }
    ensures ended { (g : Glance) → actor.old.me.0.glance ≡ Some g → HasEndedGlance actor.old.me.0 g result actor.new.me.0 }
{
    words.load::<EndsGlance>(actor, GLANCE_WORD) == count
}

/// Gives a glance up.
pub fn stop(words: &Words, actor: &mut Actor)
    requires table { actor.old.table_id ≡ words.now.table_id }
    requires glances { IsGlancing words.now.table_id.words actor.old.me.0 }
    ensures table { actor.new.table_id ≡ actor.old.table_id }
    ensures sound { IsSound words.now.table_id.words actor.new.me.0 }
    ensures stopped { (g : Glance) → actor.old.me.0.glance ≡ Some g → HasFallen (inner actor.old.me.0 g) actor.new.me.0 }
{
    words.load::<StopsGlance>(actor, GLANCE_WORD);
}
