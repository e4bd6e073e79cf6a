//! A seat takes in others, until it is alone.

ghost use Rattle.std.specs.Prelude.{◌≡◌, ℕ};
ghost use Rattle.lock_free.specs.Alone.{WasLeft};
ghost use Rattle.lock_free.specs.Joining.{HasJoined};
ghost use Rattle.lock_free.specs.Loading.{IsSound};
ghost use Rattle.lock_free.specs.Rules.{HasActor};
ghost use Rattle.lock_free.specs.Seated.{IsResting};

use crate::finishing::hear;
use crate::loads::{Actor, Words};
use crate::seating::Seat;
use crate::watching::Watches;

/// A seat hears of another one, which rests, and sees that this one is given up.
fn take_in(words: &Words, actor: &mut Actor, other: Actor)
    requires table { (actor.old.table_id ≡ words.now.table_id) × (other.table_id ≡ words.now.table_id) }
    requires sound { IsSound words.now.table_id.words actor.old.me.0 × IsSound words.now.table_id.words other.me.0 }
    requires sizes { other.me.0.sizes ≡ actor.old.me.0.sizes }
    requires rests { IsResting other.me.0 }
    ensures table { actor.new.table_id ≡ actor.old.table_id }
    ensures sound { IsSound words.now.table_id.words actor.new.me.0 }
    ensures joined { HasJoined actor.old.me.0 other.me.0 actor.new.me.0 }
{
    hear(words, actor, other);
    words.load::<Watches>(actor, 0);
}

impl Seat {
    ghost use Rattle.lock_free.specs.Seated.{HasGoneOn};

    /// Ends another seat of the map, whose calls have all returned. Once a seat has done so with all others it is alone.
    pub fn join(&mut self, words: &Words, other: Seat)
        requires table { (self.old.table ≡ words.now.table_id) × (other.table ≡ words.now.table_id) }
        requires sizes { other.view.sizes ≡ self.old.view.sizes }
        ensures seat { HasGoneOn self.old self.new }
        ensures left { (a : ℕ) → HasActor other.view a → WasLeft self.new.view a }
        ensures still { (a : ℕ) → WasLeft self.old.view a → WasLeft self.new.view a }
    {
        take_in(words, &mut self.actor, other.into_actor());
    }
}
