//! The end of a map: one history has all that its seats were told.

ghost use Rattle.std.specs.Prelude.{◌≡◌, [], All, map};
ghost use Rattle.atomic_table.specs.Table.{Joins};
ghost use Rattle.lock_free.specs.Finishing.{hearing, HasHeard, HasHeardMore, IsTold};
ghost use Rattle.lock_free.specs.Loading.{IsSound};
ghost use Rattle.lock_free.specs.Shadows.{IsShadowed};
ghost use Rattle.lock_free.specs.Seated.{IsResting};

use crate::loads::{Actor, Words};
use crate::opening::Board;
use crate::rules::{Empties, Hears, Picks};
use crate::seating::Seat;
use proof_linearizable::every_order_is_legal;
use std::marker::Brand;

/// A seat hears of another one, which is given up.
fn hear_as<N: Picks>(words: &Words, actor: &mut Actor, other: Actor)
    requires table { (actor.old.table_id ≡ words.now.table_id) × (other.table_id ≡ words.now.table_id) }
    requires sound { IsSound words.now.table_id.words actor.old.me.0 }
    requires bare { other.me.1 ≡ [] }
    requires joins { Joins (IsShadowed words.now.key) actor.old.id actor.old.me.0 other.id other.me.0 (hearing actor.old.me.0 other.me.0) N.spent }
    ensures table { actor.new.table_id ≡ actor.old.table_id }
    ensures heard { actor.new.me.0 ≡ hearing actor.old.me.0 other.me.0 }
{
    words.join_seat::<Hears<N>>(actor, other);
}

/// A seat hears of another one, which is given up after all that it has seen. It rests.
pub(crate) fn hear(words: &Words, actor: &mut Actor, mut other: Actor)
    requires table { (actor.old.table_id ≡ words.now.table_id) × (other.table_id ≡ words.now.table_id) }
    requires sound { IsSound words.now.table_id.words actor.old.me.0 × IsSound words.now.table_id.words other.me.0 }
    requires rests { IsResting other.me.0 }
    ensures table { actor.new.table_id ≡ actor.old.table_id }
    ensures more { HasHeardMore actor.old.me.0 actor.new.me.0 }
    ensures heard { HasHeard actor.new.me.0 other.me.0 }
{
    words.load::<Empties>(&mut other, 0);
    hear_as::<Brand>(words, actor, other);
}

/// A seat hears of all these others, which are given up.
fn gather(words: &Words, actor: &mut Actor, others: Vec<Seat>)
    requires table { (actor.old.table_id ≡ words.now.table_id) × All (λ other. other.table ≡ words.now.table_id) others.items }
    requires sound { IsSound words.now.table_id.words actor.old.me.0 }
    ensures table { actor.new.table_id ≡ actor.old.table_id }
    ensures more { HasHeardMore actor.old.me.0 actor.new.me.0 }
    ensures all { All (λ other. HasHeard actor.new.me.0 other.view) others.items }
{
    for other in others {
        hear(words, actor, other.into_actor());
    }
}

/// Ends a map, of which these are seats. One history has all that each of them was told, in the order in which it was told it, and
/// nothing more of its actors; and there is an order of all calls that explains it, in which a call that was answered before another one
/// began comes first. The words are freed.
pub fn finish_map(board: Board, seats: Vec<Seat>)
    requires slots { board.shared.table_id.slots ≡ 0 }
    requires seats { All (λ seat. (seat.table ≡ board.shared.table_id) × (seat.view.sizes ≡ board.shared.key)) seats.items }
    ensures { IsTold board.shared.key (map (λ seat. seat.view) seats.items) }
{
    every_order_is_legal();
    let mut others = seats;
    let Some(last) = others.pop() else {
        board.close().free();
        return;
    };
    let mut last = last.into_actor();
    gather(&board.shared, &mut last, others);
    board.close_with(last).free();
}
