//! The gate's rule, with a slot for each shard.
ghost use Rattle.gate.specs.Logs.{fresh};
ghost use Rattle.gate.specs.Rules.{first_view};
ghost use Rattle.gate.specs.Views.{has_released};
ghost use Rattle.sharded_gate.specs.Rules.{IsShared, has_given, has_seen, has_taken};

use crate::boards::Shard;
use crate::sharded::Sharded;
use atomic_table::{Play, TableRule};
use gate::{Mark, View};
use std::collections::LinkedList;

/// How many words a shard has, of which the first one tells who has it. The others keep the words of two shards in lines of
/// the cache of their own, which processors fetch by twos, as the slots keep what is in them (`Shard`): so calls about different
/// shards write into no line together.
pub(crate) const SPACING: usize = 16;

/// What the table is told when it is made.
#[derive(Drop)]
pub struct ShardTerms<O> {
    /// The shards before all calls.
    pub first: Mark<LinkedList<O>>,
    /// How many seats there are, with the numbers 1 to this.
    pub seats: u8,
}

/// What a seat knows.
pub(crate) type Knows<O, C, A> = View<Shard<O, C, A>, LinkedList<O>, C, A>;

/// The seat at the table that the gate is.
pub(crate) type Pass<O, C, A> = atomic_table::Seat<Shard<O, C, A>, Knows<O, C, A>>;

/// The table as threads see it.
pub(crate) type Shared<O, C, A> = atomic_table::Shared<
    Shard<O, C, A>,
    Knows<O, C, A>,
    ShardTerms<O>,
    ShardRule,
>;

pub struct ShardRule;

impl<O: Sharded<C, A>, C, A> TableRule<Shard<O, C, A>, Knows<O, C, A>, ShardTerms<O>>
    for ShardRule {
    ghost holds = { λ terms s. IsShared O.answers O.about terms.first terms.seats s };

    ghost first = { λ terms. first_view (fresh terms.first) terms.seats };
}

/// The word becomes the seat's number where it was 0, and the seat takes the shard.
pub struct Take;

impl<O, C, A> Play<Shard<O, C, A>, Knows<O, C, A>> for Take {
    ghost then = { has_taken };
}

/// The word becomes 0, and the shard is given back, by which the seat's call is made.
pub struct Give;

impl<O: Sharded<C, A>, C, A> Play<Shard<O, C, A>, Knows<O, C, A>> for Give {
    ghost then = { has_given O.answers O.about };
}

/// The word becomes 0, and the shard is given back, in which nothing is new. The seat sees the whole.
pub struct Look;

impl<O: Sharded<C, A>, C, A> Play<Shard<O, C, A>, Knows<O, C, A>> for Look {
    ghost then = { has_seen O.answers O.about };
}

/// The same, and the seat sees nothing.
pub struct Release;

impl<O, C, A> Play<Shard<O, C, A>, Knows<O, C, A>> for Release {
    ghost then = { has_released };
}
