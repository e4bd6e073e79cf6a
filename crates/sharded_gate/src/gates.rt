//! The object behind its gate, and the gate's seats.
ghost use Rattle.std.specs.Prelude.{◌≡◌, ◌≤◌, [], length, vec_capacity};
ghost use Rattle.gate.specs.Logs.{saturated};
ghost use Rattle.sharded_gate.specs.Shards.{calls_about};

use crate::boards::Shard;
use crate::rules::{Knows, ShardRule, ShardTerms};
use crate::sharded::Sharded;
use atomic_table::{Badge, Table};
use std::alloc::Global;
use std::marker::Model;

/// An object in shards that the seats of a gate share. A call about one shard holds this one, others may be called
/// meanwhile; a call about all holds all. All calls make one log.
#[derive(Drop)]
pub struct ShardedGate<O: Sharded<C, A>, C, A> {
    pub(crate) table: Table<Shard<O, C, A>, Knows<O, C, A>, ShardTerms<O>, ShardRule, Global>,
    pub(crate) terms: ShardTerms<O>,
    pub(crate) shards: usize,
    /// Room for the shards, when they come out.
    pub(crate) spare: Vec<O>,
}

impl<O: Sharded<C, A>, C, A> Model for ShardedGate<O, C, A> {
    ghost use Rattle.std.specs.Prelude.{List};
    ghost use Rattle.gate.specs.Seats.{Room};
    ghost use Rattle.sharded_gate.specs.Opening.{IsSharded};

    ghost Value = { Room (List O) };

    ghost view = { λ g. record { id = g.table.shared.table_id; first = g.terms.first; seats = g.terms.seats } };

    ghost invariant = { λ g. IsSharded g.table.shared.table_id g.table.shared.key g.terms g.shards g.spare };
}

/// How many calls about a shard a seat knows of.
#[derive(Clone, Copy, Debug, PartialEq, Eq)]
pub struct ShardCount {
    /// The shard: 0, 1 and so on.
    pub shard: usize,
    /// The number of the last call about it, counted from 1; 0 where there is none. From 2^64 - 1 on it stays the same.
    pub calls: u64,
}

/// A seat at a sharded gate, with a number of its own. Who has it makes its calls, one after another.
#[derive(Drop)]
pub struct ShardedSeat<O: Sharded<C, A>, C, A> {
    pub(crate) badge: Badge<Knows<O, C, A>>,
    pub(crate) number: u8,
    pub(crate) last: ShardCount,
}

impl<O: Sharded<C, A>, C, A> Model for ShardedSeat<O, C, A> {
    ghost use Rattle.sharded_gate.specs.Seats.{ShardSeated, IsShardSeated, seen_in};

    ghost Value = { ShardSeated O C A };

    ghost view = { λ s. record { seat = record { gate = s.badge.table_id; number = s.number; seen = seen_in s.badge.views }; shard = s.last.shard } };

    ghost invariant = { λ s. IsShardSeated (O.about s.badge.table_id.slots) s.badge.views s.number s.last.shard s.last.calls };
}

impl<O: Sharded<C, A>, C, A> ShardedSeat<O, C, A> {
    /// The seat's number: 1, 2 and so on.
    pub fn number(&self) -> u8
        ensures number { result ≡ self.now.seat.number }
        ensures low { 1 ≤ result }
    {
        self.number
    }

    /// A shard, and how many calls about it the seat knows of. After a call of its own it is one that the call was about,
    /// and the number is that of this call; after `hear` it is the shard that it asked for, or any where that one isn't
    /// there; and at first no call of the first shard.
    pub fn last(&self) -> ShardCount
        ensures shard { result.shard ≡ self.now.shard }
        ensures calls { result.calls ≡ saturated (length (calls_about (O.about self.now.seat.gate.slots) self.now.shard self.now.seat.seen.log)) }
    {
        self.last
    }
}
