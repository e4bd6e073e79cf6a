//! An object in shards that threads share: a call about one shard holds this one alone, and a call about all holds all;
//! a log that clauses alone see tells of all calls in their order.
#![tactic(auto)]

mod boards;
mod calling;
mod finishing;
mod gates;
mod hands;
mod holding;
mod laws;
mod opening;
mod rules;
mod sharded;

pub use finishing::HoldsShardedSeat;
pub use gates::{ShardCount, ShardedGate, ShardedSeat};
pub use laws::{
    a_call_is_one_entry, calls_keep_a_log_legal, logs_go_on, others_leave_own_calls,
    seats_make_the_log, told_calls_of_a_shard_stand_before,
};
pub use sharded::{Sharded, Shards, Visit};
