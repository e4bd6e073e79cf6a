//! The map of `ctrie_map` in shards, shared by threads: what one shard answers to a call on a key or to a scan, and all shards
//! to any other call; and the calls of a seat.
#![tactic(auto)]

mod answering;
mod asking;
mod asks;
mod calling;
mod finishing;
mod laws;
mod listing;
mod maps;
mod naming;
mod parts;
mod picking;
mod reading;
mod restoring;
mod seats;
pub mod telling;
mod turning;
mod visits;
mod wholes;

pub use asks::{Answer, Ask, Request, Told};
pub use calling::MapCalls;
pub use ctrie_map::{Difference, Handle, HashKind, Map, MapError, slots_for};
pub use finishing::only_shard;
pub use history::{Call, Pairs, Reply};
pub use laws::{
    calls_replay, exports_are_of_the_freeze, freezes_copy_the_map, frozen_handles_stay,
    new_shards_are_empty, one_shard_is_a_map, parts_list_one_moment, parts_list_the_map,
    scans_join, scans_list_a_shard, scans_list_one_moment, shards_list_the_map,
    shards_make_the_map,
};
pub use maps::{MapSeat, SharedMap};
pub use naming::{MapName, NamedMap, NamedMapSeat};
pub use sharded_gate::{HoldsShardedSeat, ShardCount};
