//! Laws of the logs of shared maps.

ghost use Rattle.shared_map.specs.Laws.{CallsReplay, NewShardsAreEmpty, OneShardIsAMap, ShardsMakeTheMap};
ghost use Rattle.shared_map.specs.PartsLaws.{ExportsAreOfTheFreeze, FreezesCopyTheMap, FrozenHandlesStay};
ghost use Rattle.shared_map.specs.PartsLaws.{PartsListOneMoment, PartsListTheMap};
ghost use Rattle.shared_map.specs.PartsLaws.{ScansJoin, ScansListAShard, ScansListOneMoment, ShardsListTheMap};

/// A law: a legal log of a shared map replays on finite maps.
#[tactic(auto, using(crate::proofs::Replays::calls_replay))]
pub fn calls_replay()
    ensures { CallsReplay }
{}

/// A law: new shards are, as one map, a new one.
pub fn new_shards_are_empty()
    ensures { NewShardsAreEmpty }
{}

/// A law: of shards of one map a handle is open in the whole as in each, and a key has in the whole what the shard of its place has.
pub fn shards_make_the_map()
    ensures { ShardsMakeTheMap }
{}

/// A law: a map in one shard is the map in it, and is called as this one.
#[tactic(auto, using(crate::proofs::OneMap::one_shard_is_a_map))]
pub fn one_shard_is_a_map()
    ensures { OneShardIsAMap }
{}

/// A law: a freeze leaves the copy frozen, with the map that the handle has.
pub fn freezes_copy_the_map()
    ensures { FreezesCopyTheMap }
{}

/// A law: a frozen handle stays frozen, with its map, as long as no call closes it.
pub fn frozen_handles_stay()
    ensures { FrozenHandlesStay }
{}

/// A law: a scan of a shard, and one after its last key, are one scan.
pub fn scans_join()
    ensures { ScansJoin }
{}

/// A law: scans of a shard to its end list each of its entries once.
pub fn scans_list_a_shard()
    ensures { ScansListAShard }
{}

/// A law: where each shard's entries are listed once, all entries of the map are.
pub fn shards_list_the_map()
    ensures { ShardsListTheMap }
{}

/// A law: parts of the entries to their end are the entries.
pub fn parts_list_the_map()
    ensures { PartsListTheMap }
{}

/// A law: scans of a frozen handle, of all shards to their ends, list its entries, each once, whatever is called between them.
pub fn scans_list_one_moment()
    ensures { ScansListOneMoment }
{}

/// A law: parts of a frozen handle's entries to their end are its entries, whatever is called between them.
pub fn parts_list_one_moment()
    ensures { PartsListOneMoment }
{}

/// A law: scans and parts of a copy that a freeze opened list the map that the handle had where the log came to the freeze.
pub fn exports_are_of_the_freeze()
    ensures { ExportsAreOfTheFreeze }
{}
