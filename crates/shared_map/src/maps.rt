//! The map in shards behind its gate, which threads share.

ghost use Rattle.std.specs.Prelude.{◌≡◌, ◌<◌, ◌≤◌, ◌*◌, ◌∷◌, [], length, IfErr, IfOk, OnOk};
ghost use Rattle.ctrie_map.specs.Maps.{AreSlots, RefusesSizes};
ghost use Rattle.shared_map.specs.Opening.{AreNewMaps, AreShardNumbers, IsNewShared, RefusesNew, Shares, SharesAll};
ghost use Rattle.shared_map.specs.Seats.{AreSeatsOf};
ghost use Rattle.shared_map.specs.Shards.{AreShards, slots_of_all};

use crate::asks::{Request, Told};
use ctrie_base::HashKind;
use ctrie_map::{Map, MapError};
use sharded_gate::{ShardedGate, ShardedSeat};
use std::alloc::Global;
use std::marker::Model;

/// A seat at a shared map, with a number of its own. Who has it makes its calls, one after another.
pub type MapSeat = ShardedSeat<Map, Request, Told>;

/// A map that the seats share, in one shard or several. A call on one key holds the key's shard alone, a scan the shard that it
/// is of, any other call all of them; all calls make one log.
#[derive(Drop)]
pub struct SharedMap {
    pub(crate) gate: ShardedGate<Map, Request, Told>,
    pub(crate) hash: HashKind,
    pub(crate) slots: u64,
    pub(crate) shards: usize,
}

impl Model for SharedMap {
    ghost use Rattle.std.specs.Prelude.{◌≡◌, length};
    ghost use Rattle.shared_map.specs.Seats.{MapRoom};
    ghost use Rattle.shared_map.specs.Shards.{AreShards, slots_of_all};

    ghost Value = { MapRoom };

    ghost view = { λ m. record { hash = m.hash; room = m.gate } };

    ghost invariant = { λ m. AreShards m.hash m.gate.first × (m.slots ≡ slots_of_all m.gate.first) × (m.shards ≡ length m.gate.first) };
}

impl SharedMap {
    /// A new map in this many shards, from 1 to 64, each with this many slots as `Map::new` takes, and this many seats, with the
    /// numbers 1 and on. `BadSizes` exactly where the number of slots or of shards is out of range; else `Memory` where memory
    /// is wanting. Nothing is kept then.
    #[tactic(auto, using(crate::proofs::New::new_are))]
    pub fn new(
        alloc: Global,
        slots: u32,
        hash: HashKind,
        seats: u8,
        shards: u8,
    ) -> Result<(SharedMap, Vec<MapSeat>), MapError>
        ensures made { IfOk result (λ made. IsNewShared slots hash shards seats made.0 made.1.items) }
        ensures seats { IfOk result (λ made. AreSeatsOf made.0 made.1.items) }
        ensures in_range { OnOk result (AreSlots slots × AreShardNumbers shards) }
        ensures refused { IfErr result (RefusesNew slots shards) }
    {
        if shards == 0 || shards > 64 {
            return Err(MapError::BadSizes);
        }
        let maps = new_maps(alloc, slots, hash, shards)?;
        match ShardedGate::new(alloc, maps, seats) {
            Ok((gate, seats)) => {
                let made = SharedMap {
                    gate,
                    hash,
                    slots: slots_in_all(slots, shards),
                    shards: usize::from(shards),
                };
                Ok((made, seats))
            }
            Err(_) => Err(MapError::Memory),
        }
    }

    /// This map behind a gate, in one shard, and this many seats, with the numbers 1 and on. Where memory is wanting it comes
    /// back.
    pub fn of(alloc: Global, map: Map, seats: u8) -> Result<(SharedMap, Vec<MapSeat>), Map>
        ensures made { IfOk result (λ made. Shares map seats made.0 made.1.items) }
        ensures seats { IfOk result (λ made. AreSeatsOf made.0 made.1.items) }
        ensures back { IfErr result (λ back. back ≡ map) }
    {
        let hash = map.hash();
        let shards = alone(alloc, map)?;
        match SharedMap::of_shards(alloc, hash, shards, seats) {
            Ok(made) => Ok(made),
            Err(mut shards) => match shards.pop() {
                Some(map) => Err(map),
                None => unreachable!(),
            },
        }
    }

    /// The shards of one map with this hash behind a gate, as they came out of `finish`, and this many seats, with the numbers 1
    /// and on. Where memory is wanting they come back.
    pub fn of_shards(
        alloc: Global,
        hash: HashKind,
        shards: Vec<Map>,
        seats: u8,
    ) -> Result<(SharedMap, Vec<MapSeat>), Vec<Map>>
        requires { AreShards hash shards.items }
        ensures made { IfOk result (λ made. SharesAll hash shards.items seats made.0 made.1.items) }
        ensures seats { IfOk result (λ made. AreSeatsOf made.0 made.1.items) }
        ensures back { IfErr result (λ back. back.items ≡ shards.items) }
    {
        let slots = slots_of(shards.as_slice());
        let count = shards.len();
        match ShardedGate::new(alloc, shards, seats) {
            Ok((gate, seats)) => {
                let made = SharedMap {
                    gate,
                    hash,
                    slots,
                    shards: count,
                };
                Ok((made, seats))
            }
            Err(shards) => Err(shards),
        }
    }

    /// How many slots there are in all shards.
    pub fn slots(&self) -> u64
        ensures { result ≡ slots_of_all self.now.room.first }
    {
        self.slots
    }

    /// How many shards there are, from 1 to 64.
    pub fn shards(&self) -> usize
        ensures { result ≡ length self.now.room.first }
    {
        self.shards
    }
}

/// This map alone. Where memory is wanting it comes back.
fn alone(alloc: Global, map: Map) -> Result<Vec<Map>, Map>
    ensures alone { IfOk result (λ maps. maps.items ≡ map ∷ []) }
    ensures back { IfErr result (λ back. back ≡ map) }
{
    let Ok(mut maps) = Vec::with_capacity(alloc, 1) else {
        return Err(map);
    };
    let _ = maps.push(map);
    Ok(maps)
}

/// How many slots these shards have.
fn slots_of(shards: &[Map]) -> u64
    requires { length shards.now ≤ 64 }
    ensures { result ≡ slots_of_all shards.now }
{
    let mut slots = 0u64;
    for map in shards {
        let more = u64::from(map.slots());
        slots = slots.saturating_add(more);
    }
    slots
}

/// How many slots this many shards have.
#[tactic(auto, using(crate::proofs::Slots::few_slots))]
fn slots_in_all(slots: u32, shards: u8) -> u64
    ensures { result ≡ slots * shards }
{
    u64::from(slots) * u64::from(shards)
}

/// This many new maps.
#[tactic(auto, using(crate::proofs::New::one_more_new))]
fn new_maps(alloc: Global, slots: u32, hash: HashKind, shards: u8) -> Result<Vec<Map>, MapError>
    requires { 0 < shards }
    ensures made { IfOk result (λ maps. AreNewMaps slots hash shards maps.items) }
    ensures in_range { OnOk result (AreSlots slots) }
    ensures refused { IfErr result (RefusesSizes slots) }
{
    let mut maps = Vec::new(alloc);
    for made in 0..shards {
        let _ = made;
        let map = Map::new(alloc, slots, hash)?;
        let Ok(()) = maps.push(map) else {
            return Err(MapError::Memory);
        };
    }
    Ok(maps)
}
