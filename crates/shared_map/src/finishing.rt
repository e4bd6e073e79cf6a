//! The end of a shared map: the shards come out.

ghost use Rattle.std.specs.Prelude.{◌≡◌, ◌≢◌, ◌∷◌, [], IfErr, IfOk, length};
ghost use Rattle.gate.specs.Finishing.{AreHere, AreOf, IsMissing};
ghost use Rattle.shared_map.specs.Finishing.{AreInOneOrder};

use crate::asks::{Request, Told};
use crate::maps::SharedMap;
use ctrie_map::Map;
use sharded_gate::HoldsShardedSeat;

impl SharedMap {
    /// The shards, as all calls of the seats left them; or all that was handed in, exactly where a seat isn't there.
    #[tactic(auto, using(crate::proofs::Replays::in_one_order))]
    pub fn finish<S: HoldsShardedSeat<Map, Request, Told> + Drop>(
        self,
        seats: Vec<S>,
    ) -> Result<Vec<Map>, (SharedMap, Vec<S>)>
        requires { AreOf S.seat self.room seats.items }
        ensures order { IfOk result (λ maps. AreInOneOrder S.seat self seats.items maps.items) }
        ensures here { IfOk result (λ maps. AreHere S.seat self.room.seats seats.items) }
        ensures back { IfErr result (λ back. IsMissing S.seat self.room.seats seats.items × (back.0 ≡ self) × (back.1.items ≡ seats.items)) }
    {
        let SharedMap {
            gate,
            hash,
            slots,
            shards,
        } = self;
        match gate.finish(seats) {
            Ok(maps) => Ok(maps),
            Err((gate, seats)) => Err((
                SharedMap {
                    gate,
                    hash,
                    slots,
                    shards,
                },
                seats,
            )),
        }
    }
}

/// The plain map that was shared, where it was in one shard; else the shards come back.
pub fn only_shard(mut shards: Vec<Map>) -> Result<Map, Vec<Map>>
    ensures only { IfOk result (λ map. shards.items ≡ map ∷ []) }
    ensures back { IfErr result (λ back. (back.items ≡ shards.items) × (length shards.items ≢ 1)) }
{
    if shards.len() != 1 {
        return Err(shards);
    }
    match shards.pop() {
        Some(map) => Ok(map),
        None => unreachable!(),
    }
}
