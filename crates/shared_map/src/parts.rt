//! Entries of all shards in parts.

ghost use Rattle.std.specs.Prelude.{◌≡◌, IfErr, IfOk};
ghost use Rattle.machine_model.specs.Pairs.{by_key};
ghost use Rattle.ctrie_map.specs.declared.errors.MapError.TheVariants.{Memory};
ghost use Rattle.shared_map.specs.Beneath.proof_core.specs.Reading.{next_of};
ghost use Rattle.shared_map.specs.declared.asks.Ask.TheVariants.{From};
ghost use Rattle.shared_map.specs.Shards.{worlds_of};
ghost use Rattle.shared_map.specs.Uniting.{pairs_at};
ghost use Rattle.shared_map.specs.Wholes.{AnswersIf};

use crate::asking::Knowing;
use crate::asks::{Answer, Told};
use crate::listing::{Listed, list_all};
use ctrie_map::{Map, MapError};
use history::Pairs;
use sharded_gate::Shards;

/// The next entries of the handle after this key, this many at most, if it is open.
pub(crate) fn part_of_all<S: Shards<Map>>(
    shards: &mut S,
    first: &Knowing,
    handle: u16,
    after: Option<u64>,
    room: usize,
) -> Told
    ensures answered { AnswersIf first.now (S.items shards.old) (From handle after room) result (S.items shards.new) }
    ensures rest { S.rest shards.new ≡ S.rest shards.old }
{
    match first.writable {
        Ok(_) => match part_all(shards, handle, after, room) {
            Ok(part) => Ok(Answer::Part(part)),
            Err(error) => Err(error),
        },
        Err(_) => Err(MapError::NoHandle),
    }
}

/// The same of an open handle: the least of what comes next in each shard.
fn part_all<S: Shards<Map>>(
    shards: &mut S,
    handle: u16,
    after: Option<u64>,
    room: usize,
) -> Result<Pairs, MapError>
    ensures part { IfOk result (λ part. part ≡ next_of after room (by_key (pairs_at handle (worlds_of (S.items shards.old))))) }
    ensures refused { IfErr result (λ error. error ≡ Memory) }
    ensures same { S.items shards.new ≡ S.items shards.old }
    ensures rest { S.rest shards.new ≡ S.rest shards.old }
{
    let mut pairs = list_all(shards, handle, Listed::Next { after, room })?;
    pairs.truncate(room);
    Ok(Pairs::from_vec(pairs))
}
