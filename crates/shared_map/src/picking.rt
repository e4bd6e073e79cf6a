//! Any one key of all shards with its value.

ghost use Rattle.std.specs.Prelude.{◌≡◌};
ghost use Rattle.shared_map.specs.declared.asks.Ask.TheVariants.{First};
ghost use Rattle.shared_map.specs.Picking.{IsPicked, Picks};
ghost use Rattle.shared_map.specs.Wholes.{AnswersIf};

use crate::asking::Knowing;
use crate::asks::{Answer, Told};
use crate::visits::visit_each;
use ctrie_map::{Handle, Map, MapError};
use sharded_gate::{Shards, Visit};

/// Finds a key of a handle with its value, in the first shard that has one.
#[derive(Drop)]
pub(crate) struct Picking {
    pub(crate) handle: u16,
    pub(crate) found: Option<(u64, u64)>,
}

impl Visit<Map> for Picking {
    ghost does = { Picks };

    fn visit(&mut self, map: &mut Map) {
        if self.found.is_some() {
            return;
        }
        if let Ok(found) = map.first(Handle::new(self.handle)) {
            self.found = found;
        }
    }
}

/// A key of the handle with its value, if it is open; none exactly where no key has one.
pub(crate) fn one_of_all<S: Shards<Map>>(shards: &mut S, first: &Knowing, handle: u16) -> Told
    ensures answered { AnswersIf first.now (S.items shards.old) (First handle) result (S.items shards.new) }
    ensures rest { S.rest shards.new ≡ S.rest shards.old }
{
    match first.writable {
        Ok(_) => Ok(Answer::First(pick_all(shards, handle))),
        Err(_) => Err(MapError::NoHandle),
    }
}

/// The same of an open handle.
fn pick_all<S: Shards<Map>>(shards: &mut S, handle: u16) -> Option<(u64, u64)>
    ensures picked { IsPicked handle (S.items shards.old) result }
    ensures same { S.items shards.new ≡ S.items shards.old }
    ensures rest { S.rest shards.new ≡ S.rest shards.old }
{
    let mut picking = Picking {
        handle,
        found: None,
    };
    visit_each(shards, &mut picking);
    picking.found
}
