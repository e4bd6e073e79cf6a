//! Lists of a handle's pairs in all shards.

ghost use Rattle.std.specs.Prelude.{◌≡◌, IfErr, IfOk};
ghost use Rattle.std.specs.FinMap as maps;
ghost use Rattle.machine_model.specs.Pairs.{by_key};
ghost use Rattle.ctrie_map.specs.declared.errors.MapError.TheVariants.{Memory};
ghost use Rattle.ctrie_map.specs.Maps.{handles_of};
ghost use Rattle.shared_map.specs.Listing.{Lists, listed_of, pairs_listed};
ghost use Rattle.shared_map.specs.Shards.{worlds_of};
ghost use Rattle.shared_map.specs.Uniting.{pairs_of};

use crate::visits::visit_each;
use ctrie_map::{Handle, Map, MapError};
use sharded_gate::{Shards, Visit};
use std::mem;

/// Which pairs of a shard are listed.
#[derive(Clone, Copy)]
pub(crate) enum Listed {
    /// All of them.
    All,
    /// The next ones after this key, this many at most.
    Next { after: Option<u64>, room: usize },
}

impl Listed {
    /// These pairs of a handle.
    #[tactic(auto, using(crate::proofs::Listed::all_listed, crate::proofs::Listed::next_listed))]
    fn of(self, map: &Map, handle: Handle) -> Result<Vec<(u64, u64)>, MapError>
        ensures { IfOk result (λ pairs. pairs.items ≡ listed_of self (pairs_of (maps.get (handles_of map.now) handle))) }
    {
        match self {
            Listed::All => map.entries(handle),
            Listed::Next { after, room } => map.entries_from(handle, after, room),
        }
    }
}

/// Collects pairs of a handle.
#[derive(Drop)]
pub(crate) struct Listing {
    pub(crate) handle: u16,
    pub(crate) listed: Listed,
    pub(crate) pairs: Option<Vec<(u64, u64)>>,
    /// Whether something couldn't be listed.
    pub(crate) failed: bool,
}

impl Visit<Map> for Listing {
    ghost does = { Lists };

    fn visit(&mut self, map: &mut Map) {
        let Ok(pairs) = self.listed.of(map, Handle::new(self.handle)) else {
            self.failed = true;
            return;
        };
        match mem::replace(&mut self.pairs, None) {
            None => self.pairs = Some(pairs),
            Some(mut all) => match all.extend_from_slice(pairs.as_slice()) {
                Ok(()) => self.pairs = Some(all),
                Err(_) => self.failed = true,
            },
        }
    }
}

/// These pairs of the handle in all shards, by rising key.
pub(crate) fn list_all<S: Shards<Map>>(
    shards: &mut S,
    handle: u16,
    listed: Listed,
) -> Result<Vec<(u64, u64)>, MapError>
    ensures listed { IfOk result (λ pairs. pairs.items ≡ by_key (pairs_listed listed handle (worlds_of (S.items shards.old)))) }
    ensures refused { IfErr result (λ error. error ≡ Memory) }
    ensures same { S.items shards.new ≡ S.items shards.old }
    ensures rest { S.rest shards.new ≡ S.rest shards.old }
{
    let mut listing = Listing {
        handle,
        listed,
        pairs: None,
        failed: false,
    };
    visit_each(shards, &mut listing);
    let Listing {
        handle: _,
        listed: _,
        pairs,
        failed,
    } = listing;
    if failed {
        return Err(MapError::Memory);
    }
    match pairs {
        Some(pairs) => sorted(pairs),
        None => Err(MapError::Memory),
    }
}

/// These pairs, by rising key.
#[tactic(auto, using(crate::proofs::Sorted::sorted_by_key))]
fn sorted(mut pairs: Vec<(u64, u64)>) -> Result<Vec<(u64, u64)>, MapError>
    ensures sorted { IfOk result (λ sorted. sorted.items ≡ by_key pairs.items) }
    ensures refused { IfErr result (λ error. error ≡ Memory) }
{
    match pairs.sort() {
        Ok(()) => Ok(pairs),
        Err(_) => Err(MapError::Memory),
    }
}
