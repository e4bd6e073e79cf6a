//! What all shards are read for.

ghost use Rattle.std.specs.Prelude.{◌≡◌};
ghost use Rattle.shared_map.specs.Summing.{Counts, Frees};

use ctrie_map::{Handle, Map};
use sharded_gate::Visit;

/// Counts the keys of a handle; of one that isn't open there are none.
#[derive(Drop)]
pub(crate) struct Counting {
    pub(crate) handle: u16,
    pub(crate) keys: u64,
}

impl Visit<Map> for Counting {
    ghost does = { Counts };

    #[tactic(auto, using(crate::proofs::Counted::counted_pairs, crate::proofs::Counted::no_pairs))]
    fn visit(&mut self, map: &mut Map) {
        let keys = map.count(Handle::new(self.handle)).unwrap_or(0);
        self.keys = self.keys.saturating_add(keys);
    }
}

/// Counts the free slots.
#[derive(Drop)]
pub(crate) struct Freeing {
    pub(crate) slots: u64,
}

impl Visit<Map> for Freeing {
    ghost does = { Frees };

    fn visit(&mut self, map: &mut Map) {
        self.slots = self.slots.saturating_add(u64::from(map.free()));
    }
}
