//! All shards visited, one after another.

ghost use Rattle.std.specs.Prelude.{◌≡◌};
ghost use Rattle.shared_map.specs.Visits.{VisitedEach};

use sharded_gate::{Shards, Visit};

/// Has the visitor see each shard once, in their order.
pub(crate) fn visit_each<O, S: Shards<O>, V: Visit<O>>(shards: &mut S, visitor: &mut V)
    ensures visited { VisitedEach V.does visitor.old (S.items shards.old) visitor.new (S.items shards.new) }
    ensures rest { S.rest shards.new ≡ S.rest shards.old }
{
    for shard in 0..shards.count() {
        shards.visit(shard, visitor);
    }
}
