//! Laws of wrong machines and wrong orders: each is refused.

ghost use Rattle.proof_counterexamples.specs.Laws.{LateCommitAtTheEnd, LateReadAtTheEnd, OrderOfEnds, RefusedPutInTheOrder, RefusedPutInTheMap, RefusedAfterItsCommit};
ghost use Rattle.proof_counterexamples.specs.Laws.{LateRemoveByTheNewRoot, CommitsWithoutTheRoot, SwapsWithoutComparing, CleansWithoutTheSingle};

/// A law: a change that is committed late may not stand where it was committed.
pub fn late_commit_at_the_end()
    ensures { LateCommitAtTheEnd }
{}

/// A law: a call that read late in a closed generation may not stand where it read.
pub fn late_read_at_the_end()
    ensures { LateReadAtTheEnd }
{}

/// A law: operations may not stand in the order of their ends.
pub fn order_of_ends()
    ensures { OrderOfEnds }
{}

/// A law: a put that was refused may not stand in the order.
pub fn refused_put_in_the_order()
    ensures { RefusedPutInTheOrder }
{}

/// A law: a put that was refused may not leave its value in the map.
pub fn refused_put_in_the_map()
    ensures { RefusedPutInTheMap }
{}

/// A law: a removal that was committed may not be refused.
pub fn refused_after_its_commit()
    ensures { RefusedAfterItsCommit }
{}

/// A law: a late removal may not be placed by the new root that its climb read.
pub fn late_remove_by_the_new_root()
    ensures { LateRemoveByTheNewRoot }
{}

/// A law: a node may not be committed without asking the root for its generation.
pub fn commits_without_the_root()
    ensures { CommitsWithoutTheRoot }
{}

/// A law: a snapshot may not swap the root without comparing its main node with the expected one.
pub fn swaps_without_comparing()
    ensures { SwapsWithoutComparing }
{}

/// A law: cleaning may not drop the single of a tomb.
pub fn cleans_without_the_single()
    ensures { CleansWithoutTheSingle }
{}
