//! Laws of the record: what the steps of a machine add to it, and that it may be told what they tell.

ghost use Rattle.proof_runs.specs.Laws.{CommittedAreNewest, OnePlaceAStep, PublishedAreNewest};
ghost use Rattle.proof_runs.specs.Tellings.{TellingsFit};

/// A law: a step adds at most one place to the order.
pub fn one_place_a_step()
    ensures { OnePlaceAStep }
{}

/// A law: no node that was committed in the slot of a node in use is newer than it.
pub fn committed_are_newest()
    ensures { CommittedAreNewest }
{}

/// A law: no node that was published in the slot of a node in use is newer than it.
pub fn published_are_newest()
    ensures { PublishedAreNewest }
{}

/// A law: what is kept of a run may be told what its next step tells.
pub fn tellings_fit()
    ensures { TellingsFit }
{}
