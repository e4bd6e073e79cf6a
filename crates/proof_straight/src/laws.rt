//! Laws of calls that run alone.

ghost use Rattle.proof_straight.specs.Laws.{AnswersStraight, MissesStraight, CrowdedStraight, SetsStraight, InsertsStraight, RemovesStraight, PartsStraight, ContractsStraight};
ghost use Rattle.proof_straight.specs.Laws.{FreezesStraight, SnapshotsStraight, ClearsStraight, ClosesStraight};
ghost use Rattle.proof_straight.specs.Renewals.{RenewsStraight};
ghost use Rattle.proof_straight.specs.Passing.{PassesRenewal};
ghost use Rattle.proof_straight.specs.Running.{ComesByRun};
ghost use Rattle.proof_straight.specs.Resting.{LimboUpToDate, FreeSlotsEmpty};

/// A law: a call that finds its key and leaves it as it is.
pub fn answers_straight()
    ensures { AnswersStraight }
{}

/// A law: a call that inserts nothing and doesn't find its key.
pub fn misses_straight()
    ensures { MissesStraight }
{}

/// A law: a call that would insert its key into a list that takes no more.
pub fn crowded_straight()
    ensures { CrowdedStraight }
{}

/// A law: a call that sets another value of its key.
pub fn sets_straight()
    ensures { SetsStraight }
{}

/// A law: a call that inserts its key where nothing stands in its place.
pub fn inserts_straight()
    ensures { InsertsStraight }
{}

/// A law: a call that takes its key out, where more than a single is left.
pub fn removes_straight()
    ensures { RemovesStraight }
{}

/// A law: a call that takes its key out where a single is left alone.
pub fn contracts_straight()
    ensures { ContractsStraight }
{}

/// A law: a call that inserts its key where the single of another key stands in its place.
pub fn parts_straight()
    ensures { PartsStraight }
{}

/// A law: a freeze.
pub fn freezes_straight()
    ensures { FreezesStraight }
{}

/// A law: a snapshot.
pub fn snapshots_straight()
    ensures { SnapshotsStraight }
{}

/// A law: a clear.
pub fn clears_straight()
    ensures { ClearsStraight }
{}

/// A law: limbo is up to date after each run.
pub fn limbo_up_to_date()
    ensures { LimboUpToDate }
{}

/// A law: the free slots are empty ones after each run.
pub fn free_slots_empty()
    ensures { FreeSlotsEmpty }
{}

/// A law: a close.
pub fn closes_straight()
    ensures { ClosesStraight }
{}

/// A law: what a call comes to a run of its steps comes to.
pub fn comes_by_run()
    ensures { ComesByRun }
{}

/// A law: a call that renews a branch on its way comes to what it comes to in the state in which that
/// branch is renewed.
pub fn renews_straight()
    ensures { RenewsStraight }
{}

/// A law: after such a renewal the call goes on like one in that state, and comes by the same states.
pub fn passes_renewal()
    ensures { PassesRenewal }
{}
