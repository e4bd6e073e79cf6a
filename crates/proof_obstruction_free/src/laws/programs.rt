//! Laws of the small machines of an operation whose actor alone takes steps.

ghost use Rattle.proof_obstruction_free.specs.Alone.{Lone};
ghost use Rattle.proof_obstruction_free.specs.Closes.{ClosesEnd};
ghost use Rattle.proof_obstruction_free.specs.Copies.{CopiesEnd, CopiesEndFirst};
ghost use Rattle.proof_obstruction_free.specs.ProgramEnds.{CleanEnds, ClimbEnds, CompleteEnds, CompleteGoesToItsEnd, RenewEnds};
ghost use Rattle.proof_obstruction_free.specs.ReadLaws.{AloneReadEnds, AloneReadGoesToItsEnd};
ghost use Rattle.proof_obstruction_free.specs.Readers.{ReadersEnd};
ghost use Rattle.proof_obstruction_free.specs.SwapEnds.{RootEnds, SwapEnds, SwapGoesToItsEnd};

/// A law: a READ is over within nine steps from its first line (`first`), and within twelve from any (`under_way`).
pub fn reads_end()
    ensures first { AloneReadEnds }
    ensures under_way { AloneReadGoesToItsEnd }
{}

/// A law: a SWAP is over within ten steps from its first line (`first`), and within thirteen from any (`under_way`).
pub fn swaps_end()
    ensures first { (a : Lone) → SwapEnds a }
    ensures under_way { (a : Lone) → SwapGoesToItsEnd a }
{}

/// A law: a ROOT gives a root within twelve steps.
pub fn roots_end()
    ensures { (a : Lone) → RootEnds a }
{}

/// A law: a snapshot, a freeze or a clear has ended after 23 steps of its actor alone from its begin (`first`), and
/// after 49 from wherever it stands (`under_way`).
pub fn copies_end()
    ensures first { CopiesEndFirst }
    ensures under_way { CopiesEnd }
{}

/// A law: a call on one key of a read-only handle has ended after 166 steps of its actor alone, from wherever it stands.
pub fn readers_end()
    ensures { ReadersEnd }
{}

/// A law: a close has ended after one step of its actor from its begin.
pub fn closes_end()
    ensures { ClosesEnd }
{}

/// A law: a COMPLETE of an operation's own offer is over within ten steps from its first line (`first`), and within
/// thirteen from any line of its READ (`under_way`).
pub fn completes_end()
    ensures first { (a : Lone) → CompleteEnds a }
    ensures under_way { (a : Lone) → CompleteGoesToItsEnd a }
{}

/// A law: a RENEW is over, its SWAP too, within 310 steps from any of its lines.
pub fn renews_end()
    ensures { (a : Lone) → RenewEnds a }
{}

/// A law: a CLEAN leads to a new try within 319 steps from any of its lines.
pub fn cleans_end()
    ensures { (a : Lone) → CleanEnds a }
{}

/// A law: a CLIMB ends its operation within 329 steps from any of its lines.
pub fn climbs_end()
    ensures { (a : Lone) → ClimbEnds a }
{}
