//! Laws of memory, for every list of steps.

ghost use Rattle.proof_memory.specs.Holding.{LinesLive, PrivatesOnce, SizesStay};
ghost use Rattle.proof_memory.specs.Laws.{HeldInUse, StandingInUse, DrawnOnce, OneNodeForEver, LinesFind, NodesFind, RootsFind, NeverImpossible, LimboIsExact, LimboIsRecent};
ghost use Rattle.proof_memory.specs.Laws.{FreedLate, SweepLeaves};
ghost use Rattle.proof_memory.specs.Sweeping.{Reclaimed};

/// A law: each reference that a running operation has got since its begin (`held`), or that stands in a root
/// word, a private list or a slot in use (`standing`), names a slot in use, under that very birth.
pub fn references_in_use()
    ensures held { HeldInUse }
    ensures standing { StandingInUse }
{}

/// A law: a reference that is drawn for a new slot was never in use before (`drawn`); so whenever something
/// stands under a reference it is the same node, but for the main word (`same`).
pub fn births_never_repeat()
    ensures drawn { DrawnOnce }
    ensures same { OneNodeForEver }
{}

/// A law: each step finds the kind of node for which its line takes what it looks at (`lines`), so do those who
/// read a slot in use or a root word (`nodes`); the handle of an operation is open, and the generation of its
/// root is known where a program asks for it (`roots`).
pub fn each_lookup_finds()
    ensures lines { LinesFind }
    ensures nodes { NodesFind }
    ensures roots { RootsFind }
{}

/// A law: no operation comes to the impossible line.
pub fn never_impossible()
    ensures { NeverImpossible }
{}

/// A law: a slot is freed by the sweep alone, and only when nothing has referred to it for two epochs.
pub fn freed_when_zero_for_two_epochs()
    ensures { FreedLate }
{}

/// A law: limbo has exactly the slots in use to which nothing refers (`exact`), by rising epochs, which lie in the
/// last three (`recent`).
pub fn limbo_is_right()
    ensures exact { LimboIsExact }
    ensures recent { LimboIsRecent }
{}

/// A law: a step of the sweep leaves the contents of all open handles, the history and the order alone.
pub fn sweep_leaves()
    ensures { SweepLeaves }
{}

/// A law: where no operation runs and limbo is empty, the slots in use are exactly the reachable ones.
pub fn reclaimed()
    ensures { Reclaimed }
{}

/// A law: no reference stands twice in a private list.
pub fn privates_once()
    ensures { PrivatesOnce }
{}

/// A law: there are as many handle numbers and actors as at first.
pub fn sizes_stay()
    ensures { SizesStay }
{}

/// A law: each reference of a running operation's next action names a slot in use, of the kind that the action takes
/// it for.
pub fn lines_live()
    ensures { LinesLive }
{}
