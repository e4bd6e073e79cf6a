//! Laws of generations along paths, and of what stays after a closing, for every list of steps.

ghost use Rattle.proof_commits.specs.Laws.{GivenForGood, LateOnce, LateStoodBefore};
ghost use Rattle.proof_generations.specs.Laws.Falling.{FallBelow, ReadForGood, SwapsAreOwn};

/// A law: below an indirection every indirection has its generation, or an older one that is closed; but a new root
/// waits for that until its own generation is opened.
pub fn generations_fall()
    ensures { FallBelow }
{}

/// A law: an operation swaps main nodes only into indirections of the generation that its root had when it began
/// its try, and only on a writable handle.
pub fn swaps_in_own_generation()
    ensures { SwapsAreOwn }
{}

/// A law: what a READ gives of an indirection whose generation was closed before it began stays its logical
/// main node for ever.
pub fn given_for_good()
    ensures { GivenForGood }
{}

/// A law: that is so of all that is read through a read-only handle, and of what a repair reads of an indirection
/// of another generation than its operation's.
pub fn read_for_good()
    ensures { ReadForGood }
{}

/// A law: what commits after its indirection's generation was closed stood in the main word before; the
/// indirection was in use then.
pub fn late_stood_before()
    ensures { LateStoodBefore }
{}

/// A law: after its generation was closed an indirection has one commit at most.
pub fn late_once()
    ensures { LateOnce }
{}
