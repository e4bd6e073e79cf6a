//! Laws of what is live, for every list of steps.

ghost use Rattle.proof_garbage.specs.Grace.{DeadAfterGrace, GraceAloneIsTooLittle, TwoEpochsAreGrace};
ghost use Rattle.proof_garbage.specs.Laws.{FreshIsAlone, GarbageStays, LiveInUse, NamedAreHeld, PrivateUnknown, ReachedIsNeverPrivate};

/// A law: what is live is in use.
pub fn live_in_use()
    ensures { LiveInUse }
{}

/// A law: what the next action of an operation names it has at hand, or reaches from there or from a root.
pub fn named_are_held()
    ensures { NamedAreHeld }
{}

/// A law: what is dead stays dead.
pub fn garbage_stays()
    ensures { GarbageStays }
{}

/// A law: what is private to an operation no root leads to, and no other operation; so it may be used again as soon as the
/// operation gives it up.
pub fn private_unknown()
    ensures { PrivateUnknown }
{}

/// A law: what a root led to once never comes to be private; so its slot is never used again as what an operation gives up.
pub fn reached_is_never_private()
    ensures { ReachedIsNeverPrivate }
{}

/// A law: a main node that is about to be swapped in is private and decided, and stands in no slot.
pub fn fresh_is_alone()
    ensures { FreshIsAlone }
{}

/// A law: what no root reaches is unknown to all who begin later, unless one who ran then puts it back; so it is dead when
/// these have ended.
pub fn dead_after_grace()
    ensures { DeadAfterGrace }
{}

/// A law: where the epoch has grown twice, all who ran before have ended.
pub fn two_epochs_are_grace()
    ensures { TwoEpochsAreGrace }
{}

/// What isn't so, by a run that the checker computes: an offer may put back what no root reached, and who meets the offer
/// has it at hand after all who ran then have ended.
pub fn grace_alone_is_too_little()
    ensures { GraceAloneIsTooLittle }
{}
