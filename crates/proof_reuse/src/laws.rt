//! Laws of garbage, for every list of steps.

ghost use Rattle.proof_reuse.specs.Laws.{FailedOwnIsGarbage, FreshIsLeftForGood, FreshIsOnes, GarbageDies, GarbageIsDeadAfterTwoEpochs, GarbageIsUnknownAfterGrace, OneTakesItsPlace};
ghost use Rattle.proof_reuse.specs.Laws.{ReplacedOnce, ReplacedOwnIsGarbage, SwapInsBringNothingBack, SwappedInIsGarbage, SwappedOutIsGarbage, UnlinkedIsGarbage};

/// A law: what is private to nobody comes to be followed again by no swap-in of one who ran then.
pub fn swap_ins_bring_nothing_back()
    ensures { SwapInsBringNothingBack }
{}

/// A law: garbage is followed from no root, and by nobody who begins later.
pub fn garbage_dies()
    ensures { GarbageDies }
{}

/// A law: once the epoch has grown twice nobody follows it, and no operation's next action reads or writes its words; so
/// its slot may be used again.
pub fn garbage_is_dead_after_two_epochs()
    ensures { GarbageIsDeadAfterTwoEpochs }
{}

/// A law: once all who ran then have ended, garbage is known neither to roots, with all that standing offers name, nor to
/// who begins from then on, as long as it is in use.
pub fn garbage_is_unknown_after_grace()
    ensures { GarbageIsUnknownAfterGrace }
{}

/// A law: a main node is one indirection's own, and one node took its place there.
pub fn one_takes_its_place()
    ensures { OneTakesItsPlace }
{}

/// A law: an indirection's own main node that was replaced there is garbage.
pub fn replaced_own_is_garbage()
    ensures { ReplacedOwnIsGarbage }
{}

/// A law: so is a main node that one of the steps swapped in there, once another one counts in its place.
pub fn swapped_in_is_garbage()
    ensures { SwappedInIsGarbage }
{}

/// A law: one that has failed, where the node before it was put back, is garbage.
pub fn failed_own_is_garbage()
    ensures { FailedOwnIsGarbage }
{}

/// A law: what a root led to once is garbage when none leads to it any more.
pub fn unlinked_is_garbage()
    ensures { UnlinkedIsGarbage }
{}

/// A law: the node that an operation has made for an indirection or for its SWAP is one operation's, until it is done with it.
pub fn fresh_is_ones()
    ensures { FreshIsOnes }
{}

/// A law: once it is nobody's, it is nobody's ever after; so nobody is in a SWAP of it again.
pub fn fresh_is_left_for_good()
    ensures { FreshIsLeftForGood }
{}

/// A law: an indirection's own main node that a SWAP has replaced is garbage once the SWAP sees its fresh node committed.
pub fn swapped_out_is_garbage()
    ensures { SwappedOutIsGarbage }
{}

/// A law: no other operation sees at the end of a SWAP that it has replaced that main node; so one operation retires it.
pub fn replaced_once()
    ensures { ReplacedOnce }
{}
