//! Laws of main words and prev words, for every list of steps.

ghost use Rattle.proof_commits.specs.Laws.{PendingHasOwner, CheckedIsDecided, FreshIsUnmet, PrevWordsChange, DecidedForGood, MainsChangeByCommits, ReplacedForGood, TombsStay, MomentIsFirst};

/// A law: a pending node has one running operation that swapped it in, still in that SWAP.
pub fn pending_has_owner()
    ensures { PendingHasOwner }
{}

/// A law: who is about to see how its fresh node was decided finds it decided.
pub fn checked_is_decided()
    ensures { CheckedIsDecided }
{}

/// A law: a fresh node that an operation is yet to swap in is met by nobody: no READ is about it, it is undecided,
/// and no other actor is in a SWAP of it.
pub fn fresh_is_unmet()
    ensures { FreshIsUnmet }
{}

/// A law: a prev word goes from none to pending in the step that swaps the node in, and from pending to
/// none or failed.
pub fn prev_words_change()
    ensures { PrevWordsChange }
{}

/// A law: a prev word that was pending and isn't any more stays as it is.
pub fn decided_for_good()
    ensures { DecidedForGood }
{}

/// A law: a logical main node changes only in a commit, from the node that the new one was built from.
pub fn mains_change_by_commits()
    ensures { MainsChangeByCommits }
{}

/// A law: a node that was replaced never comes back.
pub fn replaced_for_good()
    ensures { ReplacedForGood }
{}

/// A law: a tomb that is the logical main node stays it.
pub fn tombs_stay()
    ensures { TombsStay }
{}

/// A law: what a READ gives was the logical main node after its moment, which is the first such step from
/// its last read or swap of the main word on; the indirection was in use then, and since the READ.
pub fn moment_is_first()
    ensures { MomentIsFirst }
{}
