//! Laws of contents and of roots, for each step of a call.

ghost use Rattle.proof_calls.specs.Laws.{ChangesItsKey, KeepsOtherRoots, LeavesOthers, OfEachCallStep, OfEachKeyStep, OnlyCommitsChange, RepairsLeave, SwapsAsExpected};

/// A law: below its root only those steps of a call change content by which it commits a main node (`commits`). What it made
/// to renew, to clean or to climb leaves all contents alone (`repairs`); what it made to change its key does just the call's
/// change to the content of each handle that reaches the indirection, with the value that it had before (`changes`), and
/// leaves each other handle alone (`others`). A node that it commits for another operation does what that one's does.
pub fn contents_of_key_steps()
    ensures commits { OfEachKeyStep OnlyCommitsChange }
    ensures repairs { OfEachKeyStep RepairsLeave }
    ensures changes { OfEachKeyStep ChangesItsKey }
    ensures others { OfEachKeyStep LeavesOthers }
{}

/// A law: a root changes only where its logical main node is the expected one. Where a step of a call carries an offer
/// out, the handle's root was the offer's old one, with the expected node, and is the new one then (`swaps`); each other
/// open handle stays open, and keeps its root (`keeps`).
pub fn roots_change_as_expected()
    ensures swaps { OfEachCallStep SwapsAsExpected }
    ensures keeps { OfEachCallStep KeepsOtherRoots }
{}
