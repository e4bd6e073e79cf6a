//! Laws of fresh main nodes, for every list of steps.

ghost use Rattle.proof_fresh.specs.Grace.{DeadAfterTwoEpochs, OnlyOffersPutBack};
ghost use Rattle.proof_fresh.specs.Laws.{FreshIsBelow};

/// A law: what is below a main node that an operation is about to swap in is below the one that it is to replace, or
/// private to the operation.
pub fn fresh_is_below()
    ensures { FreshIsBelow }
{}

/// A law: what is private to nobody isn't put back by who swaps a main node in; so offers alone may put it back.
pub fn only_offers_put_back()
    ensures { OnlyOffersPutBack }
{}

/// A law: what no root reaches, and nobody has private, is dead once the epoch has grown twice, unless an offer puts it
/// back.
pub fn dead_after_two_epochs()
    ensures { DeadAfterTwoEpochs }
{}
