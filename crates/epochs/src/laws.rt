//! Laws of limbo: what a settling has to be told, and what isn't freed.

ghost use Rattle.epochs.specs.Laws.{FreedLeaves, CountsAlone, RunningKeeps};

/// A law: after the freeing of a slot, limbo comes out the same whether the slot was taken out of it
/// or left to the settling.
pub fn freed_leaves()
    ensures { FreedLeaves }
{}

/// A law: limbo is the same for references from outside in another order.
pub fn counts_alone()
    ensures { CountsAlone }
{}

/// A law: what was referred to at or after a running operation's begin isn't freed while it runs.
pub fn running_keeps()
    ensures { RunningKeeps }
{}
