//! Laws of operations that alone take steps, for every list of steps whose keys have 64 bits.

ghost use Rattle.proof_obstruction_free.specs.Laws.{AloneItEnds, EachStepLeadsToItsEnd};
ghost use Rattle.proof_obstruction_free.specs.Slots.{CopiesEnoughAtBegin, CopiesMakeFew, EnoughAtBegin, EnoughForCopies, EnoughForTries, EnoughSlots, MakesAtMost, TriesEnoughAtBegin, TriesMakeFew};

/// A law: an operation on one key, a snapshot, a freeze or a clear whose actor alone takes steps has ended after 3,962
/// of them, whatever others left behind.
pub fn alone_it_ends()
    ensures { AloneItEnds }
{}

/// A law: until then none of its steps is denied; each goes on, and one of the first 3,962 ends it.
pub fn each_step_leads_to_its_end()
    ensures { EachStepLeadsToItsEnd }
{}

/// A law: an operation on one key, a snapshot, a freeze or a clear whose actor alone takes steps makes 3,962 nodes at
/// most (`makes`); so where as many slots are free, or were when it began, it isn't refused for lack of slots (`spare`, `begun`).
pub fn enough_slots()
    ensures makes { MakesAtMost }
    ensures spare { EnoughSlots }
    ensures begun { EnoughAtBegin }
{}

/// A law: from where a try begins, so from its begin, an operation on one key, a snapshot, a freeze or a clear whose actor
/// alone takes steps makes 570 nodes at most (`makes`); so where as many slots are free it isn't refused for lack of
/// slots (`spare`, `begun`).
pub fn enough_slots_for_tries()
    ensures makes { TriesMakeFew }
    ensures spare { EnoughForTries }
    ensures begun { TriesEnoughAtBegin }
{}

/// A law: a snapshot, a freeze or a clear makes 23 nodes at most from its begin (`makes`); so where as many slots are free
/// it isn't refused for lack of slots (`spare`, `begun`).
pub fn enough_slots_for_copies()
    ensures makes { CopiesMakeFew }
    ensures spare { EnoughForCopies }
    ensures begun { CopiesEnoughAtBegin }
{}
