//! Laws of root swaps, for every list of steps.

ghost use Rattle.proof_order.specs.Laws.Openings.{ClosedRootsStay, ClosingsDiffer, HandlesRise, NewRootsFollow, OneRoot, RootsSwappedAsExpected};

/// A law: of each generation there is one root, whatever handles have it, and when.
pub fn one_root()
    ensures { OneRoot }
{}

/// A law: the root of a writable handle is the one that its number had before, or of a greater generation.
pub fn handles_rise()
    ensures { HandlesRise }
{}

/// A law: each closing is of another generation.
pub fn closings_differ()
    ensures { ClosingsDiffer }
{}

/// A law: after a root's generation was closed the root keeps its logical main node.
pub fn closed_roots_stay()
    ensures { ClosedRootsStay }
{}

/// A law: after a root swap the new root of a clear is over an empty branch, and those of a snapshot and a freeze
/// over the logical main node of the old root.
pub fn new_roots_follow()
    ensures { NewRootsFollow }
{}

/// A law: a root is swapped only where its logical main node is the expected one: the node that COMPLETE's READ
/// gave is still the root's when COMPLETE swaps it.
pub fn roots_swapped_as_expected()
    ensures { RootsSwappedAsExpected }
{}
