//! Laws of the nodes that a handle reaches.

ghost use Rattle.proof_sizes.specs.Growth.{CallsGrowLittle, CopiesAreNoLarger, OthersGrowNothing, SweepsKeepNodes};
ghost use Rattle.proof_sizes.specs.Nodes.{EmptyHasTwo, HandlesUseSlots, OneHandleUsesAll};

/// A law: the nodes of a handle and the free slots are no more than all slots.
pub fn handles_use_slots()
    ensures { HandlesUseSlots }
{}

/// A law: they are all slots where nothing runs, limbo is empty and no other handle is open.
pub fn one_handle_uses_all()
    ensures { OneHandleUsesAll }
{}

/// A law: where its map is empty a handle has two nodes.
pub fn empty_has_two()
    ensures { EmptyHasTwo }
{}

/// A law: a call that runs alone makes the nodes of no handle more, but where it adds a key, and then by a constant at most.
pub fn calls_grow_little()
    ensures { CallsGrowLittle }
{}

/// A law: and those of another handle than its own not even then.
pub fn others_grow_nothing()
    ensures { OthersGrowNothing }
{}

/// A law: a handle that it opens has no more nodes than the handle that was copied.
pub fn copies_are_no_larger()
    ensures { CopiesAreNoLarger }
{}

/// A law: steps of the sweep leave the nodes of each handle.
pub fn sweeps_keep_nodes()
    ensures { SweepsKeepNodes }
{}
