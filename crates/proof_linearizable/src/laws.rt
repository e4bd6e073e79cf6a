//! Laws of the order, for every list of steps whose keys have 64 bits.

ghost use Rattle.proof_linearizable.specs.Laws.{EveryOrderIsLegal, AloneItActs};

/// The headline: for all sizes in range and every list of steps by any number of actors, the order that the
/// machine hands out is legal for the recorded history; and the world to which it leads has just the open
/// handles, of their kinds, each with its content.
pub fn every_order_is_legal()
    ensures { EveryOrderIsLegal }
{}

/// A law: an operation that runs alone from rest enters the order last, and its call leads from the world
/// before it to the one after it, with its reply; where it is refused for lack of slots, neither changes.
pub fn alone_it_acts()
    ensures { AloneItActs }
{}
