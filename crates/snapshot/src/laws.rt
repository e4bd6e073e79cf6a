//! Laws of generations: what actions draw, and what programs are told.

ghost use Rattle.snapshot.specs.Tasks.{DrawsGenerations};
ghost use Rattle.snapshot.specs.Telling.{TellsCopy, TellsWalk};

/// A law: what an action does to the heap and to the next generation doesn't depend on what stands beside them in the
/// machine's state.
pub fn draws_generations()
    ensures { DrawsGenerations }
{}

/// A law: what a snapshot, freeze or clear is told of the root's generation comes to it by its READ alone.
pub fn tells_copy()
    ensures { TellsCopy }
{}

/// A law: so it is with a walk.
pub fn tells_walk()
    ensures { TellsWalk }
{}
