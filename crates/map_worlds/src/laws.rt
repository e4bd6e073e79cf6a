//! Laws of the world that a state shows.

ghost use Rattle.map_worlds.specs.Laws.{FirstIsShown, HandlesAtRest, ShownIsOne, ShowsRoots, StatesShow};

/// A law: a world that shows a state's contents is the one that is computed from it.
pub fn shown_is_one()
    ensures { ShownIsOne }
{}

/// A law: the world of each state that is reached shows the state's contents.
pub fn states_show()
    ensures { StatesShow }
{}

/// A law: the first state shows the first world.
pub fn first_is_shown()
    ensures { FirstIsShown }
{}

/// A law: the world has just the open handles.
pub fn shows_roots()
    ensures { ShowsRoots }
{}

/// A law: where no operation runs as many handles are taken as the world has.
pub fn handles_at_rest()
    ensures { HandlesAtRest }
{}
