//! Laws of calls on one key.

ghost use Rattle.operate.specs.Reach.{ActsOfKey};
ghost use Rattle.operate.specs.Telling.{AsksUntold, TellsKey};

/// A law: what a call is told of the root's generation comes to it by its READ alone (`tells`), and who was told doesn't
/// ask (`untold`).
pub fn tells_key()
    ensures tells { TellsKey }
    ensures untold { AsksUntold }
{}

/// A law: a call changes root words only where ROOT completes an offer. It offers no root, takes no offer back, and makes
/// no root of a new generation.
pub fn acts_of_key()
    ensures { ActsOfKey }
{}
