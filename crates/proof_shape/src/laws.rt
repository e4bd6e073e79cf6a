//! Laws of the trie's shape, for every list of steps whose keys have 64 bits.

ghost use Rattle.proof_shape.specs.Agreeing.{ContentsAgree, LookingFinds};
ghost use Rattle.proof_shape.specs.Laws.{BranchesAreExact, BranchesBelowRoots, ListsAreCrowds, MainsShareSites, NoKeyTwice, PathsAreShort, RootsHaveBranches, SitesAreFixed};

/// A law: an indirection and a main node keep their level and the part of a hash that leads to them for life
/// (`fixed`); a main node has those of its indirection, and roots the first level and the empty path (`shared`).
pub fn sites_are_fixed()
    ensures fixed { SitesAreFixed }
    ensures shared { MainsShareSites }
{}

/// A law: a branch has an entry for each one of its bitmap, in order, and each stands at the place of its path.
pub fn branches_are_exact()
    ensures { BranchesAreExact }
{}

/// A law: a branch below the root is neither empty nor has one single alone; there a tomb stands in its place.
pub fn branches_below_roots()
    ensures { BranchesBelowRoots }
{}

/// A law: a list has 2 to 32 singles of different keys of one hash, and stands below the last level.
pub fn lists_are_crowds()
    ensures { ListsAreCrowds }
{}

/// A law: each indirection of an operation's path is one level deeper on the way to its key, and there are 14
/// at most.
pub fn paths_are_short()
    ensures { PathsAreShort }
{}

/// A law: the main node of a root is a branch.
pub fn roots_have_branches()
    ensures { RootsHaveBranches }
{}

/// A law: in what a handle reaches no key stands twice, and nothing lies deeper than 15 levels.
pub fn no_key_twice()
    ensures { NoKeyTwice }
{}

/// A law: wherever nodes stand at their places, what is found along a key's hash is what all pairs that are reached
/// have of it.
pub fn contents_agree()
    ensures { ContentsAgree }
{}

/// A law: in each state that is reached, the value of a key in a handle's content is what is found along its hash
/// from the handle's root.
pub fn looking_finds()
    ensures { LookingFinds }
{}
