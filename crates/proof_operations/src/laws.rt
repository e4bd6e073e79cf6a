//! Laws of running operations.

ghost use Rattle.proof_operations.specs.Laws.{IdsApart, ListsHaveRoom, NumbersStay, PrivatesAreShort};

/// A law: running operations have different ids, and none of them has one that is still to be given.
pub fn ids_apart()
    ensures { IdsApart }
{}

/// A law: a step of an operation that isn't its end leaves each handle number taken or free.
pub fn numbers_stay()
    ensures { NumbersStay }
{}

/// A law: a running operation's private list has 33 references at most.
pub fn privates_are_short()
    ensures { PrivatesAreShort }
{}

/// A law: a running operation's private list, its path, and the entries of a branch that are done have room for what its
/// next step adds: they have 33, 14 and 32 places.
pub fn lists_have_room()
    ensures { ListsHaveRoom }
{}
