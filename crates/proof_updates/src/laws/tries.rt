//! Laws of contents, for every list of steps whose keys have 64 bits.

ghost use Rattle.proof_updates.specs.Laws.Tries.{EachStepDoes, EndsAreSeen, OthersKeepContents, PathsLieOnKeys, RepliesAreRight, UpdatesLeadOn};

/// A law: each step leaves the main nodes of all indirections, repairs one, or replaces one by itself with a key
/// updated.
pub fn each_step_does()
    ensures { EachStepDoes }
{}

/// A law: a step that commits no operation's own update leaves the content of every generation (`others`); and one
/// that does leads the content of that operation's generation on by its call, with the reply that it gives, and
/// leaves all others (`own`).
pub fn contents_follow_updates()
    ensures others { OthersKeepContents }
    ensures own { UpdatesLeadOn }
{}

/// A law: each indirection on the path of an operation on a writable handle was once on its key's path (`path`);
/// and the main node with which it goes on from there was that of the path's end just after the operation's
/// moment (`end`).
pub fn paths_lie_on_keys()
    ensures path { PathsLieOnKeys }
    ensures end { EndsAreSeen }
{}

/// A law: what an operation is answered that has no place in the order by then, and isn't refused for lack of slots,
/// is right: by the content just after its moment on a writable handle, and by the final one on a read-only handle.
pub fn replies_are_right()
    ensures { RepliesAreRight }
{}
