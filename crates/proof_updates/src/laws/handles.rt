//! Laws of the contents of handles, for each step that is taken after a list of steps whose keys have 64 bits.

ghost use Rattle.proof_updates.specs.Laws.Handles.{ClearsEmpty, ClosesTake, OfEachStep, OpenedCopy, RepairsStay, UntouchedStay, UpdatesChange};

/// A law: a step leaves every open handle and its content alone (`stay`), but: the commit of an operation's own
/// update of its key, which does that call's change to the content of each handle that reaches the indirection
/// (`updates`); a clear that is carried out, whose handle is then empty (`clears`); a close, which takes its
/// handle away (`closes`). So commits of nodes made by renewing, cleaning and climbing leave all contents alone
/// (`repairs`). A handle that a step opens has the content of the handle copied (`opens`).
pub fn contents_of_handles()
    ensures stay { OfEachStep UntouchedStay }
    ensures updates { OfEachStep UpdatesChange }
    ensures repairs { OfEachStep RepairsStay }
    ensures clears { OfEachStep ClearsEmpty }
    ensures closes { OfEachStep ClosesTake }
    ensures opens { OfEachStep OpenedCopy }
{}
