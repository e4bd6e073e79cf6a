//! Laws of the node builders: what they do to the finite map that is a node's content.

ghost use Rattle.proof_contents.specs.Laws.{BranchInserts, BranchUpdates, BranchRemoves, BranchEntombs, PairsPut, ListInserts, ListUpdates, ListRemoves, ListEntombs, RenewedKeeps, ContractedKeeps};

/// A law: in a branch, where no entry has the flag of a key, inserting its single puts the key into the content.
pub fn branch_inserts_put()
    ensures { BranchInserts }
{}

/// A law: in a branch, where a key's single gives way to another one of the key, the key is put into the content.
pub fn branch_updates_put()
    ensures { BranchUpdates }
{}

/// A law: in a branch, where a key's single goes, the key is removed from the content.
pub fn branch_removes_remove()
    ensures { BranchRemoves }
{}

/// A law: in a branch, the tomb of the other one of two singles has the content without the key.
pub fn branch_entombs_remove()
    ensures { BranchEntombs }
{}

/// A law: an indirection that leads to two singles, in the place of one of them, puts the other's key.
pub fn pairs_put()
    ensures { PairsPut }
{}

/// A law: in a list, a single more puts its key.
pub fn list_inserts_put()
    ensures { ListInserts }
{}

/// A law: in a list, another single of the same key puts the key.
pub fn list_updates_put()
    ensures { ListUpdates }
{}

/// A law: in a list, without its single the key is removed.
pub fn list_removes_remove()
    ensures { ListRemoves }
{}

/// A law: in a list, the tomb of the other one of two singles has the content without the key.
pub fn list_entombs_remove()
    ensures { ListEntombs }
{}

/// A law: entries renewed, or cleaned of tombs, one by one keep the content.
pub fn renewed_keeps()
    ensures { RenewedKeeps }
{}

/// A law: the tomb of a branch's only single has the branch's content.
pub fn contracted_keeps()
    ensures { ContractedKeeps }
{}
