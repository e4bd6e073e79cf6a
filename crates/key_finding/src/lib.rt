//! How a call on one key goes down the trie: what comes after each look.
//!
//! It is the search of the concurrent trie with snapshots (Ctrie: A. Prokopec, N. G. Bronson, P. Bagwell,
//! M. Odersky). An operation looks at what never changes: at a main node that READ gave, at an entry of a
//! branch, at a single of a list. Each look is one atomic step, since slots may be used again once nothing
//! refers to them. What a call does next is decided from the one node that it looked at, and from what that
//! call is; a writable one goes through indirections of its root's generation alone, so that what it changes is
//! of no copy.
//!
//! It computes `Finding` of `machine_model`, and of its `Calls` what a call answers.
#![tactic(auto)]

mod calls;
mod found;
mod looks;

pub use calls::{KeyReply, Todo, absent_reply, changed_reply, inserts, when_found};
pub use found::{Entered, Found};
pub use key_change::{Change, ChangeAt, Tried};
pub use looks::{after_entry, after_listed, after_main};
