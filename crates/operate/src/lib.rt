//! A call on one key, from its begin to its reply: the lookup, insertion and removal of the concurrent trie with snapshots
//! (Ctrie: A. Prokopec, N. G. Bronson, P. Bagwell, M. Odersky).
//!
//! A try begins at the root and goes down by READ and looks, each one atomic step. A writable call renews what is of
//! another generation and cleans where it meets a tomb, and both of them and its own change come about by one GCAS each;
//! whatever of these is lost begins the next try. After a removal that left a tomb it climbs.
//!
//! Computed are `Finding` of `machine_model`, and of its `Operations` how the programs of a call on one key lead into each
//! other.
#![tactic(auto)]

mod ahead;
mod below;
mod key_op;
mod laws;
mod path;
mod repairs;
mod went;

pub use contract::{
    Heap, KeyCall, Publication, Ref, bitmap_at, entries_at, entry_at, flag_of, generation_at,
    key_at, main_at, make_changed, node_at, release_all,
};
pub use key_finding::{KeyReply, Todo, absent_reply, changed_reply, inserts, when_found};
pub use key_op::{BelowAt, KeyAt, KeyOp};
pub use laws::{acts_of_key, tells_key};
