//! Repairs of the trie, which leave its content alone: the renewing, the cleaning and the contraction of the concurrent
//! trie with snapshots (Ctrie: A. Prokopec, N. G. Bronson, P. Bagwell, M. Odersky).
//!
//! After a snapshot the new root's generation differs from that of what stands below it. A writable operation that comes
//! to an older indirection renews the branch: each such entry is read by READ, so that what is pending below it is decided
//! while its own generation still counts, and gets an indirection of the root's generation over what that gave; one GCAS
//! puts the new branch in the old one's place. Where a removal has left a tomb, no writable operation goes on before it is
//! gone: the tomb's single takes its place in the branch above, by one GCAS as well. A removal climbs for that itself, as
//! far up as tombs come about, and gives up where it may; whoever meets a tomb that was left cleans. Each entry is looked
//! at in a step of its own, and each READ is one step a word, so that nobody who stands beside it waits.
//!
//! Computed are `Renewing`, `Cleaning` and, but for its ROOT, `Climbing` of `machine_model`, and the SWAPs of the three.
#![tactic(auto)]

mod clean;
mod climb;
mod renew;

pub use clean::{Clean, CleanAt, Cleaned};
pub use climb::{Climb, ClimbAt, Climbed};
pub use renew::{Renew, RenewAt, Renewed};
pub use trie_parts::{
    Access, Entrant, HashKind, Heap, KeyCall, Kind, Next, NodeRef, Private, Publication, Ref, Swap,
    Task, Work, above, bitmap_at, current, entries_at, entry_at, flag_of, generation_at,
    is_below_root, key_at, main_at, make_changed, node_at, release_all,
};
