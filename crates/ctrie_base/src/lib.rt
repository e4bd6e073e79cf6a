//! The words that every crate of the map shares: refusals, kinds of steps, hashes of keys, and the
//! path of a hash down the trie.
#![tactic(auto)]

mod hashes;
mod kinds;
mod paths;
mod refusals;
mod ticks;
mod traces;

pub use hashes::{Block, Fold, HashKind, KeyHash, Low, Wide, hash_fits};
pub use kinds::Kind;
pub use paths::flag_position;
pub use refusals::Refusal;
pub use ticks::Ticks;
pub use traces::{Change, Trace};
