//! A map that threads share, for programs: each call of a seat is made in single steps, under no lock, and one order explains them all.
#![tactic(auto)]

mod access_calls;
mod copy_calls;
mod finishing;
mod handles;
mod key_calls;
mod laws;
mod maps;
mod room;
mod scans;
mod seats;
mod tries;
mod walk_calls;

pub use ctrie_base::HashKind;
pub use handles::Handle;
pub use history::{Access, Call, Reply};
pub use laws::{
    exports_are_of_the_freeze, no_count_is_lost, scans_list_one_moment, tasks_are_done_once,
};
pub use lock_free::{CallError, OpenError, Sizes};
pub use maps::ConcurrentMap;
pub use room::sizes_for;
pub use scans::{MapScan, MapScanned};
pub use seats::MapSeat;
pub use tries::{MapTried, ParkedMapSeat};
