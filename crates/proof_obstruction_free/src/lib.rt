//! An operation that alone takes steps ends, within a number of steps that is named: the map is obstruction-free, with a bound.
//!
//! `specs/Alone` says what it is to take steps alone. `proofs/` has a folder for each program (`Read`, `Swap`, `Root`, `Copy`,
//! `Build`, `Renew`, `Clean`, `Climb`, `Reader`): within how many steps it is over, with `Step` for what one step leaves and `Weights` for what
//! others left undecided, which is paid once. `Pass` goes down the trie, level by level. The pass that was under way when its actor was left
//! alone, and the first fresh one, renew each level once: what the one renewed the other needn't (`Inherited`). `Ends` puts it together.
#![tactic(auto)]

mod laws;

pub use laws::endings::{
    alone_it_ends, each_step_leads_to_its_end, enough_slots, enough_slots_for_copies,
    enough_slots_for_tries,
};
pub use laws::programs::{
    cleans_end, climbs_end, closes_end, completes_end, copies_end, readers_end, reads_end,
    renews_end, roots_end, swaps_end,
};
