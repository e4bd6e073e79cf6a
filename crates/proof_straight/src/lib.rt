//! What a call that runs alone comes to: the state after it in closed form, its answer, and what is recorded of it.
//!
//! `specs/Running` says what that means and when a call is ready for it, `specs/Drafts`, `specs/Changes` and `specs/Copies` what it brings about, `specs/Recorded` what
//! is recorded, `specs/Places` where a call on one key comes to, `specs/Renewals` how it
//! renews a branch on its way. `proofs/` goes from one step (`Steps`) by the way down (`Way`) and the nodes that are made and swapped in (`Change`) to the laws on one
//! key, and over steps that change roots (`Roots`) to the others. Once a call has renewed a branch it goes on like one in the state that this leaves (`Renewal`). `Runs`
//! leads from runs to what the laws ask of a state, and from what calls come to back to runs.
#![tactic(auto)]

mod laws;

pub use laws::{
    answers_straight, clears_straight, closes_straight, comes_by_run, contracts_straight,
    crowded_straight, free_slots_empty, freezes_straight, inserts_straight, limbo_up_to_date,
    misses_straight, parts_straight, passes_renewal, removes_straight, renews_straight,
    sets_straight, snapshots_straight,
};
