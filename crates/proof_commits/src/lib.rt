//! Who decides what: laws of the machine's main words and prev words, over whole runs.
//!
//! `specs/` has the laws as statements. `proofs/` derives them from what memory and roots give of a run (`Known`), in this order:
//! words over time and the turns by which actors read and write them, apart from the machine (`Words`); that each line of each program is
//! such a turn (`Lines`); what is final, how logical main nodes change, who has a licence to commit, what a READ gives and how a SWAP
//! comes out (`Course`), and what this says of the machine's own heap (`Course.OfLists`).
#![tactic(auto)]

mod laws;

pub use laws::{
    checked_is_decided, decided_for_good, fresh_is_unmet, mains_change_by_commits, moment_is_first,
    pending_has_owner, prev_words_change, replaced_for_good, tombs_stay,
};
