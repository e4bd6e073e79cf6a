//! Machines and orders with one mistake each, which the definition of a legal order refuses: for each, a
//! short run whose order isn't legal for its history.
#![tactic(auto)]

mod laws;

pub use laws::{
    cleans_without_the_single, commits_without_the_root, late_commit_at_the_end,
    late_read_at_the_end, late_remove_by_the_new_root, order_of_ends, refused_after_its_commit,
    refused_put_in_the_map, refused_put_in_the_order, swaps_without_comparing,
};
