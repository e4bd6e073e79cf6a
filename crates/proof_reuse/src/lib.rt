//! When a slot may be used again, whatever the sweep does.
#![tactic(auto)]

mod laws;

pub use laws::{
    failed_own_is_garbage, fresh_is_left_for_good, fresh_is_ones, garbage_dies,
    garbage_is_dead_after_two_epochs, garbage_is_unknown_after_grace, one_takes_its_place,
    replaced_once, replaced_own_is_garbage, swap_ins_bring_nothing_back, swapped_in_is_garbage,
    swapped_out_is_garbage, unlinked_is_garbage,
};
