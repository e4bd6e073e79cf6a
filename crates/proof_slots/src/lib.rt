//! Laws of the machine's slots. With more of them it takes the same steps, as long as one was free. Without the sweep
//! nothing is freed.
#![tactic(auto)]

mod laws;

pub use laws::{
    few_steps_have_slots, free_at_the_end, more_slots_alike, more_slots_answer, nothing_is_freed,
    slots_are_below_births, slots_are_taken_in_order, slots_tell_apart, wider_alike,
};
