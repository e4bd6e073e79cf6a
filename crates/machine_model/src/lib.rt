//! The map's machine as a definition: `specs/` says what one atomic step does. The types here are what
//! the definition speaks of.
//!
//! `specs/Machine` is a step and a run of steps, `specs/Operations` the next action of an operation and the line after it; each program has a
//! file of its own (`Reading`, `Swapping`, `Finding`, `Building`, `Renewing`, `Cleaning`, `Climbing`, `Copying`, `Walking`). `specs/Tellings` is what a
//! step tells, and `specs/Records` what is recorded of a run: the history, and what the order follows from. `specs/Moves` tells
//! the kinds of steps apart, `specs/Times` sees a run as states over time, and `specs/Grown` keeps all nodes that it ever made. `proofs/` has what
//! every proof crate cites of steps, runs and the heap.
#![tactic(auto)]

mod actions;
mod building;
mod copying;
mod finding;
mod laws;
mod lines;
mod operations;
mod reading;
mod records;
mod repairs;
mod roots;
mod runs;
mod steps;
mod walking;

pub use actions::Action;
pub use building::{BuildLine, Change, Site};
pub use copying::CopyLine;
pub use epochs::Heap;
pub use finding::{KeyLine, WhenFound};
pub use history::Access;
pub use laws::{
    begins_reserve_free, each_embeds, giving_up_is_finding_none, least_is_chosen,
    life_changes_nothing, one_slot_a_step, readers_make_nothing, readers_never_refused,
    refused_for_want_alone, slots_add_up, steps_change_one_word, steps_of_reads,
    steps_read_one_word, taken_steps_suffice,
};
pub use lines::{Line, Purpose};
pub use nodes::{Kind, NodeRef, Prev, Ref};
pub use operations::Operation;
pub use reading::{After, Read, ReadLine, Swap, SwapLine};
pub use records::{Carried, Closing, Commit, Entrant, Moment, Progress, Publication, Told};
pub use repairs::{CleanLine, Climb, ClimbLine, RenewLine};
pub use roots::{Complete, CompleteLine, Descriptor, Root, RootLine, RootWord};
pub use runs::{late_put, put_and_get, refused_for_want_of_slots};
pub use steps::{Bounds, Limits, Outcome, Step};
pub use walking::WalkLine;
