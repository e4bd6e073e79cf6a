//! What the machine's memory is like in every reachable state: laws of the definition in `machine_model`.
//!
//! `specs/Wants` says what each line of each program takes its references for, `specs/Levels` at which level a node stands. `proofs/` shows
//! what a step does to the heap (`Heap`), what a claim on a reference gives (`Claims`), that what a line wants gives what its step and the line
//! after it want (`Lines`), so that all references are safe in each state (`Safety`); then that limbo is exact (`Limbo`), and that each node has
//! a level for life, by which no operation comes to the impossible line (`Levels`).
#![tactic(auto)]

mod laws;

pub use laws::{
    births_never_repeat, each_lookup_finds, freed_when_zero_for_two_epochs, limbo_is_right,
    lines_live, never_impossible, privates_once, reclaimed, references_in_use, sizes_stay,
    sweep_leaves,
};
