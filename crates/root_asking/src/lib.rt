//! ABORT inside of a program. A READ that found a pending main node on a writable handle has to be told the generation of the
//! root before it decides that node. The programs leave that to their caller, by `Next::AskRoot`: he takes ABORT's steps by
//! `Asking::step`, and then hands what `Asking::seen` gives to the program's `step`, which uses it up.
//!
//! It is the part of the Ctrie's RDCSS_READ by which a committer meets an offer: he takes the offer back and commits in the
//! old generation, where a call that only wants the root completes it.
//!
//! In the definition these steps are lines of the READ, and so of the program in which it runs. `specs/Reads` of
//! machine_model says for all programs at once what it is that a READ runs in one (`Embeds`), `specs/Asked` on which line
//! the program stands while its READ asks.
#![tactic(auto)]

mod asking;

pub use asking::Asking;
pub use rdcss_root::{
    Complete, Descriptor, Heap, MOST_ENTRIES, Next, Node, NodeRef, Offer, Read, ReadAt, ReadRoot,
    Ref, RootWord, Roots, Work, entries_at, generation_at, node_at, opened_root, renewed,
};
