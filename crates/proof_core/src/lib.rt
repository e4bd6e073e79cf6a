//! What the core of a machine relies on that names none of its code: what bounds its numbers, what is known of handle numbers, what holds below a root, how pairs are reached.
//!
//! It has no law of its own: `proofs/Lib` says what to cite.
#![tactic(auto)]
