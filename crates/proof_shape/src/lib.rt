//! The shape of the trie in every reachable state: where each node stands, what may stand there, and what lines know of it.
//!
//! `specs/Lines` says what the lines of running operations know of the nodes that they have read and made, and who commits what;
//! `specs/Sites` gives each node its level and the part of a hash that leads to it, for life. `proofs/` shows of each run: what is read and
//! made, and since when (`Runs`), what lines know (`Lines`), what operations made and nobody else can read yet (`Held`), what may be read
//! (`Opened`), who commits what (`Commits`); that each node stands at its site (`Sites`), that no branch below a root is left empty or with
//! one single alone (`Full`), and so the shape of the trie (`Shaped`).
#![tactic(auto)]

mod laws;

pub use laws::{
    branches_are_exact, branches_below_roots, contents_agree, lists_are_crowds, looking_finds,
    no_key_twice, paths_are_short, roots_have_branches, sites_are_fixed,
};
