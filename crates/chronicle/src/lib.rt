//! The record of a machine: the history, and what places operations in the legal order. It is told what each step tells,
//! and each question is answered without a search.
//!
//! | Module | What | Kept |
//! |---|---|---|
//! | `commits` | the step in which a main node was committed | by the node's slot, while it names the node |
//! | `publications` | whose change a main node is that was to be swapped in | by the node's slot, while it names the node |
//! | `closings` | the step that closed a generation | by the generation's number |
//! | `ordered` | the places, and who has one | in segments (`places`); by the operation's id |
//! | `moments` | what is known of the READs of an actor's operation | by the actor |
//! | `placing` | the place of an operation, computed from its moment and the closing of its generation | |
//! | `chronicle` | all of it together, with the history | |
//!
//! What the definition keeps for ever of commits, publications and closings stands in lists that clauses alone see.
#![tactic(auto)]

mod chronicle;
mod closings;
mod commits;
mod moments;
mod ordered;
mod placing;
mod publications;
mod room;

pub use chronicle::Chronicle;
