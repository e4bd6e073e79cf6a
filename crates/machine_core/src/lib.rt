//! The machine's state on the heap that counts references, and its steps: what `Core::{begin, go, end, sweep}` do is what
//! the definition's `next` (`machine_model`, `Machine`) says, and what they tell is what its `told_in` (`Tellings`) says. An
//! operation stays in its place and is changed there, by its programs (`running`); what they don't know of it stands beside
//! them (`UnderWay`). Nothing is recorded of what was done.
//!
//! | Module | What | Of the definition |
//! |---|---|---|
//! | `parts` | all that a machine remembers | `States` |
//! | `beginning`, `going`, `ending`, `sweeping` | a begin, a step of an operation, its end, a step of the sweep | `Machine`, `Acting` |
//! | `telling` | what steps tell | `Tellings` |
//! | `stepping`, `denials`, `settling` | denials first, then the step, then limbo | `Machine`, `Counting` |
//! | `rooming` | memory for what a walk meets | none: the definition knows no memory |
//! | `counting`, `picking`, `listing`, `scanning`, `comparing`, `differing` | what is told of maps without a list of all; `selection`, `selecting`, `entries` help | `Contents` |
//! | `straight`, `descending`, `changing`, `pairing`, `drafting` | calls that run alone, at once: all of one, the way down to a key, changes, the heap | what its steps come to (`proof_straight`) |
//! | `renewing` | the branches that such a call renews on its way down | the same, and what it finds after that |
//! | `copying`, `rooting` | the same of snapshots, freezes, clears and closes: all of one, the root words | the same |
#![tactic(auto)]

mod actors;
mod asked;
mod beginning;
mod calls;
mod changing;
mod comparing;
mod contents;
mod copying;
mod counting;
mod denials;
mod descending;
mod differing;
mod drafting;
mod ending;
mod entries;
mod finding;
mod going;
mod handles;
mod listing;
mod machine;
mod mains;
mod pairing;
mod parts;
mod picking;
mod reading;
mod renewing;
mod rooming;
mod rooting;
mod scanning;
mod selecting;
mod selection;
mod settling;
mod starting;
mod stepping;
mod straight;
mod sweeping;
mod telling;

pub use asked::Step;
pub use calls::key_fits;
pub use differing::Difference;
pub use machine::Core;
pub use starting::LONGEST_LIFE;
pub use telling::{Begun, Ended, Stepped};
