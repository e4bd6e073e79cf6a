//! The calls that take the map as a whole. Each call of a `step` takes one atomic step, in place.
//!
//! `CopyOp` is the snapshot of Prokopec, Bronson, Bagwell and Odersky's Ctrie: a root of a new generation is made over the old
//! root's main node, and takes its place by RDCSS where that main node is still the old root's. So both maps have the same
//! content at that moment, and share all nodes; later each copies what it writes, as it meets indirections of an older
//! generation. A writable snapshot makes a second root of a generation of its own, for the handle that it opens; a freeze
//! opens the old root itself, whose generation is closed with the swap, so that nothing is committed in it any more. A clear
//! makes the new root over an empty branch. What is made is held from outside until it is offered: an offer that is lost or
//! taken back leaves nothing behind, and the call begins anew. Whether it was carried out the call reads from its mark, since
//! another may have completed it. So the work doesn't grow with the map.
//!
//! `Walk` goes through a frozen map by depth first, for all pairs or for their number. Nothing is committed there any more,
//! so that what a READ gives is the content at the freeze, whenever the walk comes by. The entries that are left stand in a
//! stack, the next one on top. This stack and the pairs that were met are all that takes memory: `Walk::make_room` asks for
//! it before a step, so that no step is refused.
//!
//! Computed are the definition's `Copying`, with ROOT in its first line, and its `Walking`: `specs/Copies` and `specs/Walks`
//! say which line the code's program stands for. A new root draws a generation: `specs/Tasks` says how.
#![tactic(auto)]

mod copy_op;
mod laws;
mod made;
mod taken;
mod tasks;
mod todo;
mod walk;

pub use copy_op::{CopyAt, CopyOp, Making};
pub use history::{Access, Reply};
pub use laws::{draws_generations, tells_copy, tells_walk};
pub use root_asking::{Asking, Next, ReadAt, Roots, opened_root};
pub use tasks::{CopyCall, CopyReply, CopyTask, WalkCall};
pub use walk::{Walk, WalkAt, Walked, root_of};
