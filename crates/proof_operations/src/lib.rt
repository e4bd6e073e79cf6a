//! What a body may rely on of running operations: their ids, the handle numbers that they take, how long their lists get (`specs/Laws`).
#![tactic(auto)]

mod laws;

pub use laws::{ids_apart, lists_have_room, numbers_stay, privates_are_short};
