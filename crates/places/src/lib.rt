//! Places of operations in the order, and the order by them.
#![tactic(auto)]

mod place;
mod places;
mod room;
mod segment;

pub use place::Place;
pub use places::Places;
pub use room::touch_room;
