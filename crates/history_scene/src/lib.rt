//! The picture of a history and its order, as a scene of shapes: a bar for each operation, in a lane of its actor.
#![tactic(auto)]

mod bars;
mod colours;
mod lanes;
mod late;
mod scenes;
mod stands;

pub use colours::Colour;
pub use scenes::{Bar, Scene, Stand, has_each_operation, scene_of};
