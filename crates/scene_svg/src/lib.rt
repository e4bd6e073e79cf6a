//! The text of a scene as an SVG 1.1 document.
#![tactic(auto)]

mod bars;
mod document;
mod escape;
mod geometry;
mod laws;
mod marks;
mod style;

pub use document::SceneSvg;
pub use laws::is_harmless;
