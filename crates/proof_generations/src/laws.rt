//! The laws of generations.

pub mod falling;
pub mod roots;
