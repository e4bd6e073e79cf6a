//! The laws of contents.

pub mod handles;
pub mod tries;
