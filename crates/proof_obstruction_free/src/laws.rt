//! The laws of operations whose actor alone takes steps.

pub mod endings;
pub mod programs;
