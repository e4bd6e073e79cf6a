//! The laws of the order.

pub mod openings;
pub mod orders;
