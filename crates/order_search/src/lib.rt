//! Looks for a legal order of a history, among all orders.
#![tactic(auto)]

mod cells;
mod choosing;
mod failures;
mod searching;
mod walking;
mod worlds;

pub use searching::{Search, find_order};
