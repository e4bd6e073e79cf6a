//! Histories of calls on a map, the worlds that explain their replies, and an exact checker of orders.
#![tactic(auto)]

mod calls;
mod changes;
mod content;
mod events;
mod faults;
mod handles;
mod obstacles;
mod orders;
mod replies;
mod tables;
mod worlds;

pub use calls::{Access, Call};
pub use events::Event;
pub use faults::{Obstacle, OrderFault};
pub use orders::{first_fault, has_one_first_fault, is_order, leads_to_one_world};
pub use replies::{Pairs, Reply};
pub use tables::{Row, Table, reply_at};
pub use worlds::{World, reply_of};
