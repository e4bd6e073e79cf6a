//! What the program `ctrie` does with a history of a map, as calls over any reader and writer: it is judged,
//! explained and drawn, and an order is looked for. And why a command fails.
#![tactic(auto)]

mod checking;
mod drawing;
mod explaining;
mod faults;
mod ordering;

pub use checking::check_history;
pub use drawing::draw_history;
pub use explaining::explain_history;
pub use faults::Fault;
pub use order_search::Search;
pub use ordering::order_history;
