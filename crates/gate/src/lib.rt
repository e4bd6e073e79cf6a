//! An object that threads share: a gate lets in one of its seats at a time, for one call, and a log that
//! clauses alone see tells of all calls in their order.
#![tactic(auto)]

mod boards;
mod calling;
mod finishing;
mod gates;
mod holding;
mod laws;
mod marks;
mod naming;
mod objects;
mod opening;
mod rules;
mod seats;
mod waiting;

pub use gates::Gate;
pub use laws::{
    a_call_is_one_entry, calls_keep_a_log_legal, logs_go_on, others_leave_own_calls,
    seats_make_the_log, told_calls_stand_before,
};
pub use marks::{Mark, Tells};
pub use naming::{Name, NamedGate, NamedSeat};
pub use objects::{Entry, Object};
pub use rules::{Cut, Gather, Part, Sit, View};
pub use seats::{HoldsSeat, Seat};
pub use waiting::{SHORT_WAITS, Waiting, short_pause};
