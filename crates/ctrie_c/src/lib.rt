//! Maps of numbers with snapshots, for C: the headers in `include` declare what is here.
#![tactic(auto)]

mod changing;
mod codes;
mod comparing;
mod concurrent_changing;
mod concurrent_codes;
mod concurrent_making;
mod concurrent_reading;
mod concurrent_trying;
mod copying;
mod counts;
mod filling;
mod handles;
mod held;
mod held_callers;
mod held_seats;
mod listing;
mod loose;
mod making;
mod reading;
mod scanning;
mod shared_changing;
mod shared_making;
mod shared_reading;
mod shared_scanning;
mod sharing;
mod threading;
mod trying;
mod version;
