//! Tests of the machine by its public calls. They stand in a crate of their own, so that the machine isn't proved
//! once more for them.
#![tactic(auto)]

#[cfg(test)]
mod alone;
#[cfg(test)]
mod calls;
#[cfg(test)]
mod endings;
#[cfg(test)]
mod reserving;
