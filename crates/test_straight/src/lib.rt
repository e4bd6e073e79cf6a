//! Tests of calls that are carried out at once, beside the same calls step by step. They stand in a crate of their own, so that
//! the machine isn't proved once more for them.
#![tactic(auto)]

#[cfg(test)]
mod beside;
#[cfg(test)]
mod draws;
#[cfg(test)]
mod kinds;
