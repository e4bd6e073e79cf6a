//! Tests of the map on words. They stand in a crate of their own, so that its accesses aren't proved once more for them.
#![tactic(auto)]

#[cfg(test)]
mod opening;
#[cfg(test)]
mod reuse;
#[cfg(test)]
mod scans;
#[cfg(test)]
mod tries;
#[cfg(test)]
mod wholes;
