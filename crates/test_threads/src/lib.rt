//! Tests of the runner: what no clause of it says.
#![tactic(auto)]

#[cfg(test)]
mod containers;
#[cfg(test)]
mod endings;
#[cfg(test)]
mod growth;
#[cfg(test)]
mod records;
#[cfg(test)]
mod support;
#[cfg(test)]
mod threads;
#[cfg(test)]
mod turns;
