//! Tests of the gate: what no clause of it says.
#![tactic(auto)]

mod banks;
#[cfg(test)]
mod counters;
#[cfg(test)]
mod endings;
#[cfg(test)]
mod meanwhile;
#[cfg(test)]
mod numbers;
#[cfg(test)]
mod pools;
#[cfg(test)]
mod threads;
#[cfg(test)]
mod trying;
#[cfg(test)]
mod wanting;
