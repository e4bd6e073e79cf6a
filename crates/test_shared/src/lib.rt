//! Tests of the map that threads share: what no clause of it says.
#![tactic(auto)]

#[cfg(test)]
mod calls;
#[cfg(test)]
mod endings;
#[cfg(test)]
mod kinds;
#[cfg(test)]
mod numbers;
#[cfg(test)]
mod parts;
#[cfg(test)]
mod pools;
#[cfg(test)]
mod shards;
