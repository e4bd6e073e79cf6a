//! Tests of the heap and of the order of places, against numbers worked by hand.
#![tactic(auto)]

#[cfg(test)]
mod heaps;
#[cfg(test)]
mod orders;
