//! Tests of `ctrie_base`, `history`, `counted_io` and the crates of pictures, through what they offer. What the program writes and
//! tells of texts is compared by `tests/texts`.
#![tactic(auto)]

#[cfg(test)]
mod pictures;
#[cfg(test)]
mod streams;
#[cfg(test)]
mod words;
#[cfg(test)]
mod worlds;
