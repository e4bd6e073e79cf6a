//! Words that are numbers, and the time.

use std::time::{Clock, Instant};

/// The number that a word is.
pub fn number(word: Option<&String>) -> Option<u64> {
    word.and_then(|word| word.as_str().parse().ok())
}

/// Nanoseconds since then, where the clock told both.
pub fn nanos_since<C: Clock>(rt: &C, start: Option<Instant>) -> u128 {
    match start {
        Some(start) => start.elapsed(rt).map_or(0, |time| time.as_nanos()),
        None => 0,
    }
}
