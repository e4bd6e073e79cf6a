//! Words that are numbers, and those that name a hash.

use ctrie_base::HashKind;

/// The number that a word is.
pub fn number(word: Option<&String>) -> Option<u64> {
    word.and_then(|word| word.as_str().parse().ok())
}

/// How many threads a word names, 1 to 64.
pub fn threads(word: Option<&String>) -> Option<u8> {
    match number(word)? {
        count @ 1..=64 => Some(count as u8),
        _ => None,
    }
}

/// The hash that a word names.
pub fn hash(word: Option<&String>) -> Option<HashKind> {
    match word?.as_str() {
        "low" => Some(HashKind::Low),
        "fold" => Some(HashKind::Fold),
        "wide" => Some(HashKind::Wide),
        "block" => Some(HashKind::Block),
        _ => None,
    }
}
