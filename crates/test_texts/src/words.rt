//! Hashes, against a table written by hand, and what counts in clauses alone.

use ctrie_base::{Block, Fold, HashKind, KeyHash, Low, Ticks, Trace, Wide, hash_fits};

/// A key, and its hashes of the kinds low, fold, wide and block.
static HASHES: [(u64, u64, u64, u64, u64); 5] = [
    (0, 0, 0, 0, 0),
    (127, 127, 127, 127, 1),
    (4294967297, 1, 0, 4294967297, 67108864),
    (21474836487, 7, 2, 21474836487, 335544320),
    (
        18446744073709551615,
        4294967295,
        0,
        18446744073709551615,
        288230376151711743,
    ),
];

#[test]
fn hashes_keys(rt: HostRuntime) {
    for (key, low, fold, wide, block) in &HASHES {
        assert_eq!(rt; HashKind::Low.hash(*key), *low);
        assert_eq!(rt; HashKind::Fold.hash(*key), *fold);
        assert_eq!(rt; HashKind::Wide.hash(*key), *wide);
        assert_eq!(rt; HashKind::Block.hash(*key), *block);
        assert_eq!(rt; Low::hash(*key), *low);
        assert_eq!(rt; Fold::hash(*key), *fold);
        assert_eq!(rt; Wide::hash(*key), *wide);
        assert_eq!(rt; Block::hash(*key), *block);
    }
    hash_fits();
}

fn crosses_threads<T: Send + Sync>(_value: &T) {}

#[test]
fn counts_without_bytes(rt: HostRuntime) {
    let mut ticks = Ticks::new();
    ticks.add();
    let both = Ticks::sum(&ticks, &Ticks::new());
    crosses_threads(&both);
    assert_eq!(rt; size_of::<Ticks>(), 0);
    assert_eq!(rt; size_of::<Trace<u64>>(), 0);
}
