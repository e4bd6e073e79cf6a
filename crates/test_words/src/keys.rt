//! Keys that stand deep in the trie, or in one list.

ghost use Rattle.std.specs.Prelude.{◌<◌};

use ctrie_base::HashKind;

/// How far a number below 16 is shifted so that it is the last four bits of a hash, which the last two levels of the trie look at: the 6th
/// and the 7th of 32 bits, and of 64 bits the 13th alone.
fn depth(hash: HashKind) -> u32
    ensures { result < 64 }
{
    match hash {
        HashKind::Low | HashKind::Fold => 28,
        HashKind::Wide | HashKind::Block => 60,
    }
}

/// The key of this number, below 16, of a group, below 64. Those of one group part at the last levels.
pub fn deep_key(hash: HashKind, group: u64, number: u64) -> u64 {
    number % 16 << depth(hash) | group % 64 << 8
}

/// The key of this number, below 64, of a group, below 64. Those of one group have one hash, but for `Wide`, where no two keys have.
pub fn listed_key(hash: HashKind, group: u64, number: u64) -> u64 {
    let (group, number) = (group % 64, number % 64);
    match hash {
        HashKind::Low | HashKind::Wide => number << 32 | group << 8 | 1,
        HashKind::Fold => number << 32 | (number ^ (group << 8 | 1)),
        HashKind::Block => 1 << 40 | group << 6 | number,
    }
}
