//! The levels of the trie, each of which stands for five bits of a hash.

ghost use Rattle.std.specs.Prelude.{◌≡◌, ◌-◌, ◌<◌, ◌≤◌};
ghost use Rattle.nodes.specs.Beneath.ctrie_base.specs.Paths.{position_of};
ghost use Rattle.nodes.specs.Levels.{list_depth, index_in, flag_of, has_flag, parting};

use slot_arena::HashKind;

/// The depth below all levels of a hash, where lists stand.
pub fn list_depth(kind: HashKind) -> usize
    ensures depth { result ≡ list_depth kind }
    ensures most { result ≤ 13 }
{
    (kind.bits() as usize).div_ceil(5)
}

/// The index of a hash at a depth, below 32; below all levels it is 0.
#[tactic(auto, using(crate::proofs::Depths::spent))]
pub fn index_in(hash: u64, depth: usize) -> u32
    ensures index { result ≡ index_in hash depth }
    ensures below { result < 32 }
{
    if depth > 12 {
        return 0;
    }
    ((hash >> (5 * depth)) & 31) as u32
}

/// The flag of that index.
pub fn flag_of(hash: u64, depth: usize) -> u32
    ensures flag { result ≡ flag_of hash depth }
    ensures some { 0 < result }
{
    1 << index_in(hash, depth)
}

/// Whether a branch's bitmap has the flag.
pub fn has_flag(bitmap: u32, flag: u32) -> bool
    ensures { result ≡ has_flag bitmap flag }
{
    bitmap & flag != 0
}

/// The position of a flag's entry in a branch of this bitmap: how many lower flags that has.
pub fn position_of(flag: u32, bitmap: u32) -> usize
    requires { 0 < flag }
    ensures position { result ≡ position_of flag bitmap }
    ensures most { result ≤ 32 }
{
    (bitmap & (flag - 1)).count_ones() as usize
}

/// The first depth from `start` on and above `end` at which the hashes have different indices. Where there
/// is none it is `end`, or `start` if that is greater.
pub fn parting(old_hash: u64, hash: u64, start: usize, end: usize) -> usize
    ensures { result ≡ parting (end - start) old_hash hash start }
{
    for depth in start..end {
        if index_in(old_hash, depth) != index_in(hash, depth) {
            return depth;
        }
    }
    start.max(end)
}
