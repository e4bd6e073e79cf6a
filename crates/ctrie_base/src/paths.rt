//! The path of a hash down the trie.

ghost use Rattle.std.specs.Prelude.{◌≡◌, ◌<◌};
ghost use Rattle.ctrie_base.specs.Paths.{flag_at, position_of};

/// The flag of a hash at a level (0, 5, 10, ..), and the position of that flag's entry in a branch
/// with this bitmap: the number of its flags below.
pub fn flag_position(hash: u64, lev: u32, bitmap: u32) -> (u32, usize)
    requires { lev < 64 }
    ensures flag { result.0 ≡ flag_at hash lev }
    ensures position { result.1 ≡ position_of result.0 bitmap }
{
    let flag = 1u32 << ((hash >> lev) & 31);
    let below = bitmap & (flag - 1);
    (flag, below.count_ones() as usize)
}
