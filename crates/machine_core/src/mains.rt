//! Logical main nodes and positions, looked up without a condition.

ghost use Rattle.std.specs.Prelude.{◌≡◌};
ghost use Rattle.slot_arena.specs.Heaps.{logical_main};
ghost use Rattle.ctrie_base.specs.Paths.{position_of};

use epochs::Heap;
use running::main_at;
use slot_arena::{Prev, Ref};

/// The logical main node of an indirection: the one before the main node while that is pending or failed.
pub fn logical_main(heap: &Heap, indirection: Ref) -> Ref
    ensures { result ≡ logical_main heap.now.heap indirection }
{
    let main = main_at(heap, indirection);
    match heap.stored_prev(main) {
        Prev::None => main,
        Prev::Pending(previous) | Prev::Failed(previous) => previous,
    }
}

/// The position of a flag's entry in a branch: how many lower flags its bitmap has. Also of no flag, of which that of `nodes` asks that it isn't.
pub fn position_of(flag: u32, bitmap: u32) -> usize
    ensures { result ≡ position_of flag bitmap }
{
    (bitmap & flag.saturating_sub(1)).count_ones() as usize
}
