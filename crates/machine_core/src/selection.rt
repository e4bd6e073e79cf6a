//! The least pairs of many, as many as are wanted.

ghost use Rattle.std.specs.Prelude.{◌≡◌, ◌≤◌, []};
ghost use Rattle.std.specs.BinaryHeap.{IsHeap, heap_items, heap_len};
ghost use Rattle.std.proofs.Props.{props};
ghost use Rattle.proof_core.specs.Reading.{by_both};

use std::alloc::Global;
use std::collections::BinaryHeap;

/// The pairs with the least keys of those that come after a cursor, `room` of them at most.
#[derive(Drop)]
pub struct Selection {
    /// The cursor: a key, or none where each key comes after it.
    pub after: Option<u64>,
    pub room: usize,
    /// The greatest one is the first to leave.
    pub pairs: BinaryHeap<(u64, u64)>,
    ghost ordered: { IsHeap by_both (heap_items pairs) } by { Prim.hlevel props },
    ghost few: { heap_len pairs ≤ room } by { Prim.hlevel props },
}

impl Selection {
    /// Nothing selected yet.
    pub fn new(alloc: Global, after: Option<u64>, room: usize) -> Selection
        ensures nothing { heap_items result.pairs ≡ [] }
        ensures after { result.after ≡ after }
        ensures room { result.room ≡ room }
    {
        Selection {
            after,
            room,
            pairs: BinaryHeap::new(alloc),
        }
    }
}
