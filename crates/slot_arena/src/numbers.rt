//! The numbers of an arena.

ghost use Rattle.std.specs.Prelude.{◌≡◌, ◌+◌, ◌≤◌, length};
ghost use Rattle.slot_arena.specs.Refs.{most_slots};
ghost use Rattle.slot_arena.specs.Heaps.{in_use};

use crate::arena::Arena;
use ctrie_base::Ticks;

impl Arena {
    /// How many slots there are.
    pub fn len(&self) -> usize
        ensures size { result ≡ length self.now.heap.slots }
        ensures few { result ≤ most_slots }
    {
        let _ = &self.used;
        self.cells.len()
    }

    /// How many slots are free.
    pub fn free_slots(&self) -> u32
        ensures { result ≡ length self.now.heap.free }
    {
        self.cells.len() as u32 - self.used
    }

    /// How many slots are in use. These and the free ones are all slots.
    pub fn used(&self) -> u32
        ensures used { result ≡ length (in_use self.now.heap) }
        ensures sum { result + length self.now.heap.free ≡ length self.now.heap.slots }
    {
        self.used
    }

    /// How many births were drawn.
    pub fn births(&self) -> u64
        ensures { result ≡ self.now.heap.births }
    {
        self.births
    }

    /// How often a link of the free slots, a count or a note was looked at.
    pub fn ticks(&self) -> Ticks
        ensures { result.count ≡ self.now.ticks }
    {
        Ticks::sum(self.free.ticks(), self.ledger.ticks())
    }
}
