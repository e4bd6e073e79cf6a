//! The entries of a main node, taken one by one, each beside the one in the same place of another main node.

ghost use Rattle.std.specs.Prelude.{◌≡◌, ◌<◌, ◌++◌, true, nat_lt, length};
ghost use Rattle.slot_arena.specs.Heaps.{refs_of_option};
ghost use Rattle.proof_core.specs.Comparing.{entries_below};

use epochs::Heap;
use running::{bitmap_at, entries_at};
use slot_arena::Ref;

/// What is left of the entries of a main node.
#[derive(Drop)]
pub struct Left<'a> {
    /// The flags of these in a branch. They tell which entries stand in one place; that each is taken once doesn't rest on them.
    flags: u32,
    pub entries: &'a [Ref],
}

impl<'a> Left<'a> {
    /// All entries of a main node; none where there is none.
    pub fn of(heap: &'a Heap, main: Option<Ref>) -> Left<'a>
        ensures { result.entries.now ≡ entries_below heap.now.heap main }
    {
        match main {
            None => Left {
                flags: 0,
                entries: &[],
            },
            Some(main) => Left {
                flags: bitmap_at(heap, main),
                entries: entries_at(heap, main),
            },
        }
    }

    /// Whether one is left.
    pub fn is_some(&self) -> bool
        ensures { result ≡ nat_lt 0 (length self.now.entries.now) }
    {
        !self.entries.is_empty()
    }

    /// The index of the next entry in its branch; 32 for one of no branch, and where none is left.
    pub fn index(&self) -> u32 {
        self.flags.trailing_zeros()
    }

    /// Takes the next entry, if it is wanted.
    pub fn take_if(&mut self, is_wanted: bool) -> Option<Ref>
        ensures entries { refs_of_option result ++ self.new.entries.now ≡ self.old.entries.now }
        ensures fewer { is_wanted ≡ true → 0 < length self.old.entries.now → length self.new.entries.now < length self.old.entries.now }
    {
        if !is_wanted {
            return None;
        }
        let (first, rest) = self.entries.split_first()?;
        self.flags &= self.flags.wrapping_sub(1);
        self.entries = rest;
        Some(*first)
    }
}
