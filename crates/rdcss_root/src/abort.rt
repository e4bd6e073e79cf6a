//! ABORT: gives the generation of the root, and takes back an offer that stands in its way.

ghost use Rattle.std.specs.Prelude.{◌≡◌};
ghost use Rattle.rdcss_root.specs.Beneath.slot_arena.specs.declared.refs.Ref.{Ref};
ghost use Rattle.rdcss_root.specs.Holding.{Moves};
ghost use Rattle.rdcss_root.specs.Tables.{word_in, aborted_in};
ghost use Rattle.rdcss_root.specs.Programs.{AbortsOn, CanAbortOn, table_after_abort};

use crate::roots::Roots;
use trie_parts::{Descriptor, Heap, Kind, Next, RootWord, generation_at};

/// An ABORT of a READ that wants the generation of the root.
#[derive(Clone, Copy)]
pub enum AbortRead {
    /// Reads the root word.
    Read,
    /// This offer stands there: takes it back.
    Swap(Descriptor),
}

impl AbortRead {
    /// Takes its next step.
    pub fn step(&mut self, roots: &mut Roots, handle: u16, heap: &mut Heap) -> Next<u64>
        requires { CanAbortOn heap.old roots.old self.old }
        ensures follows { (indirection : Ref) → (main : Ref) → (previous : Ref) → AbortsOn heap.old.heap (word_in roots.old handle) self.old self.new result indirection main previous }
        ensures table { roots.new ≡ table_after_abort roots.old handle self.old }
        ensures moves { Moves heap.old heap.new roots.old.roots roots.new.roots 4 }
    {
        match &*self {
            AbortRead::Read => self.read(roots, handle, heap),
            AbortRead::Swap(offer) => {
                let offer = *offer;
                roots.take_back(heap, handle, &offer);
                *self = AbortRead::Read;
                Next::More(Kind::SwapRoot)
            }
        }
    }

    fn read(&mut self, roots: &Roots, handle: u16, heap: &Heap) -> Next<u64>
        ensures { (indirection : Ref) → (main : Ref) → (previous : Ref) → AbortsOn heap.now.heap (word_in roots.now handle) AbortRead.Read self.new result indirection main previous }
    {
        match roots.word(handle) {
            RootWord::Plain(root) => {
                *self = AbortRead::Read;
                Next::Done(Kind::ReadRoot, generation_at(heap, root))
            }
            RootWord::Offer(offer) => {
                *self = AbortRead::Swap(offer);
                Next::More(Kind::ReadRoot)
            }
        }
    }
}
