//! OFFER: puts an offer into the root word.

ghost use Rattle.std.specs.Prelude.{◌≡◌};
ghost use Rattle.rdcss_root.specs.Beneath.slot_arena.specs.Arenas.{AreLive};
ghost use Rattle.rdcss_root.specs.Beneath.machine_model.specs.Counting.{refs_of_word};
ghost use Rattle.rdcss_root.specs.Beneath.machine_model.specs.Swapping.{is_plain};
ghost use Rattle.rdcss_root.specs.Holding.{IsReady, Moves};
ghost use Rattle.rdcss_root.specs.Tables.{word_in, offered_in};

use crate::roots::Roots;
use trie_parts::{Descriptor, Heap, Kind, Next, RootWord};

/// An offer that is to be put into a root word.
#[derive(Clone, Copy)]
pub struct Offer {
    pub descriptor: Descriptor,
}

impl Offer {
    /// Puts it there, in the name of this actor, if its root still stands there with no offer. It gives whether it
    /// did.
    pub fn step(&self, roots: &mut Roots, handle: u16, actor: u8, heap: &mut Heap) -> Next<bool>
        requires live { AreLive heap.old.heap (refs_of_word (RootWord.Offer self.now.descriptor)) }
        requires ready { IsReady heap.old roots.old.roots 4 }
        ensures done { result ≡ Next.Done Kind.SwapRoot (is_plain (word_in roots.old handle) self.now.descriptor.root) }
        ensures table { roots.new ≡ offered_in roots.old handle actor self.now.descriptor }
        ensures moves { Moves heap.old heap.new roots.old.roots roots.new.roots 4 }
    {
        Next::Done(
            Kind::SwapRoot,
            roots.offer(heap, handle, actor, self.descriptor),
        )
    }
}
