//! What an operation has in hand while it changes the map.

ghost use Rattle.std.specs.Prelude.{◌≡◌, None};
ghost use Rattle.trie_parts.specs.Beneath.machine_model.specs.Operations.{swapping_read};
ghost use Rattle.trie_parts.specs.Beneath.machine_model.specs.Reading.{read_action};
ghost use Rattle.trie_parts.specs.Beneath.machine_model.specs.Swapping.{swap_action};
ghost use Rattle.gcas.specs.Reads.{CanReadOn, IsAskingRoot, line_of, read_of};
ghost use Rattle.gcas.specs.Swaps.{swap_of, SwapsOn, CanSwapOn};
ghost use Rattle.trie_parts.specs.Holding.{Acts, AreHeld};
ghost use Rattle.trie_parts.specs.Steps.{IsLast, ReadsInside};

use crate::private::Private;
use gcas::{Heap, Next, Swap, SwapAt};
use nodes::Ref;

/// What an operation has in hand while it changes the map: the slots that it made in its running try, and
/// one READ and SWAP, kept in place.
#[derive(Drop)]
pub struct Work {
    pub private: Private,
    pub swap: Swap,
}

impl Work {
    /// Takes the READ's next step, unless it has to be told the generation of the root first.
    #[inline(always)]
    pub fn read(&mut self, heap: &mut Heap, root_seen: Option<u64>) -> Next<Ref>
        requires { CanReadOn heap.old.heap self.old.swap.read }
        ensures follows { ReadsInside heap.old.heap self.old.swap.read.access (read_of self.old.swap.read root_seen) self.new.swap.read result }
        ensures same { self.new ≡ record self.old { swap = record self.old.swap { read = record self.old.swap.read { at = self.new.swap.read.at } } } }
        ensures acts { Acts heap.old self.old.private (read_action self.old.swap.read.indirection (line_of self.old.swap.read root_seen)) heap.new self.new.private }
        ensures asks { IsAskingRoot result → (self.new ≡ self.old) × (heap.new ≡ heap.old) }
    {
        self.swap.read.step(heap, root_seen)
    }

    /// Takes the SWAP's next step, unless it has to be told the generation of the root first. With its first
    /// step, which swaps the last of the private slots in or fails to, all of them are given up: what stands
    /// in the trie by now is referred to from there.
    #[inline(always)]
    pub fn swap(&mut self, heap: &mut Heap, root_seen: Option<u64>) -> Next<bool>
        requires can { CanSwapOn heap.old.heap self.old.swap }
        requires held { AreHeld self.old.private heap.old }
        ensures follows { SwapsOn heap.old.heap self.old.swap.read.access (swap_of self.old.swap root_seen) self.new.swap result }
        ensures same { self.new.swap ≡ record self.old.swap { read = record self.old.swap.read { at = self.new.swap.read.at }; at = self.new.swap.at } }
        ensures acts { Acts heap.old self.old.private (swap_action (swap_of self.old.swap root_seen)) heap.new self.new.private }
        ensures asks { IsAskingRoot result → (self.new ≡ self.old) × (heap.new ≡ heap.old) }
        ensures last { IsLast result → swapping_read self.old.swap.read.indirection (swap_of self.old.swap root_seen).line ≡ None }
    {
        let is_first = matches!(&self.swap.at, SwapAt::Publish);
        let next = self.swap.step(heap, root_seen);
        if is_first {
            self.private.give_up(heap);
        }
        next
    }
}
