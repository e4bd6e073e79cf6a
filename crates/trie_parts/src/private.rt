//! The slots that an operation made in its running try.

ghost use Rattle.std.specs.Prelude.{◌≡◌, ◌+◌, ◌≤◌, [], length};
ghost use Rattle.trie_parts.specs.Beneath.slot_arena.specs.Heaps.{next_ref};
ghost use Rattle.trie_parts.specs.Beneath.epochs.specs.Memories.{KeepsEpochs};
ghost use Rattle.trie_parts.specs.Beneath.machine_model.specs.declared.actions.Action.TheVariants as act;
ghost use Rattle.trie_parts.specs.Holding.{Acts, AreHeld, KeepsOthers};
ghost use Rattle.trie_parts.specs.Steps.{CanMake};

use arrayvec::ArrayVec;
use gcas::Heap;
use nodes::{MOST_ENTRIES, Node, Ref};
use std::marker::Model;

/// The most slots that one try makes: the links and the branch of a renewed node.
const MOST_MADE: usize = MOST_ENTRIES + 1;

/// The slots that an operation made in its running try, the last one last. Each is held from outside, until
/// all are given up together: where the last one was swapped in or offered, and where no slot is free.
#[derive(Drop)]
pub struct Private {
    items: ArrayVec<Ref, MOST_MADE>,
}

impl Model for Private {
    ghost use Rattle.std.specs.Prelude.{List, ℕ};

    ghost Value = { List ℕ };

    ghost view = { λ p. p.items.items };
}

impl Private {
    /// No slots.
    pub fn new() -> Private
        ensures { result ≡ [] }
    {
        Private {
            items: ArrayVec::new(),
        }
    }

    /// Makes a node. Where no slot is free all that was made before is given up.
    #[inline(always)]
    pub fn make(&mut self, heap: &mut Heap, node: Node) -> Option<Ref>
        requires can { CanMake heap.old.heap self.old node }
        requires held { AreHeld self.old heap.old }
        ensures made { result ≡ next_ref heap.old.heap }
        ensures acts { Acts heap.old self.old (act.Make node) heap.new self.new }
    {
        let made = heap.make_held(node);
        match made {
            Some(at) => self.items.push(at),
            None => self.give_up(heap),
        }
        made
    }

    /// Gives all up.
    pub fn give_up(&mut self, heap: &mut Heap)
        requires held { AreHeld self.old heap.old }
        ensures private { self.new ≡ [] }
        ensures heap { heap.new.heap ≡ heap.old.heap }
        ensures others { KeepsOthers self.old heap.old self.new heap.new }
        ensures epochs { KeepsEpochs heap.old heap.new }
        ensures few { length heap.new.noted ≤ length heap.old.noted + length self.old }
        ensures ticks { heap.new.ticks ≡ heap.old.ticks + length self.old }
    {
        release_all(heap, self.items.as_slice());
        self.items.clear();
    }
}

/// Releases each of these references once.
pub fn release_all(heap: &mut Heap, held: &[Ref])
    requires held { AreHeld held.now heap.old }
    ensures heap { heap.new.heap ≡ heap.old.heap }
    ensures others { KeepsOthers held.now heap.old [] heap.new }
    ensures epochs { KeepsEpochs heap.old heap.new }
    ensures few { length heap.new.noted ≤ length heap.old.noted + length held.now }
    ensures ticks { heap.new.ticks ≡ heap.old.ticks + length held.now }
{
    for at in held {
        heap.release(*at);
    }
}
