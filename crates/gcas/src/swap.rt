//! SWAP: puts a fresh main node in the place of another, if that one still stands there.

ghost use Rattle.std.specs.Prelude.{◌≡◌, ℕ, Option, None, is_some};
ghost use Rattle.machine_model.specs.Swapping.{swap_action};
ghost use Rattle.machine_model.specs.Tellings.{published_at};
ghost use Rattle.gcas.specs.Acted.{acted_heap};
ghost use Rattle.gcas.specs.Kept.{KeepsBeside};
ghost use Rattle.gcas.specs.Reads.{CanReadOn, IsAskingRoot, line_of};
ghost use Rattle.gcas.specs.Swaps.{swap_of, swap_with, SwapsOn, CanSwapOn, CanSwapAt};
ghost use Rattle.machine_model.specs.Operations.{kind_of, swapping_read};

use crate::next::Next;
use crate::read::{Read, ReadAt};
use machine_model::{Access, Entrant, Heap, Kind, Prev, Publication, Ref};

/// Where a SWAP stands.
#[derive(Clone, Copy)]
pub enum SwapAt {
    /// Swaps the fresh node into the main word, pending over the replaced one.
    Publish,
    /// Decides it, as a READ from its second line on does.
    Deciding,
    /// Reads how it was decided.
    Check,
}

/// A SWAP in the indirection of its READ. An operation keeps one for all its SWAPs, and may use the READ between
/// them.
#[derive(Clone, Copy)]
pub struct Swap {
    pub read: Read,
    pub replaced: Ref,
    pub fresh: Ref,
    pub at: SwapAt,
}

impl Swap {
    /// A SWAP that hasn't begun.
    pub fn new(access: Access, indirection: Ref, replaced: Ref, fresh: Ref) -> Swap
        ensures { result ≡ record { read = record { access = access; indirection = indirection; at = ReadAt.Main }; replaced = replaced; fresh = fresh; at = SwapAt.Publish } }
    {
        Swap {
            read: Read::new(access, indirection),
            replaced,
            fresh,
            at: SwapAt::Publish,
        }
    }

    /// Begins anew.
    pub fn begin(&mut self, indirection: Ref, replaced: Ref, fresh: Ref)
        ensures { self.new ≡ record { read = record { access = self.old.read.access; indirection = indirection; at = ReadAt.Main }; replaced = replaced; fresh = fresh; at = SwapAt.Publish } }
    {
        self.read.begin(indirection);
        self.replaced = replaced;
        self.fresh = fresh;
        self.at = SwapAt::Publish;
    }

    /// Whether its next step is its READ's.
    pub fn is_reading(&self) -> bool
        ensures { (root_seen : Option ℕ) → result ≡ is_some (swapping_read self.now.read.indirection (swap_of self.now root_seen).line) }
    {
        matches!(&self.at, SwapAt::Deciding)
    }

    /// The main node that its next step is to swap in, if it is such a step, as the change of this operation or of none.
    pub fn published(&self, changer: Option<Entrant>) -> Option<Publication>
        ensures { (root_seen : Option ℕ) → result ≡ published_at changer self.now.fresh (swap_of self.now root_seen).line }
    {
        match &self.at {
            SwapAt::Publish => Some(Publication {
                main: self.fresh,
                changer,
            }),
            SwapAt::Deciding | SwapAt::Check => None,
        }
    }

    /// The kind of its next step, where it was told this of the root's generation.
    pub fn next_kind(&self, root_seen: Option<u64>) -> Kind
        ensures { result ≡ kind_of (swap_action (swap_of self.now root_seen)) }
    {
        match &self.at {
            SwapAt::Publish => Kind::SwapMain,
            SwapAt::Deciding => self.read.next_kind(root_seen),
            SwapAt::Check => Kind::ReadPrev,
        }
    }

    /// Takes its next step, unless it has to be told the generation of the root first. It gives whether the
    /// fresh node was committed.
    #[inline(always)]
    pub fn step(&mut self, heap: &mut Heap, root_seen: Option<u64>) -> Next<bool>
        requires { CanSwapOn heap.old.heap self.old }
        ensures follows { SwapsOn heap.old.heap self.old.read.access (swap_of self.old root_seen) self.new result }
        ensures same { self.new ≡ record self.old { read = record self.old.read { at = self.new.read.at }; at = self.new.at } }
        ensures heap { heap.new.heap ≡ acted_heap heap.old.heap (swap_action (swap_of self.old root_seen)) }
        ensures beside { KeepsBeside heap.old heap.new }
        ensures asks { IsAskingRoot result → (self.new ≡ self.old) × (heap.new ≡ heap.old) }
    {
        match &self.at {
            SwapAt::Publish => self.publish(heap),
            SwapAt::Deciding => self.decide(heap, root_seen),
            SwapAt::Check => self.check(heap),
        }
    }

    #[inline(always)]
    fn publish(&mut self, heap: &mut Heap) -> Next<bool>
        requires { CanSwapAt heap.old.heap self.old.read self.old.fresh SwapAt.Publish }
        ensures follows { SwapsOn heap.old.heap self.old.read.access (swap_with self.old.read self.old.replaced self.old.fresh SwapAt.Publish (line_of self.old.read None)) self.new result }
        ensures same { self.new ≡ record self.old { read = record self.old.read { at = self.new.read.at }; at = self.new.at } }
        ensures heap { heap.new.heap ≡ acted_heap heap.old.heap (swap_action (swap_with self.old.read self.old.replaced self.old.fresh SwapAt.Publish (line_of self.old.read None))) }
        ensures beside { KeepsBeside heap.old heap.new }
        ensures taken { IsAskingRoot result → ⊥ }
    {
        self.at = SwapAt::Publish;
        if !heap.publish(self.read.indirection, self.replaced, self.fresh) {
            return Next::Done(Kind::SwapMain, false);
        }
        self.read.at = ReadAt::Prev { main: self.fresh };
        self.at = SwapAt::Deciding;
        Next::More(Kind::SwapMain)
    }

    #[inline(always)]
    fn decide(&mut self, heap: &mut Heap, root_seen: Option<u64>) -> Next<bool>
        requires { CanReadOn heap.old.heap self.old.read }
        ensures follows { SwapsOn heap.old.heap self.old.read.access (swap_with self.old.read self.old.replaced self.old.fresh SwapAt.Deciding (line_of self.old.read root_seen)) self.new result }
        ensures same { self.new ≡ record self.old { read = record self.old.read { at = self.new.read.at }; at = self.new.at } }
        ensures heap { heap.new.heap ≡ acted_heap heap.old.heap (swap_action (swap_with self.old.read self.old.replaced self.old.fresh SwapAt.Deciding (line_of self.old.read root_seen))) }
        ensures beside { KeepsBeside heap.old heap.new }
        ensures asks { IsAskingRoot result → (self.new ≡ record self.old { at = SwapAt.Deciding }) × (heap.new ≡ heap.old) }
    {
        match self.read.step(heap, root_seen) {
            Next::More(kind) => {
                self.at = SwapAt::Deciding;
                Next::More(kind)
            }
            Next::AskRoot => {
                self.at = SwapAt::Deciding;
                Next::AskRoot
            }
            Next::Done(kind, _) => {
                self.at = SwapAt::Check;
                Next::More(kind)
            }
        }
    }

    #[inline(always)]
    fn check(&mut self, heap: &Heap) -> Next<bool>
        ensures follows { SwapsOn heap.now.heap self.old.read.access (swap_with self.old.read self.old.replaced self.old.fresh SwapAt.Check (line_of self.old.read None)) self.new result }
        ensures same { self.new ≡ record self.old { at = self.new.at } }
        ensures taken { IsAskingRoot result → ⊥ }
    {
        self.at = SwapAt::Check;
        let is_committed = match heap.stored_prev(self.fresh) {
            Prev::None => true,
            Prev::Pending(_) | Prev::Failed(_) => false,
        };
        Next::Done(Kind::ReadPrev, is_committed)
    }
}
