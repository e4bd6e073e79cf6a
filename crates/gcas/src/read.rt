//! READ: gives the decided main node of an indirection.

ghost use Rattle.std.specs.Prelude.{◌≡◌, None};
ghost use Rattle.machine_model.specs.Reading.{read_action};
ghost use Rattle.machine_model.specs.declared.reading.ReadLine.TheVariants.{Decide};
ghost use Rattle.gcas.specs.Acted.{acted_heap};
ghost use Rattle.gcas.specs.Kept.{KeepsBeside};
ghost use Rattle.gcas.specs.Reads.{deciding, line_at, line_of, ReadsOn, CanReadOn, CanReadAt, IsAskingRoot, begun, given_so, committed_so};
ghost use Rattle.machine_model.specs.Operations.{kind_of};
ghost use Rattle.machine_model.specs.Beneath.slot_arena.specs.declared.refs.Ref.{Ref as ARef};

use crate::looks::{generation_at, main_at};
use crate::next::Next;
use machine_model::{Access, Heap, Kind, Prev, Ref};

/// Where a READ stands.
#[derive(Clone, Copy)]
pub enum ReadAt {
    /// Reads the main word.
    Main,
    /// Reads the `prev` word of this main node.
    Prev { main: Ref },
    /// The node is pending over `previous`: decides it, on a writable handle by the generation of the root.
    Decide { main: Ref, previous: Ref },
    /// The node has failed: puts `previous` back in its place.
    Restore { main: Ref, previous: Ref },
    /// It gave this main node. A further step would begin it anew.
    Given { main: Ref },
}

/// A READ of an indirection.
#[derive(Clone, Copy)]
pub struct Read {
    /// That of the handle: on a read-only one nothing is committed.
    pub access: Access,
    pub indirection: Ref,
    pub at: ReadAt,
}

impl Read {
    /// A READ at its beginning.
    pub fn new(access: Access, indirection: Ref) -> Read
        ensures { result ≡ begun access indirection }
    {
        Read {
            access,
            indirection,
            at: ReadAt::Main,
        }
    }

    /// Begins anew, with this indirection.
    pub fn begin(&mut self, indirection: Ref)
        ensures { self.new ≡ begun self.old.access indirection }
    {
        self.indirection = indirection;
        self.at = ReadAt::Main;
    }

    /// The main node that it gave, if it isn't under way.
    pub fn given(&self) -> Option<Ref>
        ensures { result ≡ given_so self.now.at }
    {
        match &self.at {
            ReadAt::Given { main } => Some(*main),
            _ => None,
        }
    }

    /// The main node that it has just committed, by a step of this kind, if it did.
    pub fn committed(&self, kind: Kind) -> Option<Ref>
        ensures { result ≡ committed_so kind self.now.at }
    {
        match kind {
            Kind::SwapPrev => self.given(),
            _ => None,
        }
    }

    /// The kind of its next step, where it was told this of the root's generation.
    pub fn next_kind(&self, root_seen: Option<u64>) -> Kind
        ensures { (indirection : ARef) → result ≡ kind_of (read_action indirection (line_of self.now root_seen)) }
    {
        match &self.at {
            ReadAt::Main | ReadAt::Given { .. } => Kind::ReadMain,
            ReadAt::Prev { .. } => Kind::ReadPrev,
            ReadAt::Decide { .. } => self.deciding_kind(root_seen),
            ReadAt::Restore { .. } => Kind::SwapMain,
        }
    }

    fn deciding_kind(&self, root_seen: Option<u64>) -> Kind
        ensures { (indirection main previous : ARef) → result ≡ kind_of (read_action indirection (deciding self.now.access root_seen main previous)) }
    {
        match self.access {
            Access::ReadOnly => Kind::SwapPrev,
            Access::Writable => match root_seen {
                None => Kind::ReadRoot,
                Some(_) => Kind::SwapPrev,
            },
        }
    }

    /// Takes its next step, unless it has to be told the generation of the root first.
    #[inline(always)]
    pub fn step(&mut self, heap: &mut Heap, root_seen: Option<u64>) -> Next<Ref>
        requires { CanReadOn heap.old.heap self.old }
        ensures follows { ReadsOn heap.old.heap self.old.access self.old.indirection (line_of self.old root_seen) self.new.at result }
        ensures same { self.new ≡ record self.old { at = self.new.at } }
        ensures heap { heap.new.heap ≡ acted_heap heap.old.heap (read_action self.old.indirection (line_of self.old root_seen)) }
        ensures beside { KeepsBeside heap.old heap.new }
        ensures asks { IsAskingRoot result → (self.new ≡ self.old) × (heap.new ≡ heap.old) }
    {
        match &self.at {
            ReadAt::Main | ReadAt::Given { .. } => self.read_main(heap),
            ReadAt::Prev { main } => {
                let main = *main;
                self.read_prev(heap, main)
            }
            ReadAt::Decide { main, previous } => {
                let (main, previous) = (*main, *previous);
                self.decide(heap, root_seen, main, previous)
            }
            ReadAt::Restore { main, previous } => {
                let (main, previous) = (*main, *previous);
                self.restore(heap, main, previous)
            }
        }
    }

    #[inline(always)]
    fn read_main(&mut self, heap: &Heap) -> Next<Ref>
        ensures follows { ReadsOn heap.now.heap self.old.access self.old.indirection (line_at self.old.access None ReadAt.Main) self.new.at result }
        ensures same { self.new ≡ record self.old { at = self.new.at } }
    {
        self.at = ReadAt::Prev {
            main: main_at(heap, self.indirection),
        };
        Next::More(Kind::ReadMain)
    }

    #[inline(always)]
    fn read_prev(&mut self, heap: &Heap, main: Ref) -> Next<Ref>
        ensures follows { ReadsOn heap.now.heap self.old.access self.old.indirection (line_at self.old.access None (ReadAt.Prev main)) self.new.at result }
        ensures same { self.new ≡ record self.old { at = self.new.at } }
    {
        match heap.stored_prev(main) {
            Prev::None => {
                self.at = ReadAt::Given { main };
                Next::Done(Kind::ReadPrev, main)
            }
            Prev::Failed(previous) => {
                self.at = ReadAt::Restore { main, previous };
                Next::More(Kind::ReadPrev)
            }
            Prev::Pending(previous) => {
                self.at = ReadAt::Decide { main, previous };
                Next::More(Kind::ReadPrev)
            }
        }
    }

    #[inline(always)]
    fn decide(
        &mut self,
        heap: &mut Heap,
        root_seen: Option<u64>,
        main: Ref,
        previous: Ref,
    ) -> Next<Ref>
        requires { CanReadAt heap.old.heap self.old.indirection (ReadAt.Decide main previous) }
        ensures follows { ReadsOn heap.old.heap self.old.access self.old.indirection (line_at self.old.access root_seen (ReadAt.Decide main previous)) self.new.at result }
        ensures same { self.new ≡ record self.old { at = self.new.at } }
        ensures heap { heap.new.heap ≡ acted_heap heap.old.heap (read_action self.old.indirection (line_at self.old.access root_seen (ReadAt.Decide main previous))) }
        ensures beside { KeepsBeside heap.old heap.new }
        ensures asks { IsAskingRoot result → (self.new ≡ self.old) × (heap.new ≡ heap.old) }
    {
        match self.access {
            Access::ReadOnly => self.decide_by(heap, None, main, previous),
            Access::Writable => match root_seen {
                None => Next::AskRoot,
                Some(generation) => self.decide_by(heap, Some(generation), main, previous),
            },
        }
    }

    /// Commits the node where the root was told to have the indirection's generation, else refuses it; a
    /// node that another step has decided is read again.
    #[inline(always)]
    fn decide_by(
        &mut self,
        heap: &mut Heap,
        root_seen: Option<u64>,
        main: Ref,
        previous: Ref,
    ) -> Next<Ref>
        requires { CanReadAt heap.old.heap self.old.indirection (ReadAt.Decide main previous) }
        ensures follows { ReadsOn heap.old.heap self.old.access self.old.indirection (Decide main previous root_seen) self.new.at result }
        ensures same { self.new ≡ record self.old { at = self.new.at } }
        ensures heap { heap.new.heap ≡ acted_heap heap.old.heap (read_action self.old.indirection (Decide main previous root_seen)) }
        ensures beside { KeepsBeside heap.old heap.new }
        ensures taken { IsAskingRoot result → ⊥ }
    {
        let licensed = root_seen == Some(generation_at(heap, self.indirection));
        let verdict = if licensed {
            Prev::None
        } else {
            Prev::Failed(previous)
        };
        let was_pending = heap.swap_prev(main, Prev::Pending(previous), verdict);
        match (licensed, was_pending) {
            (true, true) => {
                self.at = ReadAt::Given { main };
                Next::Done(Kind::SwapPrev, main)
            }
            (true, false) => {
                self.at = ReadAt::Prev { main };
                Next::More(Kind::SwapPrev)
            }
            (false, _) => {
                self.at = ReadAt::Main;
                Next::More(Kind::SwapPrev)
            }
        }
    }

    #[inline(always)]
    fn restore(&mut self, heap: &mut Heap, main: Ref, previous: Ref) -> Next<Ref>
        requires { CanReadAt heap.old.heap self.old.indirection (ReadAt.Restore main previous) }
        ensures follows { ReadsOn heap.old.heap self.old.access self.old.indirection (line_at self.old.access None (ReadAt.Restore main previous)) self.new.at result }
        ensures same { self.new ≡ record self.old { at = self.new.at } }
        ensures heap { heap.new.heap ≡ acted_heap heap.old.heap (read_action self.old.indirection (line_at self.old.access None (ReadAt.Restore main previous))) }
        ensures beside { KeepsBeside heap.old heap.new }
    {
        if heap.swap_main(self.indirection, main, previous) {
            self.at = ReadAt::Given { main: previous };
            return Next::Done(Kind::SwapMain, previous);
        }
        self.at = ReadAt::Main;
        Next::More(Kind::SwapMain)
    }
}
