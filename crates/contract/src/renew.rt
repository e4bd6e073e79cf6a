//! RENEW: a branch gets indirections of the root's generation.

ghost use Rattle.std.specs.Prelude.{◌≡◌, [], ◌∷◌, ◌++◌, ◌<◌, ℕ, List, length, Option, None, is_some};
ghost use Rattle.contract.specs.Beneath.ctrie_base.specs.declared.hashes.HashKind.{HashKind};
ghost use Rattle.contract.specs.Beneath.slot_arena.specs.declared.refs.Ref.{Ref as ARef};
ghost use Rattle.contract.specs.Beneath.machine_model.specs.Operations.{kind_of, line_action, read_of as reading_of, swapping_read};
ghost use Rattle.contract.specs.Beneath.machine_model.specs.Renewing.{renew_next};
ghost use Rattle.contract.specs.Beneath.machine_model.specs.States.{State};
ghost use Rattle.contract.specs.Beneath.machine_model.specs.Tellings.{published_by};
ghost use Rattle.contract.specs.Beneath.machine_model.specs.declared.lines.Line.TheVariants as line;
ghost use Rattle.contract.specs.Beneath.machine_model.specs.declared.lines.Purpose.TheVariants as purpose;
ghost use Rattle.contract.specs.Beneath.machine_model.specs.declared.operations.Operation.{Operation};
ghost use Rattle.contract.specs.Beneath.machine_model.specs.declared.repairs.RenewLine.TheVariants as renew;
ghost use Rattle.contract.specs.Beneath.gcas.specs.Reads.{read_of, CanReadOn, IsAskingRoot};
ghost use Rattle.contract.specs.Beneath.gcas.specs.Swaps.{swap_of, CanSwapOn};
ghost use Rattle.contract.specs.Beneath.gcas.specs.declared.swap.Swap.{Swap as ASwap};
ghost use Rattle.trie_parts.specs.Here.{at_heap};
ghost use Rattle.trie_parts.specs.Holding.{Acts, AreHeld};
ghost use Rattle.trie_parts.specs.Steps.{IsLast, StepsOn};
ghost use Rattle.trie_parts.specs.Tasks.{for_task};
ghost use Rattle.trie_parts.specs.declared.calls.Task.{Task as ATask};
ghost use Rattle.contract.specs.Renewing.{renew_line, next_of, line_behind, CanRenew, CanRenewAt};

use trie_parts::{
    Entries, Heap, Kind, Next, Node, NodeRef, Publication, Ref, Swap, Task, Work, bitmap_at,
    current, entry_at, entry_count, node_at, renewed,
};

/// Where a renewing stands.
#[derive(Clone, Copy)]
pub enum RenewAt {
    /// Looks at the next entry.
    Entry,
    /// That is an indirection of another generation: reads it.
    Read,
    /// Makes an indirection of the root's generation over the main node that it gave.
    Link { child: Ref },
    /// Makes the branch.
    Branch,
    /// Swaps it in.
    Swap,
}

/// What a renewing came to.
#[derive(Clone, Copy)]
pub enum Renewed {
    /// The new branch stands: the call reads it.
    Renewed,
    /// The branch wasn't replaced: the call has to be tried again.
    Lost,
    /// No slot was free.
    NoSlots,
    /// A node is of another kind than the program takes it for. No machine comes here.
    Impossible,
}

/// A renewing of a branch. An operation keeps one for all its renewings.
#[derive(Drop)]
pub struct Renew {
    /// The branch.
    main: Ref,
    /// Its new entries so far.
    done: Entries,
    at: RenewAt,
}

impl Renew {
    /// One that has still to begin.
    pub fn new() -> Renew
        ensures { result ≡ record { main = 0; done = record { items = [] }; at = RenewAt.Entry } }
    {
        Renew {
            main: Ref::default(),
            done: Entries::new(),
            at: RenewAt::Entry,
        }
    }

    /// Begins to renew this branch.
    pub fn begin(&mut self, heap: &Heap, main: Ref)
        ensures { (state : State) (hashes : HashKind) (path : List ARef) (s : ASwap) → renew_line path s None self.new ≡ renew_next (at_heap state heap.now.heap hashes) path main [] }
    {
        self.main = main;
        self.done.clear();
        self.at = next(0, entry_count(heap, main));
    }

    /// Whether its next step is a READ's, where this is the SWAP of what the operation has in hand.
    pub fn is_reading(&self, swap: &Swap) -> bool
        ensures { (path : List ARef) (root_seen : Option ℕ) → result ≡ is_some (reading_of (renew_line path swap.now root_seen self.now)) }
    {
        match &self.at {
            RenewAt::Read => true,
            RenewAt::Entry | RenewAt::Link { .. } | RenewAt::Branch => false,
            RenewAt::Swap => swap.is_reading(),
        }
    }

    /// The main node that its next step is to swap in, if it is such a step: the change of no operation.
    pub fn published(&self, swap: &Swap) -> Option<Publication>
        ensures { (operation : Operation) (path : List ARef) (root_seen : Option ℕ) → result ≡ published_by operation (renew_line path swap.now root_seen self.now) }
    {
        match &self.at {
            RenewAt::Entry | RenewAt::Read | RenewAt::Link { .. } | RenewAt::Branch => None,
            RenewAt::Swap => swap.published(None),
        }
    }

    /// The kind of its next step, where that SWAP was told this of the root's generation.
    pub fn next_kind(&self, swap: &Swap, root_seen: Option<u64>) -> Kind
        ensures { (state : State) (operation : Operation) (path : List ARef) → result ≡ kind_of (line_action state operation (renew_line path swap.now root_seen self.now)) }
    {
        match &self.at {
            RenewAt::Entry => Kind::Look,
            RenewAt::Read => swap.read.next_kind(root_seen),
            RenewAt::Link { .. } | RenewAt::Branch => Kind::Make,
            RenewAt::Swap => swap.next_kind(root_seen),
        }
    }

    /// Takes its next step, for the branch at the end of this path, unless it has to be told the generation of
    /// the root first.
    pub fn step(
        &mut self,
        work: &mut Work,
        heap: &mut Heap,
        task: Task,
        path: &[Ref],
        root_seen: Option<u64>,
    ) -> Next<Renewed>
        requires can { CanRenew heap.old.heap work.old self.old }
        requires held { AreHeld work.old.private heap.old }
        ensures follows { (state : State) (operation : Operation) →
            StepsOn (at_heap state heap.old.heap task.hashes) (for_task task work.old.swap.read.access operation) (renew_line path.now work.old.swap root_seen self.old)
            (renew_line path.now work.new.swap None self.new) work.new.swap.read.at (line_behind path.now) result }
        ensures acts { (state : State) (operation : Operation) →
            Acts heap.old work.old.private (line_action (at_heap state heap.old.heap task.hashes) (for_task task work.old.swap.read.access operation)
            (renew_line path.now work.old.swap root_seen self.old)) heap.new work.new.private }
        ensures same { work.new.swap.read.access ≡ work.old.swap.read.access }
        ensures asks { IsAskingRoot result → (self.new ≡ self.old) × (work.new ≡ work.old) × (heap.new ≡ heap.old) }
        ensures last { IsLast result → reading_of (renew_line path.now work.old.swap root_seen self.old) ≡ None }
    {
        match &self.at {
            RenewAt::Entry => self.look(work, heap, task),
            RenewAt::Read => self.read(work, heap, root_seen),
            RenewAt::Link { child } => {
                let child = *child;
                self.link(work, heap, task, child)
            }
            RenewAt::Branch => self.make_branch(work, heap, path),
            RenewAt::Swap => self.swap(work, heap, root_seen),
        }
    }

    /// Looks at the next entry: an indirection of another generation is read, any other entry is kept.
    fn look(&mut self, work: &mut Work, heap: &Heap, task: Task) -> Next<Renewed>
        requires { length self.old.done.items < 32 }
        ensures follows { (state : State) (operation : Operation) (path : List ARef) →
            StepsOn (at_heap state heap.now.heap task.hashes) (for_task task work.old.swap.read.access operation) (line.Renew (renew.Entry path self.old.main self.old.done.items))
            (renew_line path work.new.swap None self.new) work.new.swap.read.at (line_behind path) result }
        ensures same { (work.new.swap.read.access ≡ work.old.swap.read.access) × (work.new.private ≡ work.old.private) }
        ensures taken { IsAskingRoot result → ⊥ }
    {
        let entry = entry_at(heap, self.main, self.done.len());
        match node_at(heap, entry) {
            Some(NodeRef::Indirection { generation, .. }) if !task.is_start(generation) => {
                work.swap.read.begin(entry);
                self.at = RenewAt::Read;
            }
            Some(NodeRef::Indirection { .. } | NodeRef::Single { .. }) => {
                self.put(entry_count(heap, self.main), entry);
            }
            _ => return Next::Done(Kind::Look, Renewed::Impossible),
        }
        Next::More(Kind::Look)
    }

    /// One entry more, of this many, is done.
    fn put(&mut self, entries: usize, entry: Ref)
        requires { length self.old.done.items < 32 }
        ensures { (path : List ARef) (s : ASwap) → renew_line path s None self.new ≡ next_of entries path self.old.main (self.old.done.items ++ entry ∷ []) }
    {
        self.done.push(entry);
        self.at = next(self.done.len(), entries);
    }

    /// Takes a step of the entry's READ.
    fn read(&mut self, work: &mut Work, heap: &mut Heap, root_seen: Option<u64>) -> Next<Renewed>
        requires { CanReadOn heap.old.heap work.old.swap.read }
        ensures follows { (state : State) (operation : Operation) (path : List ARef) (task : ATask) →
            StepsOn (at_heap state heap.old.heap task.hashes) (for_task task work.old.swap.read.access operation)
            (line.Renew (renew.Read path self.old.main self.old.done.items (read_of work.old.swap.read root_seen))) (renew_line path work.new.swap None self.new)
            work.new.swap.read.at (line_behind path) result }
        ensures acts { (state : State) (operation : Operation) (path : List ARef) →
            Acts heap.old work.old.private (line_action state operation (line.Renew (renew.Read path self.old.main self.old.done.items (read_of work.old.swap.read root_seen))))
            heap.new work.new.private }
        ensures same { work.new.swap.read.access ≡ work.old.swap.read.access }
        ensures asks { IsAskingRoot result → (self.new ≡ record self.old { at = RenewAt.Read }) × (work.new ≡ work.old) × (heap.new ≡ heap.old) }
        ensures last { IsLast result → ⊥ }
    {
        self.at = RenewAt::Read;
        match work.read(heap, root_seen) {
            Next::More(kind) => Next::More(kind),
            Next::AskRoot => Next::AskRoot,
            Next::Done(kind, child) => {
                self.at = RenewAt::Link { child };
                Next::More(kind)
            }
        }
    }

    /// Makes an indirection over the main node that was read.
    fn link(&mut self, work: &mut Work, heap: &mut Heap, task: Task, child: Ref) -> Next<Renewed>
        requires can { CanRenewAt heap.old.heap work.old self.old.main self.old.done.items (RenewAt.Link child) }
        requires held { AreHeld work.old.private heap.old }
        ensures follows { (state : State) (operation : Operation) (path : List ARef) →
            StepsOn (at_heap state heap.old.heap task.hashes) (for_task task work.old.swap.read.access operation)
            (line.Renew (renew.Link path self.old.main self.old.done.items child)) (renew_line path work.new.swap None self.new) work.new.swap.read.at (line_behind path) result }
        ensures acts { (state : State) (operation : Operation) (path : List ARef) →
            Acts heap.old work.old.private (line_action state (for_task task work.old.swap.read.access operation)
            (line.Renew (renew.Link path self.old.main self.old.done.items child))) heap.new work.new.private }
        ensures same { work.new.swap.read.access ≡ work.old.swap.read.access }
        ensures taken { IsAskingRoot result → ⊥ }
    {
        let entries = entry_count(heap, self.main);
        let node = Node::Indirection {
            generation: task.start(),
            main: child,
        };
        match work.private.make(heap, node) {
            None => Next::Done(Kind::Make, Renewed::NoSlots),
            Some(made) => {
                self.put(entries, made);
                Next::More(Kind::Make)
            }
        }
    }

    /// Makes the branch.
    fn make_branch(&mut self, work: &mut Work, heap: &mut Heap, path: &[Ref]) -> Next<Renewed>
        requires can { CanRenewAt heap.old.heap work.old self.old.main self.old.done.items RenewAt.Branch }
        requires held { AreHeld work.old.private heap.old }
        ensures follows { (state : State) (operation : Operation) (task : ATask) →
            StepsOn (at_heap state heap.old.heap task.hashes) (for_task task work.old.swap.read.access operation)
            (line.Renew (renew.Branch path.now self.old.main self.old.done.items)) (renew_line path.now work.new.swap None self.new) work.new.swap.read.at (line_behind path.now)
            result }
        ensures acts { (state : State) (operation : Operation) (hashes : HashKind) →
            Acts heap.old work.old.private (line_action (at_heap state heap.old.heap hashes) operation (line.Renew (renew.Branch path.now self.old.main self.old.done.items)))
            heap.new work.new.private }
        ensures same { work.new.swap.read.access ≡ work.old.swap.read.access }
        ensures taken { IsAskingRoot result → ⊥ }
    {
        let node = renewed(bitmap_at(heap, self.main), self.done.as_slice());
        match work.private.make(heap, node) {
            None => Next::Done(Kind::Make, Renewed::NoSlots),
            Some(made) => {
                work.swap.begin(current(path), self.main, made);
                self.at = RenewAt::Swap;
                Next::More(Kind::Make)
            }
        }
    }

    /// Takes a step of the SWAP.
    fn swap(&mut self, work: &mut Work, heap: &mut Heap, root_seen: Option<u64>) -> Next<Renewed>
        requires can { CanSwapOn heap.old.heap work.old.swap }
        requires held { AreHeld work.old.private heap.old }
        ensures follows { (state : State) (operation : Operation) (path : List ARef) (task : ATask) →
            StepsOn (at_heap state heap.old.heap task.hashes) (for_task task work.old.swap.read.access operation)
            (line.Swap (purpose.Renew path) (swap_of work.old.swap root_seen)) (renew_line path work.new.swap None self.new) work.new.swap.read.at (line_behind path) result }
        ensures acts { (state : State) (operation : Operation) (path : List ARef) →
            Acts heap.old work.old.private (line_action state operation (line.Swap (purpose.Renew path) (swap_of work.old.swap root_seen))) heap.new work.new.private }
        ensures same { work.new.swap.read.access ≡ work.old.swap.read.access }
        ensures asks { IsAskingRoot result → (self.new ≡ record self.old { at = RenewAt.Swap }) × (work.new ≡ work.old) × (heap.new ≡ heap.old) }
        ensures last { IsLast result → swapping_read work.old.swap.read.indirection (swap_of work.old.swap root_seen).line ≡ None }
    {
        self.at = RenewAt::Swap;
        match work.swap(heap, root_seen) {
            Next::More(kind) => Next::More(kind),
            Next::AskRoot => Next::AskRoot,
            Next::Done(kind, true) => Next::Done(kind, Renewed::Renewed),
            Next::Done(kind, false) => Next::Done(kind, Renewed::Lost),
        }
    }
}

/// Where a renewing stands that has done this many of this many entries.
fn next(done: usize, entries: usize) -> RenewAt
    ensures { (path : List ARef) (s : ASwap) (main : ARef) (kept : List ARef) → length kept ≡ done →
        renew_line path s None (record { main = main; done = record { items = kept }; at = result }) ≡ next_of entries path main kept }
{
    if done < entries {
        RenewAt::Entry
    } else {
        RenewAt::Branch
    }
}
