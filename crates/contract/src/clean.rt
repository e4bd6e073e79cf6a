//! CLEAN: below an indirection tombs give way to their singles.

ghost use Rattle.std.specs.Prelude.{◌≡◌, [], ◌∷◌, ◌++◌, ◌<◌, ℕ, List, length, Option, None, is_some};
ghost use Rattle.contract.specs.Beneath.ctrie_base.specs.declared.hashes.HashKind.{HashKind};
ghost use Rattle.contract.specs.Beneath.ctrie_base.specs.declared.hashes.HashKind.TheVariants.{Low};
ghost use Rattle.contract.specs.Beneath.slot_arena.specs.Heaps.{node_at};
ghost use Rattle.contract.specs.Beneath.slot_arena.specs.declared.refs.Ref.{Ref as ARef};
ghost use Rattle.contract.specs.Beneath.machine_model.specs.Cleaning.{clean_next, clean_after_tomb, leaves_single, cleaned};
ghost use Rattle.contract.specs.Beneath.machine_model.specs.Operations.{kind_of, line_action, read_of as reading_of};
ghost use Rattle.contract.specs.Beneath.machine_model.specs.Reading.{reading};
ghost use Rattle.contract.specs.Beneath.machine_model.specs.States.{State};
ghost use Rattle.contract.specs.Beneath.machine_model.specs.Tellings.{published_by};
ghost use Rattle.contract.specs.Beneath.machine_model.specs.declared.lines.Line.TheVariants as line;
ghost use Rattle.contract.specs.Beneath.machine_model.specs.declared.lines.Purpose.TheVariants as purpose;
ghost use Rattle.contract.specs.Beneath.machine_model.specs.declared.operations.Operation.{Operation};
ghost use Rattle.contract.specs.Beneath.machine_model.specs.declared.repairs.CleanLine.TheVariants as clean;
ghost use Rattle.contract.specs.Beneath.gcas.specs.Reads.{read_of, CanReadOn, IsAskingRoot};
ghost use Rattle.contract.specs.Beneath.gcas.specs.Swaps.{swap_of, CanSwapOn};
ghost use Rattle.contract.specs.Beneath.gcas.specs.declared.read.ReadAt.{ReadAt};
ghost use Rattle.contract.specs.Beneath.gcas.specs.declared.swap.Swap.{Swap as ASwap};
ghost use Rattle.trie_parts.specs.Here.{at_heap, no_state};
ghost use Rattle.trie_parts.specs.Holding.{Acts, AreHeld};
ghost use Rattle.trie_parts.specs.Steps.{StepsOn};
ghost use Rattle.trie_parts.specs.Tasks.{for_task};
ghost use Rattle.trie_parts.specs.declared.calls.Task.{Task as ATask};
ghost use Rattle.contract.specs.Cleaning.{clean_line, line_behind, CanClean, CanCleanAt, GoesOn};

use trie_parts::{
    Entries, Heap, Kind, Next, Node, NodeRef, Publication, Ref, Swap, Task, Work, bitmap_at,
    contracted, current, entries_at, entry_at, is_below_root, is_single_at, node_at,
};

/// Where a cleaning stands.
#[derive(Clone, Copy)]
pub enum CleanAt {
    /// Reads the indirection.
    Read,
    /// Looks at its main node.
    Main,
    /// Looks at the next entry.
    Entry,
    /// That is an indirection: reads it.
    Child,
    /// Looks at the main node that it gave.
    Tomb { child: Ref },
    /// Makes the new main node.
    Contracted,
    /// Swaps it in.
    Swap,
}

/// What a cleaning came to.
#[derive(Clone, Copy)]
pub enum Cleaned {
    /// It is done, whatever came of it: the call has to be tried again.
    Cleaned,
    /// No slot was free.
    NoSlots,
    /// A node is of another kind than the program takes it for. No machine comes here.
    Impossible,
}

/// A cleaning of what stands below an indirection. An operation keeps one for all its cleanings.
#[derive(Drop)]
pub struct Clean {
    /// The branch.
    main: Ref,
    /// Its new entries so far.
    done: Entries,
    at: CleanAt,
}

impl Clean {
    /// One that has still to begin.
    pub fn new() -> Clean
        ensures { result ≡ record { main = 0; done = record { items = [] }; at = CleanAt.Read } }
    {
        Clean {
            main: Ref::default(),
            done: Entries::new(),
            at: CleanAt::Read,
        }
    }

    /// Begins to clean below this indirection, by the READ of what the operation has in hand.
    pub fn begin(&mut self, work: &mut Work, indirection: Ref)
        ensures line { (path : List ARef) → clean_line path work.new.swap None self.new ≡ line.Clean (clean.Read path (reading indirection)) }
        ensures same { (work.new.swap.read.access ≡ work.old.swap.read.access) × (work.new.private ≡ work.old.private) }
    {
        self.at = CleanAt::Read;
        work.swap.read.begin(indirection);
    }

    /// Whether its next step is a READ's, where this is the SWAP of what the operation has in hand.
    pub fn is_reading(&self, swap: &Swap) -> bool
        ensures { (path : List ARef) (root_seen : Option ℕ) → result ≡ is_some (reading_of (clean_line path swap.now root_seen self.now)) }
    {
        match &self.at {
            CleanAt::Read | CleanAt::Child => true,
            CleanAt::Main | CleanAt::Entry | CleanAt::Tomb { .. } | CleanAt::Contracted => false,
            CleanAt::Swap => swap.is_reading(),
        }
    }

    /// The main node that its next step is to swap in, if it is such a step: the change of no operation.
    pub fn published(&self, swap: &Swap) -> Option<Publication>
        ensures { (operation : Operation) (path : List ARef) (root_seen : Option ℕ) → result ≡ published_by operation (clean_line path swap.now root_seen self.now) }
    {
        match &self.at {
            CleanAt::Read | CleanAt::Main | CleanAt::Entry | CleanAt::Child => None,
            CleanAt::Tomb { .. } | CleanAt::Contracted => None,
            CleanAt::Swap => swap.published(None),
        }
    }

    /// The kind of its next step, where that SWAP was told this of the root's generation.
    pub fn next_kind(&self, swap: &Swap, root_seen: Option<u64>) -> Kind
        ensures { (state : State) (operation : Operation) (path : List ARef) → result ≡ kind_of (line_action state operation (clean_line path swap.now root_seen self.now)) }
    {
        match &self.at {
            CleanAt::Read | CleanAt::Child => swap.read.next_kind(root_seen),
            CleanAt::Main | CleanAt::Entry | CleanAt::Tomb { .. } => Kind::Look,
            CleanAt::Contracted => Kind::Make,
            CleanAt::Swap => swap.next_kind(root_seen),
        }
    }

    /// Takes its next step, below the end of this path, unless it has to be told the generation of the root
    /// first.
    pub fn step(
        &mut self,
        work: &mut Work,
        heap: &mut Heap,
        task: Task,
        path: &[Ref],
        root_seen: Option<u64>,
    ) -> Next<Cleaned>
        requires can { CanClean heap.old.heap path.now work.old self.old }
        requires held { AreHeld work.old.private heap.old }
        ensures follows { (state : State) (operation : Operation) →
            StepsOn (at_heap state heap.old.heap task.hashes) (for_task task work.old.swap.read.access operation) (clean_line path.now work.old.swap root_seen self.old)
            (clean_line path.now work.new.swap None self.new) work.new.swap.read.at line_behind result }
        ensures acts { (state : State) (operation : Operation) →
            Acts heap.old work.old.private (line_action (at_heap state heap.old.heap task.hashes) (for_task task work.old.swap.read.access operation)
            (clean_line path.now work.old.swap root_seen self.old)) heap.new work.new.private }
        ensures same { work.new.swap.read.access ≡ work.old.swap.read.access }
        ensures asks { IsAskingRoot result → (self.new ≡ self.old) × (work.new ≡ work.old) × (heap.new ≡ heap.old) }
    {
        match &self.at {
            CleanAt::Read => self.read(work, heap, root_seen),
            CleanAt::Main => self.look(heap),
            CleanAt::Entry => self.look_at_entry(work, heap),
            CleanAt::Child => self.read_child(work, heap, root_seen),
            CleanAt::Tomb { child } => {
                let child = *child;
                self.look_at_child(heap, child)
            }
            CleanAt::Contracted => self.contract(work, heap, path),
            CleanAt::Swap => self.swap(work, heap, root_seen),
        }
    }

    /// Takes a step of the indirection's READ.
    fn read(&mut self, work: &mut Work, heap: &mut Heap, root_seen: Option<u64>) -> Next<Cleaned>
        requires { CanReadOn heap.old.heap work.old.swap.read }
        ensures follows { (state : State) (operation : Operation) (path : List ARef) (task : ATask) →
            StepsOn (at_heap state heap.old.heap task.hashes) (for_task task work.old.swap.read.access operation)
            (line.Clean (clean.Read path (read_of work.old.swap.read root_seen))) (clean_line path work.new.swap None self.new) work.new.swap.read.at line_behind result }
        ensures acts { (state : State) (operation : Operation) (path : List ARef) →
            Acts heap.old work.old.private (line_action state operation (line.Clean (clean.Read path (read_of work.old.swap.read root_seen)))) heap.new work.new.private }
        ensures same { work.new.swap.read.access ≡ work.old.swap.read.access }
        ensures asks { IsAskingRoot result → (self.new ≡ record self.old { at = CleanAt.Read }) × (work.new ≡ work.old) × (heap.new ≡ heap.old) }
    {
        self.at = CleanAt::Read;
        match work.read(heap, root_seen) {
            Next::More(kind) => Next::More(kind),
            Next::AskRoot => Next::AskRoot,
            Next::Done(kind, main) => {
                self.main = main;
                self.at = CleanAt::Main;
                Next::More(kind)
            }
        }
    }

    /// Looks at the main node: only a branch is cleaned.
    fn look(&mut self, heap: &Heap) -> Next<Cleaned>
        ensures follows { (state : State) (hashes : HashKind) (operation : Operation) (path : List ARef) (s : ASwap) (place : ReadAt) →
            StepsOn (at_heap state heap.now.heap hashes) operation (line.Clean (clean.Main path self.old.main)) (clean_line path s None self.new) place line_behind result }
        ensures taken { IsAskingRoot result → ⊥ }
    {
        match node_at(heap, self.main) {
            Some(NodeRef::Branch { .. }) => self.go_through(heap),
            None => self.go_through(heap),
            _ => Next::Done(Kind::Look, Cleaned::Cleaned),
        }
    }

    /// After the look at a branch: to its first entry.
    fn go_through(&mut self, heap: &Heap) -> Next<Cleaned>
        ensures follows { (state : State) (hashes : HashKind) (path : List ARef) (s : ASwap) →
            GoesOn (clean_next (at_heap state heap.now.heap hashes) path self.old.main []) (clean_line path s None self.new) result }
        ensures taken { IsAskingRoot result → ⊥ }
    {
        self.done.clear();
        self.go_on(heap)
    }

    /// After a look: to the next entry or, where all are done, to the new main node, if an entry changed.
    fn go_on(&mut self, heap: &Heap) -> Next<Cleaned>
        ensures follows { (state : State) (hashes : HashKind) (path : List ARef) (s : ASwap) →
            GoesOn (clean_next (at_heap state heap.now.heap hashes) path self.old.main self.old.done.items) (clean_line path s None self.new) result }
        ensures taken { IsAskingRoot result → ⊥ }
    {
        let entries = entries_at(heap, self.main);
        if self.done.len() < entries.len() {
            self.at = CleanAt::Entry;
            return Next::More(Kind::Look);
        }
        if self.done.as_slice() == entries {
            return Next::Done(Kind::Look, Cleaned::Cleaned);
        }
        self.at = CleanAt::Contracted;
        Next::More(Kind::Look)
    }

    /// Looks at the next entry: an indirection is read, a single is kept.
    fn look_at_entry(&mut self, work: &mut Work, heap: &Heap) -> Next<Cleaned>
        requires { length self.old.done.items < 32 }
        ensures follows { (state : State) (hashes : HashKind) (operation : Operation) (path : List ARef) →
            StepsOn (at_heap state heap.now.heap hashes) operation (line.Clean (clean.Entry path self.old.main self.old.done.items)) (clean_line path work.new.swap None self.new)
            work.new.swap.read.at line_behind result }
        ensures same { (work.new.swap.read.access ≡ work.old.swap.read.access) × (work.new.private ≡ work.old.private) }
        ensures taken { IsAskingRoot result → ⊥ }
    {
        let entry = entry_at(heap, self.main, self.done.len());
        match node_at(heap, entry) {
            Some(NodeRef::Indirection { .. }) => {
                work.swap.read.begin(entry);
                self.at = CleanAt::Child;
                Next::More(Kind::Look)
            }
            Some(NodeRef::Single { .. }) => self.put(heap, entry),
            _ => Next::Done(Kind::Look, Cleaned::Impossible),
        }
    }

    /// One entry more is done, by a look.
    fn put(&mut self, heap: &Heap, entry: Ref) -> Next<Cleaned>
        requires { length self.old.done.items < 32 }
        ensures follows { (state : State) (hashes : HashKind) (path : List ARef) (s : ASwap) →
            GoesOn (clean_next (at_heap state heap.now.heap hashes) path self.old.main (self.old.done.items ++ entry ∷ [])) (clean_line path s None self.new) result }
        ensures taken { IsAskingRoot result → ⊥ }
    {
        self.done.push(entry);
        self.go_on(heap)
    }

    /// Takes a step of the entry's READ.
    fn read_child(
        &mut self,
        work: &mut Work,
        heap: &mut Heap,
        root_seen: Option<u64>,
    ) -> Next<Cleaned>
        requires { CanReadOn heap.old.heap work.old.swap.read }
        ensures follows { (state : State) (operation : Operation) (path : List ARef) (task : ATask) →
            StepsOn (at_heap state heap.old.heap task.hashes) (for_task task work.old.swap.read.access operation)
            (line.Clean (clean.Child path self.old.main self.old.done.items (read_of work.old.swap.read root_seen))) (clean_line path work.new.swap None self.new)
            work.new.swap.read.at line_behind result }
        ensures acts { (state : State) (operation : Operation) (path : List ARef) →
            Acts heap.old work.old.private (line_action state operation (line.Clean (clean.Child path self.old.main self.old.done.items (read_of work.old.swap.read root_seen))))
            heap.new work.new.private }
        ensures same { work.new.swap.read.access ≡ work.old.swap.read.access }
        ensures asks { IsAskingRoot result → (self.new ≡ record self.old { at = CleanAt.Child }) × (work.new ≡ work.old) × (heap.new ≡ heap.old) }
    {
        self.at = CleanAt::Child;
        match work.read(heap, root_seen) {
            Next::More(kind) => Next::More(kind),
            Next::AskRoot => Next::AskRoot,
            Next::Done(kind, child) => {
                self.at = CleanAt::Tomb { child };
                Next::More(kind)
            }
        }
    }

    /// Looks at the main node of an entry: a tomb's single takes the entry's place, any other entry is kept.
    fn look_at_child(&mut self, heap: &Heap, child: Ref) -> Next<Cleaned>
        requires { length self.old.done.items < 32 }
        ensures follows { (state : State) (hashes : HashKind) (operation : Operation) (path : List ARef) (s : ASwap) (place : ReadAt) →
            StepsOn (at_heap state heap.now.heap hashes) operation (line.Clean (clean.Tomb path self.old.main self.old.done.items child)) (clean_line path s None self.new) place
            line_behind result }
        ensures taken { IsAskingRoot result → ⊥ }
    {
        let entry = kept(heap, self.main, self.done.as_slice(), child);
        self.put(heap, entry)
    }

    /// Makes the new main node.
    fn contract(&mut self, work: &mut Work, heap: &mut Heap, path: &[Ref]) -> Next<Cleaned>
        requires can { CanCleanAt heap.old.heap path.now work.old self.old.main self.old.done.items CleanAt.Contracted }
        requires held { AreHeld work.old.private heap.old }
        ensures follows { (state : State) (operation : Operation) (hashes : HashKind) →
            StepsOn (at_heap state heap.old.heap hashes) operation (line.Clean (clean.Contracted path.now self.old.main self.old.done.items))
            (clean_line path.now work.new.swap None self.new) work.new.swap.read.at line_behind result }
        ensures acts { (state : State) (operation : Operation) (hashes : HashKind) →
            Acts heap.old work.old.private (line_action (at_heap state heap.old.heap hashes) operation (line.Clean (clean.Contracted path.now self.old.main self.old.done.items)))
            heap.new work.new.private }
        ensures same { work.new.swap.read.access ≡ work.old.swap.read.access }
        ensures taken { IsAskingRoot result → ⊥ }
    {
        let node = cleaned_node(heap, path, self.main, self.done.as_slice());
        match work.private.make(heap, node) {
            None => Next::Done(Kind::Make, Cleaned::NoSlots),
            Some(made) => {
                work.swap.begin(current(path), self.main, made);
                self.at = CleanAt::Swap;
                Next::More(Kind::Make)
            }
        }
    }

    /// Takes a step of the SWAP, whose success doesn't matter.
    fn swap(&mut self, work: &mut Work, heap: &mut Heap, root_seen: Option<u64>) -> Next<Cleaned>
        requires can { CanSwapOn heap.old.heap work.old.swap }
        requires held { AreHeld work.old.private heap.old }
        ensures follows { (state : State) (operation : Operation) (path : List ARef) (task : ATask) →
            StepsOn (at_heap state heap.old.heap task.hashes) (for_task task work.old.swap.read.access operation) (line.Swap purpose.Clean (swap_of work.old.swap root_seen))
            (clean_line path work.new.swap None self.new) work.new.swap.read.at line_behind result }
        ensures acts { (state : State) (operation : Operation) →
            Acts heap.old work.old.private (line_action state operation (line.Swap purpose.Clean (swap_of work.old.swap root_seen))) heap.new work.new.private }
        ensures same { work.new.swap.read.access ≡ work.old.swap.read.access }
        ensures asks { IsAskingRoot result → (self.new ≡ record self.old { at = CleanAt.Swap }) × (work.new ≡ work.old) × (heap.new ≡ heap.old) }
    {
        self.at = CleanAt::Swap;
        match work.swap(heap, root_seen) {
            Next::More(kind) => Next::More(kind),
            Next::AskRoot => Next::AskRoot,
            Next::Done(kind, _) => Next::Done(kind, Cleaned::Cleaned),
        }
    }
}

/// What comes in the place of the next entry, an indirection with this main node: of a tomb its single.
fn kept(heap: &Heap, main: Ref, done: &[Ref], child: Ref) -> Ref
    ensures { (state : State) (hashes : HashKind) (path : List ARef) →
        clean_after_tomb (at_heap state heap.now.heap hashes) path main done.now (node_at heap.now.heap child) ≡ clean_next (at_heap state heap.now.heap hashes) path main
        (done.now ++ result ∷ []) }
{
    match node_at(heap, child) {
        Some(NodeRef::Tomb { single }) => *single,
        _ => entry_at(heap, main, done.len()),
    }
}

/// The new main node of a branch: below the root a tomb where one single alone is left, else the branch with
/// these entries.
fn cleaned_node(heap: &Heap, path: &[Ref], main: Ref, entries: &[Ref]) -> Node
    ensures { result ≡ cleaned (at_heap no_state heap.now.heap Low) path.now main entries.now }
{
    let may_entomb = is_below_root(path) && leaves_single(heap, entries);
    contracted(may_entomb, bitmap_at(heap, main), entries)
}

/// Whether one single alone is left.
fn leaves_single(heap: &Heap, entries: &[Ref]) -> bool
    ensures { result ≡ leaves_single (at_heap no_state heap.now.heap Low) entries.now }
{
    match entries {
        [entry] => is_single_at(heap, *entry),
        _ => false,
    }
}
