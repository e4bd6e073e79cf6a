//! CLIMB: after a removal that left a tomb, the tomb gives way to its single in the parent.

ghost use Rattle.std.specs.Prelude.{◌≡◌, ℕ, List, Option, None, is_some};
ghost use Rattle.contract.specs.Beneath.history.specs.declared.calls.Access.TheVariants.{Writable};
ghost use Rattle.contract.specs.Beneath.history.specs.declared.calls.Access.{Access};
ghost use Rattle.contract.specs.Beneath.slot_arena.specs.declared.refs.Ref.{Ref as ARef};
ghost use Rattle.contract.specs.Beneath.slot_arena.specs.Heaps.{node_at, bitmap_of, entries_of};
ghost use Rattle.contract.specs.Beneath.ctrie_base.specs.Hashes.{hash_of};
ghost use Rattle.contract.specs.Beneath.ctrie_base.specs.Paths.{position_of};
ghost use Rattle.contract.specs.Beneath.nodes.specs.Levels.{flag_of};
ghost use Rattle.contract.specs.Beneath.machine_model.specs.Calls.{key_of};
ghost use Rattle.contract.specs.Beneath.machine_model.specs.Climbing.{climbed_node, holds_it};
ghost use Rattle.contract.specs.Beneath.machine_model.specs.Operations.{climbed_on, kind_of, line_action, read_of as reading_of, swapping_read};
ghost use Rattle.contract.specs.Beneath.machine_model.specs.Paths.{above, current, depth_of};
ghost use Rattle.contract.specs.Beneath.machine_model.specs.declared.actions.Action.TheVariants as act;
ghost use Rattle.contract.specs.Beneath.machine_model.specs.Reading.{reading};
ghost use Rattle.contract.specs.Beneath.machine_model.specs.States.{State};
ghost use Rattle.contract.specs.Beneath.machine_model.specs.Tellings.{published_by};
ghost use Rattle.contract.specs.Beneath.machine_model.specs.declared.lines.Line.TheVariants as line;
ghost use Rattle.contract.specs.Beneath.machine_model.specs.declared.lines.Purpose.TheVariants as purpose;
ghost use Rattle.contract.specs.Beneath.machine_model.specs.declared.operations.Operation.{Operation};
ghost use Rattle.contract.specs.Beneath.machine_model.specs.declared.repairs.ClimbLine.TheVariants as climb;
ghost use Rattle.contract.specs.Beneath.gcas.specs.Reads.{begun, read_of, CanReadOn, IsAskingRoot};
ghost use Rattle.contract.specs.Beneath.gcas.specs.Swaps.{swap_of, CanSwapOn};
ghost use Rattle.contract.specs.Beneath.gcas.specs.declared.read.ReadAt.{ReadAt};
ghost use Rattle.contract.specs.Beneath.gcas.specs.declared.swap.Swap.{Swap as ASwap};
ghost use Rattle.trie_parts.specs.Here.{at_heap, no_state, no_operation};
ghost use Rattle.trie_parts.specs.Holding.{Acts, AreHeld};
ghost use Rattle.trie_parts.specs.Steps.{IsLast, StepsOn};
ghost use Rattle.trie_parts.specs.Tasks.{call_of, for_task};
ghost use Rattle.trie_parts.specs.declared.calls.Task.{Task as ATask};
ghost use Rattle.contract.specs.Climbing.{climb_of, climb_line, line_behind, CanClimb, CanClimbAt, IsBranch};

use trie_parts::{
    Heap, Kind, Next, Node, NodeRef, Publication, Ref, Swap, Task, Work, above, bitmap_at,
    contracted_at, current, entry_at, has_flag, is_below_root, node_at, position_of,
};

/// Where a climb stands.
#[derive(Clone, Copy)]
pub enum ClimbAt {
    /// Reads the parent.
    Read,
    /// Looks at the parent's main node.
    Main { main: Ref },
    /// Makes the parent's new main node.
    Contracted { main: Ref },
    /// Swaps it in.
    Swap,
}

/// What a climb came to.
#[derive(Clone, Copy)]
pub enum Climbed {
    /// The parent is tombed by now, with this single: the climb goes on from there.
    Higher { single: Ref },
    /// It is at its end: the removal is answered.
    Climbed,
    /// The parent's main node wasn't replaced: the climb goes on if the root is of the same generation still.
    Lost,
    /// A node is of another kind than the program takes it for. No machine comes here.
    Impossible,
}

/// A climb from an indirection that was tombed to its parent.
#[derive(Clone, Copy)]
pub struct Climb {
    /// The tomb's single.
    pub single: Ref,
    /// The value that the removed key had.
    pub former: Option<u64>,
    pub at: ClimbAt,
}

impl Climb {
    /// A climb from the end of this path, whose last indirection is tombed with this single, by the READ of what
    /// the operation has in hand.
    pub fn begin(work: &mut Work, path: &[Ref], single: Ref, former: Option<u64>) -> Climb
        ensures line { climb_line path.now work.new.swap None result ≡ line.Climb (climb.Read (record { path = path.now; single = single; former = former }) (reading (current (above path.now)))) }
        ensures read { work.new.swap.read ≡ begun work.old.swap.read.access (current (above path.now)) }
        ensures same { (work.new.swap.read.access ≡ work.old.swap.read.access) × (work.new.private ≡ work.old.private) }
    {
        work.swap.read.begin(current(above(path)));
        Climb {
            single,
            former,
            at: ClimbAt::Read,
        }
    }

    /// Whether its next step is a READ's, where this is the SWAP of what the operation has in hand.
    pub fn is_reading(&self, swap: &Swap) -> bool
        ensures { (path : List ARef) (root_seen : Option ℕ) → result ≡ is_some (reading_of (climb_line path swap.now root_seen self.now)) }
    {
        match &self.at {
            ClimbAt::Read => true,
            ClimbAt::Main { .. } | ClimbAt::Contracted { .. } => false,
            ClimbAt::Swap => swap.is_reading(),
        }
    }

    /// The main node that its next step is to swap in, if it is such a step: the change of no operation.
    pub fn published(&self, swap: &Swap) -> Option<Publication>
        ensures { (operation : Operation) (path : List ARef) (root_seen : Option ℕ) → result ≡ published_by operation (climb_line path swap.now root_seen self.now) }
    {
        match &self.at {
            ClimbAt::Read | ClimbAt::Main { .. } | ClimbAt::Contracted { .. } => None,
            ClimbAt::Swap => swap.published(None),
        }
    }

    /// The kind of its next step, where that SWAP was told this of the root's generation.
    pub fn next_kind(&self, swap: &Swap, root_seen: Option<u64>) -> Kind
        ensures { (state : State) (operation : Operation) (path : List ARef) → result ≡ kind_of (line_action state operation (climb_line path swap.now root_seen self.now)) }
    {
        match &self.at {
            ClimbAt::Read => swap.read.next_kind(root_seen),
            ClimbAt::Main { .. } => Kind::Look,
            ClimbAt::Contracted { .. } => Kind::Make,
            ClimbAt::Swap => swap.next_kind(root_seen),
        }
    }

    /// Takes its next step, from the end of this path, unless it has to be told the generation of the root first.
    pub fn step(
        &mut self,
        work: &mut Work,
        heap: &mut Heap,
        task: Task,
        path: &[Ref],
        root_seen: Option<u64>,
    ) -> Next<Climbed>
        requires can { CanClimb heap.old.heap task path.now work.old self.old }
        requires held { AreHeld work.old.private heap.old }
        ensures follows { (state : State) (operation : Operation) →
            StepsOn (at_heap state heap.old.heap task.hashes) (for_task task work.old.swap.read.access operation) (climb_line path.now work.old.swap root_seen self.old)
            (climb_line path.now work.new.swap None self.new) work.new.swap.read.at
            (line_behind (for_task task work.old.swap.read.access operation) (climb_of path.now self.old)) result }
        ensures acts { (state : State) (operation : Operation) →
            Acts heap.old work.old.private (line_action (at_heap state heap.old.heap task.hashes) (for_task task work.old.swap.read.access operation)
            (climb_line path.now work.old.swap root_seen self.old)) heap.new work.new.private }
        ensures same { (self.new.single ≡ self.old.single) × (self.new.former ≡ self.old.former) × (work.new.swap.read.access ≡ work.old.swap.read.access) }
        ensures asks { IsAskingRoot result → (self.new ≡ self.old) × (work.new ≡ work.old) × (heap.new ≡ heap.old) }
        ensures last { IsLast result → reading_of (climb_line path.now work.old.swap root_seen self.old) ≡ None }
    {
        match &self.at {
            ClimbAt::Read => self.read(work, heap, root_seen),
            ClimbAt::Main { main } => {
                let main = *main;
                self.look(heap, task, path, main)
            }
            ClimbAt::Contracted { main } => {
                let main = *main;
                self.contract(work, heap, task, path, main)
            }
            ClimbAt::Swap => self.swap(work, heap, root_seen),
        }
    }

    /// Takes a step of the parent's READ.
    fn read(&mut self, work: &mut Work, heap: &mut Heap, root_seen: Option<u64>) -> Next<Climbed>
        requires { CanReadOn heap.old.heap work.old.swap.read }
        ensures follows { (state : State) (operation : Operation) (path : List ARef) (task : ATask) →
            StepsOn (at_heap state heap.old.heap task.hashes) (for_task task work.old.swap.read.access operation)
            (line.Climb (climb.Read (climb_of path self.old) (read_of work.old.swap.read root_seen))) (climb_line path work.new.swap None self.new) work.new.swap.read.at
            (line_behind (for_task task work.old.swap.read.access operation) (climb_of path self.old)) result }
        ensures acts { (state : State) (operation : Operation) (path : List ARef) →
            Acts heap.old work.old.private (line_action state operation (line.Climb (climb.Read (climb_of path self.old) (read_of work.old.swap.read root_seen)))) heap.new
            work.new.private }
        ensures same { (self.new.single ≡ self.old.single) × (self.new.former ≡ self.old.former) × (work.new.swap.read.access ≡ work.old.swap.read.access) }
        ensures asks { IsAskingRoot result → (self.new ≡ record self.old { at = ClimbAt.Read }) × (work.new ≡ work.old) × (heap.new ≡ heap.old) }
        ensures last { IsLast result → ⊥ }
    {
        self.at = ClimbAt::Read;
        match work.read(heap, root_seen) {
            Next::More(kind) => Next::More(kind),
            Next::AskRoot => Next::AskRoot,
            Next::Done(kind, main) => {
                self.at = ClimbAt::Main { main };
                Next::More(kind)
            }
        }
    }

    /// Looks at the parent's main node. A tomb climbs on; in a branch the tombed indirection gives way, if it
    /// stands there.
    fn look(&mut self, heap: &Heap, task: Task, path: &[Ref], main: Ref) -> Next<Climbed>
        ensures follows { (state : State) (operation : Operation) (access : Access) (s : ASwap) (place : ReadAt) →
            StepsOn (at_heap state heap.now.heap task.hashes) (for_task task access operation) (line.Climb (climb.Main (climb_of path.now self.old) main))
            (climb_line path.now s None self.new) place (line_behind (for_task task access operation) (climb_of path.now self.old)) result }
        ensures same { (self.new.single ≡ self.old.single) × (self.new.former ≡ self.old.former) }
        ensures taken { IsAskingRoot result → ⊥ }
    {
        match node_at(heap, main) {
            Some(NodeRef::Tomb { single }) => {
                Next::Done(Kind::Look, Climbed::Higher { single: *single })
            }
            Some(NodeRef::Branch { .. }) => self.look_at_branch(heap, task, path, main),
            None => self.look_at_branch(heap, task, path, main),
            _ => Next::Done(Kind::Look, Climbed::Impossible),
        }
    }

    /// After the look at a branch.
    fn look_at_branch(&mut self, heap: &Heap, task: Task, path: &[Ref], main: Ref) -> Next<Climbed>
        requires { IsBranch (node_at heap.now.heap main) }
        ensures follows { (state : State) (operation : Operation) (access : Access) (s : ASwap) (place : ReadAt) →
            StepsOn (at_heap state heap.now.heap task.hashes) (for_task task access operation) (line.Climb (climb.Main (climb_of path.now self.old) main))
            (climb_line path.now s None self.new) place (line_behind (for_task task access operation) (climb_of path.now self.old)) result }
        ensures same { (self.new.single ≡ self.old.single) × (self.new.former ≡ self.old.former) }
        ensures taken { IsAskingRoot result → ⊥ }
    {
        if holds_it(heap, task, path, main) {
            self.at = ClimbAt::Contracted { main };
            Next::More(Kind::Look)
        } else {
            Next::Done(Kind::Look, Climbed::Climbed)
        }
    }

    /// Makes the parent's new main node; without a free slot the climb is given up.
    fn contract(
        &mut self,
        work: &mut Work,
        heap: &mut Heap,
        task: Task,
        path: &[Ref],
        main: Ref,
    ) -> Next<Climbed>
        requires can { CanClimbAt heap.old.heap task work.old (climb_of path.now self.old) (ClimbAt.Contracted main) }
        requires held { AreHeld work.old.private heap.old }
        ensures follows { (state : State) (operation : Operation) →
            StepsOn (at_heap state heap.old.heap task.hashes) (for_task task work.old.swap.read.access operation)
            (line.Climb (climb.Contracted (climb_of path.now self.old) main)) (climb_line path.now work.new.swap None self.new) work.new.swap.read.at
            (line_behind (for_task task work.old.swap.read.access operation) (climb_of path.now self.old)) result }
        ensures acts { Acts heap.old work.old.private
            (act.Make (climbed_node (at_heap no_state heap.old.heap task.hashes) (for_task task Writable no_operation) (climb_of path.now self.old) main)) heap.new
            work.new.private }
        ensures same { (self.new.single ≡ self.old.single) × (self.new.former ≡ self.old.former) × (work.new.swap.read.access ≡ work.old.swap.read.access) }
        ensures taken { IsAskingRoot result → ⊥ }
    {
        let node = climbed_node(heap, task, path, self.single, main);
        match work.private.make(heap, node) {
            None => Next::Done(Kind::Make, Climbed::Climbed),
            Some(made) => {
                work.swap.begin(current(above(path)), main, made);
                self.at = ClimbAt::Swap;
                Next::More(Kind::Make)
            }
        }
    }

    /// Takes a step of the SWAP.
    fn swap(&mut self, work: &mut Work, heap: &mut Heap, root_seen: Option<u64>) -> Next<Climbed>
        requires can { CanSwapOn heap.old.heap work.old.swap }
        requires held { AreHeld work.old.private heap.old }
        ensures follows { (state : State) (operation : Operation) (path : List ARef) (task : ATask) →
            StepsOn (at_heap state heap.old.heap task.hashes) (for_task task work.old.swap.read.access operation)
            (line.Swap (purpose.Climb (climb_of path self.old)) (swap_of work.old.swap root_seen)) (climb_line path work.new.swap None self.new) work.new.swap.read.at
            (line_behind (for_task task work.old.swap.read.access operation) (climb_of path self.old)) result }
        ensures acts { (state : State) (operation : Operation) (path : List ARef) →
            Acts heap.old work.old.private (line_action state operation (line.Swap (purpose.Climb (climb_of path self.old)) (swap_of work.old.swap root_seen))) heap.new
            work.new.private }
        ensures same { (self.new.single ≡ self.old.single) × (self.new.former ≡ self.old.former) × (work.new.swap.read.access ≡ work.old.swap.read.access) }
        ensures asks { IsAskingRoot result → (self.new ≡ record self.old { at = ClimbAt.Swap }) × (work.new ≡ work.old) × (heap.new ≡ heap.old) }
        ensures last { IsLast result → swapping_read work.old.swap.read.indirection (swap_of work.old.swap root_seen).line ≡ None }
    {
        self.at = ClimbAt::Swap;
        let climbed = climbed_by(heap, work.swap.fresh, self.single);
        match work.swap(heap, root_seen) {
            Next::More(kind) => Next::More(kind),
            Next::AskRoot => Next::AskRoot,
            Next::Done(kind, true) => Next::Done(kind, climbed),
            Next::Done(kind, false) => Next::Done(kind, Climbed::Lost),
        }
    }
}

/// What a climb with this single has come to where this node was swapped in: a tomb climbs on.
fn climbed_by(heap: &Heap, fresh: Ref, single: Ref) -> Climbed
    ensures { (operation : Operation) (path : List ARef) (former : Option ℕ) →
        climbed_on operation (record { path = path; single = single; former = former }) (node_at heap.now.heap fresh) ≡ line_behind operation
        (record { path = path; single = single; former = former }) result }
{
    match node_at(heap, fresh) {
        Some(NodeRef::Tomb { .. }) => Climbed::Higher { single },
        _ => Climbed::Climbed,
    }
}

/// The position of the parent's entry for the call's key.
fn place_in(heap: &Heap, task: Task, path: &[Ref], main: Ref) -> usize
    ensures { (handle : ℕ) → result ≡ position_of (flag_of (hash_of task.hashes (key_of (call_of handle task.call))) (depth_of (above path.now))) (bitmap_of (node_at heap.now.heap main)) }
{
    position_of(task.flag_at(above(path)), bitmap_at(heap, main))
}

/// Whether the branch's entry for the call's key is the tombed indirection.
fn holds_it(heap: &Heap, task: Task, path: &[Ref], main: Ref) -> bool
    ensures { (state : State) (operation : Operation) (access : Access) (single : ARef) (former : Option ℕ) →
        result ≡ holds_it (at_heap state heap.now.heap task.hashes) (for_task task access operation) (record { path = path.now; single = single; former = former }) main
        (bitmap_of (node_at heap.now.heap main)) (entries_of (node_at heap.now.heap main)) }
{
    let entry = entry_at(heap, main, place_in(heap, task, path, main));
    has_flag(bitmap_at(heap, main), task.flag_at(above(path))) && entry == current(path)
}

/// The parent's main node with the single in the tomb's place; below the root, where that is the only entry,
/// a tomb of it.
fn climbed_node(heap: &Heap, task: Task, path: &[Ref], single: Ref, main: Ref) -> Node
    ensures { (former : Option ℕ) → result ≡ climbed_node (at_heap no_state heap.now.heap task.hashes) (for_task task Writable no_operation)
        (record { path = path.now; single = single; former = former }) main }
{
    let place = place_in(heap, task, path, main);
    contracted_at(heap, main, is_below_root(above(path)), place, single)
}
