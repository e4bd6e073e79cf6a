//! A try, step by step.

ghost use Rattle.std.specs.Prelude.{◌≡◌, ℕ, List, Option, None, is_some};
ghost use Rattle.key_change.specs.Beneath.machine_model.specs.declared.operations.Operation.{Operation};
ghost use Rattle.key_change.specs.Beneath.machine_model.specs.declared.lines.Line.TheVariants as line;
ghost use Rattle.key_change.specs.Beneath.machine_model.specs.Building.{build_after_made};
ghost use Rattle.key_change.specs.Beneath.machine_model.specs.Operations.{kind_of, line_action, read_of, swapping_read};
ghost use Rattle.key_change.specs.Beneath.machine_model.specs.States.{State};
ghost use Rattle.key_change.specs.Beneath.machine_model.specs.Swapping.{swap_action};
ghost use Rattle.key_change.specs.Beneath.machine_model.specs.Tellings.{published_by};
ghost use Rattle.key_change.specs.Beneath.machine_model.specs.declared.actions.Action.TheVariants as act;
ghost use Rattle.key_change.specs.Beneath.machine_model.specs.declared.finding.KeyLine.TheVariants as key;
ghost use Rattle.key_change.specs.Beneath.machine_model.specs.declared.lines.Purpose.TheVariants as purpose;
ghost use Rattle.key_change.specs.Beneath.ctrie_base.specs.declared.hashes.HashKind.{HashKind};
ghost use Rattle.key_change.specs.Beneath.slot_arena.specs.declared.refs.Ref.{Ref as ARef};
ghost use Rattle.key_change.specs.Beneath.gcas.specs.declared.read.ReadAt.{ReadAt};
ghost use Rattle.key_change.specs.Beneath.gcas.specs.declared.swap.Swap.{Swap as ASwap};
ghost use Rattle.key_change.specs.Beneath.gcas.specs.Reads.{IsAskingRoot};
ghost use Rattle.key_change.specs.Beneath.gcas.specs.Swaps.{swap_of, CanSwapOn};
ghost use Rattle.trie_parts.specs.declared.calls.Task.{Task as ATask};
ghost use Rattle.trie_parts.specs.Here.{at_heap};
ghost use Rattle.trie_parts.specs.Holding.{Acts, AreHeld};
ghost use Rattle.trie_parts.specs.Steps.{IsLast};
ghost use Rattle.trie_parts.specs.Tasks.{for_task};
ghost use Rattle.key_change.specs.Built.{build_line, built, depth_for};
ghost use Rattle.key_change.specs.Lines.{line_of};
ghost use Rattle.key_change.specs.Steps.{ChangesOn, CanChange, CanChangeAt};

use crate::building::{Building, after_link, after_single, built, depth_ahead};
use trie_parts::{
    Change as NodeChange, Entrant, Heap, Kind, Next, NodeRef, Publication, Ref, Swap, Task, Work,
    current, entry_at, node_at,
};

/// Where a try stands. `former` is the key's value before the change.
#[derive(Clone, Copy)]
pub enum ChangeAt {
    /// The key at this position is to be taken out of a branch of two entries: looks at the other one.
    Sibling { position: usize, former: u64 },
    /// Makes a node.
    Build(Building),
    /// Swaps the new main node in.
    Swap { former: Option<u64> },
}

/// What a try came to.
#[derive(Clone, Copy)]
pub enum Tried {
    /// The key is changed; this was its value before.
    Changed { former: Option<u64> },
    /// The main node wasn't replaced: the call has to be tried again.
    Lost,
    /// No slot was free.
    NoSlots,
    /// A node is of another kind than the program takes it for. No machine comes here.
    Impossible,
}

/// One try of an update: a change of one key in a main node that READ gave.
#[derive(Clone, Copy)]
pub struct Change {
    /// That main node.
    pub main: Ref,
    pub at: ChangeAt,
}

impl Change {
    /// Whether its next step is the READ's, inside of this SWAP.
    pub fn is_reading(&self, swap: &Swap) -> bool
        ensures { (path : List ARef) (root_seen : Option ℕ) → result ≡ is_some (read_of (line_of path swap.now root_seen self.now)) }
    {
        match &self.at {
            ChangeAt::Sibling { .. } | ChangeAt::Build(_) => false,
            ChangeAt::Swap { .. } => swap.is_reading(),
        }
    }

    /// The kind of its next step, where its SWAP is this one and was told this of the root's generation.
    pub fn next_kind(&self, swap: &Swap, root_seen: Option<u64>) -> Kind
        ensures { (state : State) (operation : Operation) (path : List ARef) → result ≡ kind_of (line_action state operation (line_of path swap.now root_seen self.now)) }
    {
        match &self.at {
            ChangeAt::Sibling { .. } => Kind::Look,
            ChangeAt::Build(_) => Kind::Make,
            ChangeAt::Swap { .. } => swap.next_kind(root_seen),
        }
    }

    /// The main node that its next step is to swap in, if it is such a step: the change of this operation.
    pub fn published(&self, swap: &Swap, changer: Entrant) -> Option<Publication>
        ensures { (operation : Operation) (path : List ARef) (root_seen : Option ℕ) → result
            ≡ published_by (record operation { id = changer.id; access = changer.access; generation = changer.generation }) (line_of path swap.now root_seen self.now) }
    {
        match &self.at {
            ChangeAt::Sibling { .. } | ChangeAt::Build(_) => None,
            ChangeAt::Swap { .. } => swap.published(Some(changer)),
        }
    }

    /// Takes the next step of the try, for a call that has come to the end of this path, unless it has to be
    /// told the generation of the root first.
    pub fn step(
        &mut self,
        work: &mut Work,
        heap: &mut Heap,
        task: Task,
        path: &[Ref],
        root_seen: Option<u64>,
    ) -> Next<Tried>
        requires can { CanChange heap.old.heap task path.now work.old self.old }
        requires held { AreHeld work.old.private heap.old }
        ensures follows { (state : State) (operation : Operation) →
            ChangesOn (at_heap state heap.old.heap task.hashes) (for_task task work.old.swap.read.access operation) path.now work.old.swap.fresh
            (line_of path.now work.old.swap root_seen self.old) (line_of path.now work.new.swap None self.new) work.new.swap.read.at result }
        ensures acts { (state : State) (operation : Operation) →
            Acts heap.old work.old.private (line_action (at_heap state heap.old.heap task.hashes) (for_task task work.old.swap.read.access operation)
            (line_of path.now work.old.swap root_seen self.old)) heap.new work.new.private }
        ensures same { (self.new.main ≡ self.old.main) × (work.new.swap.read.access ≡ work.old.swap.read.access) }
        ensures asks { IsAskingRoot result → (self.new ≡ self.old) × (work.new ≡ work.old) × (heap.new ≡ heap.old) }
        ensures last { IsLast result → read_of (line_of path.now work.old.swap root_seen self.old) ≡ None }
    {
        match &self.at {
            ChangeAt::Sibling { position, former } => {
                let (position, former) = (*position, *former);
                self.look(heap, position, former)
            }
            ChangeAt::Build(building) => {
                let building = *building;
                self.make(work, heap, task, path, &building)
            }
            ChangeAt::Swap { former } => {
                let former = *former;
                self.swap(work, heap, root_seen, former)
            }
        }
    }

    /// Looks at the other one of two entries: where it is a single it is entombed.
    fn look(&mut self, heap: &Heap, position: usize, former: u64) -> Next<Tried>
        ensures follows { (state : State) (operation : Operation) (hashes : HashKind) (path : List ARef) (s : ASwap) (fresh : ARef) (place : ReadAt) →
            ChangesOn (at_heap state heap.now.heap hashes) operation path fresh (line.Key (key.Sibling path self.old.main position former)) (line_of path s None self.new)
            place result }
        ensures same { self.new.main ≡ self.old.main }
        ensures taken { IsAskingRoot result → ⊥ }
    {
        let other = entry_at(heap, self.main, 1usize.saturating_sub(position));
        let change = match node_at(heap, other) {
            Some(NodeRef::Single { .. }) => NodeChange::Entomb { single: other },
            Some(NodeRef::Indirection { .. }) => NodeChange::Remove { position },
            _ => return Next::Done(Kind::Look, Tried::Impossible),
        };
        self.at = ChangeAt::Build(Building::Main {
            change,
            former: Some(former),
        });
        Next::More(Kind::Look)
    }

    /// Makes a node, and stands on the line after that.
    #[inline(always)]
    fn make(
        &mut self,
        work: &mut Work,
        heap: &mut Heap,
        task: Task,
        path: &[Ref],
        building: &Building,
    ) -> Next<Tried>
        requires can { CanChangeAt heap.old.heap task path.now work.old self.old.main (ChangeAt.Build building.now) }
        requires held { AreHeld work.old.private heap.old }
        ensures follows { (state : State) (operation : Operation) →
            ChangesOn (at_heap state heap.old.heap task.hashes) (for_task task work.old.swap.read.access operation) path.now work.old.swap.fresh
            (line.Build (build_line path.now self.old.main building.now)) (line_of path.now work.new.swap None self.new) work.new.swap.read.at result }
        ensures acts { Acts heap.old work.old.private (act.Make (built heap.old.heap task (build_line path.now self.old.main building.now))) heap.new work.new.private }
        ensures same { (self.new.main ≡ self.old.main) × (work.new.swap.read.access ≡ work.old.swap.read.access) }
        ensures taken { IsAskingRoot result → ⊥ }
    {
        let depth = depth_ahead(heap, task, path, self.main, building);
        let node = built(heap, task, path, self.main, building);
        match work.private.make(heap, node) {
            None => Next::Done(Kind::Make, Tried::NoSlots),
            Some(made) => {
                self.go_on(work, path, building, depth, made);
                Next::More(Kind::Make)
            }
        }
    }

    /// Stands on the line after the making of a node; two singles part at this depth.
    fn go_on(&mut self, work: &mut Work, path: &[Ref], building: &Building, depth: usize, made: Ref)
        ensures follows { (state : State) (operation : Operation) → depth ≡ depth_for state operation (build_line path.now self.old.main building.now) →
            line_of path.now work.new.swap None self.new ≡ build_after_made state operation (build_line path.now self.old.main building.now) made }
        ensures same { (self.new.main ≡ self.old.main) × (work.new.swap.read.access ≡ work.old.swap.read.access) }
        ensures private { work.new.private ≡ work.old.private }
    {
        self.at = match building {
            Building::Single { site, former } => {
                ChangeAt::Build(after_single(*site, *former, depth, made))
            }
            Building::Pair {
                position,
                depth,
                ..
            }
            | Building::Rung {
                position,
                depth,
                ..
            } => ChangeAt::Build(Building::Link {
                position: *position,
                below: made,
                depth: *depth,
            }),
            Building::Link {
                position,
                depth,
                ..
            } => ChangeAt::Build(after_link(path, *position, *depth, made)),
            Building::Main { former, .. } => {
                work.swap.begin(current(path), self.main, made);
                ChangeAt::Swap { former: *former }
            }
        };
    }

    /// Takes a step of the SWAP.
    fn swap(
        &mut self,
        work: &mut Work,
        heap: &mut Heap,
        root_seen: Option<u64>,
        former: Option<u64>,
    ) -> Next<Tried>
        requires can { CanSwapOn heap.old.heap work.old.swap }
        requires held { AreHeld work.old.private heap.old }
        ensures follows { (state : State) (operation : Operation) (path : List ARef) (hashes : HashKind) (task : ATask) →
            ChangesOn (at_heap state heap.old.heap hashes) (for_task task work.old.swap.read.access operation) path work.old.swap.fresh
            (line.Swap (purpose.Update path former) (swap_of work.old.swap root_seen)) (line_of path work.new.swap None self.new) work.new.swap.read.at result }
        ensures acts { Acts heap.old work.old.private (swap_action (swap_of work.old.swap root_seen)) heap.new work.new.private }
        ensures same { (self.new.main ≡ self.old.main) × (work.new.swap.read.access ≡ work.old.swap.read.access) }
        ensures asks { IsAskingRoot result → (self.new ≡ record self.old { at = ChangeAt.Swap former }) × (work.new ≡ work.old) × (heap.new ≡ heap.old) }
        ensures last { IsLast result → swapping_read work.old.swap.read.indirection (swap_of work.old.swap root_seen).line ≡ None }
    {
        self.at = ChangeAt::Swap { former };
        match work.swap(heap, root_seen) {
            Next::More(kind) => Next::More(kind),
            Next::AskRoot => Next::AskRoot,
            Next::Done(kind, true) => Next::Done(kind, Tried::Changed { former }),
            Next::Done(kind, false) => Next::Done(kind, Tried::Lost),
        }
    }
}
