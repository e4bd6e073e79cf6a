//! What is made for the swap of a root: the new root, a snapshot's second one, and for a clear an empty branch.

ghost use Rattle.std.specs.Prelude.{◌≡◌, ◌+◌, ◌-◌, ◌<◌, ◌^◌, None, Some, Bool, ℕ};
ghost use Rattle.snapshot.specs.Beneath.slot_arena.specs.declared.refs.Ref.{Ref as ARef};
ghost use Rattle.snapshot.specs.Beneath.slot_arena.specs.Heaps.{Heap as Store, next_ref};
ghost use Rattle.history.specs.declared.calls.Access.{Access as AnAccess};
ghost use Rattle.snapshot.specs.Beneath.machine_model.specs.declared.actions.Action.TheVariants as act;
ghost use Rattle.snapshot.specs.Beneath.machine_model.specs.declared.lines.Line.TheVariants as line;
ghost use Rattle.snapshot.specs.Beneath.machine_model.specs.declared.operations.Operation.{Operation};
ghost use Rattle.snapshot.specs.Beneath.machine_model.specs.Copying.{after_given, copy_action, copy_after_made, offering};
ghost use Rattle.snapshot.specs.Beneath.machine_model.specs.States.{State};
ghost use Rattle.snapshot.specs.Beneath.gcas.specs.declared.read.Read.{Read as ARead};
ghost use Rattle.snapshot.specs.Beneath.gcas.specs.Reads.{IsAskingRoot};
ghost use Rattle.snapshot.specs.Beneath.trie_parts.specs.Holding.{Acts, AreHeld};
ghost use Rattle.snapshot.specs.Beneath.trie_parts.specs.Steps.{StepsOn, CanMake};
ghost use Rattle.snapshot.specs.Beneath.rdcss_root.specs.Tables.{Table};
ghost use Rattle.snapshot.specs.Copies.{copy_line, copy_line_at, ReadsAt, ReadsFor, making_line, made_node, line_behind};
ghost use Rattle.snapshot.specs.Tasks.{at_roots, call_of, for_task, drawn_by};

use crate::copy_op::{CopyAt, CopyOp, Making};
use crate::tasks::{CopyCall, CopyReply, CopyTask};
use ctrie_base::Kind;
use root_asking::{Descriptor, Heap, Next, Node, Offer, Ref, Work, renewed};

impl CopyOp {
    /// Makes a node. A new root draws a generation.
    pub(crate) fn make(
        &mut self,
        making: &Making,
        work: &mut Work,
        generations: &mut u64,
        heap: &mut Heap,
        task: CopyTask,
    ) -> Next<CopyReply>
        requires can { CanMake heap.old.heap work.old.private (made_node generations.old making.now) }
        requires held { AreHeld work.old.private heap.old }
        requires attempts { self.old.attempt < 2 ^ 64 - 1 }
        requires generations { generations.old < 2 ^ 64 - 1 }
        ensures follows { (state : State) (operation : Operation) (table : Table) (access : AnAccess) (mark : Bool) →
            StepsOn (at_roots state heap.old.heap table) (for_task task self.old.attempt mark access operation) (line.Copy (making_line self.old.root making.now))
            (copy_line work.new.swap.read None self.new) work.new.swap.read.at line_behind result }
        ensures acts { Acts heap.old work.old.private (act.Make (made_node generations.old making.now)) heap.new work.new.private }
        ensures drawn { generations.new ≡ drawn_by heap.old.heap generations.old (copy_action (making_line self.old.root making.now)) }
        ensures same { (self.new.attempt ≡ self.old.attempt) × (self.new.generation ≡ self.old.generation) × (work.new.swap ≡ work.old.swap) }
        ensures taken { IsAskingRoot result → ⊥ }
        ensures stands { ReadsFor result self.new work.new.swap.read }
    {
        match work.private.make(heap, node_of(making, *generations)) {
            None => Next::Done(Kind::Make, CopyReply::NoSlots),
            Some(made) => {
                draw(generations, making);
                let at = self.after_made(making, task, made);
                self.at = at;
                Next::More(Kind::Make)
            }
        }
    }

    /// Where the program stands after the making of a node: a writable snapshot makes a second root.
    fn after_made(&self, making: &Making, task: CopyTask, made: Ref) -> CopyAt
        requires { self.now.attempt < 2 ^ 64 - 1 }
        ensures line { (operation : Operation) (access : AnAccess) (mark : Bool) (r : ARead) →
            copy_line_at self.now.root r None result ≡ copy_after_made (for_task task self.now.attempt mark access operation) (making_line self.now.root making.now) made }
        ensures stands { (r : ARead) → ReadsAt result r }
    {
        match making {
            Making::Successor { main } => match task.call {
                CopyCall::Snapshot => CopyAt::Make(Making::Second {
                    main: *main,
                    successor: made,
                }),
                CopyCall::Freeze => self.offering(task, *main, made, None),
                CopyCall::Clear => self.offering(task, *main, made, None),
            },
            Making::Second { main, successor } => {
                self.offering(task, *main, *successor, Some(made))
            }
            Making::Empty { main } => CopyAt::Make(Making::Cleared {
                main: *main,
                branch: made,
            }),
            Making::Cleared { main, .. } => self.offering(task, *main, made, None),
        }
    }

    /// The next offer: to put the successor in the place of the root, if that one still has this main node.
    fn offering(&self, task: CopyTask, main: Ref, successor: Ref, second: Option<Ref>) -> CopyAt
        requires { self.now.attempt < 2 ^ 64 - 1 }
        ensures stands { (r : ARead) → ReadsAt result r }
        ensures line { (operation : Operation) (access : AnAccess) (mark : Bool) (r : ARead) →
            copy_line_at self.now.root r None result ≡ offering (for_task task self.now.attempt mark access operation) self.now.root main successor second }
    {
        CopyAt::Offer(Offer {
            descriptor: Descriptor {
                operation: task.operation,
                attempt: self.attempt + 1,
                root: self.root,
                expected: main,
                successor,
                second,
                opens: task.opens,
            },
        })
    }
}

/// What is made first, over this main node of the root.
pub(crate) fn first_making(call: CopyCall, main: Ref) -> Making
    ensures { (handle : ℕ) (root : ARef) → line.Copy (making_line root result) ≡ after_given (call_of handle call) root main }
{
    match call {
        CopyCall::Clear => Making::Empty { main },
        CopyCall::Snapshot | CopyCall::Freeze => Making::Successor { main },
    }
}

/// The node that is to be made; a new root is of this generation.
fn node_of(making: &Making, generation: u64) -> Node
    ensures { result ≡ made_node generation making.now }
{
    match making {
        Making::Successor { main } | Making::Second { main, .. } => {
            Node::Indirection {
                generation,
                main: *main,
            }
        }
        Making::Empty { .. } => renewed(0, &[]),
        Making::Cleared { branch, .. } => Node::Indirection {
            generation,
            main: *branch,
        },
    }
}

/// A new root has drawn a generation.
fn draw(generations: &mut u64, making: &Making)
    requires { generations.old < 2 ^ 64 - 1 }
    ensures { (heap : Store) (root made : ARef) → next_ref heap ≡ Some made → generations.new ≡ drawn_by heap generations.old (copy_action (making_line root making.now)) }
{
    match making {
        Making::Empty { .. } => {}
        Making::Successor { .. } | Making::Second { .. } | Making::Cleared { .. } => {
            *generations += 1;
        }
    }
}
