//! COPY: a snapshot, a freeze or a clear swaps the root for one of a new generation.

ghost use Rattle.std.specs.Prelude.{◌≡◌, ◌+◌, ◌-◌, ◌<◌, ◌^◌, None, Some, Bool, ℕ, List};
ghost use Rattle.snapshot.specs.Beneath.slot_arena.specs.declared.refs.Ref.{Ref as ARef};
ghost use Rattle.snapshot.specs.Beneath.slot_arena.specs.Arenas.{AreLive};
ghost use Rattle.snapshot.specs.Beneath.machine_model.specs.declared.actions.Action.TheVariants as act;
ghost use Rattle.snapshot.specs.Beneath.machine_model.specs.declared.copying.CopyLine.TheVariants as copy;
ghost use Rattle.snapshot.specs.Beneath.machine_model.specs.declared.lines.Line.TheVariants as line;
ghost use Rattle.snapshot.specs.Beneath.machine_model.specs.declared.operations.Operation.{Operation};
ghost use Rattle.snapshot.specs.Beneath.machine_model.specs.declared.roots.RootWord.TheVariants.{Offer as Offered};
ghost use Rattle.snapshot.specs.Beneath.machine_model.specs.Acting.{attempt_after};
ghost use Rattle.snapshot.specs.Beneath.machine_model.specs.Copying.{copied_reply};
ghost use Rattle.snapshot.specs.Beneath.machine_model.specs.Counting.{refs_of_word};
ghost use Rattle.snapshot.specs.Beneath.machine_model.specs.Operations.{kind_of};
ghost use Rattle.snapshot.specs.Beneath.machine_model.specs.Reading.{read_action};
ghost use Rattle.snapshot.specs.Beneath.machine_model.specs.States.{State};
ghost use Rattle.snapshot.specs.Beneath.machine_model.specs.Swapping.{complete_action, root_action};
ghost use Rattle.snapshot.specs.Beneath.gcas.specs.Reads.{read_of, line_of, CanReadOn, IsAskingRoot};
ghost use Rattle.snapshot.specs.Beneath.trie_parts.specs.Holding.{Acts};
ghost use Rattle.snapshot.specs.Beneath.trie_parts.specs.Steps.{StepsOn};
ghost use Rattle.snapshot.specs.Beneath.rdcss_root.specs.Acts.{ActsInAll};
ghost use Rattle.snapshot.specs.Beneath.rdcss_root.specs.Programs.{root_of, complete_of, CanRootOn, CanCompleteOn, rooted_at, completed_at};
ghost use Rattle.snapshot.specs.Beneath.rdcss_root.specs.Tables.{Table, acted_table, offered_in};
ghost use Rattle.snapshot.specs.Copies.{copy_line, action_on, KeepsGeneration, ReadsFor, line_behind, CanCopy, IsReadyBeside};
ghost use Rattle.snapshot.specs.Tasks.{at_roots, call_of, for_task, mark_of, reply_of, with_generation, drawn_by};

use crate::made::first_making;
use crate::tasks::{CopyCall, CopyReply, CopyTask};
use ctrie_base::Kind;
use root_asking::{Complete, Heap, Next, Offer, Read, ReadRoot, Ref, Roots, Work, generation_at};

/// What is to be made for the swap of a root whose main node is `main`.
#[derive(Clone, Copy)]
pub enum Making {
    /// The new root over the same main node.
    Successor { main: Ref },
    /// The root of a writable snapshot over the same main node.
    Second { main: Ref, successor: Ref },
    /// For a clear: an empty branch.
    Empty { main: Ref },
    /// For a clear: the new root over the empty branch.
    Cleared { main: Ref, branch: Ref },
}

/// Where the program stands.
#[derive(Clone, Copy)]
pub enum CopyAt {
    /// ROOT.
    Root(ReadRoot),
    /// Reads the root.
    Read,
    Make(Making),
    Offer(Offer),
    /// Completes the own offer.
    Complete(Complete),
}

/// A snapshot, a freeze or a clear. Its READ is that of the work.
#[derive(Clone, Copy)]
pub struct CopyOp {
    /// The root that ROOT gave last.
    pub root: Ref,
    /// Its generation, if ROOT has given one.
    pub generation: Option<u64>,
    /// How often it has offered.
    pub attempt: u64,
    pub at: CopyAt,
}

impl CopyOp {
    /// One at its beginning.
    pub fn new() -> CopyOp
        ensures { result ≡ record { root = 0; generation = None; attempt = 0; at = CopyAt.Root ReadRoot.Read } }
    {
        CopyOp {
            root: Ref::default(),
            generation: None,
            attempt: 0,
            at: CopyAt::Root(ReadRoot::Read),
        }
    }

    /// The kind of its next step, where its READ is this one and was told this of the root's generation.
    pub fn next_kind(&self, read: &Read, root_seen: Option<u64>) -> Kind
        ensures { result ≡ kind_of (action_on (copy_line read.now root_seen self.now)) }
    {
        match &self.at {
            CopyAt::Root(root) => root.next_kind(read, root_seen),
            CopyAt::Read => read.next_kind(root_seen),
            CopyAt::Make(_) => Kind::Make,
            CopyAt::Offer(_) => Kind::SwapRoot,
            CopyAt::Complete(complete) => complete.next_kind(read, root_seen),
        }
    }

    /// Takes its next step, unless it has to be told the generation of the root first. `generations` is the next
    /// generation to be drawn.
    pub fn step(
        &mut self,
        work: &mut Work,
        roots: &mut Roots,
        generations: &mut u64,
        heap: &mut Heap,
        task: CopyTask,
        root_seen: Option<u64>,
    ) -> Next<CopyReply>
        requires can { CanCopy heap.old roots.old work.old generations.old self.old }
        requires ready { IsReadyBeside heap.old roots.old.roots work.old.private }
        requires attempts { self.old.attempt < 2 ^ 64 - 1 }
        requires generations { generations.old < 2 ^ 64 - 1 }
        ensures follows { (state : State) (operation : Operation) →
            StepsOn (at_roots state heap.old.heap roots.old) (for_task task self.old.attempt (mark_of roots.old task) work.old.swap.read.access operation)
            (copy_line work.old.swap.read root_seen self.old) (copy_line work.new.swap.read None self.new) work.new.swap.read.at line_behind result }
        ensures acts { ActsInAll heap.old roots.old.roots work.old.private
            (with_generation generations.old (action_on (copy_line work.old.swap.read root_seen self.old))) heap.new roots.new.roots work.new.private }
        ensures table { roots.new ≡ acted_table roots.old task.handle task.actor (action_on (copy_line work.old.swap.read root_seen self.old)) }
        ensures drawn { generations.new ≡ drawn_by heap.old.heap generations.old (action_on (copy_line work.old.swap.read root_seen self.old)) }
        ensures attempt { self.new.attempt ≡ attempt_after self.old.attempt (action_on (copy_line work.old.swap.read root_seen self.old)) }
        ensures generation { (state : State) (operation : Operation) →
            KeepsGeneration (at_roots state heap.old.heap roots.old) (for_task task self.old.attempt (mark_of roots.old task) work.old.swap.read.access operation)
            (copy_line work.old.swap.read root_seen self.old) self.old.generation self.new.generation result }
        ensures access { work.new.swap.read.access ≡ work.old.swap.read.access }
        ensures stands { ReadsFor result self.new work.new.swap.read }
        ensures asks { IsAskingRoot result → (self.new ≡ self.old) × (work.new ≡ work.old) × (roots.new ≡ roots.old) × (generations.new ≡ generations.old) × (heap.new ≡ heap.old) }
    {
        match &self.at {
            CopyAt::Root(root) => {
                let root = *root;
                self.find_root(root, work, roots, heap, task, root_seen)
            }
            CopyAt::Read => self.read(work, heap, task, root_seen),
            CopyAt::Make(making) => {
                let making = *making;
                self.make(&making, work, generations, heap, task)
            }
            CopyAt::Offer(offer) => {
                let offer = *offer;
                self.offer(offer, work, roots, heap, task)
            }
            CopyAt::Complete(complete) => {
                let complete = *complete;
                self.complete(complete, work, roots, heap, task, root_seen)
            }
        }
    }

    /// Takes a step of ROOT.
    fn find_root(
        &mut self,
        root: ReadRoot,
        work: &mut Work,
        roots: &mut Roots,
        heap: &mut Heap,
        task: CopyTask,
        root_seen: Option<u64>,
    ) -> Next<CopyReply>
        requires { CanRootOn heap.old roots.old root work.old.swap.read }
        ensures follows { (state : State) (operation : Operation) (attempt : ℕ) (mark : Bool) →
            StepsOn (at_roots state heap.old.heap roots.old) (for_task task attempt mark work.old.swap.read.access operation)
            (line.Root (root_of root work.old.swap.read root_seen)) (copy_line work.new.swap.read None self.new) work.new.swap.read.at line_behind result }
        ensures acts { (private : List ARef) → ActsInAll heap.old roots.old.roots private (root_action (root_of root work.old.swap.read root_seen)) heap.new roots.new.roots private }
        ensures table { roots.new ≡ rooted_at roots.old task.handle root }
        ensures generation { (state : State) (operation : Operation) (attempt : ℕ) (mark : Bool) →
            KeepsGeneration (at_roots state heap.old.heap roots.old) (for_task task attempt mark work.old.swap.read.access operation)
            (line.Root (root_of root work.old.swap.read root_seen)) self.old.generation self.new.generation result }
        ensures asks { IsAskingRoot result → (self.new ≡ record self.old { at = CopyAt.Root root }) × (work.new ≡ work.old) × (roots.new ≡ roots.old) × (heap.new ≡ heap.old) }
        ensures same { (self.new.attempt ≡ self.old.attempt) × (work.new.private ≡ work.old.private) × (work.new.swap.read.access ≡ work.old.swap.read.access) }
        ensures stands { ReadsFor result self.new work.new.swap.read }
    {
        let mut root = root;
        match root.step(&mut work.swap.read, roots, task.handle, heap, root_seen) {
            Next::More(kind) => {
                self.at = CopyAt::Root(root);
                Next::More(kind)
            }
            Next::AskRoot => {
                self.at = CopyAt::Root(root);
                Next::AskRoot
            }
            Next::Done(kind, found) => {
                self.root = found;
                self.generation = Some(generation_at(heap, found));
                work.swap.read.begin(found);
                self.at = CopyAt::Read;
                Next::More(kind)
            }
        }
    }

    /// Takes a step of the root's READ: a clear makes an empty branch then, any other the new root.
    fn read(
        &mut self,
        work: &mut Work,
        heap: &mut Heap,
        task: CopyTask,
        root_seen: Option<u64>,
    ) -> Next<CopyReply>
        requires { CanReadOn heap.old.heap work.old.swap.read }
        ensures follows { (state : State) (operation : Operation) (table : Table) (attempt : ℕ) (mark : Bool) →
            StepsOn (at_roots state heap.old.heap table) (for_task task attempt mark work.old.swap.read.access operation)
            (line.Copy (copy.Read self.old.root (read_of work.old.swap.read root_seen))) (copy_line work.new.swap.read None self.new) work.new.swap.read.at line_behind
            result }
        ensures acts { Acts heap.old work.old.private (read_action work.old.swap.read.indirection (line_of work.old.swap.read root_seen)) heap.new work.new.private }
        ensures same { (self.new.attempt ≡ self.old.attempt) × (self.new.generation ≡ self.old.generation) × (work.new.swap.read.access ≡ work.old.swap.read.access) }
        ensures asks { IsAskingRoot result → (self.new ≡ record self.old { at = CopyAt.Read }) × (work.new ≡ work.old) × (heap.new ≡ heap.old) }
        ensures stands { ReadsFor result self.new work.new.swap.read }
    {
        self.at = CopyAt::Read;
        match work.read(heap, root_seen) {
            Next::More(kind) => Next::More(kind),
            Next::AskRoot => Next::AskRoot,
            Next::Done(kind, main) => {
                self.at = CopyAt::Make(first_making(task.call, main));
                Next::More(kind)
            }
        }
    }

    /// Offers the swap. What was made is given up first: it is held from the root word then, or never used.
    fn offer(
        &mut self,
        offer: Offer,
        work: &mut Work,
        roots: &mut Roots,
        heap: &mut Heap,
        task: CopyTask,
    ) -> Next<CopyReply>
        requires live { AreLive heap.old.heap (refs_of_word (Offered offer.descriptor)) }
        requires ready { IsReadyBeside heap.old roots.old.roots work.old.private }
        requires attempts { self.old.attempt < 2 ^ 64 - 1 }
        ensures follows { (state : State) (operation : Operation) (attempt : ℕ) (mark : Bool) →
            StepsOn (at_roots state heap.old.heap roots.old) (for_task task attempt mark work.old.swap.read.access operation) (line.Copy (copy.Offer offer.descriptor))
            (copy_line work.new.swap.read None self.new) work.new.swap.read.at line_behind result }
        ensures acts { ActsInAll heap.old roots.old.roots work.old.private (act.Offer offer.descriptor) heap.new roots.new.roots work.new.private }
        ensures table { roots.new ≡ offered_in roots.old task.handle task.actor offer.descriptor }
        ensures attempt { self.new.attempt ≡ self.old.attempt + 1 }
        ensures generation { self.new.generation ≡ self.old.generation }
        ensures taken { IsAskingRoot result → ⊥ }
        ensures access { work.new.swap.read.access ≡ work.old.swap.read.access }
        ensures stands { ReadsFor result self.new work.new.swap.read }
    {
        work.private.give_up(heap);
        self.attempt += 1;
        self.at = CopyAt::Root(ReadRoot::Read);
        let stood = offer.step(roots, task.handle, task.actor, heap);
        if matches!(stood, Next::Done(_, true)) {
            self.at = CopyAt::Complete(Complete::begin(offer.descriptor, &mut work.swap.read));
        }
        Next::More(Kind::SwapRoot)
    }

    /// Takes a step of COMPLETE. The call is answered where its offer was carried out, by this step or before
    /// it by another operation, and else begins anew.
    fn complete(
        &mut self,
        complete: Complete,
        work: &mut Work,
        roots: &mut Roots,
        heap: &mut Heap,
        task: CopyTask,
        root_seen: Option<u64>,
    ) -> Next<CopyReply>
        requires { CanCompleteOn heap.old roots.old complete work.old.swap.read }
        ensures follows { (state : State) (operation : Operation) (attempt : ℕ) →
            StepsOn (at_roots state heap.old.heap roots.old) (for_task task attempt (mark_of roots.old task) work.old.swap.read.access operation)
            (line.Copy (copy.Complete (complete_of complete work.old.swap.read root_seen))) (copy_line work.new.swap.read None self.new) work.new.swap.read.at line_behind
            result }
        ensures acts { (private : List ARef) → ActsInAll heap.old roots.old.roots private (complete_action (complete_of complete work.old.swap.read root_seen)) heap.new roots.new.roots private }
        ensures table { roots.new ≡ completed_at roots.old task.handle complete.offer complete.at }
        ensures same { (self.new.attempt ≡ self.old.attempt) × (self.new.generation ≡ self.old.generation) × (work.new.private ≡ work.old.private)
            × (work.new.swap.read.access ≡ work.old.swap.read.access) }
        ensures asks { IsAskingRoot result → (self.new ≡ record self.old { at = CopyAt.Complete complete }) × (work.new ≡ work.old) × (roots.new ≡ roots.old) × (heap.new ≡ heap.old) }
        ensures stands { ReadsFor result self.new work.new.swap.read }
    {
        let was_marked = roots.is_marked(task.actor);
        let mut complete = complete;
        match complete.step(&mut work.swap.read, roots, task.handle, heap, root_seen) {
            Next::More(kind) => {
                self.at = CopyAt::Complete(complete);
                Next::More(kind)
            }
            Next::AskRoot => {
                self.at = CopyAt::Complete(complete);
                Next::AskRoot
            }
            Next::Done(kind, true) => Next::Done(kind, copied_reply(task)),
            Next::Done(kind, false) if was_marked => Next::Done(kind, copied_reply(task)),
            Next::Done(kind, false) => {
                self.at = CopyAt::Root(ReadRoot::Read);
                Next::More(kind)
            }
        }
    }
}

/// The reply to a call that has swapped the root.
fn copied_reply(task: CopyTask) -> CopyReply
    ensures { (handle : ℕ) → reply_of result ≡ copied_reply (call_of handle task.call) task.opens }
{
    match task.call {
        CopyCall::Clear => CopyReply::Cleared,
        CopyCall::Snapshot | CopyCall::Freeze => CopyReply::Opened(task.opens.unwrap_or(0)),
    }
}
