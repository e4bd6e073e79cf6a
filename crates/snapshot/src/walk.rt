//! WALK: goes through all pairs, by depth first in the order of entries.

ghost use Rattle.std.specs.Prelude.{◌≡◌, ◌<◌, ◌≤◌, ℕ, None, IfErr, IfOk, OnErr, OnOk};
ghost use Rattle.snapshot.specs.Beneath.slot_arena.specs.Heaps.{Heap as Store};
ghost use Rattle.history.specs.declared.calls.Call.{Call};
ghost use Rattle.snapshot.specs.Beneath.machine_model.specs.declared.lines.Line.TheVariants as line;
ghost use Rattle.snapshot.specs.Beneath.machine_model.specs.declared.operations.Operation.{Operation};
ghost use Rattle.snapshot.specs.Beneath.machine_model.specs.declared.walking.WalkLine.TheVariants as walk;
ghost use Rattle.snapshot.specs.Beneath.machine_model.specs.Calls.{handle_of};
ghost use Rattle.snapshot.specs.Beneath.machine_model.specs.Operations.{kind_of};
ghost use Rattle.snapshot.specs.Beneath.machine_model.specs.Reading.{read_action};
ghost use Rattle.snapshot.specs.Beneath.machine_model.specs.States.{State, root_of};
ghost use Rattle.snapshot.specs.Beneath.machine_model.specs.Walking.{walk_next, walked_reply};
ghost use Rattle.snapshot.specs.Beneath.gcas.specs.declared.read.Read.{Read as ARead};
ghost use Rattle.snapshot.specs.Beneath.gcas.specs.Reads.{read_of, line_of, CanReadOn, IsAskingRoot};
ghost use Rattle.snapshot.specs.Beneath.trie_parts.specs.Holding.{Acts};
ghost use Rattle.snapshot.specs.Beneath.trie_parts.specs.Steps.{StepsOn};
ghost use Rattle.snapshot.specs.Beneath.rdcss_root.specs.Tables.{Table};
ghost use Rattle.snapshot.specs.Copies.{action_on};
ghost use Rattle.snapshot.specs.Tasks.{at_roots};
ghost use Rattle.snapshot.specs.Walks.{walk_line, behind_walk, call_of, on_call, CanWalk, HasRoom, IsAtBegin, KeepsWalk, NextIs};

use crate::taken::Taken;
use crate::tasks::WalkCall;
use crate::todo::Todo;
use ctrie_base::{Kind, Refusal};
use history::Reply;
use root_asking::{Heap, Next, NodeRef, Read, Ref, RootWord, Roots, Work, entries_at, node_at};
use std::alloc::{AllocError, Global};

/// Where a walk stands.
#[derive(Clone, Copy)]
pub enum WalkAt {
    /// Reads the root word.
    Root,
    /// Reads an indirection.
    Read,
    /// Looks at its main node.
    Main { main: Ref },
    /// Looks at the next entry.
    Entry,
}

/// What a walk came to.
#[derive(Clone, Copy)]
pub enum Walked {
    /// It has met all pairs.
    All,
    /// A node is of another kind than the program takes it for. No machine comes here.
    Impossible,
}

/// A walk, for all pairs or for their number. Its READ is that of the work. An operation keeps one for all its calls.
#[derive(Drop)]
pub struct Walk {
    pub(crate) todo: Todo,
    pub(crate) pairs: Taken,
    pub(crate) at: WalkAt,
}

impl Walk {
    /// One at its beginning. It takes no memory.
    pub fn new(alloc: Global) -> Walk
        ensures { IsAtBegin result }
    {
        Walk {
            todo: Todo::new(alloc),
            pairs: Taken::new(alloc),
            at: WalkAt::Root,
        }
    }

    /// Begins anew.
    pub fn begin(&mut self)
        ensures { IsAtBegin self.new }
    {
        self.todo.clear();
        self.pairs.clear();
        self.at = WalkAt::Root;
    }

    /// The kind of its next step, where its READ is this one and was told this of the root's generation.
    pub fn next_kind(&self, read: &Read, root_seen: Option<u64>) -> Kind
        ensures { result ≡ kind_of (action_on (walk_line read.now root_seen self.now)) }
    {
        match &self.at {
            WalkAt::Root => Kind::ReadRoot,
            WalkAt::Read => read.next_kind(root_seen),
            WalkAt::Main { .. } | WalkAt::Entry => Kind::Look,
        }
    }

    /// Makes room for what its next step may put into its lists. After an error, which is lack of memory, nothing has changed
    /// but room.
    pub fn make_room(&mut self) -> Result<(), Refusal>
        ensures same { KeepsWalk self.old self.new }
        ensures room { OnOk result (HasRoom self.new) }
        ensures only_memory { IfErr result (λ refusal. refusal ≡ Refusal.Memory) }
    {
        self.todo.make_room()?;
        self.pairs.make_room()?;
        Ok(())
    }

    /// Takes its next step, on this handle, unless it has to be told the generation of the root first.
    pub fn step(
        &mut self,
        work: &mut Work,
        roots: &Roots,
        handle: u16,
        heap: &mut Heap,
        root_seen: Option<u64>,
    ) -> Next<Walked>
        requires can { CanWalk heap.old.heap work.old.swap.read self.old }
        requires room { HasRoom self.old }
        ensures follows { (state : State) (operation : Operation) (call : Call) → handle_of call ≡ handle →
            StepsOn (at_roots state heap.old.heap roots.now) (on_call call work.old.swap.read.access operation) (walk_line work.old.swap.read root_seen self.old)
            (walk_line work.new.swap.read None self.new) work.new.swap.read.at (behind_walk call self.new.pairs.items) result }
        ensures acts { Acts heap.old work.old.private (action_on (walk_line work.old.swap.read root_seen self.old)) heap.new work.new.private }
        ensures access { work.new.swap.read.access ≡ work.old.swap.read.access }
        ensures asks { IsAskingRoot result → (self.new ≡ self.old) × (work.new ≡ work.old) × (heap.new ≡ heap.old) }
    {
        match &self.at {
            WalkAt::Root => self.open(work, roots, handle),
            WalkAt::Read => self.read(work, heap, root_seen),
            WalkAt::Main { main } => {
                let main = *main;
                self.look(heap, main)
            }
            WalkAt::Entry => self.take(work, heap),
        }
    }

    /// The reply to this call, where it has met all pairs. These are handed out, and not copied: it takes no memory.
    pub fn take_reply(&mut self, call: WalkCall) -> Reply
        ensures { (handle : ℕ) → result ≡ walked_reply (call_of handle call) self.old.pairs.items }
    {
        match call {
            WalkCall::Entries => Reply::Pairs(self.pairs.take_by_key()),
            WalkCall::Count => Reply::Count(self.pairs.len() as u64),
        }
    }

    /// A copy of that reply, while the operation goes on. Only memory may be lacking, and only for pairs.
    pub fn copy_reply(&self, call: WalkCall) -> Result<Reply, AllocError>
        ensures reply { (handle : ℕ) → IfOk result (λ reply. reply ≡ walked_reply (call_of handle call) self.now.pairs.items) }
        ensures only_entries { OnErr result (call ≡ WalkCall.Entries) }
    {
        match call {
            WalkCall::Entries => Ok(Reply::Pairs(self.pairs.copy_by_key()?)),
            WalkCall::Count => Ok(Reply::Count(self.pairs.len() as u64)),
        }
    }

    /// Reads the root word: the root is read next.
    fn open(&mut self, work: &mut Work, roots: &Roots, handle: u16) -> Next<Walked>
        ensures follows { (state : State) (operation : Operation) (heap : Store) (call : Call) → handle_of call ≡ handle →
            StepsOn (at_roots state heap roots.now) (on_call call work.old.swap.read.access operation) (line.Walk walk.Root) (walk_line work.new.swap.read None self.new)
            work.new.swap.read.at (behind_walk call self.new.pairs.items) result }
        ensures same { (work.new.swap.read.access ≡ work.old.swap.read.access) × (work.new.private ≡ work.old.private) }
        ensures taken { IsAskingRoot result → ⊥ }
    {
        self.begin();
        work.swap.read.begin(root_of(roots.word(handle)));
        self.at = WalkAt::Read;
        Next::More(Kind::ReadRoot)
    }

    /// Takes a step of the READ.
    fn read(&mut self, work: &mut Work, heap: &mut Heap, root_seen: Option<u64>) -> Next<Walked>
        requires { CanReadOn heap.old.heap work.old.swap.read }
        ensures follows { (state : State) (operation : Operation) (table : Table) (call : Call) →
            StepsOn (at_roots state heap.old.heap table) (on_call call work.old.swap.read.access operation)
            (line.Walk (walk.Read (read_of work.old.swap.read root_seen) self.old.todo.items self.old.pairs.items)) (walk_line work.new.swap.read None self.new) work.new.swap.read.at
            (behind_walk call self.new.pairs.items) result }
        ensures acts { Acts heap.old work.old.private (read_action work.old.swap.read.indirection (line_of work.old.swap.read root_seen)) heap.new work.new.private }
        ensures access { work.new.swap.read.access ≡ work.old.swap.read.access }
        ensures asks { IsAskingRoot result → (self.new ≡ record self.old { at = WalkAt.Read }) × (work.new ≡ work.old) × (heap.new ≡ heap.old) }
    {
        self.at = WalkAt::Read;
        match work.read(heap, root_seen) {
            Next::More(kind) => Next::More(kind),
            Next::AskRoot => Next::AskRoot,
            Next::Done(kind, main) => {
                self.at = WalkAt::Main { main };
                Next::More(kind)
            }
        }
    }

    /// Looks at a main node: its entries are the next ones.
    fn look(&mut self, heap: &Heap, main: Ref) -> Next<Walked>
        requires { 32 ≤ self.old.todo.room }
        ensures follows { (state : State) (operation : Operation) (table : Table) (call : Call) (r : ARead) →
            StepsOn (at_roots state heap.now.heap table) (on_call call r.access operation) (line.Walk (walk.Main main self.old.todo.items self.old.pairs.items))
            (walk_line r None self.new) r.at (behind_walk call self.new.pairs.items) result }
        ensures taken { IsAskingRoot result → ⊥ }
    {
        self.todo.put_before(entries_at(heap, main));
        self.go_on()
    }

    /// Looks at the next entry: a single is taken, an indirection is read.
    fn take(&mut self, work: &mut Work, heap: &Heap) -> Next<Walked>
        requires { 0 < self.old.pairs.room }
        ensures follows { (state : State) (operation : Operation) (table : Table) (call : Call) →
            StepsOn (at_roots state heap.now.heap table) (on_call call work.old.swap.read.access operation) (line.Walk (walk.Entry self.old.todo.items self.old.pairs.items))
            (walk_line work.new.swap.read None self.new) work.new.swap.read.at (behind_walk call self.new.pairs.items) result }
        ensures same { (work.new.swap.read.access ≡ work.old.swap.read.access) × (work.new.private ≡ work.old.private) }
        ensures taken { IsAskingRoot result → ⊥ }
    {
        let entry = self.todo.first();
        match node_at(heap, entry) {
            Some(NodeRef::Indirection { .. }) => {
                self.todo.drop_first();
                work.swap.read.begin(entry);
                self.at = WalkAt::Read;
                Next::More(Kind::Look)
            }
            Some(NodeRef::Single { key, value }) => {
                self.pairs.push(key, value);
                self.todo.drop_first();
                self.go_on()
            }
            _ => Next::Done(Kind::Look, Walked::Impossible),
        }
    }

    /// Goes on with the next entry, or ends where none is left.
    fn go_on(&mut self) -> Next<Walked>
        ensures next { (operation : Operation) (r : ARead) →
            NextIs (walk_next operation self.old.todo.items self.old.pairs.items) (walk_line r None self.new) (behind_walk operation.call self.new.pairs.items) result }
        ensures same { self.new ≡ record self.old { at = self.new.at } }
        ensures taken { IsAskingRoot result → ⊥ }
    {
        if self.todo.is_empty() {
            return Next::Done(Kind::Look, Walked::All);
        }
        self.at = WalkAt::Entry;
        Next::More(Kind::Look)
    }
}

/// The root that stands in a root word, also while an offer stands over it.
pub fn root_of(word: RootWord) -> Ref
    ensures { result ≡ root_of word }
{
    match word {
        RootWord::Plain(root) => root,
        RootWord::Offer(offer) => offer.root,
    }
}
