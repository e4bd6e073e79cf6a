//! A call on one key, step by step.

ghost use Rattle.std.specs.Prelude.{◌≡◌, if◌then◌else◌, List, [], None};
ghost use Rattle.operate.specs.Beneath.slot_arena.specs.declared.refs.Ref.{Ref as ARef};
ghost use Rattle.operate.specs.Beneath.history.specs.declared.calls.Access.{Access as AnAccess};
ghost use Rattle.operate.specs.Beneath.machine_model.specs.Climbing.{climbed, climbing};
ghost use Rattle.operate.specs.Beneath.machine_model.specs.Lines.{new_try};
ghost use Rattle.operate.specs.Beneath.machine_model.specs.Swapping.{root_action};
ghost use Rattle.operate.specs.Beneath.machine_model.specs.declared.lines.Line.TheVariants as line;
ghost use Rattle.operate.specs.Beneath.machine_model.specs.declared.operations.Operation.{Operation};
ghost use Rattle.operate.specs.Beneath.gcas.specs.Reads.{begun, IsAskingRoot};
ghost use Rattle.operate.specs.Beneath.trie_parts.specs.Holding.{AreHeld};
ghost use Rattle.operate.specs.Beneath.trie_parts.specs.Tasks.{for_task, is_begun_in};
ghost use Rattle.operate.specs.Beneath.rdcss_root.specs.Acts.{ActsInAll};
ghost use Rattle.operate.specs.Beneath.rdcss_root.specs.Programs.{root_of, CanRootOn, rooted_at};
ghost use Rattle.operate.specs.Beneath.rdcss_root.specs.Tables.{word_in};
ghost use Rattle.contract.specs.Climbing.{climb_of};
ghost use Rattle.operate.specs.Apart.{next_of};
ghost use Rattle.operate.specs.Places.{key_line, key_line_at};
ghost use Rattle.operate.specs.Steps.{RootSteps, RootActs, CommitsNoMore, KeepsGeneration, CanKey, ReadsKey, table_after};

use crate::path::Path;
use crate::went::Went;
use contract::{
    Access, Clean, Climb, ClimbAt, HashKind, Heap, KeyCall, Kind, Next, Private, Ref, Renew, Swap,
    Task, Work, generation_at, is_below_root,
};
use key_finding::{Change, ChangeAt, KeyReply, changed_reply};
use root_asking::{ReadRoot, Roots};

/// Where a call stands below its root.
#[derive(Clone, Copy)]
pub enum BelowAt {
    /// Reads the current indirection.
    Read,
    /// Looks at its main node.
    Main { main: Ref },
    /// Looks at the branch's entry at this position.
    Entry { main: Ref, position: usize },
    /// Looks at the single at this position of a list, or at a tomb's.
    Listed { main: Ref, position: usize },
    /// Changes the main node.
    Change,
    /// Renews it.
    Renew,
    /// Cleans the parent.
    Clean,
    /// Climbs.
    Climb,
    /// Ends with its reply.
    End,
    /// A node is of another kind than the program takes it for. No machine comes here.
    Impossible,
}

/// Where a call on one key stands.
#[derive(Clone, Copy)]
pub enum KeyAt {
    /// ROOT: a try begins.
    Root,
    /// ROOT, after a climb whose swap failed: it climbs on where the root is of the same generation still.
    RootAgain,
    /// Below the root.
    Down(BelowAt),
}

/// A call on one key, kept in place: an actor has one for all its calls.
pub struct KeyOp {
    /// What the call is, and the generation of the root that ROOT gave last.
    pub task: Task,
    pub(crate) path: Path,
    /// An actor has one for the calls of all kinds.
    pub work: Work,
    pub(crate) at: KeyAt,
    /// Each program stays in its place, and is read only where the call stands in it: so a step moves little.
    pub(crate) root: ReadRoot,
    pub(crate) change: Change,
    pub(crate) renew: Renew,
    pub(crate) clean: Clean,
    pub(crate) climb: Climb,
    pub(crate) reply: KeyReply,
}

impl Drop for KeyOp {
    fn drop(self) {
        let KeyOp {
            task: _,
            path: _,
            work: _,
            at: _,
            root: _,
            change: _,
            renew: _,
            clean: _,
            climb: _,
            reply: _,
        } = self;
    }
}

impl KeyOp {
    /// One that has still to begin.
    pub fn new(hashes: HashKind) -> KeyOp
        ensures hashes { result.task.hashes ≡ hashes }
        ensures private { result.work.private ≡ [] }
    {
        let nowhere = Ref::default();
        KeyOp {
            task: Task {
                call: KeyCall::Get { key: 0 },
                hashes,
                generation: None,
            },
            path: Path::new(),
            work: Work {
                private: Private::new(),
                swap: Swap::new(Access::ReadOnly, nowhere, nowhere, nowhere),
            },
            at: KeyAt::Down(BelowAt::Impossible),
            root: ReadRoot::Read,
            change: Change {
                main: nowhere,
                at: ChangeAt::Swap { former: None },
            },
            renew: Renew::new(),
            clean: Clean::new(),
            climb: Climb {
                single: nowhere,
                former: None,
                at: ClimbAt::Read,
            },
            reply: KeyReply::NoSlots,
        }
    }

    /// Begins this call, on a handle of this kind.
    pub fn begin(&mut self, access: Access, call: KeyCall)
        ensures line { key_line self.new None ≡ new_try }
        ensures task { self.new.task ≡ record self.old.task { call = call; generation = None } }
        ensures access { self.new.work.swap.read.access ≡ access }
        ensures private { self.new.work.private ≡ self.old.work.private }
    {
        self.task.call = call;
        self.task.generation = None;
        self.work.swap.read.access = access;
        self.begin_try();
    }

    /// Takes the call's next step, on this handle, unless it has to be told the generation of the root first.
    #[inline(always)]
    pub fn step(
        &mut self,
        roots: &mut Roots,
        handle: u16,
        heap: &mut Heap,
        root_seen: Option<u64>,
    ) -> Next<KeyReply>
        requires can { CanKey heap.old roots.old self.old }
        requires held { AreHeld self.old.work.private heap.old }
        ensures follows { RootSteps heap.old.heap (word_in roots.old handle) self.old (key_line self.old root_seen) self.new result }
        ensures acts { RootActs heap.old roots.old.roots self.old (key_line self.old root_seen) heap.new roots.new.roots self.new.work.private }
        ensures table { roots.new ≡ table_after roots.old handle self.old }
        ensures generation { KeepsGeneration heap.old.heap (word_in roots.old handle) self.old (key_line self.old root_seen) self.new.task result }
        ensures task { self.new.task ≡ record self.old.task { generation = self.new.task.generation } }
        ensures access { self.new.work.swap.read.access ≡ self.old.work.swap.read.access }
        ensures stands { ReadsKey self.new }
        ensures asks { IsAskingRoot result → (self.new ≡ self.old) × (roots.new ≡ roots.old) × (heap.new ≡ heap.old) }
    {
        match &self.at {
            KeyAt::Root => self.find_root(roots, handle, heap, root_seen).next(),
            KeyAt::RootAgain => self.find_root_again(roots, handle, heap, root_seen).next(),
            KeyAt::Down(at) => match at {
                BelowAt::Read => self.read(heap, root_seen),
                BelowAt::Main { main } => {
                    let main = *main;
                    self.look_at_main(heap, main);
                    Next::More(Kind::Look)
                }
                BelowAt::Entry { main, position } => {
                    let (main, position) = (*main, *position);
                    self.look_at_entry(heap, main, position);
                    Next::More(Kind::Look)
                }
                BelowAt::Listed { main, position } => {
                    let (main, position) = (*main, *position);
                    self.look_at_single(heap, main, position);
                    Next::More(Kind::Look)
                }
                BelowAt::Change => self.change(heap, root_seen).next(),
                BelowAt::Renew => self.renew(heap, root_seen).next(),
                BelowAt::Clean => self.clean(heap, root_seen).next(),
                BelowAt::Climb => self.climb(heap, root_seen).next(),
                BelowAt::End => Next::Done(Kind::End, self.reply),
                BelowAt::Impossible => Next::More(Kind::ReadRoot),
            },
        }
    }

    /// Begins a try: ROOT reads the root word next.
    pub(crate) fn begin_try(&mut self)
        ensures { self.new ≡ record self.old { at = KeyAt.Root; root = ReadRoot.Read } }
    {
        self.root = ReadRoot::Read;
        self.at = KeyAt::Root;
    }

    /// Takes a step of ROOT at the beginning of a try.
    #[inline(never)]
    fn find_root(
        &mut self,
        roots: &mut Roots,
        handle: u16,
        heap: &mut Heap,
        root_seen: Option<u64>,
    ) -> Went
        requires at { self.old.at ≡ KeyAt.Root }
        requires can { CanRootOn heap.old roots.old self.old.root self.old.work.swap.read }
        ensures follows { RootSteps heap.old.heap (word_in roots.old handle) self.old (line.Root (root_of self.old.root self.old.work.swap.read root_seen)) self.new (next_of result) }
        ensures acts { (private : List ARef) → ActsInAll heap.old roots.old.roots private (root_action (root_of self.old.root self.old.work.swap.read root_seen)) heap.new roots.new.roots private }
        ensures table { roots.new ≡ rooted_at roots.old handle self.old.root }
        ensures generation { KeepsGeneration heap.old.heap (word_in roots.old handle) self.old (line.Root (root_of self.old.root self.old.work.swap.read root_seen)) self.new.task (next_of result) }
        ensures task { self.new.task ≡ record self.old.task { generation = self.new.task.generation } }
        ensures same { (self.new.work.private ≡ self.old.work.private) × (self.new.work.swap.read.access ≡ self.old.work.swap.read.access) }
        ensures asks { IsAskingRoot (next_of result) → (self.new ≡ self.old) × (roots.new ≡ roots.old) × (heap.new ≡ heap.old) }
        ensures stands { ReadsKey self.new }
    {
        match self
            .root
            .step(&mut self.work.swap.read, roots, handle, heap, root_seen)
        {
            Next::More(kind) => Went::More(kind),
            Next::AskRoot => Went::AskRoot,
            Next::Done(kind, found) => {
                self.task.generation = Some(generation_at(heap, found));
                self.path.restart(found);
                self.read_next(found);
                Went::More(kind)
            }
        }
    }

    /// Reads this indirection next.
    pub(crate) fn read_next(&mut self, indirection: Ref)
        ensures { self.new ≡ record self.old {
          at = KeyAt.Down BelowAt.Read;
          work = record self.old.work { swap = record self.old.work.swap { read = begun self.old.work.swap.read.access indirection } };
        } }
    {
        self.work.swap.read.begin(indirection);
        self.at = KeyAt::Down(BelowAt::Read);
    }

    /// Takes a step of ROOT after a climb whose swap failed.
    #[inline(never)]
    fn find_root_again(
        &mut self,
        roots: &mut Roots,
        handle: u16,
        heap: &mut Heap,
        root_seen: Option<u64>,
    ) -> Went
        requires at { self.old.at ≡ KeyAt.RootAgain }
        requires can { CanRootOn heap.old roots.old self.old.root self.old.work.swap.read }
        ensures follows { RootSteps heap.old.heap (word_in roots.old handle) self.old (key_line_at self.old root_seen KeyAt.RootAgain) self.new (next_of result) }
        ensures acts { (private : List ARef) → ActsInAll heap.old roots.old.roots private (root_action (root_of self.old.root self.old.work.swap.read root_seen)) heap.new roots.new.roots private }
        ensures table { roots.new ≡ rooted_at roots.old handle self.old.root }
        ensures same { (self.new.task ≡ self.old.task) × (self.new.work.private ≡ self.old.work.private) × (self.new.work.swap.read.access ≡ self.old.work.swap.read.access) }
        ensures asks { IsAskingRoot (next_of result) → (self.new ≡ self.old)
            × (roots.new ≡ roots.old) × (heap.new ≡ heap.old) }
        ensures stands { ReadsKey self.new }
    {
        match self
            .root
            .step(&mut self.work.swap.read, roots, handle, heap, root_seen)
        {
            Next::More(kind) => Went::More(kind),
            Next::AskRoot => Went::AskRoot,
            Next::Done(kind, found) => {
                self.climb_again(generation_at(heap, found));
                Went::More(kind)
            }
        }
    }

    /// After a climb whose swap failed, under a root of this generation.
    fn climb_again(&mut self, generation: u64)
        ensures line { (access : AnAccess) (operation : Operation) → key_line self.new None
            ≡ (if is_begun_in self.old.task generation
            then climbing (for_task self.old.task access operation) (climb_of self.old.path self.old.climb)
            else climbed (for_task self.old.task access operation) self.old.climb.former) }
        ensures same { (self.new.task ≡ self.old.task) × (self.new.work.private ≡ self.old.work.private) × (self.new.work.swap.read.access ≡ self.old.work.swap.read.access) }
        ensures stands { ReadsKey self.new }
    {
        let former = self.climb.former;
        if self.task.is_start(generation) {
            self.climb_on(self.climb.single, former);
        } else {
            self.answer(former);
        }
    }

    /// The change stands, and is answered; the key had this value before.
    pub(crate) fn answer(&mut self, former: Option<u64>)
        ensures line { (access : AnAccess) (operation : Operation) → key_line self.new None ≡ climbed (for_task self.old.task access operation) former }
        ensures same { self.new ≡ record self.old { at = self.new.at; reply = self.new.reply } }
        ensures stands { ReadsKey self.new }
    {
        self.end_with(changed_reply(self.task.call, former));
    }

    /// Ends with this reply next.
    pub(crate) fn end_with(&mut self, reply: KeyReply)
        ensures { self.new ≡ record self.old { at = KeyAt.Down BelowAt.End; reply = reply } }
    {
        self.reply = reply;
        self.at = KeyAt::Down(BelowAt::End);
    }

    /// The path's last indirection is tombed, with this single: climbs, if it has a parent.
    pub(crate) fn climb_on(&mut self, single: Ref, former: Option<u64>)
        ensures line { (access : AnAccess) (operation : Operation) → key_line self.new None
            ≡ climbing (for_task self.old.task access operation) (record { path = self.old.path; single = single; former = former }) }
        ensures same { (self.new.task ≡ self.old.task) × (self.new.work.private ≡ self.old.work.private) × (self.new.work.swap.read.access ≡ self.old.work.swap.read.access) }
        ensures reads { CommitsNoMore self.old.work.swap.read.at self.new.work.swap.read.at }
        ensures stands { ReadsKey self.new }
    {
        let path = self.path.as_slice();
        if is_below_root(path) {
            self.climb = Climb::begin(&mut self.work, path, single, former);
            self.at = KeyAt::Down(BelowAt::Climb);
        } else {
            self.answer(former);
        }
    }
}
