//! The steps of a call on one key below its root.

ghost use Rattle.std.specs.Prelude.{◌≡◌, ◌<◌, ℕ, List, length, Option, None};
ghost use Rattle.operate.specs.Beneath.ctrie_base.specs.declared.hashes.HashKind.{HashKind};
ghost use Rattle.operate.specs.Beneath.slot_arena.specs.Heaps.{node_at};
ghost use Rattle.operate.specs.Beneath.slot_arena.specs.declared.refs.Ref.{Ref as ARef};
ghost use Rattle.operate.specs.Beneath.machine_model.specs.Finding.{going_down};
ghost use Rattle.operate.specs.Beneath.machine_model.specs.Operations.{after_update};
ghost use Rattle.operate.specs.Beneath.machine_model.specs.Paths.{above, current};
ghost use Rattle.operate.specs.Beneath.machine_model.specs.Reading.{reading};
ghost use Rattle.operate.specs.Beneath.machine_model.specs.declared.repairs.CleanLine.TheVariants as clean;
ghost use Rattle.operate.specs.Beneath.machine_model.specs.States.{State};
ghost use Rattle.operate.specs.Beneath.machine_model.specs.declared.finding.KeyLine.TheVariants as key;
ghost use Rattle.operate.specs.Beneath.machine_model.specs.declared.lines.Line.TheVariants as line;
ghost use Rattle.operate.specs.Beneath.machine_model.specs.declared.operations.Operation.{Operation};
ghost use Rattle.operate.specs.Beneath.gcas.specs.Reads.{read_of, CanReadOn, IsAskingRoot};
ghost use Rattle.operate.specs.Beneath.trie_parts.specs.Here.{at_heap};
ghost use Rattle.operate.specs.Beneath.trie_parts.specs.Holding.{AreHeld};
ghost use Rattle.operate.specs.Beneath.key_change.specs.Lines.{line_of as change_line};
ghost use Rattle.operate.specs.Beneath.key_change.specs.Steps.{CanChange, line_behind as line_tried};
ghost use Rattle.key_finding.specs.Lines.{line_found};
ghost use Rattle.operate.specs.Apart.{next_of};
ghost use Rattle.operate.specs.Places.{key_line, changed_line, former_of};
ghost use Rattle.operate.specs.Steps.{CommitsNoMore, KeySteps, KeyActs, ReadsKey, operation_for};

use crate::key_op::{BelowAt, KeyAt, KeyOp};
use crate::went::Went;
use contract::{Heap, Kind, Next, NodeRef, Ref, above, current, node_at};
use key_finding::{Change, Entered, Found, KeyReply, Tried, after_entry, after_listed, after_main};

impl KeyOp {
    /// Takes a step of the current indirection's READ.
    #[inline(always)]
    pub(crate) fn read(&mut self, heap: &mut Heap, root_seen: Option<u64>) -> Next<KeyReply>
        requires at { self.old.at ≡ KeyAt.Down BelowAt.Read }
        requires can { CanReadOn heap.old.heap self.old.work.swap.read }
        ensures follows { KeySteps heap.old.heap self.old (line.Key (key.Read self.old.path (read_of self.old.work.swap.read root_seen))) self.new result }
        ensures acts { KeyActs heap.old self.old (line.Key (key.Read self.old.path (read_of self.old.work.swap.read root_seen))) heap.new self.new.work.private }
        ensures same { (self.new.task ≡ self.old.task) × (self.new.work.swap.read.access ≡ self.old.work.swap.read.access) }
        ensures asks { IsAskingRoot result → (self.new ≡ self.old) × (heap.new ≡ heap.old) }
        ensures stands { ReadsKey self.new }
    {
        match self.work.read(heap, root_seen) {
            Next::More(kind) => Next::More(kind),
            Next::AskRoot => Next::AskRoot,
            Next::Done(kind, main) => {
                self.at = KeyAt::Down(BelowAt::Main { main });
                Next::More(kind)
            }
        }
    }

    /// Looks at the main node. The looks stand alone, so that the step around them keeps more in registers.
    #[inline(never)]
    pub(crate) fn look_at_main(&mut self, heap: &Heap, main: Ref)
        ensures follows { KeySteps heap.now.heap self.old (line.Key (key.Main self.old.path main)) self.new (Next.More Kind.Look) }
        ensures same { (self.new.task ≡ self.old.task) × (self.new.work.private ≡ self.old.work.private) × (self.new.work.swap.read.access ≡ self.old.work.swap.read.access) }
        ensures stands { ReadsKey self.new }
    {
        let found = after_main(
            heap,
            self.task,
            self.work.swap.read.access,
            self.path.as_slice(),
            main,
        );
        self.follow(heap, main, found);
    }

    /// Looks at a branch's entry.
    #[inline(never)]
    pub(crate) fn look_at_entry(&mut self, heap: &Heap, main: Ref, position: usize)
        requires { length self.old.path < 14 }
        ensures follows { KeySteps heap.now.heap self.old (line.Key (key.Entry self.old.path main position)) self.new (Next.More Kind.Look) }
        ensures same { (self.new.task ≡ self.old.task) × (self.new.work.private ≡ self.old.work.private) × (self.new.work.swap.read.access ≡ self.old.work.swap.read.access) }
        ensures stands { ReadsKey self.new }
    {
        let entered = after_entry(
            heap,
            self.task,
            self.work.swap.read.access,
            self.path.as_slice(),
            main,
            position,
        );
        match entered {
            Entered::Down { below } => self.go_down(below),
            Entered::Here(found) => self.follow(heap, main, found),
        }
    }

    /// Looks at a single of a list, or at a tomb's.
    #[inline(never)]
    pub(crate) fn look_at_single(&mut self, heap: &Heap, main: Ref, position: usize)
        ensures follows { KeySteps heap.now.heap self.old (line.Key (key.Listed self.old.path main position)) self.new (Next.More Kind.Look) }
        ensures same { (self.new.task ≡ self.old.task) × (self.new.work.private ≡ self.old.work.private) × (self.new.work.swap.read.access ≡ self.old.work.swap.read.access) }
        ensures stands { ReadsKey self.new }
    {
        let found = after_listed(
            heap,
            self.task,
            self.work.swap.read.access,
            self.path.as_slice(),
            main,
            position,
        );
        self.follow(heap, main, found);
    }

    /// Goes where a look at this main node leads.
    #[inline(always)]
    fn follow(&mut self, heap: &Heap, main: Ref, found: Found)
        ensures line { (state : State) (hashes : HashKind) → key_line self.new None ≡ line_found (at_heap state heap.now.heap hashes) self.old.path self.old.work.swap main found }
        ensures same { (self.new.task ≡ self.old.task) × (self.new.work.private ≡ self.old.work.private) × (self.new.work.swap.read.access ≡ self.old.work.swap.read.access) }
        ensures stands { ReadsKey self.new }
    {
        match found {
            Found::Renew => {
                self.renew.begin(heap, main);
                self.at = KeyAt::Down(BelowAt::Renew);
            }
            Found::Clean => self.clean_parent(),
            Found::Entry { position } => {
                self.at = KeyAt::Down(BelowAt::Entry { main, position });
            }
            Found::Listed { position } => {
                self.at = KeyAt::Down(BelowAt::Listed { main, position });
            }
            Found::Change(at) => {
                self.change = Change { main, at };
                self.at = KeyAt::Down(BelowAt::Change);
            }
            Found::End(reply) => self.end_with(reply),
            Found::Impossible => self.at = KeyAt::Down(BelowAt::Impossible),
        }
    }

    /// Reads the indirection below the current one next.
    #[inline(always)]
    fn go_down(&mut self, below: Ref)
        requires { length self.old.path < 14 }
        ensures line { key_line self.new None ≡ going_down self.old.path below }
        ensures same { (self.new.task ≡ self.old.task) × (self.new.work.private ≡ self.old.work.private) × (self.new.work.swap.read.access ≡ self.old.work.swap.read.access) }
        ensures stands { ReadsKey self.new }
    {
        self.path.push(below);
        self.read_next(below);
    }

    /// Cleans the parent next.
    fn clean_parent(&mut self)
        ensures line { key_line self.new None ≡ line.Clean (clean.Read (above self.old.path) (reading (current (above self.old.path)))) }
        ensures same { (self.new.task ≡ self.old.task) × (self.new.work.private ≡ self.old.work.private) × (self.new.work.swap.read.access ≡ self.old.work.swap.read.access) }
        ensures stands { ReadsKey self.new }
    {
        let parent = current(above(self.path.as_slice()));
        self.clean.begin(&mut self.work, parent);
        self.at = KeyAt::Down(BelowAt::Clean);
    }

    /// Takes a step of a change.
    #[inline(never)]
    pub(crate) fn change(&mut self, heap: &mut Heap, root_seen: Option<u64>) -> Went
        requires at { self.old.at ≡ KeyAt.Down BelowAt.Change }
        requires can { CanChange heap.old.heap self.old.task self.old.path self.old.work self.old.change }
        requires held { AreHeld self.old.work.private heap.old }
        ensures follows { KeySteps heap.old.heap self.old (change_line self.old.path self.old.work.swap root_seen self.old.change) self.new (next_of result) }
        ensures acts { KeyActs heap.old self.old (change_line self.old.path self.old.work.swap root_seen self.old.change) heap.new self.new.work.private }
        ensures same { (self.new.task ≡ self.old.task) × (self.new.work.swap.read.access ≡ self.old.work.swap.read.access) }
        ensures asks { IsAskingRoot (next_of result) → (self.new ≡ self.old) × (heap.new ≡ heap.old) }
        ensures stands { ReadsKey self.new }
    {
        let tomb = tomb_at(heap, self.work.swap.fresh);
        match self.change.step(
            &mut self.work,
            heap,
            self.task,
            self.path.as_slice(),
            root_seen,
        ) {
            Next::More(kind) => Went::More(kind),
            Next::AskRoot => Went::AskRoot,
            Next::Done(kind, tried) => {
                self.after_try(tried, tomb);
                Went::More(kind)
            }
        }
    }

    /// After a try, where `tomb` is the single of the node that was made last, if that is a tomb.
    fn after_try(&mut self, tried: Tried, tomb: Option<Ref>)
        ensures line { (state : State) (operation : Operation) (fresh : ARef) →
            after_update (operation_for self.old operation) self.old.path (former_of tried) (node_at state.heap fresh)
            ≡ changed_line (operation_for self.old operation) self.old.path (former_of tried) tomb →
            key_line self.new None ≡ line_tried state (operation_for self.old operation) self.old.path fresh tried }
        ensures same { (self.new.task ≡ self.old.task) × (self.new.work.private ≡ self.old.work.private) × (self.new.work.swap.read.access ≡ self.old.work.swap.read.access) }
        ensures reads { CommitsNoMore self.old.work.swap.read.at self.new.work.swap.read.at }
        ensures stands { ReadsKey self.new }
    {
        match tried {
            Tried::Changed { former } => match tomb {
                Some(single) => self.climb_on(single, former),
                None => self.answer(former),
            },
            Tried::Lost => self.begin_try(),
            Tried::NoSlots => self.end_with(KeyReply::NoSlots),
            Tried::Impossible => self.at = KeyAt::Down(BelowAt::Impossible),
        }
    }
}

/// The single of the tomb that stands there, if one does.
fn tomb_at(heap: &Heap, at: Ref) -> Option<Ref>
    ensures { (operation : Operation) (path : List ARef) (former : Option ℕ) → after_update operation path former (node_at heap.now.heap at) ≡ changed_line operation path former result }
{
    match node_at(heap, at) {
        Some(NodeRef::Tomb { single }) => Some(*single),
        _ => None,
    }
}
