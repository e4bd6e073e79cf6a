//! The steps of the repairs that a call on one key does on its way: renewing, cleaning and climbing.

ghost use Rattle.std.specs.Prelude.{◌≡◌, None};
ghost use Rattle.operate.specs.Beneath.machine_model.specs.Paths.{above, current};
ghost use Rattle.operate.specs.Beneath.history.specs.declared.calls.Access.{Access as AnAccess};
ghost use Rattle.operate.specs.Beneath.trie_parts.specs.Tasks.{for_task};
ghost use Rattle.operate.specs.Beneath.machine_model.specs.declared.operations.Operation.{Operation};
ghost use Rattle.operate.specs.Beneath.gcas.specs.Reads.{IsAskingRoot};
ghost use Rattle.operate.specs.Beneath.trie_parts.specs.Holding.{AreHeld};
ghost use Rattle.contract.specs.Cleaning.{clean_line, CanClean, line_behind as line_cleaned};
ghost use Rattle.contract.specs.Climbing.{climb_line, climb_of, CanClimb, line_behind as line_climbed};
ghost use Rattle.contract.specs.Renewing.{renew_line, CanRenew, line_behind as line_renewed};
ghost use Rattle.operate.specs.Apart.{next_of};
ghost use Rattle.operate.specs.Places.{key_line};
ghost use Rattle.operate.specs.Steps.{CommitsNoMore, KeySteps, KeyActs, ReadsKey};

use crate::key_op::{BelowAt, KeyAt, KeyOp};
use crate::went::Went;
use contract::{Cleaned, Climbed, Heap, Next, Renewed, above, current};
use key_finding::KeyReply;
use root_asking::ReadRoot;

impl KeyOp {
    /// Takes a step of a renewing.
    #[inline(never)]
    pub(crate) fn renew(&mut self, heap: &mut Heap, root_seen: Option<u64>) -> Went
        requires at { self.old.at ≡ KeyAt.Down BelowAt.Renew }
        requires can { CanRenew heap.old.heap self.old.work self.old.renew }
        requires held { AreHeld self.old.work.private heap.old }
        ensures follows { KeySteps heap.old.heap self.old (renew_line self.old.path self.old.work.swap root_seen self.old.renew) self.new (next_of result) }
        ensures acts { KeyActs heap.old self.old (renew_line self.old.path self.old.work.swap root_seen self.old.renew) heap.new self.new.work.private }
        ensures same { (self.new.task ≡ self.old.task) × (self.new.work.swap.read.access ≡ self.old.work.swap.read.access) }
        ensures asks { IsAskingRoot (next_of result) → (self.new ≡ self.old) × (heap.new ≡ heap.old) }
        ensures stands { ReadsKey self.new }
    {
        match self.renew.step(
            &mut self.work,
            heap,
            self.task,
            self.path.as_slice(),
            root_seen,
        ) {
            Next::More(kind) => Went::More(kind),
            Next::AskRoot => Went::AskRoot,
            Next::Done(kind, renewed) => {
                self.after_renewing(renewed);
                Went::More(kind)
            }
        }
    }

    /// After a renewing.
    fn after_renewing(&mut self, renewed: Renewed)
        ensures line { key_line self.new None ≡ line_renewed self.old.path renewed }
        ensures same { (self.new.task ≡ self.old.task) × (self.new.work.private ≡ self.old.work.private) × (self.new.work.swap.read.access ≡ self.old.work.swap.read.access) }
        ensures reads { CommitsNoMore self.old.work.swap.read.at self.new.work.swap.read.at }
        ensures stands { ReadsKey self.new }
    {
        match renewed {
            Renewed::Renewed => {
                let indirection = current(self.path.as_slice());
                self.read_next(indirection);
            }
            Renewed::Lost => self.begin_try(),
            Renewed::NoSlots => self.end_with(KeyReply::NoSlots),
            Renewed::Impossible => self.at = KeyAt::Down(BelowAt::Impossible),
        }
    }

    /// Takes a step of a cleaning.
    #[inline(never)]
    pub(crate) fn clean(&mut self, heap: &mut Heap, root_seen: Option<u64>) -> Went
        requires at { self.old.at ≡ KeyAt.Down BelowAt.Clean }
        requires can { CanClean heap.old.heap (above self.old.path) self.old.work self.old.clean }
        requires held { AreHeld self.old.work.private heap.old }
        ensures follows { KeySteps heap.old.heap self.old (clean_line (above self.old.path) self.old.work.swap root_seen self.old.clean) self.new (next_of result) }
        ensures acts { KeyActs heap.old self.old (clean_line (above self.old.path) self.old.work.swap root_seen self.old.clean) heap.new self.new.work.private }
        ensures same { (self.new.task ≡ self.old.task) × (self.new.work.swap.read.access ≡ self.old.work.swap.read.access) }
        ensures asks { IsAskingRoot (next_of result) → (self.new ≡ self.old) × (heap.new ≡ heap.old) }
        ensures stands { ReadsKey self.new }
    {
        let parents = above(self.path.as_slice());
        match self
            .clean
            .step(&mut self.work, heap, self.task, parents, root_seen)
        {
            Next::More(kind) => Went::More(kind),
            Next::AskRoot => Went::AskRoot,
            Next::Done(kind, cleaned) => {
                self.after_cleaning(cleaned);
                Went::More(kind)
            }
        }
    }

    /// After a cleaning.
    fn after_cleaning(&mut self, cleaned: Cleaned)
        ensures line { key_line self.new None ≡ line_cleaned cleaned }
        ensures same { (self.new.task ≡ self.old.task) × (self.new.work ≡ self.old.work) }
        ensures stands { ReadsKey self.new }
    {
        match cleaned {
            Cleaned::Cleaned => self.begin_try(),
            Cleaned::NoSlots => self.end_with(KeyReply::NoSlots),
            Cleaned::Impossible => self.at = KeyAt::Down(BelowAt::Impossible),
        }
    }

    /// Takes a step of a climb.
    #[inline(never)]
    pub(crate) fn climb(&mut self, heap: &mut Heap, root_seen: Option<u64>) -> Went
        requires at { self.old.at ≡ KeyAt.Down BelowAt.Climb }
        requires can { CanClimb heap.old.heap self.old.task self.old.path self.old.work self.old.climb }
        requires held { AreHeld self.old.work.private heap.old }
        ensures follows { KeySteps heap.old.heap self.old (climb_line self.old.path self.old.work.swap root_seen self.old.climb) self.new (next_of result) }
        ensures acts { KeyActs heap.old self.old (climb_line self.old.path self.old.work.swap root_seen self.old.climb) heap.new self.new.work.private }
        ensures same { (self.new.task ≡ self.old.task) × (self.new.work.swap.read.access ≡ self.old.work.swap.read.access) }
        ensures asks { IsAskingRoot (next_of result) → (self.new ≡ self.old) × (heap.new ≡ heap.old) }
        ensures stands { ReadsKey self.new }
    {
        match self.climb.step(
            &mut self.work,
            heap,
            self.task,
            self.path.as_slice(),
            root_seen,
        ) {
            Next::More(kind) => Went::More(kind),
            Next::AskRoot => Went::AskRoot,
            Next::Done(kind, climbed) => {
                self.after_climb(climbed);
                Went::More(kind)
            }
        }
    }

    /// After a climb of one indirection.
    fn after_climb(&mut self, climbed: Climbed)
        ensures line { (access : AnAccess) (operation : Operation) → key_line self.new None
            ≡ line_climbed (for_task self.old.task access operation) (climb_of self.old.path self.old.climb) climbed }
        ensures same { (self.new.task ≡ self.old.task) × (self.new.work.private ≡ self.old.work.private) × (self.new.work.swap.read.access ≡ self.old.work.swap.read.access) }
        ensures reads { CommitsNoMore self.old.work.swap.read.at self.new.work.swap.read.at }
        ensures stands { ReadsKey self.new }
    {
        match climbed {
            Climbed::Higher { single } => {
                self.path.pop();
                self.climb_on(single, self.climb.former);
            }
            Climbed::Climbed => self.answer(self.climb.former),
            Climbed::Lost => {
                self.root = ReadRoot::Read;
                self.at = KeyAt::RootAgain;
            }
            Climbed::Impossible => self.at = KeyAt::Down(BelowAt::Impossible),
        }
    }
}
