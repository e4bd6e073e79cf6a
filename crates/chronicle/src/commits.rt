//! The steps in which main nodes were committed.

ghost use Rattle.std.specs.Prelude.{◌≡◌, ◌<◌, ◌++◌, ◌∷◌, [], ◌==◌, IfOk, slice_set, vec_len, if◌then◌else◌};
ghost use Rattle.slot_arena.specs.Refs.{slot_of};
ghost use Rattle.chronicle.specs.Committed.{IsNewestCommitted, commit_step, kept_of, no_commit, step_for};

use ctrie_base::Trace;
use machine_model::Commit;
use slot_arena::Ref;
use std::alloc::{AllocError, Global};
use std::marker::Model;

/// The steps in which main nodes were committed: for each slot that of the newest node that was committed there. A
/// slot names no older node any more.
#[derive(Drop)]
pub struct Commits {
    latest: Vec<Commit>,
    /// The commits as they came, for clauses alone.
    listed: Trace<Commit>,
}

impl Model for Commits {
    ghost use Rattle.std.specs.Prelude.{length};
    ghost use Rattle.chronicle.specs.Committed.{Committed, AreLatest};

    ghost Value = { Committed };

    ghost view = { λ c. record { commits = c.listed.items; slots = length c.latest.items } };

    ghost invariant = { λ c. AreLatest c.latest.items c.listed.items };
}

impl Commits {
    /// No main node was committed; there is room for those of this many slots.
    #[tactic(auto, using(crate::proofs::CommitSteps::none_latest))]
    pub fn new(alloc: Global, slots: u32) -> Result<Commits, AllocError>
        ensures commits { IfOk result (λ made. made.commits ≡ []) }
        ensures slots { IfOk result (λ made. made.slots ≡ slots) }
    {
        Ok(Commits {
            latest: vec![in alloc; none(); slots as usize]?,
            listed: Trace::new(),
        })
    }

    /// The main node is committed in this step. If it was committed before, that stands.
    pub fn note(&mut self, main: Ref, step: u64)
        requires room { slot_of main < self.old.slots }
        requires newest { IsNewestCommitted self.old.commits main }
        requires begun { 0 < step }
        ensures commits { self.new.commits ≡ self.old.commits ++ record { main = main; step = step } ∷ [] }
        ensures slots { self.new.slots ≡ self.old.slots }
    {
        let committed = self.committed_at(main);
        set_once(&mut self.latest, committed, Commit { main, step });
        self.listed = self.listed.with_last(&Commit { main, step });
    }

    /// The step in which the main node was committed; 0 where it never was.
    pub fn committed_at(&self, main: Ref) -> u64
        requires { IsNewestCommitted self.now.commits main }
        ensures { result ≡ commit_step self.now.commits main }
    {
        step_of(kept_of(self.latest.as_slice(), main.slot()), main)
    }
}

/// No commit.
fn none() -> Commit
    ensures { result ≡ no_commit }
{
    Commit {
        main: Ref::default(),
        step: 0,
    }
}

/// What is kept of a slot.
fn kept_of(latest: &[Commit], slot: u32) -> Commit
    ensures { result ≡ kept_of latest.now slot }
{
    match latest.get(slot as usize) {
        Some(commit) => *commit,
        None => none(),
    }
}

/// The step of the commit, if it is of this main node, else 0.
fn step_of(commit: Commit, main: Ref) -> u64
    ensures { result ≡ step_for commit main }
{
    if commit.main == main { commit.step } else { 0 }
}

/// Keeps the commit, unless its node was committed before, in this step.
fn set_once(latest: &mut Vec<Commit>, committed: u64, commit: Commit)
    requires { slot_of commit.main < vec_len latest.old }
    ensures { latest.new.items ≡ (if committed == 0 then slice_set latest.old.items (slot_of commit.main) commit else latest.old.items) }
{
    if committed == 0 {
        latest[commit.main.slot() as usize] = commit;
    }
}
