//! What is known of the READs of running operations.

ghost use Rattle.std.specs.Prelude.{◌≡◌, ◌<◌, ◌≤◌, ◌-◌, IfSome, vec_len, length};
ghost use Rattle.machine_model.specs.Records.{Record, commit_step, moment_after, moment_at, with_moment};
ghost use Rattle.chronicle.specs.Committed.{IsNewestCommitted};

use crate::commits::Commits;
use machine_model::{Moment, Progress};
use slot_arena::Ref;

/// Of an operation that has read nothing.
pub const NO_MOMENT: Moment = Moment {
    read_at: 0,
    moment: 0,
};

/// The moment of the actor's operation.
pub fn moment_of(moments: &[Moment], actor: u8) -> u64
    requires lowest { 0 < actor }
    requires within { actor ≤ length moments.now }
    ensures { (past : Record) → past.moments ≡ moments.now → result ≡ (moment_at past actor).moment }
{
    moments[actor as usize - 1].moment
}

/// The actor's operation has gone on in this step, which told this.
#[inline(always)]
pub fn follow(
    moments: &mut Vec<Moment>,
    actor: u8,
    commits: &Commits,
    step: u64,
    progress: &Progress,
)
    requires lowest { 0 < actor }
    requires within { actor ≤ vec_len moments.old }
    requires newest { IfSome progress.now.given (IsNewestCommitted commits.now.commits) }
    ensures { (past : Record) → past.moments ≡ moments.old.items → past.commits ≡ commits.now.commits →
        moments.new.items ≡ with_moment past actor (moment_after past step progress.now (moment_at past actor)) }
{
    go_on(&mut moments[actor as usize - 1], commits, step, progress);
}

/// The same for one moment. Two numbers may change.
#[inline(always)]
fn go_on(moment: &mut Moment, commits: &Commits, step: u64, progress: &Progress)
    requires newest { IfSome progress.now.given (IsNewestCommitted commits.now.commits) }
    ensures { (past : Record) → past.commits ≡ commits.now.commits → moment.new ≡ moment_after past step progress.now moment.old }
{
    if progress.counts {
        moment.read_at = step;
    }
    if let Some(main) = progress.given {
        let committed = commit_step(commits, main, progress.committed, step);
        moment.moment = moment.read_at.max(committed);
    }
}

/// The step in which a main node was committed that a READ gave: this one, or one before.
fn commit_step(commits: &Commits, main: Ref, committed: Option<Ref>, step: u64) -> u64
    requires newest { IsNewestCommitted commits.now.commits main }
    ensures { (past : Record) → past.commits ≡ commits.now.commits → result ≡ commit_step past step main committed }
{
    match committed {
        Some(_) => step,
        None => commits.committed_at(main),
    }
}
