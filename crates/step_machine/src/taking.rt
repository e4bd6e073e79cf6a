//! Steps of the state that are told to its record.

ghost use Rattle.std.specs.Prelude.{◌≡◌, ◌<◌, false, true, None};
ghost use Rattle.machine_core.specs.Asking.{asked};
ghost use Rattle.machine_core.specs.Told.{published_in};
ghost use Rattle.machine_model.specs.declared.steps.Step.TheVariants as steps;
ghost use Rattle.step_machine.specs.Beneath.proof_core.specs.Going.{goes_on};
ghost use Rattle.machine_model.specs.Machine.{next_kind};
ghost use Rattle.proof_runs.specs.Tellings.{CanTell};
ghost use Rattle.step_machine.specs.Taking.{TakesAndTells, outcome_of_kind};

use chronicle::Chronicle;
use ctrie_base::{Kind, Refusal};
use history::Call;
use machine_core::{Core, Step};
use machine_model::{Outcome, Publication};

/// Takes a step and tells it, unless it is denied or memory is wanting for it: then nothing has changed.
#[tactic(auto, using(crate::proofs::Feeding::feeds))]
#[inline(always)]
pub fn take(body: &mut Core, kept: &mut Chronicle, step: Step) -> Result<Outcome, Refusal>
    requires fits { CanTell body.old.state kept.old }
    requires room { 0 < kept.old.room }
    ensures { TakesAndTells result body.old.state kept.old (asked step) body.new.state kept.new }
{
    match step {
        Step::Begin { actor, call } => begin(body, kept, actor, call),
        Step::Go { actor } => go_or_end(body, kept, actor),
        Step::Sweep => body.sweep(),
    }
}

/// Begins an operation.
#[tactic(auto, using(crate::proofs::Feeding::feeds))]
#[inline(always)]
fn begin(body: &mut Core, kept: &mut Chronicle, actor: u8, call: Call) -> Result<Outcome, Refusal>
    requires fits { CanTell body.old.state kept.old }
    requires room { 0 < kept.old.room }
    ensures { TakesAndTells result body.old.state kept.old (steps.Begin actor call None) body.new.state kept.new }
{
    let step = body.steps_taken();
    let begun = body.begin(actor, call)?;
    kept.begin(step, begun.id, actor, call, begun.opens);
    Ok(Outcome::Began(begun.id))
}

/// A step of the actor's operation.
fn go_or_end(body: &mut Core, kept: &mut Chronicle, actor: u8) -> Result<Outcome, Refusal>
    requires fits { CanTell body.old.state kept.old }
    requires room { 0 < kept.old.room }
    ensures { TakesAndTells result body.old.state kept.old (steps.Go actor) body.new.state kept.new }
{
    if body.goes_on(actor) {
        let published = body.published(actor);
        Ok(Outcome::Went(go(body, kept, actor, published)?))
    } else {
        end(body, kept, actor)
    }
}

/// One after which it goes on, told by its kind alone. It swaps in this main node, if it does.
#[tactic(auto, using(crate::proofs::Feeding::feeds))]
#[inline(always)]
pub fn go(
    body: &mut Core,
    kept: &mut Chronicle,
    actor: u8,
    published: Option<Publication>,
) -> Result<Kind, Refusal>
    requires goes_on { goes_on (next_kind body.old.state actor) ≡ true }
    requires told { published ≡ published_in body.old.state actor }
    requires fits { CanTell body.old.state kept.old }
    requires room { 0 < kept.old.room }
    ensures { TakesAndTells (outcome_of_kind result) body.old.state kept.old (steps.Go actor) body.new.state kept.new }
{
    let step = body.steps_taken();
    let stepped = body.go_publishing(actor, published)?;
    kept.go(step, actor, &stepped.progress);
    Ok(stepped.kind)
}

/// Its end. The reply is copied first, since the history keeps it too.
#[tactic(auto, using(crate::proofs::Feeding::feeds))]
fn end(body: &mut Core, kept: &mut Chronicle, actor: u8) -> Result<Outcome, Refusal>
    requires ends { goes_on (next_kind body.old.state actor) ≡ false }
    requires fits { CanTell body.old.state kept.old }
    requires room { 0 < kept.old.room }
    ensures { TakesAndTells result body.old.state kept.old (steps.Go actor) body.new.state kept.new }
{
    let Ok(copy) = body.copy_reply(actor) else {
        return Err(body.denial(Step::Go { actor }).unwrap_or(Refusal::Memory));
    };
    let ended = body.end(actor)?;
    match copy {
        Some(reply) => kept.end(actor, ended.entrant, reply),
        None => unreachable!(),
    }
    Ok(Outcome::Ended(ended.entrant.id, ended.reply))
}
