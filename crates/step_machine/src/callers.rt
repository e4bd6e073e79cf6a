//! Calls that take many steps.

ghost use Rattle.std.specs.Prelude.{◌≡◌, false, true, List, [], ◌∷◌, ◌++◌, OnOk, OnErr, IsOkUnless};
ghost use Rattle.machine_model.specs.declared.steps.Limits.{Limits};
ghost use Rattle.machine_model.specs.declared.steps.Step.{Step as AnyStep};
ghost use Rattle.machine_model.specs.declared.steps.Step.TheVariants as steps;
ghost use Rattle.machine_core.specs.Asking.{asked};
ghost use Rattle.step_machine.specs.Records.{IsAfter};
ghost use Rattle.step_machine.specs.Taking.{outcome_of_kind};
ghost use Rattle.history.specs.declared.calls.Call.{Call};
ghost use Rattle.proof_runs.specs.Machines.{Applied, Taken, state_of};
ghost use Rattle.step_machine.specs.Beneath.proof_core.specs.Going.{goes_on};
ghost use Rattle.machine_core.specs.Told.{published_in};
ghost use Rattle.proof_runs.specs.Callers.{Stepped, Replies, Resumes, Completes, Reclaims};
ghost use Rattle.machine_model.specs.Machine.{is_busy, next_kind};
ghost use Rattle.proof_runs.specs.Reclaiming.{LooksSame, SweepsFew};
ghost use Rattle.step_machine.specs.Beneath.proof_memory.specs.Sweeping.{UsesReached};
ghost use Rattle.proof_runs.specs.Legality.{ActedAlone, RestsIfAnswered, WentAlone};
ghost use Rattle.proof_runs.specs.Ending.{CompletesIfSure, IsSpared, ResumesIfSure};

use crate::machine::Machine;
use ctrie_base::{Kind, Refusal};
use history::{Call, Reply};
use machine_core::Step;
use machine_model::{Outcome, Publication};

/// How many steps of an operation one call takes at most.
pub const GO_LIMIT: u32 = 16_384;

impl Machine {
    /// Begins the call and takes steps of it until it ends; none where 16,384 steps didn't end it, which
    /// happens to no call but entries and count while enough steps are left. What denies the
    /// begin is answered, and nothing has changed then. After `Memory` or `Spent` the steps taken so far stand:
    /// an operation that began still runs. `Memory` is answered only where nothing denies the next step. From
    /// rest, the history grows by the begin and the end of an operation that ends; it enters the order last, and
    /// the contents change by its call, with its reply; where it is refused for lack of slots, neither order nor
    /// contents change. The machine is at rest again then. Nor is a call that is sure to end refused so where 570
    /// slots are free; a snapshot, a freeze or a clear isn't where 23 are, and a close never is.
    pub fn complete(&mut self, actor: u8, call: Call) -> Result<Option<Reply>, Refusal>
        ensures steps { Completes result self.old actor call self.new }
        ensures alone { is_busy (state_of self.old) ≡ false → ActedAlone result self.old actor call self.new }
        ensures rests { is_busy (state_of self.old) ≡ false → RestsIfAnswered result self.new }
        ensures ends { CompletesIfSure self.old actor call result }
        ensures spare { IsSpared self.old call result }
    {
        let _ = self.limits();
        let _ = self.steps();
        Self::fits(Step::Begin { actor, call });
        let result = self.begin_and_go(actor, call);
        let _ = self.limits();
        let _ = self.steps();
        proof_runs::alone_it_acts();
        proof_runs::each_step_leads_to_its_end();
        proof_runs::closes_end();
        proof_runs::enough_slots_for_tries();
        proof_runs::enough_slots_for_copies();
        result
    }

    /// The same, of the steps alone.
    #[tactic(auto, using(proof_runs::proofs::Completing::not_begun, proof_runs::proofs::Completing::begun))]
    fn begin_and_go(&mut self, actor: u8, call: Call) -> Result<Option<Reply>, Refusal>
        ensures { Completes result self.old actor call self.new }
    {
        self.take_one(Step::Begin { actor, call })?;
        self.go_on(actor)
    }

    /// Takes steps of the actor's operation until it ends; none where 16,384 steps didn't end it, which
    /// happens to no call but entries and count while enough steps are left. `NoActor` and
    /// `Idle` where it runs none. After `Memory` or `Spent` the steps taken so far stand, and the operation
    /// still runs. `Memory` is answered only where nothing denies the next step. Where its actor alone has
    /// taken steps since it began at rest, an answer is as if `complete` had given it.
    pub fn resume(&mut self, actor: u8) -> Result<Option<Reply>, Refusal>
        ensures steps { Resumes result self.old actor self.new }
        ensures alone { (before : Taken) (call : Call) → WentAlone before actor call self.old → ActedAlone result before actor call self.new }
        ensures rests { (before : Taken) (call : Call) → WentAlone before actor call self.old → RestsIfAnswered result self.new }
        ensures ends { ResumesIfSure self.old actor result }
        ensures spare { (before : Taken) (call : Call) → WentAlone before actor call self.old → IsSpared before call result }
    {
        let _ = self.limits();
        let _ = self.steps();
        let result = self.go_on(actor);
        let _ = self.limits();
        let _ = self.steps();
        proof_runs::alone_it_acts();
        proof_runs::each_step_leads_to_its_end();
        proof_runs::closes_end();
        proof_runs::enough_slots_for_tries();
        proof_runs::enough_slots_for_copies();
        result
    }

    /// The same, of the steps alone.
    #[tactic(auto, using(proof_runs::proofs::Going::stops), unfolding(proof_runs::specs::Callers::going_on))]
    fn go_on(&mut self, actor: u8) -> Result<Option<Reply>, Refusal>
        ensures { Resumes result self.old actor self.new }
    {
        for _ in 0..GO_LIMIT {
            if self.goes_on(actor) {
                self.go_once(actor)?;
            } else if let Some(reply) = self.reply(actor)? {
                return Ok(Some(reply));
            }
        }
        Ok(None)
    }

    /// Whether the actor's operation goes on after its next step.
    #[inline(always)]
    fn goes_on(&self, actor: u8) -> bool
        ensures { result ≡ goes_on (next_kind (state_of self.now) actor) }
    {
        self.body().goes_on(actor)
    }

    /// Takes a step of it after which it goes on, told by its kind alone. Most swap in no main node: they are told apart
    /// first, so that their code has nothing of one; and it is asked for anew, so that it isn't held while they are taken.
    #[inline(always)]
    fn go_once(&mut self, actor: u8) -> Result<Kind, Refusal>
        requires { goes_on (next_kind (state_of self.old) actor) ≡ true }
        ensures { Applied (outcome_of_kind result) self.old (steps.Go actor) self.new }
    {
        match self.published(actor) {
            None => self.go_publishing(actor, None),
            Some(_) => {
                let published = self.published(actor);
                self.go_publishing(actor, published)
            }
        }
    }

    /// The main node that it swaps in by its next step, if it does.
    #[inline(always)]
    fn published(&self, actor: u8) -> Option<Publication>
        ensures { result ≡ published_in (state_of self.now) actor }
    {
        self.body().published(actor)
    }

    /// Takes a step of the actor's operation, and returns the reply, if it is the end. It stands alone, so that the loop
    /// around it has no outcome in memory.
    #[inline(never)]
    fn reply(&mut self, actor: u8) -> Result<Option<Reply>, Refusal>
        ensures { Replies result self.old actor self.new }
    {
        match self.apply(Step::Go { actor })? {
            Outcome::Ended(_, reply) => Ok(Some(reply)),
            _ => Ok(None),
        }
    }

    /// Takes steps of the sweep until limbo is empty: the slots in use are then exactly those that the open
    /// handles reach. History, order and contents stay as they are. `Busy` while any operation runs: nothing
    /// has changed then. After `Memory` or `Spent` the steps taken so far stand; `Spent` where the machine has
    /// taken all its steps, and `Memory` only where it hasn't. For each slot that becomes free it takes at most
    /// three steps and two for each actor of the machine.
    pub fn reclaim(&mut self) -> Result<(), Refusal>
        ensures steps { Reclaims result self.old self.new }
        ensures few { SweepsFew result self.old self.new }
        ensures reached { OnOk result (UsesReached (state_of self.new)) }
        ensures same { LooksSame self.old self.new }
    {
        let _ = self.limits();
        let result = self.sweep_all();
        proof_runs::sweep_leaves();
        proof_runs::reclaimed();
        result
    }

    /// Takes steps of the sweep until limbo is empty, where no operation runs.
    #[tactic(auto, using(proof_runs::proofs::Sweeping::unswept, proof_runs::proofs::Sweeping::finished, proof_runs::proofs::Sweeping::nearer))]
    fn sweep_all(&mut self) -> Result<(), Refusal>
        ensures { Reclaims result self.old self.new }
    {
        if self.is_busy() {
            return Err(Refusal::Busy);
        }
        while self.limbo_len() > 0 {
            self.take_one(Step::Sweep)?;
        }
        Ok(())
    }

    /// Takes a step, if nothing denies it. Only `Memory` is refused, and nothing has changed then.
    #[tactic(auto, using(crate::proofs::Recording::kept_taken, crate::proofs::Recording::kept_denied))]
    pub(crate) fn take_unless_denied(&mut self, step: Step) -> Result<(), Refusal>
        ensures taken { OnOk result ((limits : Limits) (before : List AnyStep) → IsAfter limits before self.old → IsAfter limits (before ++ asked step ∷ []) self.new) }
        ensures unchanged { OnErr result (self.new ≡ self.old) }
        ensures only_memory { IsOkUnless result Refusal.Memory }
    {
        match self.apply(step) {
            Err(Refusal::Memory) => Err(Refusal::Memory),
            _ => Ok(()),
        }
    }

    /// Takes a step whose outcome isn't asked for. Where it is refused nothing has changed.
    fn take_one(&mut self, step: Step) -> Result<(), Refusal>
        ensures { Stepped result self.old (asked step) self.new }
    {
        self.apply(step)?;
        Ok(())
    }
}
