//! A machine and its steps.

ghost use Rattle.std.specs.Prelude.{◌≡◌, ◌≢◌, ◌+◌, ◌≤◌, ℕ, true, length, unwrap_or, None, option_map, Some, Ok, IsSome, IfOk, IfErr, OnOk, IsOkUnless};
ghost use Rattle.std.specs.FinMap as map;
ghost use Rattle.std.specs.Ordering.{nat_cmp};
ghost use Rattle.ctrie_base.specs.declared.kinds.Kind.TheVariants.{Make};
ghost use Rattle.history.specs.declared.calls.Access.TheVariants.{ReadOnly};
ghost use Rattle.history.specs.declared.replies.Reply.TheVariants.{NoSlots};
ghost use Rattle.machine_model.specs.declared.operations.Operation.{Operation};
ghost use Rattle.machine_model.specs.declared.steps.Step.TheVariants as steps;
ghost use Rattle.machine_model.specs.States.{root_at, operation_of};
ghost use Rattle.machine_model.specs.Limits.{AreLimits};
ghost use Rattle.machine_model.specs.Records.{order_of};
ghost use Rattle.machine_model.specs.Contents.{content_at};
ghost use Rattle.machine_core.specs.Asking.{asked, asked_all};
ghost use Rattle.machine_core.specs.Finding.{found_along};
ghost use Rattle.machine_core.specs.Told.{published_in};
ghost use Rattle.step_machine.specs.Beneath.proof_core.specs.Going.{goes_on};
ghost use Rattle.machine_model.specs.Keys.{KeysFit};
ghost use Rattle.machine_model.specs.Machine.{denial_of, is_running, is_busy, runs_on, next_kind, is_access, access_of};
ghost use Rattle.machine_model.specs.Refusing.{RefusesLimits, RefusesContent};
ghost use Rattle.proof_runs.specs.Machines.{Taken, fresh, past_of, state_of, AreTaken, Applied, FoundNoSlot};
ghost use Rattle.proof_runs.specs.Contents.{ChangesContents};
ghost use Rattle.proof_runs.specs.Ending.{EndsIfSure, IsNearer};
ghost use Rattle.proof_runs.specs.Legality.{IsLegalFor, LeadsToContents, HasInOrder, InOrder, IsInOrder, writable_in};
ghost use Rattle.step_machine.specs.Taking.{outcome_of_kind};
ghost use Rattle.proof_runs.specs.Memory.{UsesWhatItNames, FreesLate, DrawsNew};

use crate::rooming::{make_room, touch_room};
use crate::sizes::{are_limits, bounds_of};
use crate::taking::{go, take};
use chronicle::Chronicle;
use ctrie_base::{Kind, Refusal, Ticks};
use history::{Access, Event};
use machine_core::{Core, Step};
use machine_model::{Limits, Outcome, Publication};
use std::alloc::Global;
use std::marker::Model;

/// A map that many actors change step by step, with all that was done to it. At first handle 0 is open,
/// writable and empty, and no step was taken.
pub struct Machine {
    limits: Limits,
    body: Core,
    kept: Chronicle,
    steps: Vec<Step>,
}

impl Drop for Machine {
    fn drop(self) {
        let Machine {
            limits: _,
            body: _,
            kept: _,
            steps: _,
        } = self;
    }
}

impl Model for Machine {
    ghost use Rattle.proof_runs.specs.Machines.{Taken};
    ghost use Rattle.step_machine.specs.Taking.{HasTaken};
    ghost use Rattle.machine_core.specs.Asking.{asked_all};

    ghost Value = { Taken };

    ghost view = { λ m. record { limits = m.limits; steps = asked_all m.steps.items } };

    ghost invariant = { λ m. HasTaken m.limits (asked_all m.steps.items) m.body.state m.kept };
}

impl Machine {
    /// A machine of these sizes. `BadLimits` exactly where one of them is out of range, and else only
    /// `Memory`: nothing is made then.
    #[tactic(auto, using(crate::proofs::Bounds::refuses), unfolding(machine_model::specs::States::first_state, machine_model::specs::Machine::run_from))]
    pub fn new(alloc: Global, limits: Limits) -> Result<Machine, Refusal>
        ensures made { IfOk result (λ machine. machine ≡ fresh limits) }
        ensures in_range { OnOk result (AreLimits limits) }
        ensures refused { IfErr result (λ refusal. RefusesLimits limits refusal) }
    {
        if !are_limits(limits) {
            return Err(Refusal::BadLimits);
        }
        Ok(Machine {
            limits,
            body: Core::new(alloc, bounds_of(limits))?,
            kept: Chronicle::new(alloc, limits.slots, limits.actors)?,
            steps: Vec::new(alloc),
        })
    }

    /// Makes room in the record for this many steps more: all that they may add to steps, events and order. The memory is
    /// written once here, since the first touch of fresh memory costs more than a step. Nothing has changed then;
    /// `Memory` is the only refusal.
    pub fn reserve(&mut self, steps: u64) -> Result<(), Refusal>
        ensures same { self.new ≡ self.old }
        ensures only_memory { IsOkUnless result Refusal.Memory }
    {
        let Ok(count) = usize::try_from(steps) else {
            return Err(Refusal::Memory);
        };
        touch_room(&mut self.steps, count)?;
        self.kept.reserve(count)
    }

    /// Takes a step. Where it is refused, for lack of memory too, nothing has changed; `Memory` is answered
    /// only where nothing else denies the step. A reply `NoSlots` comes only where the actor's step before
    /// was to make a node, and no slot was free before it.
    ///
    /// What the step takes for granted is in use (`used`). It frees a slot only where nothing has referred to
    /// it for two epochs (`frees`), and makes one under a reference that never was in use (`draws`). `contents`
    /// says what it does to the content of each open handle. An operation on one key, a snapshot, a freeze, a
    /// clear or a close ends within 3,962 steps of its actor alone, while that many are left (`ends`); each one
    /// that is taken leaves one less (`nearer`). What `ticks` counts grows by at most one.
    #[inline(always)]
    pub fn apply(&mut self, step: Step) -> Result<Outcome, Refusal>
        ensures applied { Applied result self.old (asked step) self.new }
        ensures want { (actor id : ℕ) → step ≡ Step.Go actor → result ≡ Ok (Outcome.Ended id NoSlots) → FoundNoSlot self.old actor id }
        ensures used { UsesWhatItNames self.old }
        ensures frees { FreesLate self.old (asked step) self.new }
        ensures draws { DrawsNew self.old self.new }
        ensures contents { OnOk result (ChangesContents self.old (asked step) self.new) }
        ensures ends { (actor : ℕ) → EndsIfSure self.new actor }
        ensures nearer { OnOk result (IsNearer self.old (asked step) self.new) }
        ensures ticks { length (past_of self.new).places ≤ length (past_of self.old).places + 1 }
    {
        let _ = self.limits();
        let _ = self.steps();
        let result = self.take_step(step);
        let _ = self.limits();
        let _ = self.steps();
        machine_model::refused_for_want_alone();
        proof_runs::references_in_use();
        proof_runs::freed_when_zero_for_two_epochs();
        proof_runs::contents_of_handles();
        proof_runs::each_step_leads_to_its_end();
        proof_runs::closes_end();
        proof_runs::one_place_a_step();
        result
    }

    /// The same, without what the laws say of it.
    #[tactic(auto, using(crate::proofs::Steps::one_more, crate::proofs::Denials::not_taken))]
    #[inline(always)]
    fn take_step(&mut self, step: Step) -> Result<Outcome, Refusal>
        ensures { Applied result self.old (asked step) self.new }
    {
        // The room is made first, so that a step that was taken can be recorded.
        if make_room(&mut self.steps, &mut self.kept, self.body.generations()).is_err() {
            return Err(self.wanting(step));
        }
        proof_runs::tellings_fit();
        let outcome = take(&mut self.body, &mut self.kept, step)?;
        self.steps.push_reserved(step);
        Machine::fits(step);
        Ok(outcome)
    }

    /// A step of the actor's operation after which it goes on, told by its kind alone. It swaps in this main node, if it does.
    #[tactic(auto, using(crate::proofs::Steps::one_more, crate::proofs::Denials::not_taken))]
    #[inline(always)]
    pub(crate) fn go_publishing(
        &mut self,
        actor: u8,
        published: Option<Publication>,
    ) -> Result<Kind, Refusal>
        requires goes_on { goes_on (next_kind (state_of self.old) actor) ≡ true }
        requires told { published ≡ published_in (state_of self.old) actor }
        ensures { Applied (outcome_of_kind result) self.old (steps.Go actor) self.new }
    {
        if make_room(&mut self.steps, &mut self.kept, self.body.generations()).is_err() {
            return Err(self.wanting_to_go(actor));
        }
        proof_runs::tellings_fit();
        let kind = go(&mut self.body, &mut self.kept, actor, published)?;
        self.steps.push_reserved(Step::Go { actor });
        Machine::fits(Step::Go { actor });
        Ok(kind)
    }

    /// Why a step is refused for which there is no room.
    #[cold]
    #[inline(never)]
    fn wanting(&self, step: Step) -> Refusal
        ensures { result ≡ unwrap_or (denial_of (state_of self.now) (asked step)) Refusal.Memory }
    {
        self.denial(step).unwrap_or(Refusal::Memory)
    }

    /// Why the actor's next step is refused for which there is no room. It is made here, and not where there is room.
    #[cold]
    #[inline(never)]
    fn wanting_to_go(&self, actor: u8) -> Refusal
        ensures { result ≡ unwrap_or (denial_of (state_of self.now) (steps.Go actor)) Refusal.Memory }
    {
        self.wanting(Step::Go { actor })
    }

    /// Why a step is denied, if it is: what `apply` answers, but for lack of memory.
    pub fn denial(&self, step: Step) -> Option<Refusal>
        ensures { result ≡ denial_of (state_of self.now) (asked step) }
    {
        self.body.denial(step)
    }

    /// All events so far, in order of time. The order that `order` gives is legal for them.
    pub fn events(&self) -> &[Event]
        ensures events { result.now ≡ (past_of self.now).events }
        ensures legal { IsLegalFor self.now (order_of (past_of self.now)) }
    {
        self.explained();
        self.kept.events()
    }

    /// The steps that were taken, in order of time. The definition takes each of them, in the state that
    /// those before it lead to. Their keys have 64 bits.
    pub fn steps(&self) -> &[Step]
        ensures steps { asked_all result.now ≡ self.now.steps }
        ensures taken { AreTaken self.now.limits self.now.steps }
        ensures keys { KeysFit self.now.steps }
    {
        self.steps.as_slice()
    }

    /// The ids of the operations in the order that explains their replies, by rising place: it is legal for
    /// what `events` gives, and leads to a world that has just the open handles, each of its kind and with its
    /// content. Only `Memory` is refused.
    pub fn order(&self) -> Result<Vec<u64>, Refusal>
        ensures order { IfOk result (λ order. order.items ≡ order_of (past_of self.now)) }
        ensures legal { IfOk result (λ order. IsLegalFor self.now order.items) }
        ensures leads { IfOk result (λ order. LeadsToContents self.now order.items) }
        ensures only_memory { IsOkUnless result Refusal.Memory }
    {
        self.explained();
        self.ids_by_place()
    }

    /// The order, without what the laws say of it.
    fn ids_by_place(&self) -> Result<Vec<u64>, Refusal>
        ensures order { IfOk result (λ order. order.items ≡ order_of (past_of self.now)) }
        ensures only_memory { IsOkUnless result Refusal.Memory }
    {
        self.kept.order()
    }

    /// The content of a handle's map, by rising key: in the world to which the order leads the handle names just
    /// that map, of the machine's kind. `NoHandle` exactly where it isn't open, and then it isn't in that world;
    /// else only `Memory`.
    pub fn content(&self, handle: u16) -> Result<Vec<(u64, u64)>, Refusal>
        ensures pairs { IfOk result (λ pairs. pairs.items ≡ content_at (state_of self.now) handle) }
        ensures in_order { IfOk result (λ pairs. IsInOrder self.now handle pairs.items) }
        ensures closed { IfErr result (λ refusal. refusal ≡ Refusal.NoHandle → InOrder self.now (λ world. map.get world handle ≡ None)) }
        ensures open { OnOk result (IsSome (root_at (state_of self.now) handle)) }
        ensures refused { IfErr result (λ refusal. RefusesContent (state_of self.now) handle refusal) }
    {
        self.explained();
        self.pairs_of(handle)
    }

    /// The content, without what the laws say of it.
    fn pairs_of(&self, handle: u16) -> Result<Vec<(u64, u64)>, Refusal>
        ensures pairs { IfOk result (λ pairs. pairs.items ≡ content_at (state_of self.now) handle) }
        ensures open { OnOk result (IsSome (root_at (state_of self.now) handle)) }
        ensures refused { IfErr result (λ refusal. RefusesContent (state_of self.now) handle refusal) }
    {
        Ok(self.body.content(handle)?.into_vec())
    }

    /// The value of a key in a handle's map, as `content` and the world to which the order leads have it. It takes
    /// neither a step nor memory. `NoHandle` exactly where the handle isn't open; there is no other refusal.
    pub fn value_at(&self, handle: u16, key: u64) -> Result<Option<u64>, Refusal>
        ensures value { IfOk result (λ value. value ≡ map.find nat_cmp key (content_at (state_of self.now) handle)) }
        ensures in_order { IfOk result (λ value. HasInOrder self.now handle key value) }
        ensures open { OnOk result (IsSome (root_at (state_of self.now) handle)) }
        ensures refused { IfErr result (λ refusal. (root_at (state_of self.now) handle ≡ None) × (refusal ≡ Refusal.NoHandle)) }
    {
        self.explained();
        self.found_at(handle, key)
    }

    /// The value, without what the order says of it.
    fn found_at(&self, handle: u16, key: u64) -> Result<Option<u64>, Refusal>
        ensures value { IfOk result (λ value. value ≡ map.find nat_cmp key (content_at (state_of self.now) handle)) }
        ensures open { OnOk result (IsSome (root_at (state_of self.now) handle)) }
        ensures refused { IfErr result (λ refusal. (root_at (state_of self.now) handle ≡ None) × (refusal ≡ Refusal.NoHandle)) }
    {
        let _ = self.limits();
        let _ = self.steps();
        proof_runs::looking_finds();
        self.looked_up(handle, key)
    }

    /// What is found along the key's hash.
    fn looked_up(&self, handle: u16, key: u64) -> Result<Option<u64>, Refusal>
        ensures found { IfOk result (λ value. value ≡ found_along (state_of self.now) handle key) }
        ensures open { OnOk result (IsSome (root_at (state_of self.now) handle)) }
        ensures refused { IfErr result (λ refusal. (root_at (state_of self.now) handle ≡ None) × (refusal ≡ Refusal.NoHandle)) }
    {
        self.body.value_at(handle, key)
    }

    /// The kind of the next step of the actor's operation; none where none runs. An operation on a read-only
    /// handle never makes a node.
    pub fn next_kind(&self, actor: u8) -> Option<Kind>
        ensures kind { result ≡ next_kind (state_of self.now) actor }
        ensures readers { (operation : Operation) → operation_of (state_of self.now) actor ≡ Some operation →
            operation.access ≡ ReadOnly → result ≢ Some Make }
    {
        machine_model::readers_make_nothing();
        self.body.next_kind(actor)
    }

    /// Whether the actor runs an operation.
    pub fn is_running(&self, actor: u8) -> bool
        ensures { result ≡ is_running (state_of self.now) actor }
    {
        self.body.is_running(actor)
    }

    /// Whether any actor runs an operation.
    pub fn is_busy(&self) -> bool
        ensures { result ≡ is_busy (state_of self.now) }
    {
        self.body.is_busy()
    }

    /// Whether an operation runs whose call names this handle.
    pub fn runs_on(&self, handle: u16) -> bool
        ensures { result ≡ runs_on (state_of self.now) handle }
    {
        self.body.runs_on(handle)
    }

    /// Whether the handle is writable, as in the world to which the order leads; none where it isn't open.
    pub fn is_writable(&self, handle: u16) -> Option<bool>
        ensures kind { result ≡ option_map (λ access. is_access Access.Writable (Some access)) (access_of (root_at (state_of self.now) handle)) }
        ensures in_order { InOrder self.now (λ world. result ≡ writable_in world handle) }
    {
        self.explained();
        self.has_writable(handle)
    }

    /// Whether it is, without what the laws say of it.
    fn has_writable(&self, handle: u16) -> Option<bool>
        ensures { result ≡ option_map (λ access. is_access Access.Writable (Some access)) (access_of (root_at (state_of self.now) handle)) }
    {
        self.body.is_writable(handle)
    }

    /// How often a place in the order was written or moved: once for each.
    pub fn ticks(&self) -> &Ticks
        ensures { result.now.count ≡ length (past_of self.now).places }
    {
        self.kept.ticks()
    }

    /// The state.
    #[inline(always)]
    pub(crate) fn body(&self) -> &Core
        ensures { result.now.state ≡ state_of self.now }
    {
        &self.body
    }

    /// The sizes of the machine, which are in range.
    pub fn limits(&self) -> Limits
        ensures limits { result ≡ self.now.limits }
        ensures in_range { AreLimits self.now.limits }
    {
        self.limits
    }

    /// The steps and the history, handed out. It takes no memory.
    pub fn into_parts(self) -> (Vec<Step>, Vec<Event>)
        ensures steps { asked_all result.0.items ≡ self.steps }
        ensures taken { AreTaken self.limits self.steps }
        ensures events { result.1.items ≡ (past_of self).events }
    {
        let Machine {
            limits: _,
            body: _,
            kept,
            steps,
        } = self;
        (steps, kept.into_events())
    }
}
