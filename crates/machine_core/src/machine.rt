//! The core as one value.

ghost use Rattle.std.specs.Prelude.{◌≡◌, ◌+◌, ◌≤◌, ℕ, [], false, true, length, option_map, None, Some, IsSome, IfNone, IfSome, IfOk, IfErr, IsOkUnless, OnErr, OnOk};
ghost use Rattle.slot_arena.specs.Heaps.{in_use};
ghost use Rattle.machine_model.specs.declared.steps.Step.TheVariants as steps;
ghost use Rattle.machine_model.specs.States.{first_state, root_at};
ghost use Rattle.machine_model.specs.Contents.{content_at};
ghost use Rattle.machine_model.specs.Machine.{next, is_running, is_busy, next_kind, runs_on, denial_of, is_access, is_spent, access_of, handles_taken};
ghost use Rattle.machine_model.specs.Refusing.{RefusesContent};
ghost use Rattle.proof_core.specs.Bounds.{Answers, Applies, AreInRange, RefusesBounds};
ghost use Rattle.machine_core.specs.Beneath.proof_straight.specs.Resting.{IsOfRun};
ghost use Rattle.machine_core.specs.Asking.{asked};
ghost use Rattle.machine_core.specs.Finding.{found_along};
ghost use Rattle.machine_core.specs.Straight.{CarriesOutForAny, MayBegin};
ghost use Rattle.machine_core.specs.Sweeping.{Reclaims};
ghost use Rattle.machine_core.specs.Work.{ticks_of_a_start};
ghost use Rattle.machine_core.specs.Told.{began, ended, published_in, reply_in, stepped, TellsBegin, TellsEnd, TellsStep};
ghost use Rattle.proof_core.specs.Going.{goes_on};
ghost use Rattle.running.specs.Places.{are_pairs};
ghost use Rattle.proof_core.specs.Work.{WorksLittle};

use crate::actors::{copied_reply, is_busy, next_kind};
use crate::asked::Step;
use crate::contents::content_of;
use crate::denials::{begin_denial, denial_of, go_denial, is_access, spent_denial, sweep_denial};
use crate::finding::value_along;
use crate::going::{goes_on, published};
use crate::handles::runs_on;
use crate::parts::Parts;
use crate::starting::{are_bounds, first_parts};
use crate::stepping::{take_begin, take_end, take_go};
use crate::straight::at_once;
use crate::sweeping::{reclaim, sweep_once};
use crate::telling::{Begun, Ended, Stepped};
use ctrie_base::{Kind, Refusal, Ticks};
use history::{Access, Call, Pairs, Reply};
use machine_model::{Bounds, Outcome, Publication};
use running::root_of;
use std::alloc::Global;
use std::marker::Model;

/// The state of a machine. It is seen as the definition's state, one to which a run of steps leads, and the work done so far.
pub struct Core {
    pub(crate) parts: Parts,
}

// Written out, so that it is proved here, once, and not again in each program that drops a machine.
impl Drop for Core {
    fn drop(self) {
        let Core { parts: _ } = self;
    }
}

impl Model for Core {
    ghost use Rattle.machine_core.specs.Keeping.{IsCore};
    ghost use Rattle.machine_core.specs.Work.{worked};
    ghost use Rattle.proof_core.specs.Work.{Worked};

    ghost Value = { Worked };

    ghost view = { λ c. worked c.parts };

    ghost invariant = { λ c. IsCore c.parts };
}

impl Core {
    /// A machine that has taken no step. The bounds are checked first: `BadLimits` where one is out of
    /// range; any other refusal is `Memory`. It is all the memory that a machine takes, but for walks and what is listed.
    pub fn new(alloc: Global, bounds: Bounds) -> Result<Core, Refusal>
        ensures made { IfOk result (λ core. core.state ≡ first_state bounds) }
        ensures work { IfOk result (λ core. core.work ≤ bounds.slots + ticks_of_a_start) }
        ensures refused { IfErr result (λ refusal. RefusesBounds bounds refusal) }
        ensures in_range { OnOk result (AreInRange bounds) }
    {
        if !are_bounds(bounds) {
            return Err(Refusal::BadLimits);
        }
        let parts = first_parts(alloc, bounds)?;
        Ok(Core { parts })
    }

    /// Begins an operation, or refuses to; the refusal is the definition's, and nothing has changed then. What is counted of
    /// each step's work is bounded, however many slots, actors and handles there are. That a step looks at the nodes of no other
    /// slots than those that it is about is so by reading and by measurement, and in no clause.
    pub fn begin(&mut self, actor: u8, call: Call) -> Result<Begun, Refusal>
        ensures answers { Answers (began result) self.old.state (next self.old.state (steps.Begin actor call None)) self.new.state }
        ensures tells { IfOk result (λ begun. TellsBegin self.old.state actor call begun) }
        ensures work { OnOk result (WorksLittle self.old self.new) }
        ensures same { OnErr result (self.new ≡ self.old) }
    {
        match begin_denial(&self.parts, actor, call) {
            Some(refusal) => Err(refusal),
            None => Ok(take_begin(&mut self.parts, actor, call)),
        }
    }

    /// Whether the actor's operation goes on after its next step: it runs one, and that isn't its end.
    #[inline(always)]
    pub fn goes_on(&self, actor: u8) -> bool
        ensures { result ≡ goes_on (next_kind self.now.state actor) }
    {
        goes_on(&self.parts, actor)
    }

    /// Takes a step of the actor's operation that isn't its end, or refuses it. After a refusal nothing has changed. `Memory`
    /// is the only one that the definition doesn't give: it comes only where the operation is a walk over all pairs.
    #[inline(always)]
    pub fn go(&mut self, actor: u8) -> Result<Stepped, Refusal>
        requires { goes_on (next_kind self.old.state actor) ≡ true }
        ensures applies { Applies (stepped result) self.old.state actor (next self.old.state (steps.Go actor)) self.new.state }
        ensures tells { IfOk result (λ stepped. TellsStep self.old.state actor stepped) }
        ensures work { OnOk result (WorksLittle self.old self.new) }
        ensures same { OnErr result (self.new ≡ self.old) }
    {
        let published = self.published(actor);
        self.go_publishing(actor, published)
    }

    /// The main node that the actor's operation swaps in by its next step, if it does.
    #[inline(always)]
    pub fn published(&self, actor: u8) -> Option<Publication>
        ensures { result ≡ published_in self.now.state actor }
    {
        published(&self.parts, actor)
    }

    /// The same as `go`, handed the main node that the step swaps in, if it does: most swap in none, and where that is known
    /// they tell less.
    #[inline(always)]
    pub fn go_publishing(
        &mut self,
        actor: u8,
        published: Option<Publication>,
    ) -> Result<Stepped, Refusal>
        requires goes_on { goes_on (next_kind self.old.state actor) ≡ true }
        requires told { published ≡ published_in self.old.state actor }
        ensures applies { Applies (stepped result) self.old.state actor (next self.old.state (steps.Go actor)) self.new.state }
        ensures tells { IfOk result (λ stepped. TellsStep self.old.state actor stepped) }
        ensures work { OnOk result (WorksLittle self.old self.new) }
        ensures same { OnErr result (self.new ≡ self.old) }
    {
        match spent_denial(&self.parts, actor) {
            Some(refusal) => Err(refusal),
            None => take_go(&mut self.parts, actor, published),
        }
    }

    /// Ends the actor's operation, where its next step is its end, or refuses to; the refusal is the definition's, and nothing
    /// has changed then.
    #[inline(always)]
    pub fn end(&mut self, actor: u8) -> Result<Ended, Refusal>
        requires { goes_on (next_kind self.old.state actor) ≡ false }
        ensures answers { Answers (ended result) self.old.state (next self.old.state (steps.Go actor)) self.new.state }
        ensures tells { IfOk result (λ ended. TellsEnd self.old.state actor ended) }
        ensures work { OnOk result (WorksLittle self.old self.new) }
        ensures same { OnErr result (self.new ≡ self.old) }
    {
        match go_denial(&self.parts, actor) {
            Some(refusal) => Err(refusal),
            None => Ok(take_end(&mut self.parts, actor)),
        }
    }

    /// Carries a call out at once that an actor would carry out alone, whichever it is, from its begin to its end; or gives
    /// none, and nothing has changed. Which of the two no clause says.
    pub fn at_once(&mut self, call: Call) -> Option<Reply>
        requires rest { is_busy self.old.state ≡ false }
        requires allowed { MayBegin self.old.state call }
        ensures done { IfSome result (λ reply. CarriesOutForAny self.old.state call reply self.new.state) }
        ensures none { IfNone result (self.new ≡ self.old) }
    {
        at_once(&mut self.parts, call)
    }

    /// Takes a step of the sweep, or refuses it; the refusal is the definition's, and nothing has changed then.
    pub fn sweep(&mut self) -> Result<Outcome, Refusal>
        ensures answers { Answers result self.old.state (next self.old.state steps.Sweep) self.new.state }
        ensures work { OnOk result (WorksLittle self.old self.new) }
        ensures same { OnErr result (self.new ≡ self.old) }
    {
        match sweep_denial(&self.parts) {
            Some(refusal) => Err(refusal),
            None => Ok(Outcome::Swept(sweep_once(&mut self.parts))),
        }
    }

    /// Takes steps of the sweep as long as something stands in limbo, or until the machine is spent. Where an operation runs,
    /// the epoch that it recorded may keep slots in limbo: then all the steps are taken that are left.
    pub fn reclaim(&mut self)
        ensures reclaims { (n : ℕ) × Reclaims self.old n self.new }
        ensures clean { is_spent self.new.state ≡ false → self.new.state.limbo ≡ [] }
    {
        reclaim(&mut self.parts)
    }

    /// Why the step is denied, where it is.
    #[inline(always)]
    pub fn denial(&self, step: Step) -> Option<Refusal>
        ensures { result ≡ denial_of self.now.state (asked step) }
    {
        denial_of(&self.parts, step)
    }

    /// What the map of an open handle holds, by rising key. `NoHandle` exactly where the handle isn't open;
    /// any other refusal is `Memory`.
    pub fn content(&self, handle: u16) -> Result<Pairs, Refusal>
        ensures exact { IfOk result (λ pairs. pairs ≡ content_at self.now.state handle) }
        ensures open { OnOk result (IsSome (root_at self.now.state handle)) }
        ensures refused { IfErr result (λ refusal. RefusesContent self.now.state handle refusal) }
    {
        if self.parts.table.root(handle).is_none() {
            return Err(Refusal::NoHandle);
        }
        Ok(content_of(&self.parts, handle)?)
    }

    /// How much work was done: how often a link, a flag, a count, a note or an entry of a list of the heap was looked at.
    pub fn work(&self) -> &Ticks
        ensures { result.now.count ≡ self.now.work }
    {
        self.parts.heap.ticks()
    }

    /// The value of a key in the map of an open handle, found along its hash. `NoHandle` exactly where the
    /// handle isn't open; there is no other refusal.
    pub fn value_at(&self, handle: u16, key: u64) -> Result<Option<u64>, Refusal>
        ensures found { IfOk result (λ value. value ≡ found_along self.now.state handle key) }
        ensures open { OnOk result (IsSome (root_at self.now.state handle)) }
        ensures refused { IfErr result (λ refusal. (root_at self.now.state handle ≡ None) × (refusal ≡ Refusal.NoHandle)) }
    {
        match self.parts.table.root(handle) {
            None => Err(Refusal::NoHandle),
            Some(root) => Ok(value_along(&self.parts, root_of(root.word), key)),
        }
    }

    /// The kind of the next step of the actor's operation, if it runs one.
    pub fn next_kind(&self, actor: u8) -> Option<Kind>
        ensures { result ≡ next_kind self.now.state actor }
    {
        next_kind(&self.parts, actor)
    }

    /// A copy of the reply with which the actor's operation ends by its next step, if it does. `Memory` is the only refusal,
    /// and comes only where the reply is a list of pairs.
    pub fn copy_reply(&self, actor: u8) -> Result<Option<Reply>, Refusal>
        ensures reply { IfOk result (λ reply. reply ≡ reply_in self.now.state actor) }
        ensures only_memory { IsOkUnless result Refusal.Memory }
        ensures only_pairs { OnErr result (are_pairs (reply_in self.now.state actor) ≡ true) }
    {
        copied_reply(&self.parts, actor)
    }

    /// Whether the actor runs an operation.
    pub fn is_running(&self, actor: u8) -> bool
        ensures { result ≡ is_running self.now.state actor }
    {
        self.parts.is_running(actor)
    }

    /// Whether any actor runs an operation.
    pub fn is_busy(&self) -> bool
        ensures { result ≡ is_busy self.now.state }
    {
        is_busy(&self.parts)
    }

    /// Whether an operation runs that was called on the handle.
    pub fn runs_on(&self, handle: u16) -> bool
        ensures { result ≡ runs_on self.now.state handle }
    {
        runs_on(&self.parts, handle)
    }

    /// Whether the handle is writable, if it is open.
    pub fn is_writable(&self, handle: u16) -> Option<bool>
        ensures { result ≡ option_map (λ access. is_access Access.Writable (Some access)) (access_of (root_at self.now.state handle)) }
    {
        match self.parts.access(handle) {
            None => None,
            access => Some(is_access(Access::Writable, access)),
        }
    }

    /// How many handles are open or reserved.
    #[tactic(auto, using(proof_core::proofs::Numbers::taken_counted, proof_core::proofs::Numbers::few_taken))]
    pub fn handles_taken(&self) -> u32
        ensures number { result ≡ handles_taken self.now.state }
        ensures few { result ≤ 256 }
    {
        u32::from(self.parts.handles.taken())
    }

    /// How many slots are free.
    pub fn free_slots(&self) -> u32
        ensures { result ≡ length self.now.state.heap.free }
    {
        self.parts.heap.free_slots()
    }

    /// How many slots are in use, those of limbo among them.
    pub fn used(&self) -> u32
        ensures { result ≡ length (in_use self.now.state.heap) }
    {
        self.parts.heap.used()
    }

    /// How many slots are in limbo.
    pub fn limbo_len(&self) -> u32
        ensures { result ≡ length self.now.state.limbo }
    {
        self.parts.heap.limbo_len()
    }

    /// The epoch.
    pub fn epoch(&self) -> u64
        ensures { result ≡ self.now.state.epoch }
    {
        self.parts.heap.epoch()
    }

    /// How many generations were drawn.
    pub fn generations(&self) -> u64
        ensures { result ≡ self.now.state.generations }
    {
        self.parts.generations
    }

    /// How many steps were taken.
    pub fn steps_taken(&self) -> u64
        ensures number { result ≡ self.now.state.steps }
        ensures most { result ≤ self.now.state.limits.steps }
    {
        self.parts.steps
    }

    /// The bounds, which are in range: a run of steps leads to the state.
    pub fn limits(&self) -> Bounds
        ensures limits { result ≡ self.now.state.limits }
        ensures of_run { IsOfRun self.now.state }
    {
        self.parts.limits
    }
}
