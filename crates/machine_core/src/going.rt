//! A step of an operation that goes on after it: all of it but for limbo and the count of steps.

ghost use Rattle.std.specs.Prelude.{◌≡◌, ◌-◌, true, slice_get, option_map, Some, None};
ghost use Rattle.machine_model.specs.declared.operations.Operation.{Operation};
ghost use Rattle.machine_model.specs.States.{State, operation_of};
ghost use Rattle.machine_model.specs.Operations.{action_of, kind_of};
ghost use Rattle.machine_model.specs.Machine.{go_denial, next_kind, went};
ghost use Rattle.machine_core.specs.Beneath.rdcss_root.specs.Tables.{Table};
ghost use Rattle.running.specs.Carried.{carried_of};
ghost use Rattle.running.specs.Steps.{scene};
ghost use Rattle.machine_core.specs.Going.{CarriesUnless, Steps, StepsTo};
ghost use Rattle.machine_core.specs.Keeping.{IsCore, IsKept};
ghost use Rattle.machine_core.specs.Rooming.{CanGo, HasRoomToStep};
ghost use Rattle.machine_core.specs.Seen.{operation_seen, seen, under_way_of};
ghost use Rattle.machine_core.specs.Told.{published_in, published_of, TellsStep};
ghost use Rattle.proof_core.specs.Going.{goes_on};
ghost use Rattle.machine_core.specs.Work.{ActsLittle};
ghost use Rattle.machine_core.specs.declared.parts.Actor.{Actor as AnActor};
ghost use Rattle.machine_core.specs.declared.parts.UnderWay.{UnderWay as AnUnderWay};

use crate::parts::{Actor, Parts, UnderWay};
use crate::telling::Stepped;
use ctrie_base::Kind;
use epochs::Heap;
use machine_model::{Carried, Outcome, Progress, Publication};
use running::{Roots, Taken, generation_at};

/// Whether the actor's operation goes on after its next step: it runs one, and that isn't its end.
#[inline(always)]
pub fn goes_on(parts: &Parts, actor: u8) -> bool
    ensures { result ≡ goes_on (next_kind (seen parts.now) actor) }
{
    match parts.actor(actor) {
        Some(found) => found.goes_on(),
        None => false,
    }
}

/// Takes a step of the actor's operation that isn't its end, and tells of it and of the main node that it swaps in, if it
/// does. What is told is put together where it is read: where nobody reads it, nothing is.
#[inline(always)]
pub fn go_telling(parts: &mut Parts, actor: u8, published: Option<Publication>) -> Stepped
    requires core { IsCore parts.old }
    requires allowed { go_denial (seen parts.old) actor ≡ None }
    requires goes_on { goes_on (next_kind (seen parts.old) actor) ≡ true }
    requires told { published ≡ published_in (seen parts.old) actor }
    requires room { (found : AnActor) → slice_get parts.old.actors.items (actor - 1) ≡ Some found → HasRoomToStep found }
    ensures goes { (operation : Operation) → operation_of (seen parts.old) actor ≡ Some operation →
        went (seen parts.old) actor operation (action_of (seen parts.old) operation) ≡ (Outcome.Went result.kind, seen parts.new) }
    ensures tells { TellsStep (seen parts.old) actor result }
    ensures kept { IsKept parts.new }
    ensures work { ActsLittle parts.old actor parts.new }
{
    let taken = step_of(parts, actor);
    let kind = taken.kind();
    let carried = take_carried(parts, kind);
    Stepped {
        kind,
        progress: Progress {
            committed: taken.committed(),
            given: taken.given(),
            counts: taken.counts(),
            published,
            carried,
        },
    }
}

/// The main node that the actor's operation swaps in by its next step, if it does.
#[inline(always)]
pub fn published(parts: &Parts, actor: u8) -> Option<Publication>
    ensures { result ≡ published_in (seen parts.now) actor }
{
    match parts.actor(actor) {
        Some(found) => found.published(),
        None => None,
    }
}

/// Lets the actor's programs take the step.
#[inline(always)]
fn step_of(parts: &mut Parts, actor: u8) -> Taken
    requires core { IsCore parts.old }
    requires allowed { go_denial (seen parts.old) actor ≡ None }
    requires room { (found : AnActor) → slice_get parts.old.actors.items (actor - 1) ≡ Some found → HasRoomToStep found }
    ensures { (u : AnUnderWay) → under_way_of parts.old actor ≡ Some u → Steps parts.old actor u result parts.new }
{
    let index = actor as usize - 1;
    parts.actors[index].step_programs(&mut parts.table, &mut parts.generations, &mut parts.heap)
}

/// What is told of the offer that a step of this kind carried out, if it did. Nothing is kept of it.
#[inline(always)]
fn take_carried(parts: &mut Parts, kind: Kind) -> Option<Carried>
    requires { CarriesUnless kind parts.old.table }
    ensures told { result ≡ option_map (carried_of parts.old.heap.heap) parts.old.table.carried }
    ensures rest { parts.new ≡ record parts.old { table = record parts.old.table { carried = None } } }
{
    match kind {
        Kind::SwapRoot => take_offer(parts),
        _ => None,
    }
}

/// What a swap of the root carried out, which few steps are.
#[inline(never)]
fn take_offer(parts: &mut Parts) -> Option<Carried>
    ensures told { result ≡ option_map (carried_of parts.old.heap.heap) parts.old.table.carried }
    ensures rest { parts.new ≡ record parts.old { table = record parts.old.table { carried = None } } }
{
    match parts.table.take_carried() {
        None => None,
        Some(offer) => Some(Carried {
            generation: generation_at(&parts.heap, offer.root),
            operation: offer.operation,
        }),
    }
}

impl Actor {
    /// Whether its operation goes on after its next step.
    #[inline(always)]
    fn goes_on(&self) -> bool
        ensures { (state : State) → (table : Table) → result ≡ goes_on (option_map (λ operation. kind_of (action_of state operation)) (operation_seen table self.now)) }
    {
        match &self.under_way {
            Some(under_way) => !self.programs.is_over(&under_way.program),
            None => false,
        }
    }

    /// The main node that its operation swaps in by its next step, if it does.
    #[inline(always)]
    fn published(&self) -> Option<Publication>
        ensures { (table : Table) → result ≡ published_of (operation_seen table self.now) }
    {
        match &self.under_way {
            Some(under_way) => {
                let UnderWay { job, program, .. } = under_way;
                self.programs.published(job, program)
            }
            None => None,
        }
    }

    /// Lets its programs take the step.
    #[inline(always)]
    fn step_programs(&mut self, table: &mut Roots, generations: &mut u64, heap: &mut Heap) -> Taken
        requires { CanGo (scene heap.old table.old generations.old self.old.programs) self.old }
        ensures { (u : AnUnderWay) → self.old.under_way ≡ Some u → StepsTo u heap.old table.old generations.old result heap.new table.new generations.new self.old self.new }
    {
        match &self.under_way {
            Some(under_way) => {
                let UnderWay { job, program, .. } = under_way;
                self.programs.step(job, program, table, generations, heap)
            }
            None => unreachable!(),
        }
    }
}
