//! How an operation ends.

ghost use Rattle.std.specs.Prelude.{◌≡◌, false, Some, None, IsSome};
ghost use Rattle.epochs.specs.Memories.{KeepsEpochs};
ghost use Rattle.machine_model.specs.declared.operations.Operation.{Operation};
ghost use Rattle.machine_model.specs.States.{operation_of};
ghost use Rattle.machine_model.specs.Machine.{go_denial, next_kind, went};
ghost use Rattle.machine_model.specs.Operations.{action_of};
ghost use Rattle.machine_model.specs.Tellings.{entrant_of};
ghost use Rattle.machine_core.specs.Beneath.operate.specs.Places.{answer_of};
ghost use Rattle.machine_core.specs.Beneath.rdcss_root.specs.Tables.{Table};
ghost use Rattle.machine_core.specs.Beneath.trie_parts.specs.Holding.{AreHeld};
ghost use Rattle.running.specs.Places.{line_for};
ghost use Rattle.machine_core.specs.Beginnings.{Leaves};
ghost use Rattle.machine_core.specs.Keeping.{IsCore, IsKept};
ghost use Rattle.machine_core.specs.Seen.{actor_of, operation_at, seen, under_way_of};
ghost use Rattle.machine_core.specs.Told.{TellsEnd};
ghost use Rattle.proof_core.specs.Going.{goes_on};
ghost use Rattle.machine_core.specs.Work.{ActsLittle};
ghost use Rattle.machine_core.specs.declared.parts.Actor.{Actor as AnActor};

use crate::handles::{note_end, reserved_by};
use crate::parts::{Actor, Parts, UnderWay};
use crate::telling::Ended;
use epochs::Heap;
use history::Reply;
use machine_model::{Entrant, Outcome};
use running::Program;

/// Ends the actor's operation, which has come to its end, and tells of it.
#[inline(always)]
pub fn end_operation(parts: &mut Parts, actor: u8) -> Ended
    requires core { IsCore parts.old }
    requires allowed { go_denial (seen parts.old) actor ≡ None }
    requires ends { goes_on (next_kind (seen parts.old) actor) ≡ false }
    ensures ended { (operation : Operation) → operation_of (seen parts.old) actor ≡ Some operation →
        went (seen parts.old) actor operation (action_of (seen parts.old) operation) ≡ (Outcome.Ended result.entrant.id result.reply, seen parts.new) }
    ensures tells { TellsEnd (seen parts.old) actor result }
    ensures kept { IsKept parts.new }
    ensures work { ActsLittle parts.old actor parts.new }
{
    match under_way(parts, actor) {
        Some(under_way) => finish(parts, actor, under_way),
        None => unreachable!(),
    }
}

/// What the actor has under way.
fn under_way(parts: &Parts, actor: u8) -> Option<UnderWay>
    ensures { result ≡ under_way_of parts.now actor }
{
    match parts.actor(actor) {
        Some(found) => found.under_way,
        None => None,
    }
}

/// The same, where this is under way.
#[inline(always)]
fn finish(parts: &mut Parts, actor: u8, under_way: UnderWay) -> Ended
    requires core { IsCore parts.old }
    requires runs { under_way_of parts.old actor ≡ Some under_way }
    requires over { (found : AnActor) → actor_of parts.old actor ≡ Some found → IsSome (answer_of (line_for under_way.program found.programs)) }
    ensures ended { (operation : Operation) → operation_of (seen parts.old) actor ≡ Some operation →
        went (seen parts.old) actor operation (action_of (seen parts.old) operation) ≡ (Outcome.Ended result.entrant.id result.reply, seen parts.new) }
    ensures tells { TellsEnd (seen parts.old) actor result }
    ensures kept { IsKept parts.new }
    ensures work { ActsLittle parts.old actor parts.new }
{
    let index = actor as usize - 1;
    let entrant = parts.actors[index].entrant(under_way);
    let reserved = reserved_by(&parts.table, under_way);
    note_end(&mut parts.handles, under_way.job.handle, reserved);
    let reply = parts.actors[index].leave(under_way.program, &mut parts.heap);
    parts.heap.unpin(actor);
    match reply {
        Some(reply) => Ended { entrant, reply },
        None => unreachable!(),
    }
}

impl Actor {
    /// What it has under way, as the order knows it.
    fn entrant(&self, under_way: UnderWay) -> Entrant
        ensures { (table : Table) → result ≡ entrant_of (operation_at table self.now.programs under_way) }
    {
        Entrant {
            id: under_way.job.id,
            access: self.programs.access(),
            generation: self.programs.generation(under_way.program),
        }
    }

    /// Its operation has ended with this reply: nothing is left of it.
    #[inline(always)]
    fn leave(&mut self, program: Program, heap: &mut Heap) -> Option<Reply>
        requires { AreHeld self.old.programs.key.work.private heap.old }
        ensures reply { result ≡ answer_of (line_for program self.old.programs) }
        ensures leaves { Leaves heap.old heap.new self.old self.new }
        ensures heap { heap.new.heap ≡ heap.old.heap }
        ensures epochs { KeepsEpochs heap.old heap.new }
    {
        let reply = self.programs.take_reply(program);
        self.programs.end(heap);
        self.under_way = None;
        reply
    }
}
