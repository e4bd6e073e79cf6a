//! Room for what the next step of a walk puts into its lists: all that a step wants of memory.

ghost use Rattle.std.specs.Prelude.{◌≡◌, ◌-◌, slice_get, IfErr, OnErr, OnOk, Some, None};
ghost use Rattle.machine_model.specs.Machine.{go_denial};
ghost use Rattle.machine_model.specs.States.{operation_of};
ghost use Rattle.proof_core.specs.Bounds.{Walks};
ghost use Rattle.machine_core.specs.Keeping.{IsCore};
ghost use Rattle.machine_core.specs.Rooming.{GivesRoom, HasRoomToStep, IsWalking};
ghost use Rattle.machine_core.specs.Seen.{seen};
ghost use Rattle.machine_core.specs.declared.parts.Actor.{Actor as AnActor};

use crate::parts::{Actor, Parts};
use ctrie_base::Refusal;

/// Makes room for the next step of the actor's operation, if that is a walk. Nothing that is seen changes.
#[inline(always)]
pub fn give_room(parts: &mut Parts, actor: u8) -> Result<(), Refusal>
    requires core { IsCore parts.old }
    requires allowed { go_denial (seen parts.old) actor ≡ None }
    ensures same { seen parts.new ≡ seen parts.old }
    ensures core { IsCore parts.new }
    ensures heap { parts.new.heap ≡ parts.old.heap }
    ensures room { OnOk result ((found : AnActor) → slice_get parts.new.actors.items (actor - 1) ≡ Some found → HasRoomToStep found) }
    ensures only_memory { IfErr result (λ refusal. refusal ≡ Refusal.Memory) }
    ensures only_walks { OnErr result (Walks (operation_of (seen parts.old) actor)) }
{
    let index = actor as usize - 1;
    parts.actors[index].give_room()
}

impl Actor {
    /// The same, for this actor.
    #[inline(always)]
    fn give_room(&mut self) -> Result<(), Refusal>
        ensures gives { GivesRoom self.old self.new }
        ensures room { OnOk result (HasRoomToStep self.new) }
        ensures only_memory { IfErr result (λ refusal. refusal ≡ Refusal.Memory) }
        ensures only_walks { OnErr result (IsWalking self.old.under_way) }
    {
        match &self.under_way {
            None => Ok(()),
            Some(under_way) => self.programs.make_room(&under_way.program),
        }
    }
}
