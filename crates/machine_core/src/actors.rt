//! Actors, and what they run.

ghost use Rattle.std.specs.Prelude.{◌≡◌, true, is_some, option_and_then, option_map, Some, IfOk, OnErr, IsOkUnless};
ghost use Rattle.ctrie_base.specs.declared.refusals.Refusal.TheVariants.{Memory};
ghost use Rattle.std.specs.List.{list_any};
ghost use Rattle.machine_model.specs.Machine.{is_actor, is_busy, next_kind};
ghost use Rattle.machine_model.specs.Operations.{action_of, kind_of};
ghost use Rattle.machine_model.specs.States.{State};
ghost use Rattle.machine_core.specs.Beneath.rdcss_root.specs.Tables.{Table};
ghost use Rattle.running.specs.Places.{are_pairs, IsSound};
ghost use Rattle.machine_core.specs.declared.parts.UnderWay.{UnderWay as AnUnderWay};
ghost use Rattle.machine_core.specs.Keeping.{AreSeated};
ghost use Rattle.machine_core.specs.Seen.{operation_seen, seen};
ghost use Rattle.machine_core.specs.Told.{reply_in};
ghost use Rattle.machine_core.specs.Beneath.operate.specs.Places.{answer_of};

use crate::parts::{Actor, Parts};
use ctrie_base::{Kind, Refusal};
use history::Reply;
use running::Roots;
use std::alloc::AllocError;

/// Whether the actor is one of the machine's.
pub fn is_actor(parts: &Parts, actor: u8) -> bool
    ensures { result ≡ is_actor (seen parts.now) actor }
{
    0 < actor && actor <= parts.limits.actors
}

/// The kind of the next step of the actor's operation, if it runs one.
pub fn next_kind(parts: &Parts, actor: u8) -> Option<Kind>
    requires { AreSeated parts.now.limits.hash parts.now.actors.items }
    ensures { result ≡ next_kind (seen parts.now) actor }
{
    match parts.actor(actor) {
        None => None,
        Some(found) => kind_for(found),
    }
}

/// The kind of this actor's next step, if it runs an operation.
fn kind_for(actor: &Actor) -> Option<Kind>
    requires { (u : AnUnderWay) → actor.now.under_way ≡ Some u → IsSound u.program actor.now.programs }
    ensures { (state : State) → (table : Table) → result ≡ option_map (λ operation. kind_of (action_of state operation)) (operation_seen table actor.now) }
{
    match actor.under_way {
        None => None,
        Some(under_way) => Some(actor.programs.next_kind(under_way.program)),
    }
}

/// A copy of the reply with which the actor's operation ends by its next step, if it does. `Memory` is the only refusal, and
/// comes only where the reply is a list of pairs.
pub fn copied_reply(parts: &Parts, actor: u8) -> Result<Option<Reply>, Refusal>
    ensures reply { IfOk result (λ reply. reply ≡ reply_in (seen parts.now) actor) }
    ensures only_memory { IsOkUnless result Memory }
    ensures only_pairs { OnErr result (are_pairs (reply_in (seen parts.now) actor) ≡ true) }
{
    match parts.actor(actor) {
        None => Ok(None),
        Some(found) => Ok(copied_of(found)?),
    }
}

/// A copy of the reply with which this actor's operation ends by its next step, if it does.
fn copied_of(actor: &Actor) -> Result<Option<Reply>, AllocError>
    ensures reply { (table : Table) → IfOk result (λ reply. reply ≡ option_and_then (λ operation. answer_of operation.line) (operation_seen table actor.now)) }
    ensures only_pairs { (table : Table) → OnErr result (are_pairs (option_and_then (λ operation. answer_of operation.line) (operation_seen table actor.now)) ≡ true) }
{
    match actor.under_way {
        None => Ok(None),
        Some(under_way) => actor.programs.copy_reply(under_way.program),
    }
}

/// Whether any actor runs an operation.
pub fn is_busy(parts: &Parts) -> bool
    ensures { result ≡ is_busy (seen parts.now) }
{
    is_busy_among(&parts.table, parts.actors.as_slice())
}

/// Whether one of these actors runs an operation.
fn is_busy_among(table: &Roots, actors: &[Actor]) -> bool
    ensures { result ≡ list_any (λ actor. is_some (operation_seen table.now actor)) actors.now }
{
    actors.iter().any(|actor| runs(table, actor))
}

/// Whether the actor runs an operation.
fn runs(_table: &Roots, actor: &Actor) -> bool
    ensures { result ≡ is_some (operation_seen _table.now actor.now) }
{
    match actor.under_way {
        None => false,
        Some(_) => true,
    }
}
