//! Worlds to which operations lead, and back.

ghost use Rattle.std.specs.Prelude.{◌≡◌, ◌↔◌, IfOk, IfSome, IsTrue, OnOk, IsOkUnless, List, Option, Some, slice_get};
ghost use Rattle.std.specs.Option.{option_copied};
ghost use Rattle.history.specs.Replays.{Agrees};
ghost use Rattle.ctrie_base.specs.Hashes.{hash_of};
ghost use Rattle.history.specs.declared.events.Event.{Event};
ghost use Rattle.history.specs.declared.replies.Reply.{Reply};
ghost use Rattle.history.specs.declared.tables.Row.{Row};
ghost use Rattle.history.specs.Worlds.{HandleMap};
ghost use Rattle.history.specs.Effects.{answer_in, effect};
ghost use Rattle.history.specs.Tables.{Records};
ghost use Rattle.history.specs.Beginnings.{LeadsTo};
ghost use Rattle.order_search.specs.Cells.{CanGoBack, cell_of, reads_only, value_in};
ghost use Rattle.order_search.specs.Walks.{Carries};

use crate::cells::{Cell, cell_of, put_back, reads_only, value_in};
use ctrie_base::{HashKind, Refusal};
use history::{Reply, Row, Table, World, reply_of};
use std::alloc::Global;

/// The world to which these operations lead, if they lead to one.
fn world_of(alloc: Global, table: &Table, ids: &[u64], hash: HashKind) -> Result<World, Refusal>
    ensures world { IfOk result (λ world. (history : List Event) (last : HandleMap) → Records history table.now
        → LeadsTo (hash_of hash) history ids.now last → world ≡ last) }
    ensures only_memory { IsOkUnless result Refusal.Memory }
{
    let mut world = World::new(alloc)?;
    for id in ids {
        advance(&mut world, table, *id, hash)?;
    }
    Ok(world)
}

/// Carries out the operation's call, if it has begun.
fn advance(world: &mut World, table: &Table, id: u64, hash: HashKind) -> Result<(), Refusal>
    ensures advanced { OnOk result ((row : Row) → slice_get table.now.rows.items id ≡ Some row → (reply : Option Reply)
        × ((reply, world.new) ≡ answer_in world.old (effect (hash_of hash) world.old row.call row.opens))) }
    ensures only_memory { IsOkUnless result Refusal.Memory }
{
    let Some(row) = table.row(id) else {
        return Ok(());
    };
    let _ = reply_of(world, &row.call, row.opens, hash)?;
    Ok(())
}

/// What the cell of the operation's call has, if that is on a key.
pub(crate) fn value_before(
    world: &mut World,
    row: &Row,
    hash: HashKind,
) -> Result<Option<u64>, Refusal>
    ensures value { IfOk result (λ value. IfSome (cell_of row.now.call) (λ cell. value_in world.old cell ≡ value)) }
    ensures same { world.new ≡ world.old }
    ensures only_memory { IsOkUnless result Refusal.Memory }
{
    match cell_of(&row.call) {
        Some(cell) => value_in(world, cell, hash),
        None => Ok(None),
    }
}

/// Takes back the effect of an operation that came after these. If its call was on a key, that had this value before.
pub(crate) fn take_back(
    alloc: Global,
    world: &mut World,
    table: &Table,
    ids: &[u64],
    id: u64,
    before: Option<u64>,
    hash: HashKind,
) -> Result<(), Refusal>
    ensures back { OnOk result ((history : List Event) (last : HandleMap) (row : Row) → Records history table.now
        → LeadsTo (hash_of hash) history ids.now last → slice_get table.now.rows.items id ≡ Some row
        → CanGoBack row.call before last world.old → world.new ≡ last) }
    ensures only_memory { IsOkUnless result Refusal.Memory }
{
    if only_read(table, id) {
        return Ok(());
    }
    if let Some(cell) = cell_at(table, id) {
        if put_back(world, cell, before, hash)? {
            return Ok(());
        }
    }
    *world = world_of(alloc, table, ids, hash)?;
    Ok(())
}

/// Whether the operation's call only reads.
fn only_read(table: &Table, id: u64) -> bool
    ensures { IsTrue result → (row : Row) → slice_get table.now.rows.items id ≡ Some row → IsTrue (reads_only row.call) }
{
    match table.row(id) {
        Some(row) => reads_only(&row.call),
        None => false,
    }
}

/// The cell of the operation's call.
fn cell_at(table: &Table, id: u64) -> Option<Cell>
    ensures { (row : Row) → slice_get table.now.rows.items id ≡ Some row → result ≡ cell_of row.call }
{
    let row = table.row(id)?;
    cell_of(&row.call)
}

/// Carries out an operation's call, and tells whether it has an effect with the reply that was told, if one was.
pub(crate) fn carry_out(
    world: &mut World,
    row: &Row,
    told: Option<&Reply>,
    hash: HashKind,
) -> Result<bool, Refusal>
    ensures carries { IfOk result (λ fits. Carries fits (hash_of hash) row.now (option_copied told.entry) world.old world.new) }
    ensures answered { OnOk result ((reply : Option Reply)
        × ((reply, world.new) ≡ answer_in world.old (effect (hash_of hash) world.old row.now.call row.now.opens))) }
    ensures only_memory { IsOkUnless result Refusal.Memory }
{
    match reply_of(world, &row.call, row.opens, hash)? {
        None => Ok(false),
        Some(reply) => Ok(is_told(told, &reply)),
    }
}

/// Whether the reply is the one that was told, if one was.
fn is_told(told: Option<&Reply>, reply: &Reply) -> bool
    ensures { IsTrue result ↔ Agrees (option_copied told.entry) reply.now }
{
    match told {
        Some(told) => reply.is_same(told),
        None => true,
    }
}
