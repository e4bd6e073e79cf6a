//! The cells of a world, and a change of one that is taken back.

ghost use Rattle.std.specs.Prelude.{◌≡◌, IsTrue, IfOk, IsOkUnless};
ghost use Rattle.history.specs.Worlds.{HandleMap};
ghost use Rattle.order_search.specs.Cells.{DifferIn, cell_of, reads_only, value_in};

use ctrie_base::{HashKind, Refusal};
use history::{Call, Reply, World, reply_of};

/// A key of the map that a handle names.
#[derive(Clone, Copy)]
pub(crate) struct Cell {
    pub(crate) handle: u16,
    pub(crate) key: u64,
}

/// The cell of a call on one key.
pub(crate) fn cell_of(call: &Call) -> Option<Cell>
    ensures { result ≡ cell_of call.now }
{
    match *call {
        Call::Get { handle, key }
        | Call::Put { handle, key, .. }
        | Call::PutIfAbsent { handle, key, .. }
        | Call::Replace { handle, key, .. }
        | Call::ReplaceIf { handle, key, .. }
        | Call::Remove { handle, key }
        | Call::RemoveIf { handle, key, .. } => Some(Cell { handle, key }),
        _ => None,
    }
}

/// Whether the call leaves the world, whatever it answers.
pub(crate) fn reads_only(call: &Call) -> bool
    ensures { result ≡ reads_only call.now }
{
    matches!(
        call,
        Call::Get { .. } | Call::Entries { .. } | Call::Count { .. }
    )
}

/// What the cell has.
pub(crate) fn value_in(
    world: &mut World,
    cell: Cell,
    hash: HashKind,
) -> Result<Option<u64>, Refusal>
    ensures value { IfOk result (λ value. value ≡ value_in world.old cell) }
    ensures same { world.new ≡ world.old }
    ensures only_memory { IsOkUnless result Refusal.Memory }
{
    let get = Call::Get {
        handle: cell.handle,
        key: cell.key,
    };
    match reply_of(world, &get, None, hash)? {
        Some(Reply::Found(value)) => Ok(value),
        _ => Ok(None),
    }
}

/// Writes the cell so that it has what it had. Whether it has it then.
pub(crate) fn put_back(
    world: &mut World,
    cell: Cell,
    value: Option<u64>,
    hash: HashKind,
) -> Result<bool, Refusal>
    ensures back { IfOk result (λ is_back. IsTrue is_back → (before : HandleMap) → DifferIn cell before world.old
        → value_in before cell ≡ value → world.new ≡ before) }
    ensures only_memory { IsOkUnless result Refusal.Memory }
{
    if value_in(world, cell, hash)? == value {
        return Ok(true);
    }
    let call = writing(cell, value);
    let _ = reply_of(world, &call, None, hash)?;
    Ok(value_in(world, cell, hash)? == value)
}

/// The call that gives the cell this value.
fn writing(cell: Cell, value: Option<u64>) -> Call
    ensures { cell_of result ≡ Some cell }
{
    let Cell { handle, key } = cell;
    match value {
        Some(value) => Call::Put { handle, key, value },
        None => Call::Remove { handle, key },
    }
}
