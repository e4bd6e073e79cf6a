//! Which operations of an order are late.

ghost use Rattle.std.specs.Prelude.{◌≡◌, vec_len, length, IfOk, IsOkUnless};
ghost use Rattle.history.specs.Tables.{Records};
ghost use Rattle.history_scene.specs.Stands.{swaps_root};
ghost use Rattle.history_scene.specs.Placing.{AreLate, is_behind, earlier, swap_end};

use ctrie_base::Refusal;
use history::{Call, Event, Reply, Row, Table, reply_at};
use std::alloc::Global;

/// By the places of the order, whether the operation there, if it has begun, is late.
pub fn late_of(
    alloc: Global,
    events: &[Event],
    table: &Table,
    order: &[u64],
) -> Result<Vec<bool>, Refusal>
    requires { Records events.now table.now }
    ensures late { IfOk result (λ late. AreLate events.now order.now 0 late.items) }
    ensures size { IfOk result (λ late. vec_len late ≡ length order.now) }
    ensures only_memory { IsOkUnless result Refusal.Memory }
{
    let mut late = vec![in alloc; false; order.len()]?;
    let mut earliest = None;
    let mut place = order.len();
    while place > 0 {
        place -= 1;
        if let Some(row) = table.row(order[place]) {
            late[place] = is_behind(earliest, row.end);
            earliest = earlier(earliest, swap_end(events, &row));
        }
    }
    Ok(late)
}

/// Whether the end, if there is one, is after the earliest, if there is one.
fn is_behind(earliest: Option<usize>, end: Option<usize>) -> bool
    ensures { result ≡ is_behind earliest end }
{
    match (earliest, end) {
        (None, _) => false,
        (Some(_), None) => true,
        (Some(first), Some(end)) => first < end,
    }
}

/// The earlier of the two, if there are any.
fn earlier(earliest: Option<usize>, other: Option<usize>) -> Option<usize>
    ensures { result ≡ earlier earliest other }
{
    match (earliest, other) {
        (None, _) => other,
        (Some(_), None) => earliest,
        (Some(first), Some(other)) => Some(first.min(other)),
    }
}

/// Where the operation ends, if it is a snapshot, a freeze or a clear and was answered.
fn swap_end(events: &[Event], row: &Row) -> Option<usize>
    ensures { result ≡ swap_end events.now row.now }
{
    if !swaps_root(&row.call) {
        return None;
    }
    match reply_at(events, row.end) {
        None | Some(Reply::NoSlots) => None,
        Some(_) => row.end,
    }
}

/// Whether the call takes a copy of the map or empties it.
fn swaps_root(call: &Call) -> bool
    ensures { result ≡ swaps_root call.now }
{
    matches!(
        call,
        Call::Clear { .. } | Call::Snapshot { .. } | Call::Freeze { .. }
    )
}
