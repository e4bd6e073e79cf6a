//! Where the operations stand in an order.

ghost use Rattle.std.specs.Prelude.{◌≡◌, ℕ, List, length, vec_len, IfOk, IsOkUnless, slice_get};
ghost use Rattle.history.specs.declared.events.Event.{Event};
ghost use Rattle.history.specs.Tables.{Records};
ghost use Rattle.history_scene.specs.Placing.{ArePlaced, noted};

use ctrie_base::Refusal;
use history::Table;
use std::alloc::Global;

/// The first place of an operation in an order, and the last event that begins one of the operations up to it.
#[derive(Clone, Copy)]
pub struct Place {
    pub place: usize,
    pub latest: usize,
}

/// By their ids, where the operations stand in the order.
pub fn places_of(alloc: Global, table: &Table, order: &[u64]) -> Result<Vec<Option<Place>>, Refusal>
    ensures placed { IfOk result (λ places. (history : List Event) → Records history table.now
        → ArePlaced history order.now (length order.now) places.items) }
    ensures size { IfOk result (λ places. vec_len places ≡ vec_len table.now.rows) }
    ensures only_memory { IsOkUnless result Refusal.Memory }
{
    let mut places = vec![in alloc; None; table.rows.len()]?;
    let mut latest = 0;
    for (place, id) in order.iter().enumerate() {
        if let Some(row) = table.row(*id) {
            latest = latest.max(row.begin);
            note(&mut places, *id, Place { place, latest });
        }
    }
    Ok(places)
}

/// Notes the operation's place, unless it has one.
fn note(places: &mut Vec<Option<Place>>, id: u64, place: Place)
    ensures { places.new.items ≡ noted places.old.items id place }
{
    let at = id as usize;
    if let Some(None) = places.get(at) {
        places[at] = Some(place);
    }
}
