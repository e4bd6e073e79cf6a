//! The bars of operations.

ghost use Rattle.std.specs.Prelude.{◌≡◌, ◌++◌, ℕ, List, IfOk, IsOkUnless};
ghost use Rattle.std.specs.Option.{option_copied, option_map};
ghost use Rattle.std.specs.String.{string_bytes};
ghost use Rattle.history_text.specs.Texts.{call_text, reply_text, opens_words, behind_spaces};
ghost use Rattle.history.specs.declared.events.Event.{Event};
ghost use Rattle.history.specs.Tables.{Records, IsRowOf};
ghost use Rattle.history_scene.specs.Lanes.{lane_of};
ghost use Rattle.history_scene.specs.Stands.{IsStand, before_end};
ghost use Rattle.history_scene.specs.Placing.{stand_of};
ghost use Rattle.history_scene.specs.Scenes.{IsBar, AreBars, IsLaneTable, text_in};

use crate::colours::colour_of;
use crate::late::late_of;
use crate::scenes::{Bar, Stand};
use crate::stands::{Place, places_of};
use ctrie_base::Refusal;
use history::{Call, Event, OrderFault, Reply, Row, Table, reply_at};
use history_text::{CallText, OpensText, ReplyText};
use std::alloc::{AllocError, Global};

/// The bars of all operations that have begun, by their ids.
pub fn bars_of(
    alloc: Global,
    events: &[Event],
    table: &Table,
    order: &[u64],
    lanes: &[usize; 256],
    fault: Option<&OrderFault>,
) -> Result<Vec<Bar>, Refusal>
    requires records { Records events.now table.now }
    requires lanes { IsLaneTable events.now lanes.now }
    ensures bars { IfOk result (λ bars. AreBars events.now order.now (option_copied fault.entry) bars.items) }
    ensures only_memory { IsOkUnless result Refusal.Memory }
{
    let places = places_of(alloc, table, order)?;
    let late = late_of(alloc, events, table, order)?;
    let mut bars = Vec::new(alloc);
    for (id, row) in table.rows.iter().enumerate() {
        let stand = stand_of(places[id], &late, row.end);
        let lane = lane_in(lanes, row.actor);
        bars.push(bar_of(alloc, events, id as u64, row, lane, stand, fault)?)?;
    }
    Ok(bars)
}

/// The bar of the operation of this row.
fn bar_of(
    alloc: Global,
    events: &[Event],
    id: u64,
    row: &Row,
    lane: usize,
    stand: Option<Stand>,
    fault: Option<&OrderFault>,
) -> Result<Bar, Refusal>
    ensures bar { IfOk result (λ bar. (order : List ℕ) → IsRowOf events.now id row.now → lane ≡ lane_of events.now row.now.actor
        → IsStand events.now order id row.now.end stand → IsBar events.now order (option_copied fault.entry) id bar) }
    ensures only_memory { IsOkUnless result Refusal.Memory }
{
    let answer = reply_at(events, row.end);
    let call = call_label(alloc, &row.call, row.opens)?;
    let reply = reply_label(alloc, answer)?;
    Ok(Bar {
        id,
        actor: row.actor,
        lane,
        from: row.begin,
        to: row.end,
        call,
        reply,
        stand,
        colour: colour_of(fault, id, &row.call, answer),
    })
}

/// The actor's lane by this table.
fn lane_in(lanes: &[usize; 256], actor: u8) -> usize
    ensures { (history : List Event) → IsLaneTable history lanes.now → result ≡ lane_of history actor }
{
    lanes[actor as usize]
}

/// The text of a call, with the handle that it opens.
fn call_label(alloc: Global, call: &Call, opens: Option<u16>) -> Result<String, AllocError>
    ensures { IfOk result (λ text. string_bytes text ≡ call_text call.now ++ behind_spaces (opens_words opens)) }
{
    format!(in alloc; "{}{}", CallText(call), OpensText(opens))
}

/// The text of a reply, if there is one.
fn reply_label(alloc: Global, answer: Option<&Reply>) -> Result<Option<String>, AllocError>
    ensures { IfOk result (λ text. text_in text ≡ option_map reply_text (option_copied answer.entry)) }
{
    match answer {
        Some(answer) => Ok(Some(format!(in alloc; "{}", ReplyText(answer))?)),
        None => Ok(None),
    }
}

/// How an operation stands in the order, by its place, the lateness of all places, and its end.
fn stand_of(place: Option<Place>, late: &[bool], end: Option<usize>) -> Option<Stand>
    ensures { result ≡ stand_of place late.now end }
{
    let Place { place, latest } = place?;
    Some(Stand {
        place,
        moment: before_end(end, latest),
        is_late: late.get(place).copied().unwrap_or(false),
    })
}

/// This event, or the one before the end if that comes first.
fn before_end(end: Option<usize>, event: usize) -> usize
    ensures { result ≡ before_end end event }
{
    match end {
        Some(end) => event.min(end.saturating_sub(1)),
        None => event,
    }
}
