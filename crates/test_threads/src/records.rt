//! What a record is judged by.

use ctrie_base::Refusal;
use history::{Event, is_order};
use lock_runner::{Record, run};
use std::alloc::Global;

/// Whether the two are the same event.
fn is_same(one: &Event, other: &Event) -> bool {
    match (one, other) {
        (
            Event::Begin {
                id,
                actor,
                call,
                opens,
            },
            Event::Begin {
                id: other_id,
                actor: other_actor,
                call: other_call,
                opens: other_opens,
            },
        ) => {
            id == other_id && actor == other_actor && call == other_call && opens == other_opens
        }
        (
            Event::End { id, reply },
            Event::End {
                id: other_id,
                reply: other_reply,
            },
        ) => id == other_id && reply.is_same(other_reply),
        _ => false,
    }
}

fn are_same(one: &[Event], other: &[Event]) -> bool {
    one.len() == other.len() && one.iter().zip(other).all(|(a, b)| is_same(a, b))
}

/// Whether the order is legal, and the steps run again give the record again.
pub(crate) fn is_right(alloc: Global, record: &Record) -> Result<bool, Refusal> {
    let again = run(alloc, record.limits, record.steps.as_slice())?;
    let is_legal = is_order(
        alloc,
        record.events.as_slice(),
        record.order.as_slice(),
        record.limits.hash,
    )?;
    Ok(is_legal && is_repeated(record, &again))
}

fn is_repeated(one: &Record, other: &Record) -> bool {
    one.steps.as_slice() == other.steps.as_slice()
        && one.order.as_slice() == other.order.as_slice()
        && are_same(one.events.as_slice(), other.events.as_slice())
        && (one.used, one.free, one.limbo) == (other.used, other.free, other.limbo)
}
