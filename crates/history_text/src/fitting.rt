//! The numbers of a program's events are in the ranges in which they have a spelling.

ghost use Rattle.std.specs.Prelude.{All, IfSome};
ghost use Rattle.history.specs.declared.events.Event.TheVariants.{Begin};
ghost use Rattle.history_text.specs.Grammar.{IsNumber, PairFits, ReplyFits, EventFits};

use history::{Call, Event, Reply};

/// Each of these events has a spelling, since its numbers are in the ranges of their types.
pub fn events_fit(events: &[Event])
    ensures { All EventFits events.now }
{
    for event in events {
        event_fits(event);
    }
}

/// The numbers of an event are in range.
fn event_fits(event: &Event)
    ensures { EventFits event.now }
{
    match event {
        Event::Begin {
            id,
            actor,
            call,
            opens,
        } => begin_fits(*id, *actor, *call, *opens),
        Event::End { id, reply } => {
            let _id = *id;
            reply_fits(reply);
        }
    }
}

/// The numbers of a begin are in range.
fn begin_fits(id: u64, actor: u8, call: Call, opens: Option<u16>)
    ensures { EventFits (Begin id actor call opens) }
{
    let _begin = (id, actor, call, opens);
}

/// The numbers of a reply are in range.
fn reply_fits(reply: &Reply)
    ensures { ReplyFits reply.now }
{
    match reply {
        Reply::Found(value) => found_fits(*value),
        Reply::Opened(handle) => {
            let _handle = *handle;
        }
        Reply::Pairs(pairs) => pairs_fit(pairs.as_slice()),
        Reply::Count(count) => {
            let _count = *count;
        }
        _ => {}
    }
}

/// A value that was found is in range.
fn found_fits(value: Option<u64>)
    ensures { IfSome value IsNumber }
{
    let _value = value;
}

/// The numbers of pairs are in range.
fn pairs_fit(pairs: &[(u64, u64)])
    ensures { All PairFits pairs.now }
{
    for pair in pairs {
        pair_fits(*pair);
    }
}

/// The numbers of a pair are in range.
fn pair_fits(pair: (u64, u64))
    ensures { PairFits pair }
{
    let _pair = pair;
}
