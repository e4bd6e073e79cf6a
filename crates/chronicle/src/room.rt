//! Room in the history that is made ahead.

ghost use Rattle.std.specs.Prelude.{◌≡◌, ◌+◌, ◌≤◌, OnOk, vec_len, vec_capacity};

use history::{Event, Reply};
use std::alloc::AllocError;

/// Makes room for this many events more, each of which is written once. The events stay.
pub fn touch_room(events: &mut Vec<Event>, count: usize) -> Result<(), AllocError>
    ensures same { events.new.items ≡ events.old.items }
    ensures room { OnOk result (vec_len events.new + count ≤ vec_capacity events.new) }
    ensures capacity { vec_capacity events.old ≤ vec_capacity events.new }
{
    let length = events.len();
    let Some(all) = length.checked_add(count) else {
        return Err(AllocError);
    };
    events.resize_with(
        all,
        || Event::End {
            id: 0,
            reply: Reply::Closed,
        },
    )?;
    events.truncate(length);
    Ok(())
}
