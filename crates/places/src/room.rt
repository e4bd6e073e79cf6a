//! Room that is made ahead.

ghost use Rattle.std.specs.Prelude.{◌≡◌, ◌+◌, ◌≤◌, OnOk, vec_len, vec_capacity};

use std::alloc::AllocError;

/// Makes room for this many items more, in memory that is written here: the first touch of fresh memory costs more
/// than what is written there. The items stay.
pub fn touch_room<T: Copy>(items: &mut Vec<T>, count: usize, item: T) -> Result<(), AllocError>
    ensures same { items.new.items ≡ items.old.items }
    ensures room { OnOk result (vec_len items.new + count ≤ vec_capacity items.new) }
    ensures capacity { vec_capacity items.old ≤ vec_capacity items.new }
{
    let length = items.len();
    let Some(all) = length.checked_add(count) else {
        return Err(AllocError);
    };
    items.resize(all, item)?;
    items.truncate(length);
    Ok(())
}
