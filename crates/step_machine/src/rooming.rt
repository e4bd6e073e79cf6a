//! Room for what a step adds to a machine.

ghost use Rattle.std.specs.Prelude.{◌≡◌, ◌<◌, ◌≤◌, OnOk, vec_len, vec_capacity};

use chronicle::Chronicle;
use ctrie_base::Refusal;
use machine_core::Step;
use std::alloc::AllocError;

/// Makes room for one more step, and for what it tells, of a machine that has drawn this many generations. What is kept stays.
#[inline(always)]
pub fn make_room(
    steps: &mut Vec<Step>,
    kept: &mut Chronicle,
    generations: u64,
) -> Result<(), Refusal>
    ensures steps { steps.new.items ≡ steps.old.items }
    ensures past { kept.new.past ≡ kept.old.past }
    ensures slots { kept.new.slots ≡ kept.old.slots }
    ensures step { OnOk result (vec_len steps.new < vec_capacity steps.new) }
    ensures generations { OnOk result (generations ≤ kept.new.generations) }
    ensures room { OnOk result (0 < kept.new.room) }
{
    steps.reserve(1)?;
    kept.make_room(generations)
}

/// Makes room for this many steps more, each of which is written once. The steps stay.
pub fn touch_room(steps: &mut Vec<Step>, count: usize) -> Result<(), AllocError>
    ensures { steps.new.items ≡ steps.old.items }
{
    let length = steps.len();
    let Some(all) = length.checked_add(count) else {
        return Err(AllocError);
    };
    steps.resize(all, Step::Sweep)?;
    steps.truncate(length);
    Ok(())
}
