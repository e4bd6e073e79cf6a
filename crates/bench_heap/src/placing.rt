//! Places, added.

ghost use Rattle.std.specs.Prelude.{◌+◌, ◌*◌, ◌<◌, ◌≤◌, ◌^◌, OnOk, IfOk};
ghost use Rattle.bench_heap.specs.Steps.{IsBelow};

use ctrie_base::Refusal;
use places::{Place, Places};
use std::alloc::Global;

/// `count` places, with a closing after each `every` of them; every fourth one is late.
pub(crate) fn places(alloc: Global, count: u32, every: u32) -> Result<Places, Refusal> {
    let mut places = Places::new(alloc);
    let mut closed = 0u64;
    for n in 0..count {
        closed = next(&mut places, n, every, closed)?;
    }
    Ok(places)
}

/// The place of the operation of this number, before which a generation may be closed. Tells the last
/// closing.
fn next(places: &mut Places, n: u32, every: u32, closed: u64) -> Result<u64, Refusal>
    requires below { IsBelow (2 * n + 1) places.old }
    requires closed { closed ≤ 2 * n + 1 }
    ensures below { OnOk result (IsBelow (2 * n + 3) places.new) }
    ensures closed { IfOk result (λ last. last ≤ 2 * n + 3) }
{
    let step = 2 * u64::from(n) + 1;
    places.room()?;
    if n % every.max(1) == 0 {
        places.close(step);
        places.add(place(n, step, step));
        return Ok(step);
    }
    places.add(place(n, step, closed));
    Ok(closed)
}

/// The place of an operation after this step, or, if it is late, before the closing.
fn place(n: u32, step: u64, closed: u64) -> Place
    requires step { step < 2 ^ 63 }
    requires closed { closed ≤ step }
    ensures { result.step ≤ step + 1 }
{
    let late = n % 4 == 3;
    Place {
        step: if late { closed } else { step + 1 },
        on_time: !late,
        moment: step + 1,
        changed_nothing: n % 2 == 0,
        id: u64::from(n),
    }
}
