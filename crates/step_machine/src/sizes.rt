//! The sizes of a machine that keeps its record.

ghost use Rattle.std.specs.Prelude.{◌≡◌, ◌↔◌, IsTrue};
ghost use Rattle.machine_model.specs.Limits.{AreLimits, bounded};

use machine_model::{Bounds, Limits};

/// How many steps a machine takes at most.
const STEP_LIMIT: u64 = 1 << 40;

/// Whether the limits are in range. A machine that keeps no record may have more slots.
pub(crate) fn are_limits(limits: Limits) -> bool
    ensures { IsTrue result ↔ AreLimits limits }
{
    2 <= limits.slots && limits.slots <= 65_536 && 1 <= limits.actors && limits.actors <= 64
}

/// What bounds a machine of these sizes.
pub(crate) fn bounds_of(limits: Limits) -> Bounds
    ensures { result ≡ bounded limits }
{
    Bounds {
        slots: limits.slots,
        actors: limits.actors,
        hash: limits.hash,
        steps: STEP_LIMIT,
    }
}
