//! What every step does at its end: limbo is brought up to date, and the step is counted. A call that was carried out at once
//! is counted as a whole.

ghost use Rattle.std.specs.Prelude.{◌≡◌, ◌+◌, ◌<◌, ◌^◌, ◌*◌, [], length};
ghost use Rattle.machine_model.specs.Counting.{settled};
ghost use Rattle.machine_core.specs.Seen.{seen};
ghost use Rattle.machine_core.specs.Keeping.{IsKept};
ghost use Rattle.proof_core.specs.Work.{WorksUpTo};

use crate::parts::Parts;

/// Ends a step. It looks at the slots that the step noted, and at no other.
pub fn settle(parts: &mut Parts)
    requires steps { parts.old.steps < 2 ^ 63 }
    requires kept { IsKept parts.old }
    ensures settled { seen parts.new ≡ settled (seen parts.old) (seen parts.old) }
    ensures kept { IsKept parts.new }
    ensures noted { parts.new.heap.noted ≡ [] }
    ensures work { WorksUpTo (3 * length parts.old.heap.noted) parts.old.heap.ticks parts.old.heap.limbo parts.new.heap.ticks parts.new.heap.limbo }
{
    parts.heap.settle();
    parts.steps += 1;
}

/// Counts a call of this many steps.
pub fn count_call(parts: &mut Parts, steps: u64)
    requires begun { parts.old.begun < 2 ^ 63 }
    requires steps { parts.old.steps + steps < 2 ^ 64 }
    ensures { parts.new ≡ record parts.old { begun = parts.old.begun + 1; steps = parts.old.steps + steps } }
{
    parts.begun += 1;
    parts.steps += steps;
}
