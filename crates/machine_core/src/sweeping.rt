//! A step of the sweep: it frees a slot, or reads an actor's epoch, or lets the epoch grow. And all of them that free what
//! stands in limbo; those that only let the epoch grow are taken at once.

ghost use Rattle.std.specs.Prelude.{◌≡◌, ◌≢◌, ◌+◌, ℕ, [], Ok, false, true};
ghost use Rattle.machine_model.specs.declared.steps.Outcome.TheVariants as outcome;
ghost use Rattle.machine_model.specs.declared.steps.Step.TheVariants as steps;
ghost use Rattle.machine_model.specs.Machine.{is_spent, next};
ghost use Rattle.machine_core.specs.Keeping.{IsCore};
ghost use Rattle.machine_core.specs.Seen.{seen};
ghost use Rattle.machine_core.specs.Sweeping.{Reclaims};
ghost use Rattle.machine_core.specs.Work.{worked, SweepsLittle};
ghost use Rattle.slot_arena.specs.Ticking.{TakesUpTo};

use crate::denials::is_spent;
use crate::parts::Parts;
use epochs::Swept;

/// A step of the sweep, where the machine isn't spent, with what every step does at its end.
#[inline(always)]
pub fn sweep_once(parts: &mut Parts) -> Swept
    requires unspent { is_spent (seen parts.old) ≡ false }
    requires core { IsCore parts.old }
    ensures swept { next (seen parts.old) steps.Sweep ≡ Ok (outcome.Swept result, seen parts.new) }
    ensures core { IsCore parts.new }
    ensures counted { parts.new ≡ record parts.old { heap = parts.new.heap; steps = parts.old.steps + 1 } }
    ensures work { SweepsLittle (worked parts.old) (worked parts.new) }
{
    let swept = parts.heap.sweep();
    parts.heap.settle();
    parts.steps += 1;
    swept
}

/// Whether something stands in limbo, and a step is left in which to sweep.
fn can_sweep(parts: &Parts) -> bool
    ensures some { result ≡ true → ((seen parts.now).limbo ≢ []) × (is_spent (seen parts.now) ≡ false) }
    ensures none { result ≡ false → is_spent (seen parts.now) ≡ false → (seen parts.now).limbo ≡ [] }
{
    parts.heap.limbo_len() > 0 && !is_spent(parts)
}

/// Takes all steps of the sweep up to where the epoch grows, at once, where they pass each actor, from the first one on, and
/// that many are left. Returns whether it did.
#[inline(always)]
fn grow(parts: &mut Parts) -> bool
    requires core { IsCore parts.old }
    requires some { (seen parts.old).limbo ≢ [] }
    ensures grown { result ≡ true → Reclaims (worked parts.old) (parts.old.limits.actors + 1) (worked parts.new) }
    ensures counted { result ≡ true → parts.new ≡ record parts.old { heap = parts.new.heap; steps = parts.old.steps + (parts.old.limits.actors + 1) } }
    ensures same { result ≡ false → parts.new ≡ record parts.old { heap = record parts.old.heap { ticks = parts.new.heap.ticks } } }
    ensures work { TakesUpTo 1 parts.old.heap.ticks parts.new.heap.ticks }
    ensures core { IsCore parts.new }
{
    let steps = u64::from(parts.limits.actors) + 1;
    if parts.limits.steps < parts.steps + steps {
        return false;
    }
    if !parts.heap.grow() {
        return false;
    }
    parts.steps += steps;
    true
}

/// Takes steps of the sweep until limbo is empty, or the machine is spent.
pub fn reclaim(parts: &mut Parts)
    requires core { IsCore parts.old }
    ensures reclaims { (n : ℕ) × Reclaims (worked parts.old) n (worked parts.new) }
    ensures clean { is_spent (seen parts.new) ≡ false → (seen parts.new).limbo ≡ [] }
    ensures core { IsCore parts.new }
{
    while can_sweep(parts) {
        if !grow(parts) {
            let _ = sweep_once(parts);
        }
    }
}
