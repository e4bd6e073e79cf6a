//! Why a call has no effect in a world.

ghost use Rattle.std.specs.Prelude.{◌≡◌, ℕ, None};
ghost use Rattle.history.specs.Histories.{OpensRightly};
ghost use Rattle.history.specs.Effects.{effect};
ghost use Rattle.history.specs.Faults.{needed_access, Hinders};
ghost use Rattle.history.specs.Obstacles.{mismatch};

use crate::calls::{Access, Call};
use crate::faults::Obstacle;
use crate::worlds::World;

/// What stands in the way of a call that has no effect in this world.
pub fn obstacle_to(world: &World, call: &Call, opens: Option<u16>) -> Obstacle
    requires opens_rightly { OpensRightly call.now opens }
    requires no_effect { (hash : ℕ → ℕ) × (effect hash world.now call.now opens ≡ None) }
    ensures { Hinders world.now call.now opens result }
{
    let handle = call.handle();
    let Some(access) = world.access(handle) else {
        return Obstacle::NotOpen { handle };
    };
    if let Some(obstacle) = mismatch(needed_access(call), access, handle) {
        return obstacle;
    }
    match opens {
        Some(handle) => Obstacle::OpenAlready { handle },
        None => unreachable!(),
    }
}

/// The obstacle of a call that needs such a handle and names one of this kind.
fn mismatch(needed: Option<Access>, access: Access, handle: u16) -> Option<Obstacle>
    ensures { result ≡ mismatch needed access handle }
{
    match (needed, access) {
        (Some(Access::Writable), Access::ReadOnly) => Some(Obstacle::NeedsWritable { handle }),
        (Some(Access::ReadOnly), Access::Writable) => Some(Obstacle::NeedsReadOnly { handle }),
        _ => None,
    }
}

/// What a call's handle must be, if not any.
fn needed_access(call: &Call) -> Option<Access>
    ensures { result ≡ needed_access call.now }
{
    match call {
        Call::Get { .. } | Call::Close { .. } => None,
        Call::Entries { .. } | Call::Count { .. } => Some(Access::ReadOnly),
        _ => Some(Access::Writable),
    }
}
