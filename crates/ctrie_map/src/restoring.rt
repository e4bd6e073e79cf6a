//! A handle that is to name another one's map.

ghost use Rattle.std.specs.Prelude.{◌≡◌, ◌+◌, IfOk, IfErr, Err};
ghost use Rattle.ctrie_map.specs.declared.errors.MapError.TheVariants.{Full};
ghost use Rattle.ctrie_map.specs.Costs.{WorksUpTo, work_of_a_close, work_of_a_copy};
ghost use Rattle.ctrie_map.specs.Maps.{IsWhole, map_with};
ghost use Rattle.ctrie_map.specs.Restoring.{HasLifeIfTried, IsFullToRestore, RefusesRestore, Restores};

use crate::drafts::take_map;
use crate::errors::MapError;
use crate::handle::Handle;
use crate::map::Map;
use crate::names::{NAMES, Names};
use crate::performing::{COPY_STEPS, is_worn_out_by};
use history::Access;
use machine_core::Core;

impl Map {
    /// The handle, which is writable, has the copy's map from now on; what it had before is gone, but for what other handles
    /// have of it. The copy may be read-only, and stays. Refused as `NoHandle` where one of the two isn't open, as `ReadOnly`
    /// where the handle is; and, but where both are the same and nothing is to be done, as `HandlesFull` where 256 handles are
    /// open, since it takes one more for the moment, as `WornOut` where no more steps are left than it may take, and as `Full`
    /// exactly where `free` is 0. No map has changed then.
    pub fn restore(&mut self, handle: Handle, copy: Handle) -> Result<(), MapError>
        ensures restores { IfOk result (λ _. Restores self.old handle copy self.new) }
        ensures itself { handle ≡ copy → self.new ≡ self.old }
        ensures refused { IfErr result (RefusesRestore self.old handle copy self.new) }
        ensures full { IsFullToRestore self.old handle copy → result ≡ Err Full }
        ensures life { HasLifeIfTried result self.old handle copy }
        ensures work { WorksUpTo (work_of_a_copy + work_of_a_close) self.old self.new }
    {
        restore(
            &mut self.core,
            &mut self.names,
            handle.number(),
            copy.number(),
        )
    }
}

/// The same of a map's parts.
fn restore(core: &mut Core, names: &mut Names, handle: u16, copy: u16) -> Result<(), MapError>
    requires whole { IsWhole (map_with core.old.state names.old) }
    ensures whole { IsWhole (map_with core.new.state names.new) }
    ensures restores { IfOk result (λ _. Restores (map_with core.old.state names.old) handle copy (map_with core.new.state names.new)) }
    ensures itself { handle ≡ copy → map_with core.new.state names.new ≡ map_with core.old.state names.old }
    ensures refused { IfErr result (RefusesRestore (map_with core.old.state names.old) handle copy (map_with core.new.state names.new)) }
    ensures full { IsFullToRestore (map_with core.old.state names.old) handle copy → result ≡ Err Full }
    ensures life { HasLifeIfTried result (map_with core.old.state names.old) handle copy }
    ensures work { WorksUpTo (work_of_a_copy + work_of_a_close) (map_with core.old.state names.old) (map_with core.new.state names.new) }
{
    let Some(name) = names.find(handle) else {
        return Err(MapError::NoHandle);
    };
    let Some(source) = names.find(copy) else {
        return Err(MapError::NoHandle);
    };
    if let Access::ReadOnly = name.access {
        return Err(MapError::ReadOnly);
    }
    if handle == copy {
        return Ok(());
    }
    if names.many() >= NAMES {
        return Err(MapError::HandlesFull);
    }
    if is_worn_out_by(core, COPY_STEPS) {
        return Err(MapError::WornOut);
    }
    take_map(core, names, handle, name, source.core)
}
