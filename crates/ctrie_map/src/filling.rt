//! Keys that are set together, all or none.

ghost use Rattle.std.specs.Prelude.{◌+◌, IfOk, IfErr, length};
ghost use Rattle.ctrie_map.specs.Batches.{work_of_changes};
ghost use Rattle.ctrie_map.specs.Cores.{TakesUpTo};
ghost use Rattle.ctrie_map.specs.Costs.{WorksUpTo, work_of_a_close};
ghost use Rattle.ctrie_map.specs.Filling.{PutsAll, RefusesPuts};
ghost use Rattle.ctrie_map.specs.Maps.{IsWhole, map_with};

use crate::batches::{Batch, change_all, name_to_copy};
use crate::errors::MapError;
use crate::handle::Handle;
use crate::map::Map;
use crate::names::Names;
use machine_core::Core;

impl Map {
    /// Sets the values of all these keys, or of none: where it is refused, no map has changed. Of pairs of one key the last one
    /// counts. Refused as `NoHandle`, `ReadOnly` or `Crowded`; as `HandlesFull` where 256 handles are open, since it works on a
    /// copy, which takes one more for the moment; as `WornOut` where no more steps are left than this many changes may take; and as
    /// `Full` where the last step of that copy, or of the change of one of the keys in it, was to make a node and no slot was
    /// free: never where 24 slots and 571 for each pair were free before it.
    pub fn put_all(&mut self, handle: Handle, pairs: &[(u64, u64)]) -> Result<(), MapError>
        ensures done { IfOk result (λ _. PutsAll self.old handle pairs.now self.new) }
        ensures refused { IfErr result (RefusesPuts self.old handle pairs.now self.new) }
        ensures work { WorksUpTo (work_of_changes (length pairs.now) + work_of_a_close) self.old self.new }
    {
        put_all(&mut self.core, &mut self.names, handle.number(), pairs)
    }
}

/// The same of a map's parts.
fn put_all(
    core: &mut Core,
    names: &mut Names,
    handle: u16,
    pairs: &[(u64, u64)],
) -> Result<(), MapError>
    requires whole { IsWhole (map_with core.old.state names.old) }
    ensures whole { IsWhole (map_with core.new.state names.new) }
    ensures done { IfOk result (λ _. PutsAll (map_with core.old.state names.old) handle pairs.now (map_with core.new.state names.new)) }
    ensures refused { IfErr result (RefusesPuts (map_with core.old.state names.old) handle pairs.now (map_with core.new.state names.new)) }
    ensures work { TakesUpTo (work_of_changes (length pairs.now) + work_of_a_close) core.old.state core.new.state }
{
    let name = name_to_copy(names, handle)?;
    change_all(core, names, handle, name, Batch::Puts, pairs)
}
