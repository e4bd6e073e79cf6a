//! Calls that open and close handles.

ghost use Rattle.std.specs.Prelude.{IfOk, IfErr, ◌≡◌, Err};
ghost use Rattle.ctrie_map.specs.declared.errors.MapError.TheVariants.{Full};
ghost use Rattle.history.specs.declared.calls.Access.TheVariants.{Writable, ReadOnly};
ghost use Rattle.history.specs.declared.calls.Call.TheVariants.{Close, Freeze, Snapshot};
ghost use Rattle.ctrie_map.specs.Changes.{Closes, Copies, HasLife, IsFullFor, Refuses};
ghost use Rattle.ctrie_map.specs.Costs.{WorksUpTo, work_of_a_close, work_of_a_copy};
ghost use Rattle.ctrie_map.specs.Maps.{handles_of};
ghost use Rattle.ctrie_map.specs.Names.{IsNext};

use crate::errors::MapError;
use crate::handle::Handle;
use crate::map::Map;
use crate::telling::{done, opened};
use history::{Access, Call};

impl Map {
    /// Opens a writable copy, of a read-only map too. It is changed on its own, as is the map that was copied. Its number is
    /// the next one after the number that was given last, round about, that isn't open. Refused as `NoHandle`, as
    /// `HandlesFull` where 256 handles are open, as `WornOut`, or as `Full` exactly where `free` is 0.
    pub fn snapshot(&mut self, handle: Handle) -> Result<Handle, MapError>
        ensures done { IfOk result (λ copy. HasLife self.old × Copies self.old handle Writable copy self.new) }
        ensures next { IfOk result (IsNext self.old.names.last (handles_of self.old)) }
        ensures refused { IfErr result (Refuses self.old (Snapshot handle) ⊥ self.new) }
        ensures full { IsFullFor self.old (Snapshot handle) → result ≡ Err Full }
        ensures work { WorksUpTo work_of_a_copy self.old self.new }
    {
        opened(self.open(handle.number(), Access::Writable))
    }

    /// Opens a read-only copy, with a number as `snapshot` gives it. Refused as `snapshot` is.
    pub fn freeze(&mut self, handle: Handle) -> Result<Handle, MapError>
        ensures done { IfOk result (λ copy. HasLife self.old × Copies self.old handle ReadOnly copy self.new) }
        ensures next { IfOk result (IsNext self.old.names.last (handles_of self.old)) }
        ensures refused { IfErr result (Refuses self.old (Freeze handle) ⊥ self.new) }
        ensures full { IsFullFor self.old (Freeze handle) → result ≡ Err Full }
        ensures work { WorksUpTo work_of_a_copy self.old self.new }
    {
        opened(self.open(handle.number(), Access::ReadOnly))
    }

    /// Takes the handle away, and its map. What only this map had is free again then. Refused as `NoHandle` or `WornOut`: it
    /// wants no slot, so it is never `Full`.
    pub fn close(&mut self, handle: Handle) -> Result<(), MapError>
        ensures done { IfOk result (λ _. HasLife self.old × Closes self.old handle self.new) }
        ensures refused { IfErr result (Refuses self.old (Close handle) ⊥ self.new) }
        ensures work { WorksUpTo work_of_a_close self.old self.new }
    {
        done(self.perform(Call::Close {
            handle: handle.number(),
        }))
    }
}
