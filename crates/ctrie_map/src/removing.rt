//! Calls that remove keys.

ghost use Rattle.std.specs.Prelude.{◌≡◌, IfOk, IfErr, ◌≢◌, Err};
ghost use Rattle.ctrie_map.specs.declared.errors.MapError.TheVariants.{Full};
ghost use Rattle.std.specs.FinMap as map;
ghost use Rattle.history.specs.Effects.{has_value};
ghost use Rattle.ctrie_map.specs.Changes.{Changes, HasLife, IsAlone, IsAny, Refuses, removed_if_it_has};
ghost use Rattle.history.specs.declared.calls.Call.TheVariants.{Clear, Remove, RemoveIf};
ghost use Rattle.ctrie_map.specs.Costs.{WorksUpTo, work_of_a_change, work_of_a_copy};

use crate::errors::MapError;
use crate::handle::Handle;
use crate::map::Map;
use crate::telling::{done, found, truth};
use history::Call;

impl Map {
    /// Removes the key. The value before, if it had one. Refused as `NoHandle`, `ReadOnly`, `WornOut` or, but never while one
    /// handle alone is open, `Full`.
    pub fn remove(&mut self, handle: Handle, key: u64) -> Result<Option<u64>, MapError>
        ensures done { IfOk result (λ before. HasLife self.old × Changes self.old handle (λ m. before ≡ map.get m key) (λ m. map.remove m key) self.new) }
        ensures refused { IfErr result (Refuses self.old (Remove handle key) ⊥ self.new) }
        ensures goes_on { IsAlone self.old → result ≢ Err Full }
        ensures work { WorksUpTo work_of_a_change self.old self.new }
    {
        found(self.perform(Call::Remove {
            handle: handle.number(),
            key,
        }))
    }

    /// Removes a key that has this value. Whether it had it. Refused as `remove` is.
    pub fn remove_if(&mut self, handle: Handle, key: u64, value: u64) -> Result<bool, MapError>
        ensures done { IfOk result (λ done. HasLife self.old × Changes self.old handle (λ m. done ≡ has_value m key value) (removed_if_it_has key value) self.new) }
        ensures refused { IfErr result (Refuses self.old (RemoveIf handle key value) ⊥ self.new) }
        ensures goes_on { IsAlone self.old → result ≢ Err Full }
        ensures work { WorksUpTo work_of_a_change self.old self.new }
    {
        truth(self.perform(Call::RemoveIf {
            handle: handle.number(),
            key,
            value,
        }))
    }

    /// Removes all keys. Refused as `remove` is.
    pub fn clear(&mut self, handle: Handle) -> Result<(), MapError>
        ensures done { IfOk result (λ _. HasLife self.old × Changes self.old handle IsAny (λ m. map.empty) self.new) }
        ensures refused { IfErr result (Refuses self.old (Clear handle) ⊥ self.new) }
        ensures goes_on { IsAlone self.old → result ≢ Err Full }
        ensures work { WorksUpTo work_of_a_copy self.old self.new }
    {
        done(self.perform(Call::Clear {
            handle: handle.number(),
        }))
    }
}
