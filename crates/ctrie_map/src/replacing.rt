//! Calls that change the value of a key which has one.

ghost use Rattle.std.specs.Prelude.{◌≡◌, IfOk, IfErr, ◌≢◌, Err};
ghost use Rattle.ctrie_map.specs.declared.errors.MapError.TheVariants.{Full};
ghost use Rattle.std.specs.FinMap as map;
ghost use Rattle.history.specs.Effects.{has_value};
ghost use Rattle.history.specs.declared.calls.Call.TheVariants.{Replace, ReplaceIf};
ghost use Rattle.ctrie_map.specs.Changes.{Changes, HasLife, IsAlone, Refuses, set_if_it_has, set_if_there};
ghost use Rattle.ctrie_map.specs.Costs.{WorksUpTo, work_of_a_change};

use crate::errors::MapError;
use crate::handle::Handle;
use crate::map::Map;
use crate::telling::{found, truth};
use history::Call;

impl Map {
    /// Sets the value of a key that has one. The value before, if it had one. Refused as `NoHandle`, `ReadOnly`, `WornOut` or, but
    /// never while one handle alone is open, `Full`.
    pub fn replace(&mut self, handle: Handle, key: u64, value: u64) -> Result<Option<u64>, MapError>
        ensures done { IfOk result (λ before. HasLife self.old × Changes self.old handle (λ m. before ≡ map.get m key) (set_if_there key value) self.new) }
        ensures refused { IfErr result (Refuses self.old (Replace handle key value) ⊥ self.new) }
        ensures goes_on { IsAlone self.old → result ≢ Err Full }
        ensures work { WorksUpTo work_of_a_change self.old self.new }
    {
        found(self.perform(Call::Replace {
            handle: handle.number(),
            key,
            value,
        }))
    }

    /// Sets the value of a key that has the value `old`. Whether it had it. Refused as `replace` is.
    pub fn replace_if(
        &mut self,
        handle: Handle,
        key: u64,
        old: u64,
        new: u64,
    ) -> Result<bool, MapError>
        ensures done { IfOk result (λ done. HasLife self.old × Changes self.old handle (λ m. done ≡ has_value m key old) (set_if_it_has key old new) self.new) }
        ensures refused { IfErr result (Refuses self.old (ReplaceIf handle key old new) ⊥ self.new) }
        ensures goes_on { IsAlone self.old → result ≢ Err Full }
        ensures work { WorksUpTo work_of_a_change self.old self.new }
    {
        truth(self.perform(Call::ReplaceIf {
            handle: handle.number(),
            key,
            old,
            new,
        }))
    }
}
