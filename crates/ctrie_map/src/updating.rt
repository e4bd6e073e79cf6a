//! Changes of a key by what the caller's closure makes of its value.

ghost use Rattle.std.specs.Prelude.{◌≡◌, IfOk, IfErr, Ok, None, Some, ◌≢◌, Err};
ghost use Rattle.ctrie_map.specs.declared.errors.MapError.TheVariants.{Full};
ghost use Rattle.std.specs.FinMap as map;
ghost use Rattle.history.specs.Worlds.{KeyMap};
ghost use Rattle.ctrie_map.specs.Changes.{Changes, HasKey, HasLife, IsAlone, IsCrowdedAt, Refuses, set_if_absent};
ghost use Rattle.ctrie_map.specs.Costs.{WorksUpTo, work_of_a_change};
ghost use Rattle.ctrie_map.specs.Drafts.{HasMap};
ghost use Rattle.ctrie_map.specs.Maps.{handles_of};
ghost use Rattle.ctrie_map.specs.Reading.{reading};
ghost use Rattle.ctrie_map.specs.Updating.{HasRoomFor, IsDenied, IsThereOrMade, IsUpdate, RefusesMaking, RefusesUpdate, giving, with_value};

use crate::errors::MapError;
use crate::handle::Handle;
use crate::map::Map;

impl Map {
    /// Gives the key the value that `f` makes of its value, each of which may be none. The value that it has then. Where that
    /// is the one that it had, nothing changes, and no step is taken. Refused as `NoHandle` or `ReadOnly` before `f` is called;
    /// and after it as the `put` or the `remove` is by which the key would get what it made.
    pub fn update<F: FnOnce(Option<u64>) -> Option<u64>>(
        &mut self,
        handle: Handle,
        key: u64,
        f: F,
    ) -> Result<Option<u64>, MapError>
        requires callable { (m : KeyMap) → HasMap (handles_of self.old) handle m → F.pre f (map.get m key) }
        ensures done { IfOk result (λ value. Changes self.old handle (IsUpdate (F.post f) self.old key value) (with_value key value) self.new) }
        ensures same { IfOk result (λ value. reading self.old handle (λ m. map.get m key) ≡ Ok value → self.new ≡ self.old) }
        ensures refused { IfErr result (RefusesUpdate (F.post f) self.old handle key self.new) }
        ensures goes_on { IsAlone self.old → HasKey self.old handle key → result ≢ Err Full }
        ensures work { WorksUpTo work_of_a_change self.old self.new }
    {
        let before = self.value_to_change(handle, key)?;
        let after = f(before);
        if after != before {
            self.set_or_remove(handle, key, after)?;
        }
        Ok(after)
    }

    /// The key's value; where it has none, it gets the one that `f` makes. `f` isn't called where the key has a value. Refused
    /// as `NoHandle` or `ReadOnly` before `f` is called, and after it as the `put` is of what it made.
    pub fn get_or_put_with<F: FnOnce() -> u64>(
        &mut self,
        handle: Handle,
        key: u64,
        f: F,
    ) -> Result<u64, MapError>
        requires callable { (m : KeyMap) → HasMap (handles_of self.old) handle m → map.get m key ≡ None → F.pre f }
        ensures done { IfOk result (λ value. Changes self.old handle (IsThereOrMade (F.post f) self.old key value) (set_if_absent key value) self.new) }
        ensures there { IfOk result (λ value. reading self.old handle (λ m. map.get m key) ≡ Ok (Some value) → self.new ≡ self.old) }
        ensures refused { IfErr result (RefusesMaking (F.post f) self.old handle key self.new) }
        ensures work { WorksUpTo work_of_a_change self.old self.new }
    {
        if let Some(value) = self.value_to_change(handle, key)? {
            return Ok(value);
        }
        let value = f();
        let _ = self.put(handle, key, value)?;
        Ok(value)
    }

    /// The key's value, where the handle may change it.
    fn value_to_change(&self, handle: Handle, key: u64) -> Result<Option<u64>, MapError>
        ensures there { IfOk result (λ value. (m : KeyMap) × HasMap (handles_of self.now) handle m × (value ≡ map.get m key)) }
        ensures refused { IfErr result (IsDenied self.now handle key) }
    {
        if !self.is_writable(handle)? {
            return Err(MapError::ReadOnly);
        }
        self.get(handle, key)
    }

    /// Gives the key this value, or takes its value away.
    fn set_or_remove(
        &mut self,
        handle: Handle,
        key: u64,
        value: Option<u64>,
    ) -> Result<(), MapError>
        ensures done { IfOk result (λ _. HasLife self.old × Changes self.old handle (HasRoomFor self.old key value) (with_value key value) self.new) }
        ensures refused { IfErr result (Refuses self.old (giving handle key value) (IsCrowdedAt self.old handle key) self.new) }
        ensures work { WorksUpTo work_of_a_change self.old self.new }
    {
        match value {
            Some(value) => {
                let _ = self.put(handle, key, value)?;
            }
            None => {
                let _ = self.remove(handle, key)?;
            }
        }
        Ok(())
    }
}
