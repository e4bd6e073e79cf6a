//! Calls that give a key a value which may have none.

ghost use Rattle.std.specs.Prelude.{◌≡◌, ◌≢◌, IfOk, IfErr, Err};
ghost use Rattle.ctrie_map.specs.declared.errors.MapError.TheVariants.{Full};
ghost use Rattle.std.specs.FinMap as map;
ghost use Rattle.history.specs.declared.calls.Call.TheVariants.{Put, PutIfAbsent};
ghost use Rattle.ctrie_map.specs.Changes.{Changes, HasKey, HasLife, HasRoom, IsAlone, IsCrowdedAt, IsFullFor, Refuses, set_if_absent};
ghost use Rattle.ctrie_map.specs.Costs.{WorksUpTo, work_of_a_change};

use crate::errors::MapError;
use crate::handle::Handle;
use crate::map::Map;
use crate::telling::found;
use history::Call;

impl Map {
    /// Sets the key's value. The value before, if it had one. Refused as `NoHandle`, `ReadOnly`, `WornOut`, `Crowded` or `Full`.
    /// A key that has no value gets none exactly where `free` is 0; one that has a value is never `Full` while one handle alone
    /// is open.
    pub fn put(&mut self, handle: Handle, key: u64, value: u64) -> Result<Option<u64>, MapError>
        ensures done { IfOk result (λ before. HasLife self.old
            × Changes self.old handle (λ m. (before ≡ map.get m key) × HasRoom self.old key m) (λ m. map.insert m key value) self.new) }
        ensures refused { IfErr result (Refuses self.old (Put handle key value) (IsCrowdedAt self.old handle key) self.new) }
        ensures full { IsFullFor self.old (Put handle key value) → result ≡ Err Full }
        ensures goes_on { IsAlone self.old → HasKey self.old handle key → result ≢ Err Full }
        ensures work { WorksUpTo work_of_a_change self.old self.new }
    {
        found(self.perform(Call::Put {
            handle: handle.number(),
            key,
            value,
        }))
    }

    /// Sets the value of a key that has none. The value that it has already, if it has one. Refused as `put` is.
    pub fn put_if_absent(
        &mut self,
        handle: Handle,
        key: u64,
        value: u64,
    ) -> Result<Option<u64>, MapError>
        ensures done { IfOk result (λ before. HasLife self.old
            × Changes self.old handle (λ m. (before ≡ map.get m key) × HasRoom self.old key m) (set_if_absent key value) self.new) }
        ensures refused { IfErr result (Refuses self.old (PutIfAbsent handle key value) (IsCrowdedAt self.old handle key) self.new) }
        ensures full { IsFullFor self.old (PutIfAbsent handle key value) → result ≡ Err Full }
        ensures goes_on { IsAlone self.old → HasKey self.old handle key → result ≢ Err Full }
        ensures work { WorksUpTo work_of_a_change self.old self.new }
    {
        found(self.perform(Call::PutIfAbsent {
            handle: handle.number(),
            key,
            value,
        }))
    }
}
