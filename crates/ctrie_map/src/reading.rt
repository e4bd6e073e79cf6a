//! Calls that change nothing.

ghost use Rattle.std.specs.Prelude.{◌≡◌, ◌≤◌, ◌-◌, length, nat_eq, nat_lt, IfOk, IfErr, Ok, None, Some};
ghost use Rattle.std.specs.FinMap as map;
ghost use Rattle.machine_model.specs.Machine.{longest_life};
ghost use Rattle.machine_model.specs.States.{handle_limit};
ghost use Rattle.ctrie_map.specs.Beneath.proof_memory.specs.Sweeping.{UsesReached};
ghost use Rattle.ctrie_map.specs.Beneath.slot_arena.specs.Heaps.{in_use};
ghost use Rattle.ctrie_map.specs.Cores.{is_worn_out, life_left};
ghost use Rattle.ctrie_map.specs.Maps.{free_of, handles_of, slots_asked};
ghost use Rattle.ctrie_map.specs.Reading.{RefusesReading, core_reading, reading};
ghost use Rattle.ctrie_map.specs.Names.{name_at};
ghost use Rattle.ctrie_map.specs.declared.errors.MapError.TheVariants.{NoHandle};

use crate::errors::MapError;
use crate::handle::Handle;
use crate::map::Map;
use crate::names::Name;
use crate::performing::{RESERVE, free_slots, life_left};
use machine_core::Core;

impl Map {
    /// The key's value, if it has one. It takes no memory. Refused as `NoHandle` alone.
    pub fn get(&self, handle: Handle, key: u64) -> Result<Option<u64>, MapError>
        ensures { result ≡ reading self.now handle (λ m. map.get m key) }
    {
        let name = self.name_of(handle)?;
        value_in(&self.core, name.core, key)
    }

    /// Whether the key has a value. It takes no memory. Refused as `NoHandle` alone.
    #[tactic(auto, using(crate::proofs::Lookups::mapped, crate::proofs::Lookups::refused))]
    pub fn contains(&self, handle: Handle, key: u64) -> Result<bool, MapError>
        ensures { result ≡ reading self.now handle (λ m. map.contains_key m key) }
    {
        Ok(self.get(handle, key)?.is_some())
    }

    /// All keys with their values, in ascending order of keys. Else than for `NoHandle`, only memory is refused.
    pub fn entries(&self, handle: Handle) -> Result<Vec<(u64, u64)>, MapError>
        ensures entries { IfOk result (λ entries. reading self.now handle (λ m. map.entries m) ≡ Ok entries.items) }
        ensures refused { IfErr result (RefusesReading (reading self.now handle (λ m. map.entries m))) }
    {
        let name = self.name_of(handle)?;
        entries_in(&self.core, name.core)
    }

    /// The name of an open handle.
    pub(crate) fn name_of(&self, handle: Handle) -> Result<Name, MapError>
        ensures named { IfOk result (λ name. name_at self.now.names handle ≡ Some name) }
        ensures open { IfErr result (λ error. (name_at self.now.names handle ≡ None) × (error ≡ NoHandle)) }
    {
        match self.names.find(handle.number()) {
            Some(name) => Ok(name),
            None => Err(MapError::NoHandle),
        }
    }

    /// How many handles are open, at most 256.
    pub fn handles(&self) -> u32
        ensures exact { result ≡ map.len (handles_of self.now) }
        ensures few { result ≤ handle_limit }
    {
        u32::from(self.names.many())
    }

    /// How many slots were asked for; those in reserve aren't counted.
    pub fn slots(&self) -> u32
        ensures { result ≡ slots_asked self.now }
    {
        self.core.limits().slots.saturating_sub(RESERVE)
    }

    /// How many steps its calls have taken, of the 2^45 - 2^21 of its life.
    pub fn steps_taken(&self) -> u64
        ensures { result ≡ self.now.core.steps }
    {
        self.core.steps_taken()
    }

    /// How many steps its calls may take yet before a change is refused as `WornOut`: that is, where it is 0. A `restore`, a
    /// `put_all` and a `retain` want their own steps besides.
    pub fn life_left(&self) -> u64
        ensures left { result ≡ life_left self.now.core }
        ensures worn_out { is_worn_out self.now.core ≡ nat_eq result 0 }
        ensures life { (self.now.core.limits.steps ≡ longest_life) × (self.now.core.limits.actors ≡ 1) }
    {
        life_left(&self.core)
    }

    /// How many of the slots that were asked for no open handle reaches. A call that adds a key or a copy is `Full` exactly where
    /// this is 0, as it is where the reserve is in use too; no call but `put_all` and `retain` is where it isn't.
    pub fn free(&self) -> u32
        ensures free { result ≡ free_of self.now }
        ensures reached { UsesReached self.now.core }
        ensures all { result ≡ slots_asked self.now - length (in_use self.now.core.heap) }
    {
        let _ = self.core.limits();
        proof_sizes::clean_is_reached();
        free_slots(&self.core)
    }

    /// How many slots the open handles reach: more than were asked for where the reserve is in use.
    pub fn used(&self) -> u32
        ensures { result ≡ self.now.core.limits.slots - length self.now.core.heap.free }
    {
        let slots = self.core.limits().slots;
        slots.saturating_sub(self.core.free_slots())
    }

    /// Whether the next call finds free slots, whatever it is but `put_all` and `retain`: it isn't `Full` then.
    pub fn has_room(&self) -> bool
        ensures { result ≡ nat_lt 0 (free_of self.now) }
    {
        self.free() > 0
    }
}

/// The value of a key in a map of the core.
pub(crate) fn value_in(core: &Core, handle: u16, key: u64) -> Result<Option<u64>, MapError>
    ensures { result ≡ core_reading core.now.state handle (λ m. map.get m key) }
{
    let _ = core.limits();
    match core.value_at(handle, key) {
        Ok(value) => Ok(value),
        Err(_) => Err(MapError::NoHandle),
    }
}

/// The pairs of a map of the core.
pub(crate) fn entries_in(core: &Core, handle: u16) -> Result<Vec<(u64, u64)>, MapError>
    ensures entries { IfOk result (λ entries. core_reading core.now.state handle (λ m. map.entries m) ≡ Ok entries.items) }
    ensures refused { IfErr result (RefusesReading (core_reading core.now.state handle (λ m. map.entries m))) }
{
    let _ = core.limits();
    Ok(core.content(handle)?.into_vec())
}
