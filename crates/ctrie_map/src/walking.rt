//! Calls that walk over a map without a list of it.

ghost use Rattle.std.specs.Prelude.{◌≡◌, ◌≤◌, nat_eq, length, Ok, IfOk, IfErr};
ghost use Rattle.std.specs.FinMap as map;
ghost use Rattle.ctrie_map.specs.Beneath.proof_core.specs.Reading.{next_of};
ghost use Rattle.ctrie_map.specs.Beneath.proof_core.specs.Scanning.{scanned};
ghost use Rattle.ctrie_map.specs.Beneath.slot_arena.specs.Refs.{most_slots};
ghost use Rattle.ctrie_map.specs.Reading.{IsOneOf, Reads, ReadsOf, RefusesReading, core_reading, reading};

use crate::errors::MapError;
use crate::handle::Handle;
use crate::map::Map;
use machine_core::Core;

impl Map {
    /// How many keys have a value, at most as many as a map may have slots (2^20). It walks over them all, since no count is
    /// kept, and takes no memory. Refused as `NoHandle` alone.
    pub fn count(&self, handle: Handle) -> Result<u64, MapError>
        ensures exact { result ≡ reading self.now handle (λ m. map.len m) }
        ensures few { IfOk result (λ count. count ≤ most_slots) }
    {
        let name = self.name_of(handle)?;
        count_in(&self.core, name.core)
    }

    /// Whether no key has a value. It ends at the first key that has one, and takes no memory. Refused as `NoHandle` alone.
    pub fn is_empty(&self, handle: Handle) -> Result<bool, MapError>
        ensures { result ≡ reading self.now handle (λ m. nat_eq (map.len m) 0) }
    {
        Ok(self.first(handle)?.is_none())
    }

    /// A key with its value, whichever is found first; none exactly where no key has a value. It takes no memory. Refused as
    /// `NoHandle` alone.
    pub fn first(&self, handle: Handle) -> Result<Option<(u64, u64)>, MapError>
        ensures { Reads self.now handle IsOneOf result }
    {
        let name = self.name_of(handle)?;
        first_in(&self.core, name.core)
    }

    /// The next keys after this one with their values, `room` of them at most, in ascending order of keys; from the first
    /// key on where it is none. Each call walks over all keys, and takes memory for what it answers. The parts of a
    /// frozen copy are a listing of one moment; those of a map that changes meanwhile are each of their own. Else than for
    /// `NoHandle`, only memory is refused.
    pub fn entries_from(
        &self,
        handle: Handle,
        after: Option<u64>,
        room: usize,
    ) -> Result<Vec<(u64, u64)>, MapError>
        ensures entries { IfOk result (λ entries. reading self.now handle (λ m. next_of after room (map.entries m)) ≡ Ok entries.items) }
        ensures few { IfOk result (λ entries. length entries.items ≤ room) }
        ensures refused { IfErr result (RefusesReading (reading self.now handle (λ m. next_of after room (map.entries m)))) }
    {
        let name = self.name_of(handle)?;
        entries_after(&self.core, name.core, after, room)
    }

    /// The next keys after this one with their values, `room` of them at most, in the map's own order; from its first key on
    /// where it is none. The order is by the keys' hashes, five bits after five from the lowest on, and by key among keys of one
    /// hash, so it is the same for each map of this hash. Each call goes one way down and over what it answers, and takes
    /// memory for that: all parts of a map cost about one walk over it. The parts of a frozen copy are a listing of one
    /// moment, in which each key stands once; those of a map that changes meanwhile are each of their own. The key needs no
    /// value. Else than for `NoHandle`, only memory is refused.
    pub fn scan(
        &self,
        handle: Handle,
        after: Option<u64>,
        room: usize,
    ) -> Result<Vec<(u64, u64)>, MapError>
        ensures entries { IfOk result (λ entries. reading self.now handle (λ m. scanned self.now.core.limits.hash after room (map.entries m)) ≡ Ok entries.items) }
        ensures few { IfOk result (λ entries. length entries.items ≤ room) }
        ensures refused { IfErr result (RefusesReading (reading self.now handle (λ m. scanned self.now.core.limits.hash after room (map.entries m)))) }
    {
        let name = self.name_of(handle)?;
        scanned_behind(&self.core, name.core, after, room)
    }
}

/// How many keys of a handle's map have a value.
fn count_in(core: &Core, handle: u16) -> Result<u64, MapError>
    ensures exact { result ≡ core_reading core.now.state handle (λ m. map.len m) }
    ensures few { IfOk result (λ count. count ≤ most_slots) }
{
    let _ = core.limits();
    match core.count(handle) {
        Ok(count) => Ok(count),
        Err(_) => Err(MapError::NoHandle),
    }
}

/// A key of a handle's map with its value.
fn first_in(core: &Core, handle: u16) -> Result<Option<(u64, u64)>, MapError>
    ensures { ReadsOf (core_reading core.now.state handle (λ shown. shown)) IsOneOf result }
{
    let _ = core.limits();
    match core.first(handle) {
        Ok(first) => Ok(first),
        Err(_) => Err(MapError::NoHandle),
    }
}

/// The next pairs of a handle's map.
fn entries_after(
    core: &Core,
    handle: u16,
    after: Option<u64>,
    room: usize,
) -> Result<Vec<(u64, u64)>, MapError>
    ensures entries { IfOk result (λ entries. core_reading core.now.state handle (λ m. next_of after room (map.entries m)) ≡ Ok entries.items) }
    ensures few { IfOk result (λ entries. length entries.items ≤ room) }
    ensures refused { IfErr result (RefusesReading (core_reading core.now.state handle (λ m. next_of after room (map.entries m)))) }
{
    let _ = core.limits();
    Ok(core.part(handle, after, room)?.into_vec())
}

/// The next pairs of a handle's map in its own order.
fn scanned_behind(
    core: &Core,
    handle: u16,
    after: Option<u64>,
    room: usize,
) -> Result<Vec<(u64, u64)>, MapError>
    ensures entries { IfOk result (λ entries. core_reading core.now.state handle (λ m. scanned core.now.state.limits.hash after room (map.entries m)) ≡ Ok entries.items) }
    ensures few { IfOk result (λ entries. length entries.items ≤ room) }
    ensures refused { IfErr result (RefusesReading (core_reading core.now.state handle (λ m. scanned core.now.state.limits.hash after room (map.entries m)))) }
{
    let _ = core.limits();
    Ok(core.scan(handle, after, room)?.into_vec())
}
