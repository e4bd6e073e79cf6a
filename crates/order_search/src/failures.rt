//! States from which a search has found that no order goes on, so that it needn't look again.

ghost use Rattle.std.specs.Prelude.{◌≡◌, ◌<◌, ℕ, List, IfOk, IfSome, OnOk, IsTrue, IsOkUnless};
ghost use Rattle.ctrie_base.specs.Hashes.{hash_of};
ghost use Rattle.history.specs.declared.events.Event.{Event};
ghost use Rattle.history.specs.declared.tables.Table.{Table};
ghost use Rattle.history.specs.Worlds.{HandleMap};
ghost use Rattle.history.specs.Tables.{Records};
ghost use Rattle.history.specs.Beginnings.{LeadsTo};
ghost use Rattle.order_search.specs.Searching.{NoneGoesOn};
ghost use Rattle.order_search.specs.Marks.{AreMarked, HasMark};
ghost use Rattle.order_search.specs.States.{AreFailures, AreHandles, AreKeys, AreNamed, AreSameMaps, AreValues, IsAhead, IsListed, IsSameAsOne, IsSameMap, IsSameState};

use crate::cells::{Cell, cell_of, value_in};
use ctrie_base::{HashKind, Refusal};
use history::{Access, Table, World};
use std::alloc::Global;
use std::collections::BTreeMap;

/// What a handle names that is there.
#[derive(Drop)]
struct Named {
    handle: u16,
    access: Access,
    /// What its map has for each key.
    values: Vec<Option<u64>>,
}

/// Which operations are placed, and the world to which they lead.
#[derive(Drop)]
struct State {
    /// All operations below are marked.
    low: usize,
    /// The others that are.
    ahead: Vec<u64>,
    /// What the handles that are there name.
    maps: Vec<Named>,
}

/// The states from which no order goes on, of those that were looked at.
pub(crate) struct Failures {
    /// The handles that are there at any time.
    handles: Vec<u16>,
    /// The keys of all calls.
    keys: Vec<u64>,
    states: Vec<State>,
    /// By a number that is made of the marks, the places of states among these.
    places: BTreeMap<u64, Vec<usize>>,
    alloc: Global,
}

impl Drop for Failures {
    fn drop(self) {
        let Failures {
            handles: _,
            keys: _,
            states: _,
            places: _,
            alloc: _,
        } = self;
    }
}

impl Failures {
    /// None yet, of the history of this table.
    pub(crate) fn new(alloc: Global, table: &Table) -> Result<Failures, Refusal>
        ensures none { IfOk result (λ failures. (hash : ℕ → ℕ) (history : List Event) → Records history table.now → AreFailures hash history failures) }
        ensures only_memory { IsOkUnless result Refusal.Memory }
    {
        Ok(Failures {
            handles: handles_of(alloc, table)?,
            keys: keys_of(alloc, table)?,
            states: Vec::new(alloc),
            places: BTreeMap::new(alloc),
            alloc,
        })
    }

    /// Whether no order goes on from where these operations are marked, in this world. All below `low` are.
    pub(crate) fn has(
        &self,
        low: usize,
        taken: &[bool],
        world: &mut World,
        hash: HashKind,
    ) -> Result<bool, Refusal>
        requires low { (id : ℕ) → id < low → HasMark taken.now id }
        ensures none { IfOk result (λ has. IsTrue has → (history : List Event) (ids : List ℕ) → AreFailures (hash_of hash) history self.now
            → LeadsTo (hash_of hash) history ids world.old → AreMarked history ids taken.now → NoneGoesOn (hash_of hash) history ids) }
        ensures same { OnOk result (world.new ≡ world.old) }
        ensures only_memory { IsOkUnless result Refusal.Memory }
    {
        let ahead = ahead_of(self.alloc, taken, low)?;
        let Some(places) = self.places.get(&number_of(low, ahead.as_slice())) else {
            return Ok(false);
        };
        let maps = self.maps_in(world, hash)?;
        let state = State { low, ahead, maps };
        Ok(is_among(self.states.as_slice(), places.as_slice(), &state))
    }

    /// Notes that no order goes on from there.
    pub(crate) fn note(
        &mut self,
        low: usize,
        taken: &[bool],
        world: &mut World,
        hash: HashKind,
    ) -> Result<(), Refusal>
        requires low { (id : ℕ) → id < low → HasMark taken.now id }
        ensures noted { OnOk result ((history : List Event) (table : Table) (ids : List ℕ) → Records history table → AreFailures (hash_of hash) history self.old
            → LeadsTo (hash_of hash) history ids world.old → AreMarked history ids taken.now → NoneGoesOn (hash_of hash) history ids
            → AreFailures (hash_of hash) history self.new) }
        ensures same { OnOk result (world.new ≡ world.old) }
        ensures only_memory { IsOkUnless result Refusal.Memory }
    {
        let ahead = ahead_of(self.alloc, taken, low)?;
        let number = number_of(low, ahead.as_slice());
        let maps = self.maps_in(world, hash)?;
        note_place(self.alloc, &mut self.places, number, self.states.len())?;
        self.states.push(State { low, ahead, maps })?;
        Ok(())
    }

    /// What the handles name that are there.
    fn maps_in(&self, world: &mut World, hash: HashKind) -> Result<Vec<Named>, Refusal>
        ensures named { IfOk result (λ maps. AreNamed self.now.handles.items self.now.keys.items world.old maps.items) }
        ensures same { OnOk result (world.new ≡ world.old) }
        ensures only_memory { IsOkUnless result Refusal.Memory }
    {
        maps_of(
            self.alloc,
            self.handles.as_slice(),
            self.keys.as_slice(),
            world,
            hash,
        )
    }
}

/// The handles that are there at any time: the first one, and those that operations open.
fn handles_of(alloc: Global, table: &Table) -> Result<Vec<u16>, Refusal>
    ensures first { IfOk result (λ handles. IsListed handles.items 0) }
    ensures opened { IfOk result (λ handles. AreHandles table.now.rows.items handles.items) }
    ensures only_memory { IsOkUnless result Refusal.Memory }
{
    let mut handles = Vec::new(alloc);
    handles.push(0)?;
    for id in 0..table.rows.len() {
        if let Some(handle) = table.rows[id].opens {
            if !is_handle(handles.as_slice(), handle) {
                handles.push(handle)?;
            }
        }
    }
    Ok(handles)
}

/// Whether the handle is one of these.
fn is_handle(handles: &[u16], handle: u16) -> bool
    ensures { IsTrue result → IsListed handles.now handle }
{
    for other in handles {
        if *other == handle {
            return true;
        }
    }
    false
}

/// The keys of the operations' calls.
fn keys_of(alloc: Global, table: &Table) -> Result<Vec<u64>, Refusal>
    ensures keys { IfOk result (λ keys. AreKeys table.now.rows.items keys.items) }
    ensures only_memory { IsOkUnless result Refusal.Memory }
{
    let mut keys = Vec::new(alloc);
    for id in 0..table.rows.len() {
        if let Some(cell) = cell_of(&table.rows[id].call) {
            if !is_key(keys.as_slice(), cell.key) {
                keys.push(cell.key)?;
            }
        }
    }
    Ok(keys)
}

/// Whether the key is one of these.
fn is_key(keys: &[u64], key: u64) -> bool
    ensures { IsTrue result → IsListed keys.now key }
{
    for other in keys {
        if *other == key {
            return true;
        }
    }
    false
}

/// The marked operations from `low` on.
fn ahead_of(alloc: Global, taken: &[bool], low: usize) -> Result<Vec<u64>, Refusal>
    ensures ahead { IfOk result (λ ahead. IsAhead low taken.now ahead.items) }
    ensures only_memory { IsOkUnless result Refusal.Memory }
{
    let mut ahead = Vec::new(alloc);
    for id in low..taken.len() {
        if taken[id] {
            ahead.push(id as u64)?;
        }
    }
    Ok(ahead)
}

/// What the handles name that are there, of these.
fn maps_of(
    alloc: Global,
    handles: &[u16],
    keys: &[u64],
    world: &mut World,
    hash: HashKind,
) -> Result<Vec<Named>, Refusal>
    ensures named { IfOk result (λ maps. AreNamed handles.now keys.now world.old maps.items) }
    ensures same { OnOk result (world.new ≡ world.old) }
    ensures only_memory { IsOkUnless result Refusal.Memory }
{
    let mut maps = Vec::new(alloc);
    for handle in handles {
        if let Some(access) = world.access(*handle) {
            maps.push(Named {
                handle: *handle,
                access,
                values: values_of(alloc, keys, world, *handle, hash)?,
            })?;
        }
    }
    Ok(maps)
}

/// What the handle's map has for each key.
fn values_of(
    alloc: Global,
    keys: &[u64],
    world: &mut World,
    handle: u16,
    hash: HashKind,
) -> Result<Vec<Option<u64>>, Refusal>
    ensures values { IfOk result (λ values. AreValues keys.now world.old handle values.items) }
    ensures same { OnOk result (world.new ≡ world.old) }
    ensures only_memory { IsOkUnless result Refusal.Memory }
{
    let mut values = Vec::new(alloc);
    for key in keys {
        let cell = Cell { handle, key: *key };
        values.push(value_in(world, cell, hash)?)?;
    }
    Ok(values)
}

/// A number that is the same for the same marks.
fn number_of(low: usize, ahead: &[u64]) -> u64 {
    let mut number = low as u64;
    for id in ahead {
        number = number.wrapping_mul(0x9e37_79b9_7f4a_7c15).wrapping_add(*id);
    }
    number
}

/// Notes the place of one more state, by its number.
fn note_place(
    alloc: Global,
    places: &mut BTreeMap<u64, Vec<usize>>,
    number: u64,
    place: usize,
) -> Result<(), Refusal>
    ensures only_memory { IsOkUnless result Refusal.Memory }
{
    if let Some(known) = places.get_mut(&number) {
        known.push(place)?;
        return Ok(());
    }
    let mut first = Vec::new(alloc);
    first.push(place)?;
    places.insert(number, first)?;
    Ok(())
}

/// Whether one of the states at these places is the same.
fn is_among(states: &[State], places: &[usize], state: &State) -> bool
    ensures { IsTrue result → IsSameAsOne states.now state.now }
{
    for place in places {
        if *place < states.len() {
            if is_same(&states[*place], state) {
                return true;
            }
        }
    }
    false
}

/// Whether the two states are the same.
fn is_same(a: &State, b: &State) -> bool
    ensures { IsTrue result → IsSameState a.now b.now }
{
    if !are_same_ids(a.ahead.as_slice(), b.ahead.as_slice()) {
        return false;
    }
    if !are_same_maps(a.maps.as_slice(), b.maps.as_slice()) {
        return false;
    }
    a.low == b.low
}

/// Whether the handles are the same, and name the same.
fn are_same_maps(a: &[Named], b: &[Named]) -> bool
    ensures { IsTrue result → AreSameMaps a.now b.now }
{
    if a.len() != b.len() {
        return false;
    }
    for place in 0..a.len() {
        if !is_same_map(&a[place], &b[place]) {
            return false;
        }
    }
    true
}

/// Whether the handle is the same, and names the same.
fn is_same_map(a: &Named, b: &Named) -> bool
    ensures { IsTrue result → IsSameMap a.now b.now }
{
    if a.handle != b.handle || a.access != b.access {
        return false;
    }
    are_same_values(a.values.as_slice(), b.values.as_slice())
}

/// Whether the ids are the same.
fn are_same_ids(a: &[u64], b: &[u64]) -> bool
    ensures { IsTrue result → a.now ≡ b.now }
{
    a == b
}

/// Whether the values are the same.
fn are_same_values(a: &[Option<u64>], b: &[Option<u64>]) -> bool
    ensures { IsTrue result → a.now ≡ b.now }
{
    a == b
}
