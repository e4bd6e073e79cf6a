//! Several keys of a map that are changed together, all or none: in a copy, which then takes the map's place or is let go.

ghost use Rattle.std.specs.Prelude.{◌≡◌, ◌<◌, ◌≤◌, ◌+◌, ◌*◌, IfOk, IfErr, Some, false, length};
ghost use Rattle.std.specs.FinMap as map;
ghost use Rattle.history.specs.Worlds.{KeyMap};
ghost use Rattle.machine_model.specs.States.{handle_limit};
ghost use Rattle.ctrie_map.specs.Beneath.proof_obstruction_free.specs.Calls.{slots_of};
ghost use Rattle.ctrie_map.specs.Beneath.map_worlds.specs.Worlds.{world_of};
ghost use Rattle.ctrie_map.specs.Beneath.proof_obstruction_free.specs.Slots.{most_makes_alone};
ghost use Rattle.ctrie_map.specs.Batches.{CanCopy, ChangesAll, ChangesEach, ChangesKey, RefusesBatch, RefusesKey, RefusesName, Stops, batch_call, work_of_changes};
ghost use Rattle.ctrie_map.specs.Cores.{IsCalm, TakesUpTo, is_worn_out};
ghost use Rattle.ctrie_map.specs.Costs.{work_of_a_change, work_of_a_close, work_of_call};
ghost use Rattle.ctrie_map.specs.Drafts.{HasMap, IsWritable, is_worn_out_by};
ghost use Rattle.ctrie_map.specs.Maps.{IsWhole, handles_of, map_with};
ghost use Rattle.ctrie_map.specs.declared.batches.Batch.TheVariants.{Removes};
ghost use Rattle.ctrie_map.specs.declared.errors.MapError.TheVariants.{Full};
ghost use Rattle.ctrie_map.specs.Performing.{IsChange};

use crate::drafts::{adopt, draft, let_go};
use crate::errors::MapError;
use crate::names::{NAMES, Name, Names};
use crate::performing::{COPY_STEPS, is_worn_out_by, perform};
use crate::telling::found;
use history::{Access, Call};
use machine_core::Core;

/// How many steps a change of a key takes at most, with the sweep after it, but for what becomes free by it.
const CHANGE_STEPS: u64 = 6_818;

/// What is done with each key.
#[derive(Clone, Copy)]
pub(crate) enum Batch {
    /// It gets a value.
    Puts,
    /// Its value is taken away.
    Removes,
}

/// The name of a writable map, where a handle is left for its copy.
pub(crate) fn name_to_copy(names: &Names, handle: u16) -> Result<Name, MapError>
    ensures named { IfOk result (CanCopy names.now handle) }
    ensures refused { IfErr result (RefusesName names.now handle) }
{
    let Some(name) = names.find(handle) else {
        return Err(MapError::NoHandle);
    };
    if let Access::ReadOnly = name.access {
        return Err(MapError::ReadOnly);
    }
    if names.many() >= NAMES {
        return Err(MapError::HandlesFull);
    }
    Ok(name)
}

/// Changes the keys of these pairs, all or none.
pub(crate) fn change_all(
    core: &mut Core,
    names: &mut Names,
    handle: u16,
    name: Name,
    batch: Batch,
    pairs: &[(u64, u64)],
) -> Result<(), MapError>
    requires whole { IsWhole (map_with core.old.state names.old) }
    requires can_copy { CanCopy names.old handle name }
    ensures whole { IsWhole (map_with core.new.state names.new) }
    ensures done { IfOk result (λ _. ChangesAll batch (map_with core.old.state names.old) handle pairs.now (map_with core.new.state names.new)) }
    ensures refused { IfErr result (RefusesBatch batch (map_with core.old.state names.old) handle pairs.now (map_with core.new.state names.new)) }
    ensures work { TakesUpTo (work_of_changes (length pairs.now) + work_of_a_close) core.old.state core.new.state }
{
    if are_too_many(core, pairs.len()) {
        return Err(MapError::WornOut);
    }
    change_copy(core, names, handle, name, batch, pairs)
}

/// Removes the keys of these pairs, all or none: where no other handle is open in the map itself, which wants no copy then.
pub(crate) fn remove_all(
    core: &mut Core,
    names: &mut Names,
    handle: u16,
    name: Name,
    pairs: &[(u64, u64)],
) -> Result<(), MapError>
    requires whole { IsWhole (map_with core.old.state names.old) }
    requires can_copy { CanCopy names.old handle name }
    ensures whole { IsWhole (map_with core.new.state names.new) }
    ensures done { IfOk result (λ _. ChangesAll Removes (map_with core.old.state names.old) handle pairs.now (map_with core.new.state names.new)) }
    ensures refused { IfErr result (RefusesBatch Removes (map_with core.old.state names.old) handle pairs.now (map_with core.new.state names.new)) }
    ensures others { IfErr result (λ error. error ≡ Full → 2 ≤ map.len (handles_of (map_with core.old.state names.old))) }
    ensures work { TakesUpTo (work_of_changes (length pairs.now) + work_of_a_close) core.old.state core.new.state }
{
    if names.many() > 1 {
        return change_all(core, names, handle, name, Batch::Removes, pairs);
    }
    if are_too_many(core, pairs.len()) {
        return Err(MapError::WornOut);
    }
    change_each(core, name.core, Batch::Removes, pairs)
}

/// Whether no more steps are left than this many changes of a copy take, and a call after them.
fn are_too_many(core: &Core, many: usize) -> bool
    requires { IsCalm core.now.state }
    ensures { result ≡ is_worn_out_by (work_of_changes many) core.now.state }
{
    let changes = CHANGE_STEPS.saturating_mul(many as u64);
    is_worn_out_by(core, COPY_STEPS.saturating_add(changes))
}

/// Changes the keys in a copy, and then lets it take the map's place, or lets it go.
fn change_copy(
    core: &mut Core,
    names: &mut Names,
    handle: u16,
    name: Name,
    batch: Batch,
    pairs: &[(u64, u64)],
) -> Result<(), MapError>
    requires whole { IsWhole (map_with core.old.state names.old) }
    requires can_copy { CanCopy names.old handle name }
    requires room { map.len (world_of core.old.state) < handle_limit }
    requires life { is_worn_out_by (work_of_changes (length pairs.now)) core.old.state ≡ false }
    ensures whole { IsWhole (map_with core.new.state names.new) }
    ensures done { IfOk result (λ _. ChangesAll batch (map_with core.old.state names.old) handle pairs.now (map_with core.new.state names.new)) }
    ensures refused { IfErr result (RefusesBatch batch (map_with core.old.state names.old) handle pairs.now (map_with core.new.state names.new)) }
    ensures work { TakesUpTo (work_of_changes (length pairs.now) + work_of_a_close) core.old.state core.new.state }
{
    let made = draft(core, name.core)?;
    proof_sizes::clean_is_reached();
    let _ = core.limits();
    match change_each(core, made, batch, pairs) {
        Ok(()) => {
            adopt(core, names, handle, name, made);
            Ok(())
        }
        Err(error) => {
            let_go(core, made);
            Err(error)
        }
    }
}

/// Changes the keys in a map of the core, until one is refused.
fn change_each(
    core: &mut Core,
    handle: u16,
    batch: Batch,
    pairs: &[(u64, u64)],
) -> Result<(), MapError>
    requires calm { IsCalm core.old.state }
    requires writable { IsWritable (world_of core.old.state) handle }
    requires life { is_worn_out_by (work_of_a_change * length pairs.now) core.old.state ≡ false }
    ensures calm { IsCalm core.new.state }
    ensures changes { IfOk result (λ _. (m : KeyMap) → HasMap (world_of core.old.state) handle m → ChangesEach batch handle m pairs.now core.old.state core.new.state) }
    ensures stops { IfErr result (λ error. (m : KeyMap) → HasMap (world_of core.old.state) handle m → Stops batch handle m pairs.now core.old.state core.new.state error) }
    ensures work { TakesUpTo (work_of_a_change * length pairs.now) core.old.state core.new.state }
    ensures life { is_worn_out core.new.state ≡ false }
{
    let mut left = pairs;
    while let Some((pair, rest)) = left.split_first() {
        change_key(core, handle, batch, *pair)?;
        left = rest;
    }
    Ok(())
}

/// Changes a key in a map of the core.
fn change_key(core: &mut Core, handle: u16, batch: Batch, pair: (u64, u64)) -> Result<(), MapError>
    requires calm { IsCalm core.old.state }
    requires writable { IsWritable (world_of core.old.state) handle }
    requires life { is_worn_out core.old.state ≡ false }
    ensures calm { IsCalm core.new.state }
    ensures changes { IfOk result (λ _. ChangesKey batch handle pair core.old.state core.new.state) }
    ensures refused { IfErr result (RefusesKey batch handle pair core.old.state core.new.state) }
    ensures work { TakesUpTo work_of_a_change core.old.state core.new.state }
    ensures slots { length core.old.state.heap.free ≤ length core.new.state.heap.free + (most_makes_alone + 1) }
    ensures few { length core.new.state.heap.free ≤ core.new.state.limits.slots }
{
    let told = perform(core, key_call(batch, handle, pair));
    proof_sizes::clean_is_reached();
    let _ = core.limits();
    found(told)?;
    Ok(())
}

/// The call that does this with the key of a pair.
fn key_call(batch: Batch, handle: u16, pair: (u64, u64)) -> Call
    ensures call { result ≡ batch_call batch handle pair }
    ensures change { IsChange result }
    ensures work { work_of_call result ≡ work_of_a_change }
    ensures slots { slots_of result ≡ most_makes_alone }
{
    let (key, value) = pair;
    match batch {
        Batch::Puts => Call::Put { handle, key, value },
        Batch::Removes => Call::Remove { handle, key },
    }
}
