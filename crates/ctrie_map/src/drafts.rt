//! Copies in the core that have no name yet: what is to take another one's place is made there first.

ghost use Rattle.std.specs.Prelude.{◌≡◌, ◌<◌, ◌≤◌, ◌+◌, length, IfOk, IfErr, IsSome, Some, Err, false};
ghost use Rattle.std.specs.FinMap as map;
ghost use Rattle.machine_model.specs.States.{handle_limit};
ghost use Rattle.ctrie_map.specs.Beneath.map_worlds.specs.Worlds.{world_of};
ghost use Rattle.ctrie_map.specs.Beneath.proof_obstruction_free.specs.Slots.{most_steps_of_copies};
ghost use Rattle.ctrie_map.specs.Cores.{IsCalm, TakesUpTo, Turns, free_in, is_worn_out};
ghost use Rattle.ctrie_map.specs.declared.errors.MapError.TheVariants.{Full};
ghost use Rattle.ctrie_map.specs.Costs.{work_of_a_close, work_of_a_copy};
ghost use Rattle.history.specs.declared.calls.Access.TheVariants.{Writable};
ghost use Rattle.history.specs.Effects.{naming};
ghost use Rattle.history.specs.Worlds.{HandleMap, KeyMap};
ghost use Rattle.ctrie_map.specs.Drafts.{IsBeside, IsDraftOf, IsWritable, RefusesDraft, TakesMap, is_worn_out_by};
ghost use Rattle.ctrie_map.specs.Maps.{IsWhole, map_with};
ghost use Rattle.ctrie_map.specs.Names.{AreNamesOf, handles_under, name_at};

use crate::errors::MapError;
use crate::names::{Name, Names};
use crate::performing::perform;
use crate::telling::opened;
use history::{Access, Call};
use machine_core::Core;

/// The core's handle of a writable copy of one of its maps.
pub(crate) fn draft(core: &mut Core, handle: u16) -> Result<u16, MapError>
    requires calm { IsCalm core.old.state }
    requires writable { IsWritable (world_of core.old.state) handle }
    requires room { map.len (world_of core.old.state) < handle_limit }
    requires life { is_worn_out core.old.state ≡ false }
    ensures calm { IsCalm core.new.state }
    ensures drafted { IfOk result (λ draft. IsDraftOf handle core.old.state draft core.new.state) }
    ensures refused { IfErr result (RefusesDraft handle core.old.state core.new.state) }
    ensures full { free_in core.old.state ≡ 0 → result ≡ Err Full }
    ensures work { TakesUpTo work_of_a_copy core.old.state core.new.state }
    ensures slots { length core.old.state.heap.free ≤ length core.new.state.heap.free + (most_steps_of_copies + 1) }
{
    let draft = opened(perform(core, Call::Snapshot { handle }))?;
    Ok(draft.number())
}

/// Closes a handle of the core.
pub(crate) fn let_go(core: &mut Core, handle: u16)
    requires calm { IsCalm core.old.state }
    requires there { IsSome (map.get (world_of core.old.state) handle) }
    requires life { is_worn_out core.old.state ≡ false }
    ensures calm { IsCalm core.new.state }
    ensures gone { Turns core.old.state (map.remove (world_of core.old.state) handle) core.new.state }
    ensures work { TakesUpTo work_of_a_close core.old.state core.new.state }
{
    let _ = perform(core, Call::Close { handle });
}

/// The number stands for a draft from now on, and what it stood for is closed.
pub(crate) fn adopt(core: &mut Core, names: &mut Names, handle: u16, name: Name, draft: u16)
    requires calm { IsCalm core.old.state }
    requires open { name_at names.old handle ≡ Some name }
    requires beside { (world : HandleMap) × (m : KeyMap) × IsBeside world names.old draft m core.old.state }
    requires life { is_worn_out core.old.state ≡ false }
    ensures calm { IsCalm core.new.state }
    ensures limits { core.new.state.limits ≡ core.old.state.limits }
    ensures last { names.new.last ≡ names.old.last }
    ensures named { AreNamesOf (world_of core.new.state) names.new }
    ensures adopted { (world : HandleMap) → (m : KeyMap) → IsBeside world names.old draft m core.old.state
        → handles_under names.new (world_of core.new.state) ≡ naming (handles_under names.old world) handle Writable m }
    ensures work { TakesUpTo work_of_a_close core.old.state core.new.state }
{
    names.rename(
        handle,
        Name {
            core: draft,
            access: Access::Writable,
        },
    );
    let_go(core, name.core);
}

/// The number stands for a copy of a map of the core from now on, and what it stood for is closed.
pub(crate) fn take_map(
    core: &mut Core,
    names: &mut Names,
    handle: u16,
    name: Name,
    source: u16,
) -> Result<(), MapError>
    requires whole { IsWhole (map_with core.old.state names.old) }
    requires open { name_at names.old handle ≡ Some name }
    requires writable { IsWritable (world_of core.old.state) source }
    requires room { map.len (world_of core.old.state) < handle_limit }
    requires life { is_worn_out_by work_of_a_copy core.old.state ≡ false }
    ensures whole { IsWhole (map_with core.new.state names.new) }
    ensures takes { IfOk result (λ _. TakesMap (map_with core.old.state names.old) handle source (map_with core.new.state names.new)) }
    ensures refused { IfErr result (λ error. RefusesDraft source core.old.state core.new.state error × (names.new ≡ names.old)) }
    ensures full { free_in core.old.state ≡ 0 → result ≡ Err Full }
    ensures work { TakesUpTo (work_of_a_copy + work_of_a_close) core.old.state core.new.state }
{
    let made = draft(core, source)?;
    proof_sizes::clean_is_reached();
    let _ = core.limits();
    adopt(core, names, handle, name, made);
    Ok(())
}
