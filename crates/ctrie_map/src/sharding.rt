//! What a map tells and does as one shard of several, which all have the same handles.

ghost use Rattle.std.specs.Prelude.{◌≡◌, ◌<◌, ◌≤◌, ◌⊎◌, IfNone, IfSome, IsSome, Ok, Err, None};
ghost use Rattle.std.specs.FinMap as map;
ghost use Rattle.machine_model.specs.States.{handle_limit};
ghost use Rattle.ctrie_map.specs.declared.errors.MapError.TheVariants.{HandlesFull};
ghost use Rattle.history.specs.declared.replies.Reply.TheVariants as reply;
ghost use Rattle.ctrie_map.specs.Changes.{IsFullFor};
ghost use Rattle.ctrie_map.specs.Cores.{is_worn_out};
ghost use Rattle.ctrie_map.specs.Performing.{copy_call};
ghost use Rattle.ctrie_map.specs.Costs.{WorksUpTo, work_of_a_copy};
ghost use Rattle.ctrie_map.specs.Maps.{IsWhole, handles_of, map_with};
ghost use Rattle.ctrie_map.specs.Names.{IsNext};
ghost use Rattle.ctrie_map.specs.Sharding.{PerformsUnder, may_lack_slots};

use crate::errors::MapError;
use crate::handle::Handle;
use crate::map::Map;
use crate::names::{NAMES, Name, Names};
use crate::performing::{is_worn_out, perform};
use ctrie_base::HashKind;
use history::{Access, Call, Reply};
use machine_core::Core;

/// This many slots are enough for a clear.
const COPY_SLOTS: u32 = 23;

impl Map {
    /// The hash of its keys.
    pub fn hash(&self) -> HashKind
        ensures { result ≡ self.now.core.limits.hash }
    {
        self.core.limits().hash
    }

    /// Whether changes are refused as `WornOut`: no more steps are left than one may take with the sweep after it.
    pub fn is_worn_out(&self) -> bool
        ensures { result ≡ is_worn_out self.now.core }
    {
        is_worn_out(&self.core)
    }

    /// The number that the next copy gets, if there is one.
    pub fn next_handle(&self) -> Option<Handle>
        ensures next { IfSome result (IsNext self.now.names.last (handles_of self.now)) }
        ensures full { IfNone result (map.len (handles_of self.now) ≡ handle_limit) }
    {
        match self.names.next_free() {
            Some(number) => Some(Handle::new(number)),
            None => None,
        }
    }

    /// Whether a clear or a copy of a map in shards may find no slot in this one: a copy, exactly where `free` is 0; a clear,
    /// only where other handles are open. Of any other call it isn't so.
    pub fn may_lack_slots(&self, call: Call) -> bool
        ensures { result ≡ may_lack_slots call self.now }
    {
        match call {
            Call::Clear { .. } => self.handles() > 1 && self.core.free_slots() < COPY_SLOTS,
            Call::Snapshot { .. } | Call::Freeze { .. } => self.free() == 0,
            _ => false,
        }
    }

    /// Any copy, as `snapshot` and `freeze` open one, under a number of the caller's. Where the number is open, or is none
    /// below 256, it is refused as `HandlesFull`, whatever the handle is; else as `NoHandle` or `WornOut`. Its reply is `NoSlots`
    /// exactly where `free` is 0. Nothing has changed then.
    pub fn copy_under(
        &mut self,
        handle: Handle,
        number: Handle,
        access: Access,
    ) -> Result<Reply, MapError>
        ensures performs { number < handle_limit → map.get (handles_of self.old) number ≡ None → PerformsUnder number result self.old access handle self.new }
        ensures full { number < handle_limit → map.get (handles_of self.old) number ≡ None → IsFullFor self.old (copy_call access handle) → result ≡ Ok reply.NoSlots }
        ensures taken { (handle_limit ≤ number) ⊎ IsSome (map.get (handles_of self.old) number) → (result ≡ Err HandlesFull) × (self.new ≡ self.old) }
        ensures work { WorksUpTo work_of_a_copy self.old self.new }
    {
        if number.number() >= NAMES || self.is_open(number) {
            return Err(MapError::HandlesFull);
        }
        open_under(
            &mut self.core,
            &mut self.names,
            handle.number(),
            number.number(),
            access,
        )
    }
}

/// Opens a copy of this kind under this number.
fn open_under(
    core: &mut Core,
    names: &mut Names,
    handle: u16,
    number: u16,
    access: Access,
) -> Result<Reply, MapError>
    requires whole { IsWhole (map_with core.old.state names.old) }
    requires low { number < handle_limit }
    requires free { map.get (handles_of (map_with core.old.state names.old)) number ≡ None }
    ensures whole { IsWhole (map_with core.new.state names.new) }
    ensures performs { PerformsUnder number result (map_with core.old.state names.old) access handle (map_with core.new.state names.new) }
    ensures full { IsFullFor (map_with core.old.state names.old) (copy_call access handle) → result ≡ Ok reply.NoSlots }
    ensures work { WorksUpTo work_of_a_copy (map_with core.old.state names.old) (map_with core.new.state names.new) }
{
    let Some(name) = names.find(handle) else {
        return Err(MapError::NoHandle);
    };
    match perform(core, Call::Snapshot { handle: name.core })? {
        Reply::Opened(core) => {
            names.give(number, Name { core, access });
            Ok(Reply::Opened(number))
        }
        reply => Ok(reply),
    }
}
