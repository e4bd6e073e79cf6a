//! Calls on handles by their names: each is carried out by a call on the core's handle for which the name stands.

ghost use Rattle.std.specs.Prelude.{◌≡◌, Ok};
ghost use Rattle.history.specs.declared.replies.Reply.TheVariants as reply;
ghost use Rattle.ctrie_map.specs.Changes.{IsFullFor, on_handle};
ghost use Rattle.ctrie_map.specs.Costs.{WorksUpTo, work_of_a_close, work_of_a_copy, work_of_call};
ghost use Rattle.ctrie_map.specs.Maps.{IsWhole, map_with};
ghost use Rattle.ctrie_map.specs.Performing.{IsOnMap, Performs, copy_call};
ghost use Rattle.history.specs.declared.calls.Call.TheVariants.{Close};

use crate::errors::MapError;
use crate::names::{Name, Names};
use crate::performing::perform;
use history::{Access, Call, Reply};
use machine_core::Core;

/// The same call on another handle; a freeze is a snapshot there.
fn on_handle(handle: u16, call: Call) -> Call
    ensures { result ≡ on_handle handle call }
{
    match call {
        Call::Get { key, .. } => Call::Get { handle, key },
        Call::Put { key, value, .. } => Call::Put { handle, key, value },
        Call::PutIfAbsent { key, value, .. } => Call::PutIfAbsent { handle, key, value },
        Call::Replace { key, value, .. } => Call::Replace { handle, key, value },
        Call::ReplaceIf { key, old, new, .. } => Call::ReplaceIf {
            handle,
            key,
            old,
            new,
        },
        Call::Remove { key, .. } => Call::Remove { handle, key },
        Call::RemoveIf { key, value, .. } => Call::RemoveIf { handle, key, value },
        Call::Clear { .. } => Call::Clear { handle },
        Call::Snapshot { .. } | Call::Freeze { .. } => Call::Snapshot { handle },
        Call::Close { .. } => Call::Close { handle },
        Call::Entries { .. } => Call::Entries { handle },
        Call::Count { .. } => Call::Count { handle },
    }
}

/// A call that may change the map of its handle.
pub(crate) fn change(core: &mut Core, names: &Names, call: Call) -> Result<Reply, MapError>
    requires whole { IsWhole (map_with core.old.state names.now) }
    requires on_map { IsOnMap call }
    ensures whole { IsWhole (map_with core.new.state names.now) }
    ensures performs { Performs result (map_with core.old.state names.now) call (map_with core.new.state names.now) }
    ensures full { IsFullFor (map_with core.old.state names.now) call → result ≡ Ok reply.NoSlots }
    ensures work { WorksUpTo (work_of_call call) (map_with core.old.state names.now) (map_with core.new.state names.now) }
{
    let Some(name) = names.find(call.handle()) else {
        return Err(MapError::NoHandle);
    };
    match name.access {
        Access::ReadOnly => Err(MapError::ReadOnly),
        Access::Writable => perform(core, on_handle(name.core, call)),
    }
}

/// Opens a copy of this kind.
pub(crate) fn open(
    core: &mut Core,
    names: &mut Names,
    handle: u16,
    access: Access,
) -> Result<Reply, MapError>
    requires whole { IsWhole (map_with core.old.state names.old) }
    ensures whole { IsWhole (map_with core.new.state names.new) }
    ensures performs { Performs result (map_with core.old.state names.old) (copy_call access handle) (map_with core.new.state names.new) }
    ensures full { IsFullFor (map_with core.old.state names.old) (copy_call access handle) → result ≡ Ok reply.NoSlots }
    ensures work { WorksUpTo work_of_a_copy (map_with core.old.state names.old) (map_with core.new.state names.new) }
{
    let Some(name) = names.find(handle) else {
        return Err(MapError::NoHandle);
    };
    let Some(number) = names.next_free() else {
        return Err(MapError::HandlesFull);
    };
    match perform(core, Call::Snapshot { handle: name.core })? {
        Reply::Opened(core) => {
            names.give(number, Name { core, access });
            Ok(Reply::Opened(number))
        }
        reply => Ok(reply),
    }
}

/// Closes a handle.
pub(crate) fn close(core: &mut Core, names: &mut Names, handle: u16) -> Result<Reply, MapError>
    requires whole { IsWhole (map_with core.old.state names.old) }
    ensures whole { IsWhole (map_with core.new.state names.new) }
    ensures performs { Performs result (map_with core.old.state names.old) (Close handle) (map_with core.new.state names.new) }
    ensures work { WorksUpTo work_of_a_close (map_with core.old.state names.old) (map_with core.new.state names.new) }
{
    let Some(name) = names.find(handle) else {
        return Err(MapError::NoHandle);
    };
    match perform(core, Call::Close { handle: name.core })? {
        Reply::Closed => {
            names.take_back(handle);
            Ok(Reply::Closed)
        }
        reply => Ok(reply),
    }
}
