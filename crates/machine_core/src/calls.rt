//! What calls name, and their programs.

ghost use Rattle.std.specs.Prelude.{◌≡◌, ◌<◌, ◌^◌};
ghost use Rattle.machine_model.specs.Calls.{handle_of, key_of, needs_writable, needs_read_only, opens_handle, is_close};
ghost use Rattle.running.specs.Places.{call_for};

use history::Call;
use running::{CopyCall, KeyCall, Program, WalkCall};

/// The call without the handle.
pub fn program_of(call: Call) -> Program
    ensures { call_for (handle_of call) result ≡ call }
{
    match call {
        Call::Get { key, .. } => Program::Key(KeyCall::Get { key }),
        Call::Put { key, value, .. } => Program::Key(KeyCall::Put { key, value }),
        Call::PutIfAbsent { key, value, .. } => Program::Key(KeyCall::PutIfAbsent { key, value }),
        Call::Replace { key, value, .. } => Program::Key(KeyCall::Replace { key, value }),
        Call::ReplaceIf { key, old, new, .. } => Program::Key(KeyCall::ReplaceIf {
            key,
            expected: old,
            value: new,
        }),
        Call::Remove { key, .. } => Program::Key(KeyCall::Remove { key }),
        Call::RemoveIf { key, value, .. } => Program::Key(KeyCall::RemoveIf {
            key,
            expected: value,
        }),
        Call::Clear { .. } => Program::Copy(CopyCall::Clear),
        Call::Snapshot { .. } => Program::Copy(CopyCall::Snapshot),
        Call::Freeze { .. } => Program::Copy(CopyCall::Freeze),
        Call::Close { .. } => Program::Close,
        Call::Entries { .. } => Program::Walk(WalkCall::Entries),
        Call::Count { .. } => Program::Walk(WalkCall::Count),
    }
}

/// The key of a call on one key.
pub fn key_of(call: Call) -> u64
    ensures { result ≡ key_of call }
{
    match call {
        Call::Get { key, .. }
        | Call::Put { key, .. }
        | Call::PutIfAbsent { key, .. }
        | Call::Replace { key, .. }
        | Call::ReplaceIf { key, .. }
        | Call::Remove { key, .. }
        | Call::RemoveIf { key, .. } => key,
        _ => 0,
    }
}

/// A law: the key of a call has 64 bits, since it is one of the program's. It does nothing.
#[inline(always)]
pub fn key_fits(call: Call)
    ensures { key_of call < 2 ^ 64 }
{
    let _ = key_of(call);
}

/// Whether the call needs a writable handle: it may change the map, or it copies it.
pub fn needs_writable(call: Call) -> bool
    ensures { result ≡ needs_writable call }
{
    !matches!(
        call,
        Call::Get { .. } | Call::Close { .. } | Call::Entries { .. } | Call::Count { .. }
    )
}

/// Whether the call needs a read-only handle: it walks over all pairs.
pub fn needs_read_only(call: Call) -> bool
    ensures { result ≡ needs_read_only call }
{
    matches!(call, Call::Entries { .. } | Call::Count { .. })
}

/// Whether the call opens a handle.
pub fn opens_handle(call: Call) -> bool
    ensures { result ≡ opens_handle call }
{
    matches!(call, Call::Snapshot { .. } | Call::Freeze { .. })
}

/// Whether the call closes its handle.
pub fn is_close(call: Call) -> bool
    ensures { result ≡ is_close call }
{
    matches!(call, Call::Close { .. })
}
