//! Which handle numbers are taken, and on which operations run. Both are kept, where the definition looks for them.

ghost use Rattle.std.specs.Prelude.{◌≡◌, ◌<◌, Some};
ghost use Rattle.handle_table.specs.Numbers.{running_on};
ghost use Rattle.machine_model.specs.Calls.{handle_of};
ghost use Rattle.machine_model.specs.Machine.{reserved_by, runs_on};
ghost use Rattle.running.specs.declared.programs.Programs.{Programs};
ghost use Rattle.proof_core.specs.Numbering.{KnowsNumbers, begun_on, ended_on, reserved};
ghost use Rattle.machine_core.specs.Seen.{operation_at, seen};

use crate::calls::is_close;
use crate::parts::{Parts, UnderWay};
use handle_table::Handles;
use history::Call;
use running::Roots;

/// Whether an operation runs whose call names this handle.
pub fn runs_on(parts: &Parts, handle: u16) -> bool
    requires { KnowsNumbers parts.now.handles (seen parts.now) }
    ensures { result ≡ runs_on (seen parts.now) handle }
{
    parts.handles.runs_on(handle)
}

/// The handle that an operation has reserved: it is to open it, and hasn't yet.
pub fn reserved_by(table: &Roots, under_way: UnderWay) -> Option<u16>
    ensures { (programs : Programs) → result ≡ reserved_by (Some (operation_at table.now programs under_way)) }
{
    if table.is_marked(under_way.job.actor) {
        None
    } else {
        under_way.job.opens
    }
}

/// Notes that this call begins: it reserves the handle that it is to open, and a close gives its own back.
pub fn note_begin(handles: &mut Handles, call: Call, opens: Option<u16>)
    requires { running_on handles.old (handle_of call) < 255 }
    ensures { handles.new ≡ begun_on handles.old call opens }
{
    handles.begins_on(call.handle());
    if is_close(call) {
        handles.give_back(call.handle());
    }
    reserve(handles, opens);
}

/// The number, if there is one, is taken.
pub fn reserve(handles: &mut Handles, opens: Option<u16>)
    ensures { handles.new ≡ reserved handles.old opens }
{
    if let Some(reserved) = opens {
        handles.take(reserved);
    }
}

/// Notes the end of an operation on this handle: what it has reserved is free again.
pub fn note_end(handles: &mut Handles, handle: u16, reserved: Option<u16>)
    ensures { handles.new ≡ ended_on handles.old handle reserved }
{
    handles.ends_on(handle);
    if let Some(reserved) = reserved {
        handles.give_back(reserved);
    }
}
