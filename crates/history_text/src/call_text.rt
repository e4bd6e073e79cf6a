//! The texts of calls.

ghost use Rattle.std.specs.Prelude.{Some};
ghost use Rattle.history_text.specs.Texts.{call_text};

use history::Call;
use std::fmt;

/// A call as its text, as `put 0 1 10`.
#[derive(Clone, Copy)]
pub struct CallText<'a>(pub &'a Call);

impl fmt::Display for CallText<'_> {
    ghost output = { λ t. Some (call_text t.0.now) };

    fn fmt<W: fmt::Write>(&self, f: &mut fmt::Formatter<W>) -> fmt::Result {
        match *self.0 {
            Call::Get { handle, key } => write!(f, "get {handle} {key}"),
            Call::Put { handle, key, value } => write!(f, "put {handle} {key} {value}"),
            Call::PutIfAbsent { handle, key, value } => {
                write!(f, "put-if-absent {handle} {key} {value}")
            }
            Call::Replace { handle, key, value } => write!(f, "replace {handle} {key} {value}"),
            Call::ReplaceIf {
                handle,
                key,
                old,
                new,
            } => { write!(f, "replace-if {handle} {key} {old} {new}") }
            Call::Remove { handle, key } => write!(f, "remove {handle} {key}"),
            Call::RemoveIf { handle, key, value } => write!(f, "remove-if {handle} {key} {value}"),
            Call::Clear { handle } => write!(f, "clear {handle}"),
            Call::Snapshot { handle } => write!(f, "snapshot {handle}"),
            Call::Freeze { handle } => write!(f, "freeze {handle}"),
            Call::Close { handle } => write!(f, "close {handle}"),
            Call::Entries { handle } => write!(f, "entries {handle}"),
            Call::Count { handle } => write!(f, "count {handle}"),
        }
    }
}
