//! What an operation goes by.

ghost use Rattle.std.specs.Prelude.{◌≡◌};
ghost use Rattle.running.specs.Places.{task_for};

use operate::KeyCall;
use snapshot::{CopyCall, CopyTask, WalkCall};

/// The program of a call.
#[derive(Clone, Copy, Debug, PartialEq, Eq)]
pub enum Program {
    /// A call on one key.
    Key(KeyCall),
    /// A snapshot, a freeze or a clear.
    Copy(CopyCall),
    /// A walk, for all pairs or for their number.
    Walk(WalkCall),
    /// A close: it is done as it begins.
    Close,
}

/// What an operation goes by, beside its program.
#[derive(Clone, Copy)]
pub struct Job {
    /// The operation's id.
    pub id: u64,
    /// The actor who runs it.
    pub actor: u8,
    /// The handle on which it was called.
    pub handle: u16,
    /// The handle that it opens, for a snapshot or a freeze.
    pub opens: Option<u16>,
}

impl Job {
    /// The same for a call that swaps the root.
    pub(crate) fn swapping(self, call: CopyCall) -> CopyTask
        ensures { result ≡ task_for self call }
    {
        CopyTask {
            call,
            handle: self.handle,
            actor: self.actor,
            operation: self.id,
            opens: self.opens,
        }
    }
}
