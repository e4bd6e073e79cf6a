//! The lines of all programs.

use crate::building::BuildLine;
use crate::copying::CopyLine;
use crate::finding::KeyLine;
use crate::reading::Swap;
use crate::repairs::{CleanLine, Climb, ClimbLine, RenewLine};
use crate::roots::RootLine;
use crate::walking::WalkLine;
use history::Reply;
use nodes::Refs;

/// What a SWAP is for.
#[derive(Drop)]
pub enum Purpose {
    /// The call's own change of its key, whose value before it was `former`.
    Update { path: Refs, former: Option<u64> },
    /// Renewing the last of the path.
    Renew { path: Refs },
    /// Cleaning.
    Clean,
    /// Climbing.
    Climb(Climb),
}

/// The line on which an operation stands: what its next step does, and what it remembers.
#[derive(Drop)]
pub enum Line {
    /// ROOT, in the first line of KEY and COPY.
    Root(RootLine),
    Key(KeyLine),
    Build(BuildLine),
    Swap { purpose: Purpose, swap: Swap },
    Renew(RenewLine),
    Clean(CleanLine),
    Climb(ClimbLine),
    Copy(CopyLine),
    Walk(WalkLine),
    /// Ends with this reply.
    End(Reply),
    /// No machine reaches it: a node is of another kind than the program takes it for.
    Impossible,
}
