//! What a script says to do.

use ctrie_base::Kind;
use history::Call;

/// What one line after the header says.
#[derive(Clone, Copy, Debug, PartialEq, Eq)]
pub enum Command {
    /// `actor A CALL`: the actor begins the call.
    Begin { actor: u8, call: Call },
    /// `go A N`: up to this many steps of the actor, fewer where its operation ends.
    Go { actor: u8, times: u32 },
    /// `until A KIND`: steps of the actor until its next one is of this kind or its operation has ended.
    Until { actor: u8, kind: Kind },
    /// `finish A`: steps of the actor until its operation has ended.
    Finish { actor: u8 },
    /// `do A CALL`: the actor begins the call and, if it may, steps until the operation has ended.
    Do { actor: u8, call: Call },
    /// `sweep N`: this many steps of the sweep.
    Sweep { times: u32 },
}
