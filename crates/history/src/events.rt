//! The events of a history.

use crate::calls::Call;
use crate::replies::Reply;

/// One event of a history.
#[derive(Debug, Drop)]
pub enum Event {
    /// An operation begins. Ids are 0, 1, 2, .. in the order of begins; a snapshot or a freeze names
    /// the handle that it `opens`.
    Begin {
        id: u64,
        actor: u8,
        call: Call,
        opens: Option<u16>,
    },
    /// An operation ends with its reply.
    End {
        id: u64,
        reply: Reply,
    },
}
