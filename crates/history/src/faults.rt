//! Why an order isn't legal for a history.

use crate::calls::Call;
use crate::replies::Reply;

/// Why a call has no effect in a world.
#[derive(Clone, Copy, Debug, PartialEq, Eq)]
pub enum Obstacle {
    /// Its handle isn't open.
    NotOpen { handle: u16 },
    /// Its handle is read-only, and the call changes or copies the map.
    NeedsWritable { handle: u16 },
    /// Its handle is writable, and the call goes through all pairs.
    NeedsReadOnly { handle: u16 },
    /// The handle that it is to open is open already.
    OpenAlready { handle: u16 },
}

/// A reason why an order isn't legal for a history. Operations are named by their ids.
#[derive(Debug, Drop)]
pub enum OrderFault {
    /// The event at this index may not come after those before it.
    WrongEvent {
        place: usize,
    },
    /// The operation stands in the order and hasn't begun.
    NotBegun {
        id: u64,
    },
    /// The operation stands in the order twice.
    StandsTwice {
        id: u64,
    },
    /// The operation stands in the order and was refused for lack of slots.
    WasRefused {
        id: u64,
    },
    /// The operation ended before the other one began, and stands behind it.
    StandsBehind {
        id: u64,
        other: u64,
    },
    /// The operation's call has no effect in the world to which those before it lead.
    NoEffect {
        id: u64,
        obstacle: Obstacle,
    },
    /// The operation's call was answered otherwise than the world to which those before it lead gives.
    OtherReply {
        id: u64,
        call: Call,
        recorded: Reply,
        given: Reply,
    },
    /// The operation was answered and doesn't stand in the order.
    Missing {
        id: u64,
    },
}
