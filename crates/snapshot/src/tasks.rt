//! The calls that take the map as a whole, and what an operation of one that swaps the root goes by.

/// A call that swaps the root, without the handle.
#[derive(Clone, Copy, Debug, PartialEq, Eq)]
pub enum CopyCall {
    /// Opens a writable handle with the same content.
    Snapshot,
    /// Opens a read-only handle with the same content.
    Freeze,
    /// Removes all keys.
    Clear,
}

/// A call that goes through all pairs of a read-only map, without the handle.
#[derive(Clone, Copy, Debug, PartialEq, Eq)]
pub enum WalkCall {
    /// All pairs.
    Entries,
    /// Their number.
    Count,
}

/// What an operation of a call that swaps the root goes by.
#[derive(Clone, Copy)]
pub struct CopyTask {
    pub call: CopyCall,
    /// The handle on which it was called.
    pub handle: u16,
    /// The actor who runs it.
    pub actor: u8,
    /// The operation's id.
    pub operation: u64,
    /// The handle that it opens, for a snapshot or a freeze.
    pub opens: Option<u16>,
}

/// The reply to such a call.
#[derive(Clone, Copy, Debug, PartialEq, Eq)]
pub enum CopyReply {
    /// This handle is open.
    Opened(u16),
    /// All keys are removed.
    Cleared,
    /// No slot was free.
    NoSlots,
}
