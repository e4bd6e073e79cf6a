//! The calls of a map.

ghost use Rattle.std.specs.Prelude.{◌≡◌};
ghost use Rattle.history.specs.Handles.{handle_of};

/// Whether a handle's map may be changed.
#[derive(Clone, Copy, Debug, PartialEq, Eq)]
pub enum Access {
    /// Its calls may change the map.
    Writable,
    /// Its map never changes.
    ReadOnly,
}

/// A call on the map that a handle names.
#[derive(Clone, Copy, Debug, PartialEq, Eq)]
pub enum Call {
    /// The key's value.
    Get {
        handle: u16,
        key: u64,
    },
    /// Sets the key's value.
    Put {
        handle: u16,
        key: u64,
        value: u64,
    },
    /// Sets the value of a key that has none.
    PutIfAbsent {
        handle: u16,
        key: u64,
        value: u64,
    },
    /// Sets the value of a key that has one.
    Replace {
        handle: u16,
        key: u64,
        value: u64,
    },
    /// Sets the value of a key that has the value `old`.
    ReplaceIf {
        handle: u16,
        key: u64,
        old: u64,
        new: u64,
    },
    /// Removes the key.
    Remove {
        handle: u16,
        key: u64,
    },
    /// Removes a key that has this value.
    RemoveIf {
        handle: u16,
        key: u64,
        value: u64,
    },
    /// Removes all keys.
    Clear {
        handle: u16,
    },
    /// Opens a writable copy.
    Snapshot {
        handle: u16,
    },
    /// Opens a read-only copy.
    Freeze {
        handle: u16,
    },
    /// Takes the handle away.
    Close {
        handle: u16,
    },
    /// All pairs of a read-only map, by rising key.
    Entries {
        handle: u16,
    },
    /// The number of pairs of a read-only map.
    Count {
        handle: u16,
    },
}

impl Call {
    /// The handle on whose map the call is made.
    pub fn handle(self) -> u16
        ensures { result ≡ handle_of self }
    {
        match self {
            Call::Get { handle, .. }
            | Call::Put { handle, .. }
            | Call::PutIfAbsent { handle, .. }
            | Call::Replace { handle, .. }
            | Call::ReplaceIf { handle, .. }
            | Call::Remove { handle, .. }
            | Call::RemoveIf { handle, .. }
            | Call::Clear { handle }
            | Call::Snapshot { handle }
            | Call::Freeze { handle }
            | Call::Close { handle }
            | Call::Entries { handle }
            | Call::Count { handle } => handle,
        }
    }
}
