//! Which calls are made: each follows from a number that is drawn for it.

use history::Call;

/// How the calls are chosen.
#[derive(Clone, Copy, Debug, PartialEq, Eq)]
pub(crate) enum Calls {
    /// Gets, puts and removals, 6 : 6 : 4.
    Mix,
    /// Gets alone.
    Get,
    /// Puts alone.
    Put,
    /// Puts alone, of each key in turn.
    Insert,
    /// The mix, with a freeze, a get of what it opens and a close now and then.
    Freeze,
}

impl Calls {
    /// The one of this name.
    pub(crate) fn named(name: &str) -> Option<Calls> {
        match name {
            "mix" => Some(Calls::Mix),
            "get" => Some(Calls::Get),
            "put" => Some(Calls::Put),
            "insert" => Some(Calls::Insert),
            "freeze" => Some(Calls::Freeze),
            _ => None,
        }
    }

    /// How many steps of the sweep follow a write: each key that is put for the first time takes a slot.
    pub(crate) fn sweeps(self) -> u32 {
        match self {
            Calls::Insert => 4,
            _ => 3,
        }
    }

    /// The call that follows from this number, after this many others.
    pub(crate) fn call(self, drawn: u64, made: u64, keys: u64) -> Call {
        let keys = keys.max(1);
        let key = drawn % keys;
        match self {
            Calls::Get => get(key),
            Calls::Put => put(key, made),
            Calls::Insert => put(made % keys, made),
            Calls::Mix | Calls::Freeze => mixed(drawn >> 60, key, made),
        }
    }
}

/// The mix's call, by a number below 16.
fn mixed(choice: u64, key: u64, value: u64) -> Call {
    match choice {
        0..6 => get(key),
        6..12 => put(key, value),
        _ => Call::Remove { handle: 0, key },
    }
}

fn get(key: u64) -> Call {
    Call::Get { handle: 0, key }
}

fn put(key: u64, value: u64) -> Call {
    Call::Put {
        handle: 0,
        key,
        value,
    }
}

/// The number after this one, by Marsaglia's shifts and exclusive ors.
pub(crate) fn next_drawn(drawn: u64) -> u64 {
    let drawn = drawn ^ drawn << 13;
    let drawn = drawn ^ drawn >> 7;
    drawn ^ drawn << 17
}
