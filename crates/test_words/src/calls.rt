//! Which calls are made: each follows from a number that is drawn for it.

ghost use Rattle.std.specs.Prelude.{◌<◌};

use crate::keys::{deep_key, listed_key};
use ctrie_base::HashKind;
use history::{Call, Reply};

/// How many handles calls are about, handle 0 among them.
const HANDLES: u64 = 7;

/// Draws calls on this many keys. Its values are its own.
#[derive(Clone, Copy)]
pub struct Drawing {
    drawn: u64,
    keys: u64,
    hash: HashKind,
    value: u64,
    /// The last key of which a value was told, with that value.
    seen: (u64, u64),
}

impl Drawing {
    /// Of the actor of this number.
    pub fn new(seed: u64, actor: u8, keys: u64, hash: HashKind) -> Drawing {
        let actor = u64::from(actor);
        let first = seed.wrapping_mul(0x9E37_79B9_7F4A_7C15) ^ actor << 48;
        Drawing {
            drawn: next_drawn(next_drawn(first | 1)),
            keys,
            hash,
            value: actor << 40,
            seen: (0, 0),
        }
    }

    /// The next number, below this one.
    fn draw(&mut self, below: u64) -> u64
        requires { 0 < below }
        ensures { result < below }
    {
        self.drawn = next_drawn(self.drawn);
        (self.drawn >> 20) % below
    }

    /// The next call.
    pub fn call(&mut self) -> Call {
        self.value = self.value.wrapping_add(1);
        let handle = self.handle();
        match self.draw(64) {
            0 => Call::Snapshot { handle },
            1 => Call::Freeze { handle },
            2 => self.clear(),
            3 | 4 => self.close(),
            5 => Call::Count { handle },
            6 => Call::Entries { handle },
            kind => self.key_call(kind, handle),
        }
    }

    /// Mostly the first handle.
    fn handle(&mut self) -> u16 {
        match self.draw(3) {
            0 => self.draw(HANDLES) as u16,
            _ => 0,
        }
    }

    /// A close of any handle but the first.
    fn close(&mut self) -> Call {
        Call::Close {
            handle: (self.draw(HANDLES) as u16).max(1),
        }
    }

    /// A clear, rarely of the first handle.
    fn clear(&mut self) -> Call {
        Call::Clear {
            handle: match self.draw(20) {
                0 => 0,
                _ => (self.draw(HANDLES) as u16).max(1),
            },
        }
    }

    /// A call on one key, of this kind, from 7 to 63.
    fn key_call(&mut self, kind: u64, handle: u16) -> Call {
        let key = self.key();
        let value = self.value;
        let (seen, old) = self.seen;
        match kind {
            7..21 => Call::Get { handle, key },
            21..33 => Call::Put { handle, key, value },
            33..38 => Call::PutIfAbsent { handle, key, value },
            38..42 => Call::Replace { handle, key, value },
            42..48 => Call::ReplaceIf {
                handle,
                key: seen,
                old,
                new: value,
            },
            48..54 => Call::RemoveIf {
                handle,
                key: seen,
                value: old,
            },
            _ => Call::Remove { handle, key },
        }
    }

    /// One of the keys: a third of them are near to one another, a third stand deep, a third in a list.
    fn key(&mut self) -> u64 {
        let number = self.draw(self.keys.max(1));
        match number % 3 {
            0 => number << 1,
            1 => deep_key(self.hash, 0, number / 3),
            _ => listed_key(self.hash, 1, number / 3),
        }
    }

    /// Takes notice of what the last call was told.
    pub fn learn(&mut self, call: &Call, reply: &Reply) {
        if let (Call::Get { handle: _, key }, Reply::Found(Some(value))) = (call, reply) {
            self.seen = (*key, *value);
        }
    }
}

/// The number after this one, by Marsaglia's shifts and exclusive ors.
pub fn next_drawn(drawn: u64) -> u64 {
    let drawn = drawn ^ drawn << 13;
    let drawn = drawn ^ drawn >> 7;
    drawn ^ drawn << 17
}
