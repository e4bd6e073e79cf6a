//! Numbers that are drawn one after the other, and the call that each stands for.

/// What a call of the mix does: gets, puts and removals come 6 : 6 : 4.
#[derive(Clone, Copy, Debug, PartialEq, Eq)]
pub enum Kind {
    Get,
    Put,
    Remove,
}

/// A number that was drawn.
#[derive(Clone, Copy)]
pub struct Drawn(u64);

impl Drawn {
    /// What comes before the first number of the thread with this number, from 0 on.
    pub fn start(thread: u64) -> Drawn {
        Drawn(88_172_645_463_325_252u64.wrapping_add(thread.wrapping_mul(7_919)))
    }

    /// The number after this one, by Marsaglia's shifts and exclusive ors.
    #[inline(always)]
    pub fn next(self) -> Drawn {
        let drawn = self.0 ^ self.0 << 13;
        let drawn = drawn ^ drawn >> 7;
        Drawn(drawn ^ drawn << 17)
    }

    /// The call's key, of this many.
    #[inline(always)]
    pub fn key(self, keys: u64) -> u64 {
        self.0 % keys.max(1)
    }

    /// The value that a put gives the key: no two of a run are likely to be the same.
    pub fn value(self) -> u64 {
        self.0
    }

    /// What the call does.
    #[inline(always)]
    pub fn kind(self) -> Kind {
        match self.0 >> 60 {
            0..6 => Kind::Get,
            6..12 => Kind::Put,
            _ => Kind::Remove,
        }
    }
}
