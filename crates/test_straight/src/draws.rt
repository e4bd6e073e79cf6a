//! Calls drawn at random.

ghost use Rattle.std.specs.Prelude.{◌<◌};

use history::Call;

/// A linear congruential generator, with Knuth's constants.
#[derive(Drop)]
pub struct Draws {
    state: u64,
}

impl Draws {
    /// The draws from this seed.
    pub fn new(seed: u64) -> Draws {
        Draws { state: seed }
    }

    /// A number below this one.
    pub fn below(&mut self, bound: u64) -> u64
        requires { 0 < bound }
        ensures { result < bound }
    {
        self.state = self
            .state
            .wrapping_mul(6_364_136_223_846_793_005)
            .wrapping_add(1_442_695_040_888_963_407);
        (self.state >> 33) % bound
    }

    /// A key of few, whose ways part on several levels.
    pub fn key(&mut self) -> u64 {
        self.below(16) | self.below(3) << 20 | self.below(3) << 40 | self.below(2) << 60
    }

    /// One of the first handles, the first one more often than another.
    pub fn handle(&mut self) -> u16 {
        self.below(6).saturating_sub(2) as u16
    }

    /// A call on one key, or, once in a hundred, one on a whole map. It opens no handle where none is to be opened, and never
    /// closes the first one.
    pub fn call(&mut self, may_open: bool) -> Call {
        let handle = self.handle();
        if self.below(100) > 0 {
            return self.keyed(handle);
        }
        match self.below(8) {
            0 | 1 if may_open => Call::Snapshot { handle },
            2 | 3 if may_open => Call::Freeze { handle },
            4 => Call::Clear { handle },
            _ if handle > 0 => Call::Close { handle },
            _ => Call::Get { handle, key: 0 },
        }
    }

    fn keyed(&mut self, handle: u16) -> Call {
        let key = self.key();
        let value = self.below(4);
        match self.below(12) {
            0 | 1 | 2 => Call::Put { handle, key, value },
            3 => Call::PutIfAbsent { handle, key, value },
            4 => Call::Replace { handle, key, value },
            5 => Call::ReplaceIf {
                handle,
                key,
                old: value,
                new: self.below(4),
            },
            6 | 7 => Call::Remove { handle, key },
            8 => Call::RemoveIf { handle, key, value },
            _ => Call::Get { handle, key },
        }
    }
}
