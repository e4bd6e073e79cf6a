//! The replies to calls.

ghost use Rattle.std.specs.Prelude.{◌≡◌, ◌↔◌, List, ℕ, IsTrue, IfOk};

use std::alloc::AllocError;
use std::marker::Model;

/// Pairs of a key and its value.
#[derive(Debug, Drop)]
pub struct Pairs {
    items: Vec<(u64, u64)>,
}

impl Model for Pairs {
    ghost use Rattle.std.specs.Prelude.{List, ℕ};

    ghost Value = { List (ℕ × ℕ) };

    ghost view = { λ p. p.items.items };
}

impl Pairs {
    /// These pairs. It takes no memory.
    pub fn from_vec(items: Vec<(u64, u64)>) -> Pairs
        ensures { result ≡ items.items }
    {
        Pairs { items }
    }

    /// The pairs as a vector. It takes no memory.
    pub fn into_vec(self) -> Vec<(u64, u64)>
        ensures { result.items ≡ self }
    {
        self.items
    }

    /// The pairs as a slice.
    pub fn as_slice(&self) -> &[(u64, u64)]
        ensures { result.now ≡ self.now }
    {
        self.items.as_slice()
    }

    /// A copy.
    pub fn copy(&self) -> Result<Pairs, AllocError>
        ensures { IfOk result (λ copy. copy ≡ self.now) }
    {
        let mut items = Vec::new(*self.items.allocator());
        items.extend_from_slice(self.as_slice())?;
        Ok(Pairs { items })
    }

    /// Whether the two are the same pairs.
    pub fn is_same(&self, other: &Pairs) -> bool
        ensures { IsTrue result ↔ (self.now ≡ other.now) }
    {
        self.items == other.items
    }
}

/// The reply to a call.
#[derive(Debug, Drop)]
pub enum Reply {
    /// The key's value before the call, if it had one.
    Found(Option<u64>),
    /// Whether the value was the one asked for, so that the map was changed.
    Truth(bool),
    /// The key is absent, and 32 other keys have its hash. Nothing was changed.
    Crowded,
    /// The handle that was opened.
    Opened(u16),
    /// The handle is gone.
    Closed,
    /// The map is empty now.
    Cleared,
    /// All pairs, by rising key.
    Pairs(Pairs),
    /// How many pairs there are.
    Count(u64),
    /// No slot was free. Nothing was changed.
    NoSlots,
}

impl Reply {
    /// A copy.
    pub fn copy(&self) -> Result<Reply, AllocError>
        ensures { IfOk result (λ copy. copy ≡ self.now) }
    {
        Ok(match self {
            Reply::Found(value) => Reply::Found(*value),
            Reply::Truth(truth) => Reply::Truth(*truth),
            Reply::Crowded => Reply::Crowded,
            Reply::Opened(handle) => Reply::Opened(*handle),
            Reply::Closed => Reply::Closed,
            Reply::Cleared => Reply::Cleared,
            Reply::Pairs(pairs) => Reply::Pairs(pairs.copy()?),
            Reply::Count(count) => Reply::Count(*count),
            Reply::NoSlots => Reply::NoSlots,
        })
    }

    /// Whether the two are the same reply.
    pub fn is_same(&self, other: &Reply) -> bool
        ensures { IsTrue result ↔ (self.now ≡ other.now) }
    {
        match (self, other) {
            (Reply::Found(a), Reply::Found(b)) => a == b,
            (Reply::Truth(a), Reply::Truth(b)) => a == b,
            (Reply::Opened(a), Reply::Opened(b)) => a == b,
            (Reply::Pairs(a), Reply::Pairs(b)) => a.is_same(b),
            (Reply::Count(a), Reply::Count(b)) => a == b,
            (Reply::Crowded, Reply::Crowded)
            | (Reply::Closed, Reply::Closed)
            | (Reply::Cleared, Reply::Cleared)
            | (Reply::NoSlots, Reply::NoSlots) => true,
            _ => false,
        }
    }
}
