//! Handles.

ghost use Rattle.std.specs.Prelude.{◌≡◌};

use std::marker::Model;

/// Names a map of a `ConcurrentMap`. It is a number from 0 to 255. Nothing tells a handle of one `ConcurrentMap` from one of another, nor
/// a handle that was closed from a later one of its number.
#[derive(Clone, Copy, Debug, PartialEq, Eq)]
pub struct Handle {
    number: u16,
}

impl Model for Handle {
    ghost use Rattle.std.specs.Prelude.{ℕ};

    ghost Value = { ℕ };

    ghost view = { λ h. h.number };

    ghost inverse = { λ n. record { number = n } };
}

impl Handle {
    /// The handle that is open at first.
    pub fn first() -> Handle
        ensures { result ≡ 0 }
    {
        Handle { number: 0 }
    }

    /// The handle of this number, which is from 0 to 255: no other one is ever open.
    pub fn new(number: u16) -> Handle
        ensures { result ≡ number }
    {
        Handle { number }
    }

    /// Its number.
    pub fn number(self) -> u16
        ensures { result ≡ self }
    {
        self.number
    }
}
