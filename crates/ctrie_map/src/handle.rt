//! Handles.

ghost use Rattle.std.specs.Prelude.{◌≡◌};

use std::marker::Model;

/// Names a map of a `Map`. It is a number from 0 to 255. New handles count on, round about, past those that are open: so one
/// that is closed is refused until the count comes to its number again, or a `copy_under` asks for it, and names that copy
/// then. Nothing tells a handle of one `Map` from one of another.
#[derive(Clone, Copy, Debug, PartialEq, Eq)]
pub struct Handle {
    number: u16,
}

impl Model for Handle {
    ghost use Rattle.std.specs.Prelude.{ℕ};

    ghost Value = { ℕ };

    ghost view = { λ h. h.number };

    ghost inverse = { λ n. record { number = n } };
}

impl Handle {
    /// The handle that is open at first.
    pub fn first() -> Handle
        ensures { result ≡ 0 }
    {
        Handle { number: 0 }
    }

    /// The handle of this number, which is from 0 to 255: a map has no other one open.
    pub fn new(number: u16) -> Handle
        ensures { result ≡ number }
    {
        Handle { number }
    }

    /// Its number.
    pub fn number(self) -> u16
        ensures { result ≡ self }
    {
        self.number
    }
}
