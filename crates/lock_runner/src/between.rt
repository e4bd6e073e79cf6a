//! What may come between two steps.
ghost use Rattle.std.specs.Prelude.{◌≤◌};

/// What a caller does between two steps of a call.
pub trait Between {
    /// Is called after each step of a call but its last, with the gate open: this many steps of this seat's
    /// call were taken.
    fn between(&self, seat: u8, taken: u64)
        requires seat { 1 ≤ seat }
        requires taken { 1 ≤ taken };
}

/// Nothing is done between two steps.
pub struct Nothing;

impl Between for Nothing {
    fn between(&self, _seat: u8, _taken: u64) {}
}
