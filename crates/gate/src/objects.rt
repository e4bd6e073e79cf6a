//! Objects that a gate keeps, and what its log tells of a call.
ghost use Rattle.std.specs.Prelude.{ℕ};

/// An object whose calls are made one at a time. C is what it can be asked, A what it answers.
pub trait Object<C, A> {
    /// Whether the object, as it was, may answer this to the call of the seat of this number, and be so then.
    ghost answers: { ℕ → Self → C → A → Self → Type 0 };

    /// Whether a seat with this call is in the midst of something on which others wait. It waits less long between
    /// two tries.
    fn is_midway(_call: &C) -> bool {
        false
    }

    /// Performs the call of the seat of this number.
    fn perform(&mut self, seat: u8, call: C) -> A
        ensures { answers seat self.old call result self.new };
}

/// What the log tells of one call.
#[derive(Drop)]
pub struct Entry<C, A> {
    /// The number of the seat that made it.
    pub seat: u8,
    pub call: C,
    pub answer: A,
}
