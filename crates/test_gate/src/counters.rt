//! Counters, which the tests share.
ghost use Rattle.std.specs.Prelude.{◌≡◌, ◌+◌, ◌%◌, ◌^◌};

use gate::Object;

/// A count. A call adds to it, and is answered what it was.
#[derive(Drop)]
pub(crate) struct Counter {
    pub count: u64,
}

impl Object<u64, u64> for Counter {
    ghost answers = { λ seat before call answer after. (answer ≡ before.count) × (after.count ≡ (before.count + call) % 2 ^ 64) };

    fn perform(&mut self, _seat: u8, call: u64) -> u64 {
        let before = self.count;
        self.count = before.wrapping_add(call);
        before
    }
}

/// A count whose callers are always in the midst of something.
#[derive(Drop)]
pub(crate) struct Urgent {
    pub count: u64,
}

impl Object<u64, u64> for Urgent {
    ghost answers = { λ seat before call answer after. (answer ≡ before.count) × (after.count ≡ (before.count + call) % 2 ^ 64) };

    fn is_midway(_call: &u64) -> bool {
        true
    }

    fn perform(&mut self, _seat: u8, call: u64) -> u64 {
        let before = self.count;
        self.count = before.wrapping_add(call);
        before
    }
}
