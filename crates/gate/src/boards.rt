//! The object with the log of its calls, as the gate's slot has it.
ghost use Rattle.std.specs.Prelude.{◌≡◌, [], length};
ghost use Rattle.gate.specs.Logs.{saturated, fresh, HasCalled};

use crate::marks::Mark;
use crate::objects::{Entry, Object};
use ctrie_base::Trace;
use std::marker::Model;

/// An object, and the log of all its calls, which takes no bytes but those of the number of calls.
#[derive(Drop)]
pub struct Board<O, C, A> {
    first: Mark<O>,
    object: O,
    log: Trace<Entry<C, A>>,
    calls: u64,
}

const _: () = prove!(size_of::<Board<u64, u64, u64>>() == 16);

impl<O, C, A> Model for Board<O, C, A> {
    ghost use Rattle.std.specs.Prelude.{◌≡◌, length};
    ghost use Rattle.gate.specs.Logs.{Logged, saturated};

    ghost Value = { Logged O C A };

    ghost view = { λ b. record { first = b.first; object = b.object; log = b.log.items } };

    ghost invariant = { λ b. b.calls ≡ saturated (length b.log.items) };
}

impl<O, C, A> Board<O, C, A> {
    /// The object without a call.
    pub fn new(object: O) -> Board<O, C, A>
        ensures { result ≡ fresh object }
    {
        Board {
            first: Mark::of(&object),
            object,
            log: Trace::new(),
            calls: 0,
        }
    }

    /// How many calls the log has, or the greatest number where it has more.
    pub fn calls(&self) -> u64
        ensures { result ≡ saturated (length self.now.log) }
    {
        self.calls
    }
}

impl<O, C: Drop, A: Drop> Board<O, C, A> {
    /// The object, as its last call left it.
    pub fn into_object(self) -> O
        ensures { result ≡ self.object }
    {
        let Board {
            first: _,
            object,
            log: _,
            calls: _,
        } = self;
        object
    }
}

impl<O: Object<C, A>, C: Copy, A: Drop> Board<O, C, A> {
    /// Has the call of this seat performed, and adds its entry to the log.
    #[inline(always)]
    pub fn call(&mut self, seat: u8, call: C) -> A
        ensures { HasCalled O.answers seat call result self.old self.new }
    {
        let answer = self.object.perform(seat, call);
        let entry = Entry { seat, call, answer };
        self.log = self.log.with_last(&entry);
        self.calls = self.calls.saturating_add(1);
        let Entry {
            seat: _,
            call: _,
            answer,
        } = entry;
        answer
    }
}
