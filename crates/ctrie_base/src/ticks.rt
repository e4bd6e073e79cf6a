//! A count of steps on links, looks and places.

ghost use Rattle.std.specs.Prelude.{◌≡◌, ◌+◌};

use crate::traces::{Change, Trace};
use std::marker::Model;

/// How often a link, an end, a count or an entry of a list was read or written. It takes no bytes: only
/// clauses see the count.
#[derive(Drop)]
pub struct Ticks {
    /// One mark for each.
    marks: Trace<()>,
}

const _: () = prove!(size_of::<Ticks>() == 0);

impl Model for Ticks {
    ghost use Rattle.std.specs.Prelude.{length};
    ghost use Rattle.ctrie_base.specs.Ticks.{Count};

    ghost Value = { Count };

    ghost view = { λ t. record { count = length t.marks.items } };
}

impl Ticks {
    /// No tick yet.
    pub fn new() -> Ticks
        ensures { result.count ≡ 0 }
    {
        Ticks {
            marks: Trace::new(),
        }
    }

    /// The ticks of both.
    pub fn sum(first: &Ticks, second: &Ticks) -> Ticks
        ensures { result.count ≡ first.now.count + second.now.count }
    {
        Ticks {
            marks: Trace::changed::<Trace<()>, Joined>(&first.marks, &second.marks),
        }
    }

    /// Counts one tick.
    pub fn add(&mut self)
        ensures { self.new.count ≡ self.old.count + 1 }
    {
        self.marks = self.marks.with_first(&());
    }
}

struct Joined;

impl Change<(), Trace<()>> for Joined {
    ghost use Rattle.std.specs.Prelude.{◌++◌};

    ghost after = { λ marks more. marks ++ more.items };
}
