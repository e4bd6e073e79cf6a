//! What a step of a program was that few operations run, told in few words.

ghost use Rattle.std.specs.Prelude.{◌≡◌};
ghost use Rattle.running.specs.Steps.{outcome_of};

use crate::taken::Taken;
use ctrie_base::Kind;
use snapshot::ReadAt;

/// What such a step was, in two small numbers: a function gives it in registers, where a `Taken` goes through memory.
#[derive(Clone, Copy)]
pub(crate) enum Ran {
    /// Of this kind. The operation's READ tells the rest.
    Reading(Kind),
    /// Of this kind, and of no READ.
    Beside(Kind),
}

impl Ran {
    /// The step in full, after which the operation's READ stands here.
    #[inline(always)]
    pub(crate) fn taken(self, at: &ReadAt) -> Taken
        ensures { result ≡ outcome_of self at.now }
    {
        match self {
            Ran::Reading(kind) => Taken::by_read(kind, at),
            Ran::Beside(kind) => Taken::of_kind(kind),
        }
    }
}
