//! What came of a step that is taken apart from the others.

ghost use Rattle.std.specs.Prelude.{◌≡◌};
ghost use Rattle.operate.specs.Apart.{next_of};

use contract::{Kind, Next};
use key_finding::KeyReply;

/// What came of a step that isn't one of those that most calls take most often. It is two small numbers, and so goes by
/// registers from a function that isn't inlined.
#[derive(Clone, Copy)]
pub(crate) enum Went {
    /// It took a step of this kind, and the call goes on.
    More(Kind),
    /// It took no step: it wants the generation of the root.
    AskRoot,
}

impl Went {
    /// The same, as `KeyOp::step` tells it.
    #[inline(always)]
    pub(crate) fn next(self) -> Next<KeyReply>
        ensures { result ≡ next_of self }
    {
        match self {
            Went::More(kind) => Next::More(kind),
            Went::AskRoot => Next::AskRoot,
        }
    }
}
