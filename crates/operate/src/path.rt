//! The path of an operation.

ghost use Rattle.std.specs.Prelude.{◌≡◌, ◌<◌, ◌∷◌, ◌++◌, [], length};
ghost use Rattle.operate.specs.Beneath.machine_model.specs.Paths.{above};

use arrayvec::ArrayVec;
use contract::Ref;
use std::marker::Model;

/// The most indirections of a path: the root, and one of each level below it.
const LONGEST_PATH: usize = 14;

/// The indirections from the root down to the current one, in place.
#[derive(Drop)]
pub(crate) struct Path {
    items: ArrayVec<Ref, LONGEST_PATH>,
}

impl Model for Path {
    ghost use Rattle.std.specs.Prelude.{List, ℕ};

    ghost Value = { List ℕ };

    ghost view = { λ p. p.items.items };
}

impl Path {
    /// An empty path.
    pub(crate) fn new() -> Path
        ensures { result ≡ [] }
    {
        Path {
            items: ArrayVec::new(),
        }
    }

    /// The indirections as a slice.
    pub(crate) fn as_slice(&self) -> &[Ref]
        ensures { result.now ≡ self.now }
    {
        self.items.as_slice()
    }

    /// The path to the root.
    pub(crate) fn restart(&mut self, root: Ref)
        ensures { self.new ≡ root ∷ [] }
    {
        self.items.clear();
        self.items.push(root);
    }

    /// One further down.
    pub(crate) fn push(&mut self, below: Ref)
        requires { length self.old < 14 }
        ensures { self.new ≡ self.old ++ below ∷ [] }
    {
        self.items.push(below);
    }

    /// One further up.
    pub(crate) fn pop(&mut self)
        ensures { self.new ≡ above self.old }
    {
        let above = self.items.len().saturating_sub(1);
        self.items.truncate(above);
    }
}
