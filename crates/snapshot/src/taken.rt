//! The pairs that a walk has met.

ghost use Rattle.std.specs.Prelude.{◌≡◌, ◌++◌, ◌∷◌, ◌<◌, [], length, IfOk, OnOk};
ghost use Rattle.snapshot.specs.Beneath.machine_model.specs.Pairs.{by_key};

use history::Pairs;
use std::alloc::{AllocError, Global};
use std::marker::Model;
use std::mem;

/// The pairs that a walk has met, as they came.
#[derive(Drop)]
pub struct Taken {
    pairs: Vec<(u64, u64)>,
}

impl Model for Taken {
    ghost use Rattle.std.specs.Prelude.{◌-◌, ℕ, vec_len, vec_capacity};
    ghost use Rattle.snapshot.specs.Growing.{Growing};

    ghost Value = { Growing (ℕ × ℕ) };

    ghost view = { λ t. record { items = t.pairs.items; room = vec_capacity t.pairs - vec_len t.pairs } };
}

impl Taken {
    /// None. It takes no memory.
    pub(crate) fn new(alloc: Global) -> Taken
        ensures { result.items ≡ [] }
    {
        Taken {
            pairs: Vec::new(alloc),
        }
    }

    /// Leaves none of them.
    pub(crate) fn clear(&mut self)
        ensures { self.new.items ≡ [] }
    {
        self.pairs.clear();
    }

    /// Makes room for one more. After an error, which is lack of memory, nothing has changed but room.
    pub(crate) fn make_room(&mut self) -> Result<(), AllocError>
        ensures same { self.new.items ≡ self.old.items }
        ensures room { OnOk result (0 < self.new.room) }
    {
        self.pairs.reserve(1)
    }

    /// One more, for which there is room.
    pub(crate) fn push(&mut self, key: u64, value: u64)
        requires { 0 < self.old.room }
        ensures { self.new.items ≡ self.old.items ++ (key, value) ∷ [] }
    {
        let _ = self.pairs.push((key, value));
    }

    /// How many they are.
    pub(crate) fn len(&self) -> usize
        ensures { result ≡ length self.now.items }
    {
        self.pairs.len()
    }

    /// Hands all of them out, by rising key. It takes no memory.
    pub(crate) fn take_by_key(&mut self) -> Pairs
        ensures { result ≡ by_key self.old.items }
    {
        let none = Vec::new(*self.pairs.allocator());
        in_order(mem::replace(&mut self.pairs, none))
    }

    /// A copy of all of them, by rising key. Only memory may be lacking.
    pub(crate) fn copy_by_key(&self) -> Result<Pairs, AllocError>
        ensures { IfOk result (λ pairs. pairs ≡ by_key self.now.items) }
    {
        Ok(in_order(self.copy()?))
    }

    /// A copy of them, as they came.
    fn copy(&self) -> Result<Vec<(u64, u64)>, AllocError>
        ensures { IfOk result (λ copy. copy.items ≡ self.now.items) }
    {
        let mut items = Vec::new(*self.pairs.allocator());
        items.extend_from_slice(self.pairs.as_slice())?;
        Ok(items)
    }
}

/// The pairs by rising key.
fn in_order(mut pairs: Vec<(u64, u64)>) -> Pairs
    ensures { result ≡ by_key pairs.items }
{
    pairs.sort_unstable();
    Pairs::from_vec(pairs)
}
