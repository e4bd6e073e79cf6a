//! The entries that a walk has still to look at.

ghost use Rattle.std.specs.Prelude.{◌≡◌, ◌++◌, ◌≤◌, [], reverse, take, drop, length, OnOk};
ghost use Rattle.snapshot.specs.Beneath.machine_model.specs.Walking.{first_of, rest_of};
ghost use Rattle.snapshot.specs.Walks.{is_none_left};

use root_asking::{MOST_ENTRIES, Ref};
use std::alloc::{AllocError, Global};
use std::marker::Model;

/// The entries that are still to be looked at, the next one first.
#[derive(Drop)]
pub struct Todo {
    /// The next one last, so that entries can be put before the others at the cost of themselves.
    stack: Vec<Ref>,
}

impl Model for Todo {
    ghost use Rattle.std.specs.Prelude.{◌-◌, ℕ, reverse, vec_len, vec_capacity};
    ghost use Rattle.snapshot.specs.Growing.{Growing};

    ghost Value = { Growing ℕ };

    ghost view = { λ t. record { items = reverse t.stack.items; room = vec_capacity t.stack - vec_len t.stack } };
}

impl Todo {
    /// None. It takes no memory.
    pub(crate) fn new(alloc: Global) -> Todo
        ensures { result.items ≡ [] }
    {
        Todo {
            stack: Vec::new(alloc),
        }
    }

    /// Leaves none of them.
    pub(crate) fn clear(&mut self)
        ensures { self.new.items ≡ [] }
    {
        self.stack.clear();
    }

    /// Makes room for the entries of a node. After an error, which is lack of memory, nothing has changed but room.
    pub(crate) fn make_room(&mut self) -> Result<(), AllocError>
        ensures same { self.new.items ≡ self.old.items }
        ensures room { OnOk result (32 ≤ self.new.room) }
    {
        self.stack.reserve(MOST_ENTRIES)
    }

    /// The next one, or the reference that names no slot.
    #[tactic(auto, using(crate::proofs::Stacks::first_is))]
    pub(crate) fn first(&self) -> Ref
        ensures { result ≡ first_of self.now.items }
    {
        self.stack.last().copied().unwrap_or(Ref::default())
    }

    /// Takes the next one away.
    pub(crate) fn drop_first(&mut self)
        ensures { self.new.items ≡ rest_of self.old.items }
    {
        let _ = self.stack.pop();
    }

    /// Whether none is left.
    pub(crate) fn is_empty(&self) -> bool
        ensures { result ≡ is_none_left self.now.items }
    {
        self.stack.is_empty()
    }

    /// Puts these, for which there is room, before the others.
    pub(crate) fn put_before(&mut self, entries: &[Ref])
        requires { length entries.now ≤ self.old.room }
        ensures { self.new.items ≡ entries.now ++ self.old.items }
    {
        let start = self.stack.len();
        let _ = self.stack.extend_from_slice(entries);
        reverse_from(&mut self.stack, start);
    }
}

/// Turns the order round of what stands from this position on.
fn reverse_from(stack: &mut Vec<Ref>, start: usize)
    requires { start ≤ length stack.old.items }
    ensures { stack.new.items ≡ take start stack.old.items ++ reverse (drop start stack.old.items) }
{
    stack[start..].reverse();
}
