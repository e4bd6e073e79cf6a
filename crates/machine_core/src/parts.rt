//! The parts of a machine.

ghost use Rattle.std.specs.Prelude.{◌≡◌, option_map};
ghost use Rattle.machine_model.specs.States.{key_hash, root_at, word_at};
ghost use Rattle.machine_model.specs.Machine.{access_of, is_running};
ghost use Rattle.machine_core.specs.Seen.{actor_of, seen};

use epochs::Heap;
use handle_table::Handles;
use history::Access;
use machine_model::{Bounds, RootWord};
use running::{Job, Program, Programs, Roots};
use std::alloc::Global;

/// What an operation has that its programs don't know.
#[derive(Clone, Copy)]
pub struct UnderWay {
    pub job: Job,
    pub program: Program,
    /// The epoch at its begin.
    pub epoch: u64,
}

/// An actor. Its programs stay in their place from one operation to the next.
pub struct Actor {
    pub programs: Programs,
    /// Its operation, if it runs one.
    pub under_way: Option<UnderWay>,
}

impl Drop for Actor {
    fn drop(self) {
        let Actor {
            programs: _,
            under_way: _,
        } = self;
    }
}

/// All that a machine remembers.
#[derive(Drop)]
pub struct Parts {
    pub limits: Bounds,
    /// The slots, with limbo, epochs, and the actors' records of them.
    pub heap: Heap,
    /// The next generation to be drawn.
    pub generations: u64,
    /// The root words by handle.
    pub table: Roots,
    pub actors: Vec<Actor>,
    /// Which handle numbers are taken, and how many operations run on each.
    pub handles: Handles,
    /// How many steps were taken.
    pub steps: u64,
    /// How many operations have begun: the id of the next one.
    pub begun: u64,
    /// Where memory comes from.
    pub alloc: Global,
}

impl Parts {
    /// Whether the handle is writable, if it is open.
    pub fn access(&self, handle: u16) -> Option<Access>
        ensures { result ≡ access_of (root_at (seen self.now) handle) }
    {
        match self.table.root(handle) {
            None => None,
            Some(root) => Some(root.access),
        }
    }

    /// The root word of a handle.
    pub fn word(&self, handle: u16) -> RootWord
        ensures { result ≡ word_at (seen self.now) handle }
    {
        self.table.word(handle)
    }

    /// The hash of a key in this machine.
    pub fn key_hash(&self, key: u64) -> u64
        ensures { result ≡ key_hash (seen self.now) key }
    {
        self.limits.hash.hash(key)
    }

    /// The actor of this number, if there is one; actors are counted from 1.
    pub fn actor(&self, actor: u8) -> Option<&Actor>
        ensures { option_map (λ found. found.now) result ≡ actor_of self.now actor }
    {
        let index = (actor as usize).checked_sub(1)?;
        self.actors.get(index)
    }

    /// Whether the actor runs an operation.
    pub fn is_running(&self, actor: u8) -> bool
        ensures { result ≡ is_running (seen self.now) actor }
    {
        match self.actor(actor) {
            None => false,
            Some(found) => found.under_way.is_some(),
        }
    }
}
