//! Changes of all shards.

ghost use Rattle.std.specs.Prelude.{◌≡◌};
ghost use Rattle.machine_model.specs.Calls.{opens_handle};
ghost use Rattle.ctrie_map.specs.Changes.{changes_map};
ghost use Rattle.shared_map.specs.Turning.{Turns, call_of, reply_of};

use ctrie_map::{Handle, Map};
use history::{Access, Call, Reply};
use sharded_gate::Visit;

/// A change of all shards.
#[derive(Clone, Copy)]
pub(crate) enum Turn {
    /// The handle's map is emptied.
    Clear {
        handle: u16,
    },
    /// The handle is closed.
    Close {
        handle: u16,
    },
    /// A copy of the handle's map is opened under this number.
    Copy {
        handle: u16,
        number: u16,
        access: Access,
    },
}

impl Turn {
    /// The call that it is.
    pub(crate) fn call(self) -> Call
        ensures { result ≡ call_of self }
    {
        match self {
            Turn::Clear { handle } => Call::Clear { handle },
            Turn::Close { handle } => Call::Close { handle },
            Turn::Copy { handle, access, .. } => match access {
                Access::Writable => Call::Snapshot { handle },
                Access::ReadOnly => Call::Freeze { handle },
            },
        }
    }

    /// Whether it changes the handle's map.
    #[tactic(auto, using(crate::proofs::TurnOne::copies_change_none))]
    pub(crate) fn writes(self) -> bool
        ensures { result ≡ changes_map (call_of self) }
    {
        matches!(self, Turn::Clear { .. })
    }

    /// Whether it opens a handle.
    #[tactic(auto, using(crate::proofs::TurnOne::copies_open))]
    pub(crate) fn opens(self) -> bool
        ensures { result ≡ opens_handle (call_of self) }
    {
        matches!(self, Turn::Copy { .. })
    }

    /// What is told of it.
    pub(crate) fn reply(self) -> Reply
        ensures { result ≡ reply_of self }
    {
        match self {
            Turn::Clear { handle: _ } => Reply::Cleared,
            Turn::Close { handle: _ } => Reply::Closed,
            Turn::Copy { number, .. } => Reply::Opened(number),
        }
    }
}

/// Makes the change in each shard.
#[derive(Drop)]
pub(crate) struct Turning {
    pub(crate) turn: Turn,
}

impl Visit<Map> for Turning {
    ghost does = { Turns };

    fn visit(&mut self, map: &mut Map) {
        match self.turn {
            Turn::Clear { handle } => {
                let _ = map.call(Call::Clear { handle });
            }
            Turn::Close { handle } => {
                let _ = map.call(Call::Close { handle });
            }
            Turn::Copy {
                handle,
                number,
                access,
            } => {
                let _ = map.copy_under(Handle::new(handle), Handle::new(number), access);
            }
        }
    }
}
