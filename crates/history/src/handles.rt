//! One open handle.

ghost use Rattle.std.specs.Prelude.{◌≡◌, None, Ok, IsOk, IfOk, OnErr, IsOkUnless};
ghost use Rattle.ctrie_base.specs.Hashes.{hash_of};
ghost use Rattle.history.specs.Changes.{changed_handle, reply_or_same};
ghost use Rattle.history.specs.Memory.{TakesNone};

use crate::calls::{Access, Call};
use crate::changes::change;
use crate::content::Content;
use crate::replies::Reply;
use ctrie_base::{HashKind, Refusal};
use std::marker::Model;

/// What a handle names: whether its map may be changed, and the map.
#[derive(Drop)]
pub struct Handle {
    access: Access,
    content: Content,
}

impl Model for Handle {
    ghost use Rattle.history.specs.Worlds.{HandleState};
    ghost use Rattle.history.specs.WorldCodes.{state_code};

    ghost Value = { HandleState };

    ghost coded = { state_code };

    ghost view = { λ h. record { access = h.access; pairs = h.content } };
}

impl Handle {
    /// A handle of this map.
    pub fn new(access: Access, content: Content) -> Handle
        ensures { result ≡ record { access = access; pairs = content } }
    {
        Handle { access, content }
    }

    /// Whether its map may be changed.
    pub fn access(&self) -> Access
        ensures { result ≡ self.now.access }
    {
        self.access
    }

    /// Its map.
    pub fn content(&self) -> &Content
        ensures { result.now ≡ self.now.pairs }
    {
        &self.content
    }

    /// Carries out a call that changes a map, and answers it; `None` for any other call, and where
    /// the handle is read-only. After `Memory` the handle is as it was.
    pub fn change(&mut self, call: &Call, hash: HashKind) -> Result<Option<Reply>, Refusal>
        ensures answer { IfOk result
            (λ reply. (reply, self.new)
            ≡ reply_or_same self.old
            (changed_handle (hash_of hash) call.now self.old.access self.old.pairs)) }
        ensures none { changed_handle (hash_of hash) call.now self.old.access self.old.pairs ≡ None → result ≡ Ok None }
        ensures no_memory { TakesNone call.now → IsOk result }
        ensures err { OnErr result (self.new ≡ self.old) }
        ensures only_memory { IsOkUnless result Refusal.Memory }
    {
        match self.access {
            Access::Writable => change(&mut self.content, call, hash),
            Access::ReadOnly => Ok(None),
        }
    }
}
