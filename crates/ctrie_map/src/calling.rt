//! Calls as values.

ghost use Rattle.std.specs.Prelude.{◌≡◌, Ok};
ghost use Rattle.std.specs.FinMap as map;
ghost use Rattle.history.specs.declared.replies.Reply.TheVariants as reply;
ghost use Rattle.ctrie_map.specs.Calling.{Calls, IsRead};
ghost use Rattle.ctrie_map.specs.Changes.{IsFullFor};
ghost use Rattle.ctrie_map.specs.Costs.{WorksUpTo, work_of_call};
ghost use Rattle.ctrie_map.specs.Reading.{reading};

use crate::errors::MapError;
use crate::handle::Handle;
use crate::map::Map;
use history::{Call, Pairs, Reply};

impl Map {
    /// Any call, for what keeps calls and replies as values. It is refused as the call's own method is, but that a change for
    /// which there was no slot has the reply `NoSlots`, and one whose key is crowded the reply `Crowded`: no map has changed then.
    /// `telling` has what the call's own method tells of a reply.
    #[inline(always)]
    pub fn call(&mut self, call: Call) -> Result<Reply, MapError>
        ensures calls { Calls result self.old call self.new }
        ensures full { IsFullFor self.old call → result ≡ Ok reply.NoSlots }
        ensures work { WorksUpTo (work_of_call call) self.old self.new }
    {
        match call {
            Call::Get { handle, key } => self.value_reply(handle, key),
            Call::Entries { handle } => self.entries_reply(handle),
            Call::Count { handle } => self.count_reply(handle),
            change => self.perform(change),
        }
    }

    /// The reply to a get.
    #[tactic(auto, using(crate::proofs::Lookups::mapped, crate::proofs::Lookups::refused))]
    fn value_reply(&self, handle: u16, key: u64) -> Result<Reply, MapError>
        ensures { result ≡ reading self.now handle (λ m. reply.Found (map.get m key)) }
    {
        Ok(Reply::Found(self.get(Handle::new(handle), key)?))
    }

    /// The reply to an entries.
    #[tactic(auto, using(crate::proofs::Lookups::mapped, crate::proofs::Lookups::read_refused))]
    fn entries_reply(&self, handle: u16) -> Result<Reply, MapError>
        ensures { IsRead (reading self.now handle (λ m. reply.Pairs (map.entries m))) result }
    {
        Ok(Reply::Pairs(Pairs::from_vec(self.entries(Handle::new(handle))?)))
    }

    /// The reply to a count.
    #[tactic(auto, using(crate::proofs::Lookups::mapped, crate::proofs::Lookups::refused))]
    fn count_reply(&self, handle: u16) -> Result<Reply, MapError>
        ensures { result ≡ reading self.now handle (λ m. reply.Count (map.len m)) }
    {
        Ok(Reply::Count(self.count(Handle::new(handle))?))
    }
}
