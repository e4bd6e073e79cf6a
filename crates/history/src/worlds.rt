//! The world of a history, and the effect of a call in it.

ghost use Rattle.std.specs.Prelude.{◌≡◌, Some, None, Ok, IsOk, IfOk, OnErr, IsOkUnless, option_and_then, option_copied};
ghost use Rattle.std.specs.FinMap as map;
ghost use Rattle.ctrie_base.specs.Hashes.{hash_of};
ghost use Rattle.history.specs.Worlds.{first_world};
ghost use Rattle.history.specs.Effects.{map_of, writable_map_of, read_only_map_of, copying, effect, answer_in};
ghost use Rattle.history.specs.Changes.{changed_world};
ghost use Rattle.history.specs.Memory.{TakesNone};

use crate::calls::{Access, Call};
use crate::content::Content;
use crate::handles::Handle;
use crate::replies::Reply;
use ctrie_base::{HashKind, Refusal};
use std::alloc::Global;
use std::collections::BTreeMap;
use std::marker::Model;

/// The world of a history: what each open handle names.
pub struct World {
    handles: BTreeMap<u16, Handle>,
}

impl Drop for World {
    fn drop(self) {
        let World { handles: _ } = self;
    }
}

impl Model for World {
    ghost use Rattle.std.specs.FinMap as map;
    ghost use Rattle.history.specs.Worlds.{HandleMap};
    ghost use Rattle.history.specs.WorldCodes.{world_code};

    ghost Value = { HandleMap };

    ghost coded = { world_code };

    ghost view = { λ w. map.from_entries w.handles.entries };
}

impl World {
    /// The first world: handle 0 is open, writable and empty.
    pub fn new(alloc: Global) -> Result<World, Refusal>
        ensures first { IfOk result (λ world. world ≡ first_world) }
        ensures only_memory { IsOkUnless result Refusal.Memory }
    {
        let mut handles = BTreeMap::new(alloc);
        handles.insert(0, Handle::new(Access::Writable, Content::new(alloc)))?;
        Ok(World { handles })
    }

    /// What a handle that is there names.
    fn find(&self, handle: u16) -> Option<&Handle>
        ensures { option_copied result ≡ map.get self.now handle }
    {
        self.handles.get(&handle)
    }

    /// Whether the map of a handle that is there may be changed.
    pub fn access(&self, handle: u16) -> Option<Access>
        ensures { result ≡ option_and_then (λ s. Some s.access) (map.get self.now handle) }
    {
        let state = self.find(handle)?;
        Some(state.access())
    }

    /// The map of a handle that is there and may be changed.
    fn writable(&self, handle: u16) -> Option<&Content>
        ensures { option_copied result ≡ writable_map_of self.now handle }
    {
        let state = self.find(handle)?;
        match state.access() {
            Access::Writable => Some(state.content()),
            Access::ReadOnly => None,
        }
    }

    /// The map of a handle that is there and read-only.
    fn read_only(&self, handle: u16) -> Option<&Content>
        ensures { option_copied result ≡ read_only_map_of self.now handle }
    {
        let state = self.find(handle)?;
        match state.access() {
            Access::Writable => None,
            Access::ReadOnly => Some(state.content()),
        }
    }

    /// The key's value in the map of a handle.
    fn get(&self, handle: u16, key: u64) -> Option<Reply>
        ensures { result
            ≡ option_and_then (λ m. Some (Reply.Found (map.get m key))) (map_of self.now handle) }
    {
        let state = self.find(handle)?;
        Some(Reply::Found(state.content().get(key)))
    }

    /// How many pairs a read-only map has.
    fn count(&self, handle: u16) -> Option<Reply>
        ensures { result
            ≡ option_and_then (λ m. Some (Reply.Count (map.len m))) (read_only_map_of self.now handle) }
    {
        let content = self.read_only(handle)?;
        Some(Reply::Count(content.len()))
    }

    /// All pairs of a read-only map, by rising key.
    fn entries(&self, handle: u16) -> Result<Option<Reply>, Refusal>
        ensures answer { IfOk result
            (λ reply. reply
            ≡ option_and_then (λ m. Some (Reply.Pairs (map.entries m)))
            (read_only_map_of self.now handle)) }
        ensures none { read_only_map_of self.now handle ≡ None → result ≡ Ok None }
        ensures only_memory { IsOkUnless result Refusal.Memory }
    {
        match self.read_only(handle) {
            Some(content) => Ok(Some(Reply::Pairs(content.entries()?))),
            None => Ok(None),
        }
    }

    /// Carries out a call that changes the map of a handle.
    fn change(&mut self, handle: u16, call: &Call, hash: HashKind) -> Result<Option<Reply>, Refusal>
        ensures answer { IfOk result
            (λ reply. (reply, self.new)
            ≡ answer_in self.old (changed_world (hash_of hash) call.now self.old handle)) }
        ensures none { changed_world (hash_of hash) call.now self.old handle ≡ None → result ≡ Ok None }
        ensures no_memory { TakesNone call.now → IsOk result }
        ensures err { OnErr result (self.new ≡ self.old) }
        ensures only_memory { IsOkUnless result Refusal.Memory }
    {
        let Some(state) = self.handles.get_mut(&handle) else {
            return Ok(None);
        };
        state.change(call, hash)
    }

    /// Takes the handle away.
    fn close(&mut self, handle: u16) -> Option<Reply>
        ensures { (result, self.new)
            ≡ answer_in self.old
            (option_and_then (λ m. Some (Reply.Closed, map.remove self.old handle))
            (map_of self.old handle)) }
    {
        let _ = self.handles.remove(&handle)?;
        Some(Reply::Closed)
    }

    /// Opens a copy of the map of a writable handle, under a number that isn't there.
    fn copy(
        &mut self,
        handle: u16,
        opens: Option<u16>,
        access: Access,
    ) -> Result<Option<Reply>, Refusal>
        ensures answer { IfOk result
            (λ reply. (reply, self.new) ≡ answer_in self.old (copying self.old handle opens access)) }
        ensures none { copying self.old handle opens access ≡ None → result ≡ Ok None }
        ensures err { OnErr result (self.new ≡ self.old) }
        ensures only_memory { IsOkUnless result Refusal.Memory }
    {
        let Some(source) = self.writable(handle) else {
            return Ok(None);
        };
        let Some(number) = opens else {
            return Ok(None);
        };
        if self.find(number).is_some() {
            return Ok(None);
        }
        let copy = source.copy()?;
        self.handles.insert(number, Handle::new(access, copy))?;
        Ok(Some(Reply::Opened(number)))
    }
}

/// Answers a call in a world and carries it out; `None` where the call has no effect there: its
/// handle isn't there or is of the wrong kind, or the handle that it opens is missing or there
/// already. A snapshot or a freeze opens the handle `opens`, other calls ignore it.
///
/// `Memory` comes only where the call has an effect and takes memory: a `Get`, `Remove`, `RemoveIf`,
/// `Clear`, `Close` or `Count` takes none. After it the world is as it was.
pub fn reply_of(
    world: &mut World,
    call: &Call,
    opens: Option<u16>,
    hash: HashKind,
) -> Result<Option<Reply>, Refusal>
    ensures answer { IfOk result
        (λ reply. (reply, world.new)
        ≡ answer_in world.old (effect (hash_of hash) world.old call.now opens)) }
    ensures none { effect (hash_of hash) world.old call.now opens ≡ None → result ≡ Ok None }
    ensures no_memory { TakesNone call.now → IsOk result }
    ensures err { OnErr result (world.new ≡ world.old) }
    ensures only_memory { IsOkUnless result Refusal.Memory }
{
    match *call {
        Call::Get { handle, key } => Ok(world.get(handle, key)),
        Call::Put { handle, .. }
        | Call::PutIfAbsent { handle, .. }
        | Call::Replace { handle, .. }
        | Call::ReplaceIf { handle, .. }
        | Call::Remove { handle, .. }
        | Call::RemoveIf { handle, .. }
        | Call::Clear { handle } => world.change(handle, call, hash),
        Call::Snapshot { handle } => world.copy(handle, opens, Access::Writable),
        Call::Freeze { handle } => world.copy(handle, opens, Access::ReadOnly),
        Call::Close { handle } => Ok(world.close(handle)),
        Call::Entries { handle } => world.entries(handle),
        Call::Count { handle } => Ok(world.count(handle)),
    }
}
