//! The calls of a seat.

ghost use Rattle.history.specs.declared.calls.Call.TheVariants as call;
ghost use Rattle.shared_map.specs.declared.asks.Ask.TheVariants.{Do, First, Free, From, Handles, HasRoom, IsWritable, Restore, Scan};
ghost use Rattle.shared_map.specs.Calling.{HasAsked, HasHeardOf, Lists, Tells};
ghost use Rattle.shared_map.specs.Telling.{contained_in, counted_in, done_in, first_in, found_in, has_room_in, listed_in, number_in, open_in, opened_in, part_in, restored_in, truth_in, writable_in};

use crate::asks::{Ask, Told};
use crate::telling::{
    contained, counted, done, first, found, has_room, listed, number, opened, part, restored,
    truth, writable,
};
use ctrie_map::{Handle, MapError};
use history::Call;
use sharded_gate::ShardCount;
use std::sync::Wait;

/// The calls of a seat on its map `M`. Each but `hear` answers what the call of `Map` answers, on the map as the calls before it
/// in the log left it, and stands in the log with its answer, also where it is refused. One on a key holds the key's shard
/// alone, `scan` and `hear` the shard that they are of, any other one all shards. It may wait for others.
pub trait MapCalls<M> {
    ghost use Rattle.shared_map.specs.Seats.{IsSeatOf, MapRoom, MapSeat};

    /// The seat.
    ghost seat: { Self → MapSeat };

    /// The map behind its gate.
    ghost shared: { M → MapRoom };

    /// Whether the seat is one of the map's.
    ghost fits: { M → Self → Type 0 };

    /// Asks the map.
    fn ask<R: Wait>(&mut self, rt: &R, map: &M, ask: Ask) -> Told
        requires { fits map.now self.old }
        ensures { HasAsked (shared map.now) (seat self.old) ask result (seat self.new) };

    /// As `SharedMap::hear`.
    fn hear<R: Wait>(&mut self, rt: &R, map: &M, count: ShardCount) -> bool
        requires { fits map.now self.old }
        ensures { HasHeardOf (shared map.now) (seat self.old) count result (seat self.new) };

    /// As `Map::get`.
    fn get<R: Wait>(
        &mut self,
        rt: &R,
        map: &M,
        handle: Handle,
        key: u64,
    ) -> Result<Option<u64>, MapError>
        requires { fits map.now self.old }
        ensures { Tells found_in (shared map.now) (seat self.old) (Do (call.Get handle key)) result (seat self.new) }
    {
        let handle = handle.number();
        let call = Call::Get { handle, key };
        found(self.ask(rt, map, Ask::Do(call)))
    }

    /// As `Map::contains`. Its entry is that of a get.
    fn contains<R: Wait>(
        &mut self,
        rt: &R,
        map: &M,
        handle: Handle,
        key: u64,
    ) -> Result<bool, MapError>
        requires { fits map.now self.old }
        ensures { Tells contained_in (shared map.now) (seat self.old) (Do (call.Get handle key)) result (seat self.new) }
    {
        let handle = handle.number();
        let get = Ask::Do(Call::Get { handle, key });
        contained(self.ask(rt, map, get))
    }

    /// As `Map::entries`: others wait as long as the map has entries.
    fn entries<R: Wait>(
        &mut self,
        rt: &R,
        map: &M,
        handle: Handle,
    ) -> Result<Vec<(u64, u64)>, MapError>
        requires { fits map.now self.old }
        ensures { Lists listed_in (shared map.now) (seat self.old) (Do (call.Entries handle)) result (seat self.new) }
    {
        let handle = handle.number();
        let call = Call::Entries { handle };
        listed(self.ask(rt, map, Ask::Do(call)))
    }

    /// As `Map::entries_from`: others wait while each shard is walked over.
    fn entries_from<R: Wait>(
        &mut self,
        rt: &R,
        map: &M,
        handle: Handle,
        after: Option<u64>,
        room: usize,
    ) -> Result<Vec<(u64, u64)>, MapError>
        requires { fits map.now self.old }
        ensures { Lists part_in (shared map.now) (seat self.old) (From handle after room) result (seat self.new) }
    {
        let handle = handle.number();
        let from = Ask::From {
            handle,
            after,
            room,
        };
        part(self.ask(rt, map, from))
    }

    /// As `Map::scan`, of the keys that lie in one shard, from 0 on (`SharedMap::shards` tells how many there are; a greater
    /// number counts round again): this shard alone is held, for what is handed out and a way down.
    fn scan<R: Wait>(
        &mut self,
        rt: &R,
        map: &M,
        handle: Handle,
        shard: usize,
        after: Option<u64>,
        room: usize,
    ) -> Result<Vec<(u64, u64)>, MapError>
        requires { fits map.now self.old }
        ensures { Lists part_in (shared map.now) (seat self.old) (Scan handle shard after room) result (seat self.new) }
    {
        let scan = Ask::Scan {
            handle: handle.number(),
            shard,
            after,
            room,
        };
        part(self.ask(rt, map, scan))
    }

    /// As `Map::count`: others wait as long as the map has entries.
    fn count<R: Wait>(&mut self, rt: &R, map: &M, handle: Handle) -> Result<u64, MapError>
        requires { fits map.now self.old }
        ensures { Tells counted_in (shared map.now) (seat self.old) (Do (call.Count handle)) result (seat self.new) }
    {
        let handle = handle.number();
        let call = Call::Count { handle };
        counted(self.ask(rt, map, Ask::Do(call)))
    }

    /// As `Map::first`.
    fn first<R: Wait>(
        &mut self,
        rt: &R,
        map: &M,
        handle: Handle,
    ) -> Result<Option<(u64, u64)>, MapError>
        requires { fits map.now self.old }
        ensures { Tells first_in (shared map.now) (seat self.old) (First handle) result (seat self.new) }
    {
        let handle = handle.number();
        first(self.ask(rt, map, Ask::First { handle }))
    }

    /// As `Map::is_writable`.
    fn is_writable<R: Wait>(&mut self, rt: &R, map: &M, handle: Handle) -> Result<bool, MapError>
        requires { fits map.now self.old }
        ensures { Tells writable_in (shared map.now) (seat self.old) (IsWritable handle) result (seat self.new) }
    {
        let handle = handle.number();
        writable(self.ask(rt, map, Ask::IsWritable { handle }))
    }

    /// As `Map::is_open`. Its entry asks whether the map is writable.
    fn is_open<R: Wait>(&mut self, rt: &R, map: &M, handle: Handle) -> bool
        requires { fits map.now self.old }
        ensures { Tells open_in (shared map.now) (seat self.old) (IsWritable handle) result (seat self.new) }
    {
        self.is_writable(rt, map, handle).is_ok()
    }

    /// As `Map::handles`.
    fn handles<R: Wait>(&mut self, rt: &R, map: &M) -> u64
        requires { fits map.now self.old }
        ensures { Tells number_in (shared map.now) (seat self.old) Handles result (seat self.new) }
    {
        number(self.ask(rt, map, Ask::Handles))
    }

    /// How many slots are free, in all shards together.
    fn free<R: Wait>(&mut self, rt: &R, map: &M) -> u64
        requires { fits map.now self.old }
        ensures { Tells number_in (shared map.now) (seat self.old) Free result (seat self.new) }
    {
        number(self.ask(rt, map, Ask::Free))
    }

    /// Whether each shard has room, as `Map::has_room` tells it. Others may have taken it before the next call of the seat.
    fn has_room<R: Wait>(&mut self, rt: &R, map: &M) -> bool
        requires { fits map.now self.old }
        ensures { Tells has_room_in (shared map.now) (seat self.old) HasRoom result (seat self.new) }
    {
        has_room(self.ask(rt, map, Ask::HasRoom))
    }

    /// As `Map::put`.
    fn put<R: Wait>(
        &mut self,
        rt: &R,
        map: &M,
        handle: Handle,
        key: u64,
        value: u64,
    ) -> Result<Option<u64>, MapError>
        requires { fits map.now self.old }
        ensures { Tells found_in (shared map.now) (seat self.old) (Do (call.Put handle key value)) result (seat self.new) }
    {
        let handle = handle.number();
        let call = Call::Put { handle, key, value };
        found(self.ask(rt, map, Ask::Do(call)))
    }

    /// As `Map::put_if_absent`.
    fn put_if_absent<R: Wait>(
        &mut self,
        rt: &R,
        map: &M,
        handle: Handle,
        key: u64,
        value: u64,
    ) -> Result<Option<u64>, MapError>
        requires { fits map.now self.old }
        ensures { Tells found_in (shared map.now) (seat self.old) (Do (call.PutIfAbsent handle key value)) result (seat self.new) }
    {
        let handle = handle.number();
        let call = Call::PutIfAbsent { handle, key, value };
        found(self.ask(rt, map, Ask::Do(call)))
    }

    /// As `Map::replace`.
    fn replace<R: Wait>(
        &mut self,
        rt: &R,
        map: &M,
        handle: Handle,
        key: u64,
        value: u64,
    ) -> Result<Option<u64>, MapError>
        requires { fits map.now self.old }
        ensures { Tells found_in (shared map.now) (seat self.old) (Do (call.Replace handle key value)) result (seat self.new) }
    {
        let handle = handle.number();
        let call = Call::Replace { handle, key, value };
        found(self.ask(rt, map, Ask::Do(call)))
    }

    /// As `Map::replace_if`.
    fn replace_if<R: Wait>(
        &mut self,
        rt: &R,
        map: &M,
        handle: Handle,
        key: u64,
        old: u64,
        new: u64,
    ) -> Result<bool, MapError>
        requires { fits map.now self.old }
        ensures { Tells truth_in (shared map.now) (seat self.old) (Do (call.ReplaceIf handle key old new)) result (seat self.new) }
    {
        let handle = handle.number();
        let call = Call::ReplaceIf {
            handle,
            key,
            old,
            new,
        };
        truth(self.ask(rt, map, Ask::Do(call)))
    }

    /// As `Map::remove`.
    fn remove<R: Wait>(
        &mut self,
        rt: &R,
        map: &M,
        handle: Handle,
        key: u64,
    ) -> Result<Option<u64>, MapError>
        requires { fits map.now self.old }
        ensures { Tells found_in (shared map.now) (seat self.old) (Do (call.Remove handle key)) result (seat self.new) }
    {
        let handle = handle.number();
        let call = Call::Remove { handle, key };
        found(self.ask(rt, map, Ask::Do(call)))
    }

    /// As `Map::remove_if`.
    fn remove_if<R: Wait>(
        &mut self,
        rt: &R,
        map: &M,
        handle: Handle,
        key: u64,
        value: u64,
    ) -> Result<bool, MapError>
        requires { fits map.now self.old }
        ensures { Tells truth_in (shared map.now) (seat self.old) (Do (call.RemoveIf handle key value)) result (seat self.new) }
    {
        let handle = handle.number();
        let call = Call::RemoveIf { handle, key, value };
        truth(self.ask(rt, map, Ask::Do(call)))
    }

    /// As `Map::clear`.
    fn clear<R: Wait>(&mut self, rt: &R, map: &M, handle: Handle) -> Result<(), MapError>
        requires { fits map.now self.old }
        ensures { Tells done_in (shared map.now) (seat self.old) (Do (call.Clear handle)) result (seat self.new) }
    {
        let handle = handle.number();
        let call = Call::Clear { handle };
        done(self.ask(rt, map, Ask::Do(call)))
    }

    /// As `Map::snapshot`.
    fn snapshot<R: Wait>(&mut self, rt: &R, map: &M, handle: Handle) -> Result<Handle, MapError>
        requires { fits map.now self.old }
        ensures { Tells opened_in (shared map.now) (seat self.old) (Do (call.Snapshot handle)) result (seat self.new) }
    {
        let handle = handle.number();
        let call = Call::Snapshot { handle };
        opened(self.ask(rt, map, Ask::Do(call)))
    }

    /// As `Map::freeze`.
    fn freeze<R: Wait>(&mut self, rt: &R, map: &M, handle: Handle) -> Result<Handle, MapError>
        requires { fits map.now self.old }
        ensures { Tells opened_in (shared map.now) (seat self.old) (Do (call.Freeze handle)) result (seat self.new) }
    {
        let handle = handle.number();
        let call = Call::Freeze { handle };
        opened(self.ask(rt, map, Ask::Do(call)))
    }

    /// As `Map::restore`.
    fn restore<R: Wait>(
        &mut self,
        rt: &R,
        map: &M,
        handle: Handle,
        copy: Handle,
    ) -> Result<(), MapError>
        requires { fits map.now self.old }
        ensures { Tells restored_in (shared map.now) (seat self.old) (Restore handle copy) result (seat self.new) }
    {
        let (handle, copy) = (handle.number(), copy.number());
        restored(self.ask(rt, map, Ask::Restore { handle, copy }))
    }

    /// As `Map::close`.
    fn close<R: Wait>(&mut self, rt: &R, map: &M, handle: Handle) -> Result<(), MapError>
        requires { fits map.now self.old }
        ensures { Tells done_in (shared map.now) (seat self.old) (Do (call.Close handle)) result (seat self.new) }
    {
        let handle = handle.number();
        let call = Call::Close { handle };
        done(self.ask(rt, map, Ask::Do(call)))
    }

    /// One of the map's seats fits it, so that each call can be followed by another one.
    ghost kept: { (map : M) (s : Self) → IsSeatOf (shared map) (seat s) → fits map s };
}
