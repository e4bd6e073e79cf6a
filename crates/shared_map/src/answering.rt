//! What one shard answers, and what all of them answer.

ghost use Rattle.std.specs.Prelude.{◌≡◌, ◌≢◌, ◌<◌, ◌≤◌, false, IsTrue, None, length};
ghost use Rattle.shared_map.specs.Answering.{MapAnswers};
ghost use Rattle.shared_map.specs.Asks.{about, handle_asked};
ghost use Rattle.shared_map.specs.Shards.{free_of_all, have_room};
ghost use Rattle.shared_map.specs.Wholes.{KnowsFirst};

use crate::asking::{Knowing, Measuring, first_of};
use crate::asks::{Answer, Ask, Request, Told, about, told_part, told_reply, told_writable};
use crate::parts::part_of_all;
use crate::picking::one_of_all;
use crate::reading::Freeing;
use crate::restoring::restore_all;
use crate::visits::visit_each;
use crate::wholes::call_all;
use ctrie_base::HashKind;
use ctrie_map::{Handle, Map, MapError};
use history::{Call, Reply};
use sharded_gate::{Sharded, Shards};

impl Sharded<Request, Told> for Map {
    ghost answers = { MapAnswers };

    ghost about = { about };

    fn shard_about(request: &Request, shards: usize) -> Option<usize> {
        about(request, shards)
    }

    #[inline(always)]
    #[tactic(auto, using(crate::proofs::Alone::called_alone, crate::proofs::Alone::strange_alone, crate::proofs::Alone::none_alone))]
    fn perform(&mut self, _seat: u8, request: Request) -> Told {
        if !is_same(request.hash, self.hash()) {
            return Err(MapError::Memory);
        }
        match request.ask {
            Ask::Do(call) => told_reply(self.call(call)),
            Ask::Scan {
                handle,
                after,
                room,
                ..
            } => told_part(self.scan(Handle::new(handle), after, room)),
            _ => Err(MapError::Memory),
        }
    }

    fn perform_all<S: Shards<Map>>(shards: &mut S, _seat: u8, request: Request) -> Told {
        answer_all(shards, request)
    }
}

/// What all shards answer.
fn answer_all<S: Shards<Map>>(shards: &mut S, request: Request) -> Told
    requires { about (length (S.items shards.old)) request ≡ None }
    ensures answered { MapAnswers 0 (S.items shards.old) request result (S.items shards.new) }
    ensures rest { S.rest shards.new ≡ S.rest shards.old }
{
    if shards.count() == 0 {
        return Err(MapError::Memory);
    }
    let first = first_of(shards, handle_in(request.ask), request.hash);
    if is_same(first.hash, request.hash) {
        ask_all(shards, &first, request)
    } else {
        Err(MapError::Memory)
    }
}

/// The handle that is asked for, if one is.
fn handle_in(ask: Ask) -> u16
    ensures { result ≡ handle_asked ask }
{
    match ask {
        Ask::Do(call) => call.handle(),
        Ask::From { handle, .. }
        | Ask::Scan { handle, .. }
        | Ask::First { handle }
        | Ask::IsWritable { handle }
        | Ask::Restore { handle, .. } => handle,
        Ask::Handles | Ask::Free | Ask::HasRoom => 0,
    }
}

/// Whether these are the same.
fn is_same(hash: HashKind, other: HashKind) -> bool
    ensures same { IsTrue result → hash ≡ other }
    ensures apart { result ≡ false → hash ≢ other }
{
    hash == other
}

/// What all shards answer, if it is asked of them, and this is known of the first.
fn ask_all<S: Shards<Map>>(shards: &mut S, first: &Knowing, request: Request) -> Told
    requires any { 0 < length (S.items shards.old) }
    requires about { about (length (S.items shards.old)) request ≡ None }
    requires known { KnowsFirst first.now (S.items shards.old) }
    requires handle { first.now.handle ≡ handle_asked request.ask }
    requires hash { first.now.hash ≡ request.hash }
    ensures answered { MapAnswers 0 (S.items shards.old) request result (S.items shards.new) }
    ensures rest { S.rest shards.new ≡ S.rest shards.old }
{
    match request.ask {
        Ask::Handles => Ok(Answer::Reply(Reply::Count(u64::from(first.handles)))),
        Ask::Free => Ok(Answer::Reply(Reply::Count(free_in_all(shards)))),
        Ask::HasRoom => Ok(Answer::Reply(Reply::Truth(have_room(shards)))),
        Ask::Do(call) => told_reply(call_all(shards, first, call)),
        Ask::From {
            handle,
            after,
            room,
        } => part_of_all(shards, first, handle, after, room),
        Ask::Scan { .. } => unreachable!(),
        Ask::First { handle } => one_of_all(shards, first, handle),
        Ask::IsWritable { .. } => told_writable(first.writable),
        Ask::Restore { handle, copy } => restore_all(shards, first, handle, copy),
    }
}

/// How many slots are free in all shards.
fn free_in_all<S: Shards<Map>>(shards: &mut S) -> u64
    ensures sum { length (S.items shards.old) ≤ 64 → result ≡ free_of_all (S.items shards.old) }
    ensures same { S.items shards.new ≡ S.items shards.old }
    ensures rest { S.rest shards.new ≡ S.rest shards.old }
{
    let mut freeing = Freeing { slots: 0 };
    visit_each(shards, &mut freeing);
    freeing.slots
}

/// Whether a slot is free in each shard.
fn have_room<S: Shards<Map>>(shards: &mut S) -> bool
    ensures room { result ≡ have_room (S.items shards.old) }
    ensures same { S.items shards.new ≡ S.items shards.old }
    ensures rest { S.rest shards.new ≡ S.rest shards.old }
{
    let mut measuring = Measuring {
        call: Call::Snapshot { handle: 0 },
        restores: false,
        is_worn_out: false,
        is_tight: false,
    };
    visit_each(shards, &mut measuring);
    !measuring.is_tight
}
