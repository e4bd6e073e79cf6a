//! Which orders explain a history.

ghost use Rattle.std.specs.Prelude.{◌≡◌, ◌↔◌, ◌<◌, List, ℕ, [], length, vec_len, max, Some, true, IsTrue, IsNone, IfSome, IfOk, IsOkUnless, slice_get, slice_set};
ghost use Rattle.std.specs.Option.{option_copied};
ghost use Rattle.ctrie_base.specs.Hashes.{hash_of};
ghost use Rattle.history.specs.declared.events.Event.{Event};
ghost use Rattle.history.specs.Worlds.{first_world};
ghost use Rattle.history.specs.Histories.{begun, IsWellFormed};
ghost use Rattle.history.specs.Orders.{IsLegal};
ghost use Rattle.history.specs.Tables.{Records, IsRowOf, recorded};
ghost use Rattle.history.specs.Faults.{IsFirstFault, Judges};
ghost use Rattle.history.specs.Replays.{Marks, Takes, Places, FindsUnmarked, IsAnswer, Trails, Differs, begun_at};
ghost use Rattle.history.specs.Laws.{LeadsToOneWorld, HasOneFirstFault};

use crate::events::Event;
use crate::faults::OrderFault;
use crate::obstacles::obstacle_to;
use crate::replies::Reply;
use crate::tables::{Row, Table, reply_at};
use crate::worlds::{World, reply_of};
use ctrie_base::{HashKind, Refusal};
use std::alloc::Global;

/// Whether the order is legal for the history: the history is well formed; the order's ids are distinct, have
/// begun, and are every operation that was answered and none that was refused for lack of slots; no
/// operation stands after one that began after its end; and the calls, one after the other in this order, have
/// the recorded replies. Any events and any order may be given. `Memory` is the only refusal.
pub fn is_order(
    alloc: Global,
    events: &[Event],
    order: &[u64],
    hash: HashKind,
) -> Result<bool, Refusal>
    ensures exact { IfOk result (λ legal. IsTrue legal ↔ IsLegal (hash_of hash) events.now order.now) }
    ensures only_memory { IsOkUnless result Refusal.Memory }
{
    Ok(first_fault(alloc, events, order, hash)?.is_none())
}

/// The first reason why the order isn't legal for the history; `None` exactly where it is legal. A wrong event
/// comes first, then the operations in their order, and last what is missing. Any events and any order may be
/// given. `Memory` is the only refusal.
pub fn first_fault(
    alloc: Global,
    events: &[Event],
    order: &[u64],
    hash: HashKind,
) -> Result<Option<OrderFault>, Refusal>
    ensures exact { IfOk result (λ fault. IsNone fault ↔ IsLegal (hash_of hash) events.now order.now) }
    ensures first { IfOk result (λ fault. IfSome fault (λ f. IsFirstFault (hash_of hash) events.now order.now f)) }
    ensures only_memory { IsOkUnless result Refusal.Memory }
{
    match Table::of(alloc, events)? {
        Ok(table) => fault_in(alloc, events, &table, order, hash),
        Err(place) => Ok(Some(OrderFault::WrongEvent { place })),
    }
}

/// A law: an order leads to at most one world.
pub fn leads_to_one_world()
    ensures { LeadsToOneWorld }
{}

/// A law: an order has at most one first fault.
pub fn has_one_first_fault()
    ensures { HasOneFirstFault }
{}

/// What is left of an order's beginning once it is replayed.
struct Replay {
    /// By ids, whether the operation stands in it.
    taken: Vec<bool>,
    /// The last place where one of its operations begins, or 0.
    latest: usize,
    /// The world that it leads to.
    world: World,
}

impl Drop for Replay {
    fn drop(self) {
        let Replay {
            taken: _,
            latest: _,
            world: _,
        } = self;
    }
}

impl Replay {
    /// The replay of no operation, of a history with this many.
    fn new(alloc: Global, operations: usize) -> Result<Replay, Refusal>
        ensures world { IfOk result (λ replay. replay.world ≡ first_world) }
        ensures marks { IfOk result (λ replay. (history : List Event) → begun history ≡ operations
            → Marks history [] replay.taken.items replay.latest) }
        ensures only_memory { IsOkUnless result Refusal.Memory }
    {
        Ok(Replay {
            taken: vec![in alloc; false; operations]?,
            latest: 0,
            world: World::new(alloc)?,
        })
    }

    /// Goes on with this operation; or says why it may not stand next.
    fn take(
        &mut self,
        events: &[Event],
        table: &Table,
        id: u64,
        hash: HashKind,
    ) -> Result<Option<OrderFault>, Refusal>
        requires { Records events.now table.now }
        ensures takes { IfOk result (λ fault. (ids : List ℕ)
            → Marks events.now ids self.old.taken.items self.old.latest
            → Takes fault (hash_of hash) events.now ids id self.old.world self.new) }
        ensures only_memory { IsOkUnless result Refusal.Memory }
    {
        let Some(row) = table.row(id) else {
            return Ok(Some(OrderFault::NotBegun { id }));
        };
        let told = reply_at(events, row.end);
        if let Some(fault) = self.misplaced(events, id, &row, told) {
            return Ok(Some(fault));
        }
        let Some(given) = reply_of(&mut self.world, &row.call, row.opens, hash)? else {
            let obstacle = obstacle_to(&self.world, &row.call, row.opens);
            return Ok(Some(OrderFault::NoEffect { id, obstacle }));
        };
        match differing(told, &given) {
            Some(recorded) => {
                let recorded = recorded.copy()?;
                let call = row.call;
                Ok(Some(OrderFault::OtherReply {
                    id,
                    call,
                    recorded,
                    given,
                }))
            }
            None => {
                self.mark(id, row.begin);
                Ok(None)
            }
        }
    }

    /// Why the operation of this row, with this reply, may not stand next in any world.
    fn misplaced(
        &self,
        events: &[Event],
        id: u64,
        row: &Row,
        told: Option<&Reply>,
    ) -> Option<OrderFault>
        ensures { (ids : List ℕ) → IsWellFormed events.now
            → Marks events.now ids self.now.taken.items self.now.latest
            → IsRowOf events.now id row.now → id < begun events.now
            → option_copied told.entry ≡ recorded events.now row.now.end
            → Places result events.now ids id }
    {
        if self.has_taken(id) {
            return Some(OrderFault::StandsTwice { id });
        }
        if is_refusal(told) {
            return Some(OrderFault::WasRefused { id });
        }
        let other = self.behind(events, row)?;
        Some(OrderFault::StandsBehind { id, other })
    }

    /// The operation in it that began last, if the one of this row ended before.
    fn behind(&self, events: &[Event], row: &Row) -> Option<u64>
        ensures { Trails result events.now row.now.end self.now.latest }
    {
        if row.ends_before(self.latest) {
            begun_at(events, self.latest)
        } else {
            None
        }
    }

    /// Whether the operation stands in it.
    fn has_taken(&self, id: u64) -> bool
        ensures { IsTrue result ↔ (slice_get self.now.taken.items id ≡ Some true) }
    {
        self.taken.get(id as usize).copied().unwrap_or(false)
    }

    /// Notes that the operation stands in it, and where it begins.
    fn mark(&mut self, id: u64, begin: usize)
        ensures taken { self.new.taken.items ≡ slice_set self.old.taken.items id true }
        ensures latest { self.new.latest ≡ max self.old.latest begin }
        ensures world { self.new.world ≡ self.old.world }
    {
        if let Some(taken) = self.taken.get_mut(id as usize) {
            *taken = true;
        }
        self.latest = self.latest.max(begin);
    }
}

/// The first fault of the order for the history of this table.
fn fault_in(
    alloc: Global,
    events: &[Event],
    table: &Table,
    order: &[u64],
    hash: HashKind,
) -> Result<Option<OrderFault>, Refusal>
    requires { Records events.now table.now }
    ensures found { IfOk result (λ fault. Judges (hash_of hash) events.now order.now fault) }
    ensures only_memory { IsOkUnless result Refusal.Memory }
{
    let mut replay = Replay::new(alloc, table.rows.len())?;
    for id in order {
        if let Some(fault) = replay.take(events, table, *id, hash)? {
            return Ok(Some(fault));
        }
    }
    match first_missing(events, table, &replay.taken) {
        Some(id) => Ok(Some(OrderFault::Missing { id })),
        None => Ok(None),
    }
}

/// The first operation that was answered and isn't among the taken.
fn first_missing(events: &[Event], table: &Table, taken: &[bool]) -> Option<u64>
    requires { length taken.now ≡ vec_len table.now.rows }
    ensures { FindsUnmarked events.now table.now taken.now result }
{
    for (id, row) in table.rows.iter().enumerate() {
        if !taken[id] && is_answer(reply_at(events, row.end)) {
            return Some(id as u64);
        }
    }
    None
}

/// The operation that begins at this place, if one does.
fn begun_at(events: &[Event], place: usize) -> Option<u64>
    ensures { result ≡ begun_at events.now place }
{
    match events.get(place)? {
        Event::Begin { id, .. } => Some(*id),
        Event::End { .. } => None,
    }
}

/// Whether it is the reply that no slot was free.
fn is_refusal(reply: Option<&Reply>) -> bool
    ensures { IsTrue result ↔ (option_copied reply.entry ≡ Some Reply.NoSlots) }
{
    matches!(reply, Some(Reply::NoSlots))
}

/// Whether it is another reply than that no slot was free.
fn is_answer(reply: Option<&Reply>) -> bool
    ensures { IsTrue result ↔ IsAnswer (option_copied reply.entry) }
{
    match reply {
        None | Some(Reply::NoSlots) => false,
        Some(_) => true,
    }
}

/// The reply that is told, if one is and it isn't this.
fn differing<'a>(told: Option<&'a Reply>, reply: &Reply) -> Option<&'a Reply>
    ensures { Differs (option_copied result) (option_copied told.entry) reply.now }
{
    let told = told?;
    if reply.is_same(told) {
        None
    } else {
        Some(told)
    }
}
