//! The way of a search: operations that are placed one after the other, and taken away again.

ghost use Rattle.std.specs.Prelude.{◌≡◌, ◌↔◌, ◌<◌, ℕ, List, [], Some, IfOk, OnOk, IsTrue, IsOkUnless, length, slice_set};
ghost use Rattle.std.specs.Option.{option_copied};
ghost use Rattle.ctrie_base.specs.Hashes.{hash_of};
ghost use Rattle.history.specs.declared.events.Event.{Event};
ghost use Rattle.history.specs.Orders.{IsLegal};
ghost use Rattle.history.specs.Tables.{Records};
ghost use Rattle.order_search.specs.Searching.{NoneGoesOn};
ghost use Rattle.order_search.specs.Marks.{AreMarked, HasMark, Chooses};
ghost use Rattle.order_search.specs.States.{AreFailures};
ghost use Rattle.order_search.specs.Walks.{IsWayOf, IsOpenWay, Pushes, Tries, Places, GoesBack};

use crate::choosing::{choose, lacks_answered};
use crate::failures::Failures;
use crate::worlds::{carry_out, take_back, value_before};
use ctrie_base::{HashKind, Refusal};
use history::{Event, Reply, Row, Table, World, is_order, reply_at};
use std::alloc::Global;

/// What a search has placed, and from which id on it tries what comes next.
pub(crate) struct Way {
    /// The operations that are placed, in their order.
    pub(crate) ids: Vec<u64>,
    /// What the cell of each one's call had before it, if that was on a key.
    befores: Vec<Option<u64>>,
    /// By ids, whether the operation is placed or never may be.
    taken: Vec<bool>,
    /// All operations below are so.
    low: usize,
    /// The first id that isn't tried yet.
    next: usize,
    /// The world to which the operations lead.
    world: World,
}

impl Drop for Way {
    fn drop(self) {
        let Way {
            ids: _,
            befores: _,
            taken: _,
            low: _,
            next: _,
            world: _,
        } = self;
    }
}

impl Way {
    /// The way of no operation.
    pub(crate) fn new(alloc: Global, events: &[Event], table: &Table) -> Result<Way, Refusal>
        requires { Records events.now table.now }
        ensures way { IfOk result (λ way. (hash : ℕ → ℕ) → IsWayOf hash events.now way) }
        ensures first { IfOk result (λ way. way.ids.items ≡ []) }
        ensures only_memory { IsOkUnless result Refusal.Memory }
    {
        Ok(Way {
            ids: Vec::new(alloc),
            befores: Vec::new(alloc),
            taken: refused(alloc, events, table)?,
            low: 0,
            next: 0,
            world: World::new(alloc)?,
        })
    }

    /// Whether the operations that are placed are a legal order.
    pub(crate) fn is_legal(
        &self,
        alloc: Global,
        events: &[Event],
        table: &Table,
        hash: HashKind,
    ) -> Result<bool, Refusal>
        requires known { Records events.now table.now }
        requires way { IsWayOf (hash_of hash) events.now self.now }
        ensures exact { IfOk result (λ legal. IsTrue legal ↔ IsLegal (hash_of hash) events.now self.now.ids.items) }
        ensures only_memory { IsOkUnless result Refusal.Memory }
    {
        if lacks_answered(table, self.taken.as_slice(), self.low) {
            return Ok(false);
        }
        is_order(alloc, events, self.ids.as_slice(), hash)
    }

    /// The operation that is to be tried next, after operations were taken away behind which none may stand any more. None
    /// where no order is legal.
    pub(crate) fn next_operation(
        &mut self,
        alloc: Global,
        events: &[Event],
        table: &Table,
        hash: HashKind,
        failures: &mut Failures,
    ) -> Result<Option<u64>, Refusal>
        requires known { Records events.now table.now }
        requires way { IsOpenWay (hash_of hash) events.now self.old }
        requires failures { AreFailures (hash_of hash) events.now failures.old }
        ensures tries { IfOk result (λ found. Tries found (hash_of hash) events.now self.new) }
        ensures failures { OnOk result (AreFailures (hash_of hash) events.now failures.new) }
        ensures only_memory { IsOkUnless result Refusal.Memory }
    {
        self.pass_known(events, hash, failures)?;
        let mut found = self.choice(table);
        while found.is_none() {
            self.note_failure(events, table, hash, failures)?;
            if !self.go_back(alloc, events, table, hash)? {
                return Ok(None);
            }
            found = self.choice(table);
        }
        Ok(found)
    }

    /// Passes all operations where it is known that none may come next.
    fn pass_known(
        &mut self,
        events: &[Event],
        hash: HashKind,
        failures: &Failures,
    ) -> Result<(), Refusal>
        requires way { IsOpenWay (hash_of hash) events.now self.old }
        requires failures { AreFailures (hash_of hash) events.now failures.now }
        ensures way { OnOk result (IsOpenWay (hash_of hash) events.now self.new) }
        ensures only_memory { IsOkUnless result Refusal.Memory }
    {
        if 0 < self.next {
            return Ok(());
        }
        if failures.has(self.low, self.taken.as_slice(), &mut self.world, hash)? {
            self.next = events.len();
        }
        Ok(())
    }

    /// Notes that none may come next, if that isn't known, and more than one could have come.
    fn note_failure(
        &mut self,
        events: &[Event],
        table: &Table,
        hash: HashKind,
        failures: &mut Failures,
    ) -> Result<(), Refusal>
        requires known { Records events.now table.now }
        requires way { IsOpenWay (hash_of hash) events.now self.old }
        requires failures { AreFailures (hash_of hash) events.now failures.old }
        requires none { NoneGoesOn (hash_of hash) events.now self.old.ids.items }
        ensures failures { OnOk result (AreFailures (hash_of hash) events.now failures.new) }
        ensures same { OnOk result (self.new ≡ self.old) }
        ensures only_memory { IsOkUnless result Refusal.Memory }
    {
        if events.len() <= self.next {
            return Ok(());
        }
        if !self.had_choice(table) {
            return Ok(());
        }
        failures.note(self.low, self.taken.as_slice(), &mut self.world, hash)?;
        Ok(())
    }

    /// Whether more than one operation may come next.
    fn had_choice(&self, table: &Table) -> bool
        requires size { length self.now.taken.items ≡ length table.now.rows.items }
        requires low { (id : ℕ) → id < self.now.low → HasMark self.now.taken.items id }
    {
        let taken = self.taken.as_slice();
        match choose(table, taken, self.low, 0) {
            Some(first) => {
                choose(table, taken, self.low, (first as usize).saturating_add(1)).is_some()
            }
            None => false,
        }
    }

    /// The operation that is to be tried next behind those that are placed, if there is one.
    fn choice(&self, table: &Table) -> Option<u64>
        requires size { length self.now.taken.items ≡ length table.now.rows.items }
        requires low { (id : ℕ) → id < self.now.low → HasMark self.now.taken.items id }
        ensures { (history : List Event) → Records history table.now → Chooses result history self.now.taken.items self.now.next }
    {
        choose(table, self.taken.as_slice(), self.low, self.next)
    }

    /// Takes the last operation away, if there is one. None may stand behind it.
    fn go_back(
        &mut self,
        alloc: Global,
        events: &[Event],
        table: &Table,
        hash: HashKind,
    ) -> Result<bool, Refusal>
        requires known { Records events.now table.now }
        requires way { IsWayOf (hash_of hash) events.now self.old }
        requires none { NoneGoesOn (hash_of hash) events.now self.old.ids.items }
        ensures back { IfOk result (λ back. GoesBack back (hash_of hash) events.now self.old self.new) }
        ensures shorter { IfOk result (λ back. IsTrue back → length self.new.ids.items < length self.old.ids.items) }
        ensures only_memory { IsOkUnless result Refusal.Memory }
    {
        let Some(id) = self.ids.pop() else {
            return Ok(false);
        };
        let before = self.befores.pop().unwrap_or(None);
        set_mark(&mut self.taken, id, false);
        self.low = self.low.min(id as usize);
        self.next = (id as usize).saturating_add(1);
        take_back(
            alloc,
            &mut self.world,
            table,
            self.ids.as_slice(),
            id,
            before,
            hash,
        )?;
        Ok(true)
    }

    /// Places the operation if it has an effect with the reply that was told, if one was. Else it is passed.
    pub(crate) fn place(
        &mut self,
        alloc: Global,
        events: &[Event],
        table: &Table,
        id: u64,
        hash: HashKind,
    ) -> Result<bool, Refusal>
        requires known { Records events.now table.now }
        requires may { Tries (Some id) (hash_of hash) events.now self.old }
        ensures places { IfOk result (λ fits. Places fits (hash_of hash) events.now self.new) }
        ensures only_memory { IsOkUnless result Refusal.Memory }
    {
        let Some(row) = table.row(id) else {
            return Ok(false);
        };
        let before = value_before(&mut self.world, &row, hash)?;
        let told = reply_at(events, row.end);
        if carry_out(&mut self.world, &row, told, hash)? {
            self.push(id, before)?;
            return Ok(true);
        }
        self.next = (id as usize).saturating_add(1);
        take_back(
            alloc,
            &mut self.world,
            table,
            self.ids.as_slice(),
            id,
            before,
            hash,
        )?;
        Ok(false)
    }

    /// Notes that the operation is placed.
    fn push(&mut self, id: u64, before: Option<u64>) -> Result<(), Refusal>
        ensures pushes { OnOk result (Pushes self.old self.new id before) }
        ensures only_memory { IsOkUnless result Refusal.Memory }
    {
        self.ids.push(id)?;
        self.befores.push(before)?;
        set_mark(&mut self.taken, id, true);
        self.low = first_unmarked(self.taken.as_slice(), self.low);
        self.next = 0;
        Ok(())
    }
}

/// By ids, which operations were refused for want of slots.
fn refused(alloc: Global, events: &[Event], table: &Table) -> Result<Vec<bool>, Refusal>
    requires { Records events.now table.now }
    ensures marks { IfOk result (λ taken. AreMarked events.now [] taken.items) }
    ensures only_memory { IsOkUnless result Refusal.Memory }
{
    let mut taken = Vec::new(alloc);
    for id in 0..table.rows.len() {
        taken.push(is_refusal(reply_at(events, table.rows[id].end)))?;
    }
    Ok(taken)
}

/// Whether it is the reply that no slot was free.
fn is_refusal(reply: Option<&Reply>) -> bool
    ensures { IsTrue result ↔ (option_copied reply.entry ≡ Some Reply.NoSlots) }
{
    matches!(reply, Some(Reply::NoSlots))
}

/// Marks the operation, or takes its mark away.
fn set_mark(taken: &mut Vec<bool>, id: u64, mark: bool)
    ensures { taken.new.items ≡ slice_set taken.old.items id mark }
{
    if let Some(old) = taken.get_mut(id as usize) {
        *old = mark;
    }
}

/// The first id from `low` on that has no mark.
fn first_unmarked(taken: &[bool], low: usize) -> usize
    ensures { (id : ℕ) → ((x : ℕ) → x < low → HasMark taken.now x) → id < result → HasMark taken.now id }
{
    for id in low..taken.len() {
        if !taken[id] {
            return id;
        }
    }
    low.max(taken.len())
}
