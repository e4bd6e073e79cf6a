//! A pool of rows, in which the entries of branches and lists stand.

ghost use Rattle.std.specs.Prelude.{◌≡◌, ◌<◌, ◌≤◌, ◌++◌, ◌∷◌, [], length, IfOk};
ghost use Rattle.slot_arena.specs.Entries.{Fits, entries_after};
ghost use Rattle.slot_arena.specs.Heaps.{entries_from};
ghost use Rattle.slot_arena.specs.Pools.{CanPut, IsPut, row_at};

use crate::entries::{EntryChange, joined, put_changed};
use crate::refs::Ref;
use arrayvec::ArrayVec;
use std::alloc::{AllocError, Global};
use std::marker::Model;

/// Rows of up to 32 references. A row is made only where none is spare: so memory, whose place is taken at the beginning,
/// is touched only for as many rows as were taken at once.
pub(crate) struct Rows {
    rows: Vec<ArrayVec<Ref, 32>>,
    spare: Vec<u32>,
    size: u32,
}

impl Drop for Rows {
    fn drop(self) {
        let Rows {
            rows: _,
            spare: _,
            size: _,
        } = self;
    }
}

impl Model for Rows {
    ghost use Rattle.std.specs.Prelude.{◌≤◌, length, vec_capacity};
    ghost use Rattle.slot_arena.specs.Pools.{Pool};

    ghost Value = { Pool };

    ghost view = { λ r. record { rows = r.rows.items; spare = r.spare.items; size = r.size } };

    ghost invariant = { λ r. (length r.rows.items ≤ r.size) × (r.size ≤ vec_capacity r.rows) × (r.size ≤ vec_capacity r.spare) };
}

impl Rows {
    /// No rows, with room for this many.
    pub(crate) fn new(alloc: Global, size: u32) -> Result<Rows, AllocError>
        ensures { IfOk result (λ rows. rows ≡ record { rows = []; spare = []; size = size }) }
    {
        Ok(Rows {
            rows: Vec::with_capacity(alloc, size as usize)?,
            spare: Vec::with_capacity(alloc, size as usize)?,
            size,
        })
    }

    /// What stands in a row.
    pub(crate) fn get(&self, row: u32) -> &ArrayVec<Ref, 32>
        requires { row < length self.now.rows }
        ensures { result.now ≡ row_at self.now.rows row }
    {
        &self.rows[row as usize]
    }

    /// Puts entries into a row.
    #[inline(always)]
    pub(crate) fn put(&mut self, entries: ArrayVec<Ref, 32>) -> u32
        requires { CanPut self.old }
        ensures { IsPut self.old entries result self.new }
    {
        match self.spare.pop() {
            Some(row) => {
                self.rows[row as usize] = entries;
                row
            }
            None => self.add(entries),
        }
    }

    /// Puts what a change makes of these references into a row: where one is spare they are written there at once.
    #[inline(always)]
    pub(crate) fn put_changed(&mut self, refs: &[Ref], change: &EntryChange) -> u32
        requires room { CanPut self.old }
        requires fits { Fits change.now refs.now }
        requires few { length refs.now ≤ 32 }
        ensures { IsPut self.old (entries_from (entries_after change.now refs.now)) result self.new }
    {
        match self.spare.pop() {
            Some(row) => {
                put_changed(&mut self.rows[row as usize], refs, change);
                row
            }
            None => self.add_changed(refs, change),
        }
    }

    /// Adds a row of what a change makes of these references, where none is spare. It isn't inlined, so that no call blanks a
    /// row which it doesn't need.
    #[inline(never)]
    fn add_changed(&mut self, refs: &[Ref], change: &EntryChange) -> u32
        requires none { self.old.spare ≡ [] }
        requires room { CanPut self.old }
        requires fits { Fits change.now refs.now }
        requires few { length refs.now ≤ 32 }
        ensures { IsPut self.old (entries_from (entries_after change.now refs.now)) result self.new }
    {
        let (front, back) = change.staying(refs);
        self.add(joined(front, change.coming(), back))
    }

    /// Adds a row of these entries after all others, where none is spare.
    #[inline(always)]
    fn add(&mut self, entries: ArrayVec<Ref, 32>) -> u32
        requires none { self.old.spare ≡ [] }
        requires room { CanPut self.old }
        ensures { IsPut self.old entries result self.new }
    {
        let row = self.rows.len() as u32;
        self.rows.push_reserved(entries);
        row
    }

    /// The row is spare from now on.
    pub(crate) fn give_back(&mut self, row: u32)
        requires { length self.old.spare < self.old.size }
        ensures { self.new ≡ record self.old { spare = self.old.spare ++ row ∷ [] } }
    {
        self.spare.push_reserved(row);
    }
}
