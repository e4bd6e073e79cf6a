//! The nodes of the slots: what is small stands in a cell for each slot, and the entries of branches and lists in rows of a pool.

ghost use Rattle.std.specs.Prelude.{◌≡◌, ◌<◌, ◌≤◌, length, replicate, slice_index_or, slice_set, option_map, IsSome, Some, None, IfOk};
ghost use Rattle.slot_arena.specs.Entries.{Fits, entries_after};
ghost use Rattle.slot_arena.specs.Heaps.{entries_from, with_main_word};
ghost use Rattle.slot_arena.specs.Pools.{CanGiveBack, CanPut, IsPlaced, RowStands, given_back, node_in, with_main_cell};
ghost use Rattle.slot_arena.specs.Views.{viewed};

use crate::entries::EntryChange;
use crate::nodes::{Node, NodeRef};
use crate::refs::Ref;
use crate::rows::Rows;
use std::alloc::{AllocError, Global};
use std::marker::Model;

/// A node, with the row of its entries in place of these, or none.
#[derive(Clone, Copy)]
pub(crate) enum Cell {
    /// No node: the slot isn't in use.
    Free,
    Indirection { generation: u64, main: Ref },
    Branch { bitmap: u32, row: u32 },
    Single { key: u64, value: u64 },
    Tomb { single: Ref },
    List { row: u32 },
}

const _: () = prove!(size_of::<Cell>() == 24);

/// A node for each slot that is in use. Each row is that of one cell, or spare.
pub(crate) struct StoredNodes {
    cells: Vec<Cell>,
    rows: Rows,
}

impl Drop for StoredNodes {
    fn drop(self) {
        let StoredNodes { cells: _, rows: _ } = self;
    }
}

impl Model for StoredNodes {
    ghost use Rattle.std.specs.Prelude.{List, Option, map};
    ghost use Rattle.slot_arena.specs.declared.nodes.Node.{Node};
    ghost use Rattle.slot_arena.specs.Pools.{HasRows, node_in};

    ghost Value = { List (Option Node) };

    ghost view = { λ n. map (node_in n.rows.rows) n.cells.items };

    ghost invariant = { λ n. HasRows n.cells.items n.rows };
}

impl StoredNodes {
    /// This many slots, each without a node.
    pub(crate) fn new(alloc: Global, slots: u32) -> Result<StoredNodes, AllocError>
        ensures { IfOk result (λ nodes. nodes ≡ replicate slots None) }
    {
        Ok(StoredNodes {
            cells: vec![in alloc; Cell::Free; slots as usize]?,
            rows: Rows::new(alloc, slots)?,
        })
    }

    /// The node of a slot in use.
    pub(crate) fn get(&self, slot: u32) -> NodeRef<'_>
        requires { IsSome (slice_index_or self.now slot None) }
        ensures { Some (viewed result) ≡ slice_index_or self.now slot None }
    {
        match shown(&self.rows, &self.cells[slot as usize]) {
            Some(node) => node,
            None => unreachable!(),
        }
    }

    /// The node of a slot, if it is in use.
    pub(crate) fn stored(&self, slot: u32) -> Option<NodeRef<'_>>
        ensures { option_map viewed result ≡ slice_index_or self.now slot None }
    {
        if slot as usize >= self.cells.len() {
            return None;
        }
        shown(&self.rows, &self.cells[slot as usize])
    }

    /// Puts a node into a slot that isn't in use.
    #[inline(always)]
    pub(crate) fn put(&mut self, slot: u32, node: Node)
        requires within { slot < length self.old }
        requires free { slice_index_or self.old slot None ≡ None }
        ensures { self.new ≡ slice_set self.old slot (Some node) }
    {
        self.cells[slot as usize] = place(&mut self.rows, node);
    }

    /// Puts a branch into a slot that isn't in use: its entries are what a change makes of these references.
    #[inline(always)]
    pub(crate) fn put_changed(&mut self, slot: u32, bitmap: u32, refs: &[Ref], change: &EntryChange)
        requires within { slot < length self.old }
        requires free { slice_index_or self.old slot None ≡ None }
        requires fits { Fits change.now refs.now }
        requires few { length refs.now ≤ 32 }
        ensures { self.new ≡ slice_set self.old slot (Some (Node.Branch bitmap (entries_from (entries_after change.now refs.now)))) }
    {
        let row = self.rows.put_changed(refs, change);
        self.cells[slot as usize] = Cell::Branch { bitmap, row };
    }

    /// Takes the node out of a slot.
    pub(crate) fn clear(&mut self, slot: u32)
        requires { slot < length self.old }
        ensures { self.new ≡ slice_set self.old slot None }
    {
        let before = self.cells[slot as usize];
        give_back(&mut self.rows, before);
        self.cells[slot as usize] = Cell::Free;
    }

    /// Changes the main word of an indirection.
    pub(crate) fn set_main(&mut self, slot: u32, main: Ref)
        requires { slot < length self.old }
        ensures { self.new ≡ slice_set self.old slot (option_map (with_main_word main) (slice_index_or self.old slot None)) }
    {
        set_main_word(&mut self.cells[slot as usize], main);
    }
}

/// Changes the main word of an indirection.
fn set_main_word(cell: &mut Cell, word: Ref)
    ensures { cell.new ≡ with_main_cell word cell.old }
{
    if let Cell::Indirection { main, .. } = cell {
        *main = word;
    }
}

/// The node that a cell stands for, if it does.
#[inline(always)]
fn shown<'a>(rows: &'a Rows, cell: &'a Cell) -> Option<NodeRef<'a>>
    requires { RowStands cell.now rows.now.rows }
    ensures { option_map viewed result ≡ node_in rows.now.rows cell.now }
{
    let node = match cell {
        Cell::Free => return None,
        Cell::Indirection { generation, main } => NodeRef::Indirection {
            generation: *generation,
            main,
        },
        Cell::Branch { bitmap, row } => NodeRef::Branch {
            bitmap: *bitmap,
            entries: rows.get(*row),
        },
        Cell::Single { key, value } => NodeRef::Single {
            key: *key,
            value: *value,
        },
        Cell::Tomb { single } => NodeRef::Tomb { single },
        Cell::List { row } => NodeRef::List {
            singles: rows.get(*row),
        },
    };
    Some(node)
}

/// A cell for a node, whose entries are put into a row.
#[inline(always)]
fn place(rows: &mut Rows, node: Node) -> Cell
    requires { CanPut rows.old }
    ensures { IsPlaced rows.old node result rows.new }
{
    match node {
        Node::Indirection { generation, main } => Cell::Indirection { generation, main },
        Node::Branch { bitmap, entries } => Cell::Branch {
            bitmap,
            row: rows.put(entries),
        },
        Node::Single { key, value } => Cell::Single { key, value },
        Node::Tomb { single } => Cell::Tomb { single },
        Node::List { singles } => Cell::List {
            row: rows.put(singles),
        },
    }
}

/// The row of a cell that goes, if it has one, is spare from now on.
#[inline(always)]
fn give_back(rows: &mut Rows, cell: Cell)
    requires { CanGiveBack cell rows.old }
    ensures { rows.new ≡ given_back cell rows.old }
{
    match cell {
        Cell::Branch { row, .. } | Cell::List { row } => rows.give_back(row),
        _ => {}
    }
}
