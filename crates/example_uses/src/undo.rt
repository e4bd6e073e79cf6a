//! Undo: before each change the sheet is frozen, and to undo is to restore it from that copy.

use ctrie_map::{Handle, HashKind, Map, MapError};
use std::alloc::Global;

/// This many handles may be open: a restore takes one more for the moment.
const MOST_HANDLES: u32 = 255;

/// A sheet of numbered cells, and the copies to which it can go back.
#[derive(Drop)]
struct Sheet {
    map: Map,
    cells: Handle,
    before: Vec<Handle>,
}

impl Sheet {
    fn new(alloc: Global, slots: u32) -> Result<Sheet, MapError> {
        Ok(Sheet {
            map: Map::new(alloc, slots, HashKind::Wide)?,
            cells: Handle::first(),
            before: Vec::new(alloc),
        })
    }

    /// Sets a cell, so that it can be undone. Where that is refused there is nothing to undo.
    fn set(&mut self, cell: u64, value: u64) -> Result<(), MapError> {
        if self.map.handles() >= MOST_HANDLES {
            return Err(MapError::HandlesFull);
        }
        let copy = self.map.freeze(self.cells)?;
        if self.before.push(copy).is_err() {
            let _ = self.map.close(copy);
            return Err(MapError::Memory);
        }
        match self.map.put(self.cells, cell, value) {
            Ok(_) => Ok(()),
            Err(error) => {
                let _ = self.before.pop();
                let _ = self.map.close(copy);
                Err(error)
            }
        }
    }

    /// Goes back by one change, if there is one. Where the restore is refused, nothing has changed; where the close is, it has gone
    /// back all the same.
    fn undo(&mut self) -> Result<bool, MapError> {
        let Some(copy) = self.before.last().copied() else {
            return Ok(false);
        };
        self.map.restore(self.cells, copy)?;
        let _ = self.before.pop();
        self.map.close(copy)?;
        Ok(true)
    }

    /// Writes the cells and how many slots are free.
    fn tell<R: Print>(&self, rt: &R, what: &str) -> Result<(), MapError> {
        let cells = self.map.entries(self.cells)?;
        let free = self.map.free();
        let _ = print!(rt; "{what}:");
        for (cell, value) in cells.as_slice() {
            let _ = print!(rt; " {cell}={value}");
        }
        let _ = println!(rt; " ({free} slots free)");
        Ok(())
    }
}

/// A few changes, undone one by one.
pub(crate) fn run<R: Print + AllocGlobal>(rt: &R) -> Result<(), MapError> {
    let mut sheet = Sheet::new(rt.alloc(), 64)?;
    sheet.tell(rt, "new")?;
    sheet.set(1, 10)?;
    sheet.set(2, 20)?;
    sheet.set(1, 11)?;
    sheet.tell(rt, "three changes")?;
    sheet.undo()?;
    sheet.tell(rt, "one undone")?;
    sheet.undo()?;
    sheet.undo()?;
    sheet.tell(rt, "all undone")?;
    if !sheet.undo()? {
        let _ = println!(rt; "nothing to undo");
    }
    Ok(())
}
