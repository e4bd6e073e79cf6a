//! How pairs are selected.

ghost use Rattle.std.specs.Prelude.{◌≡◌, [], ◌∷◌, OnOk};
ghost use Rattle.std.specs.BinaryHeap.{heap_items};
ghost use Rattle.machine_core.specs.Selecting.{Takes, is_wanted, least, selected};

use crate::selection::Selection;
use std::alloc::AllocError;

impl Selection {
    /// Takes a pair in, if its key comes after the cursor and it is among the least then.
    pub fn add(&mut self, key: u64, value: u64) -> Result<(), AllocError>
        ensures { OnOk result (Takes self.old ((key, value) ∷ []) self.new) }
    {
        if self.wants(key) {
            self.keep((key, value))?;
        }
        Ok(())
    }

    /// Whether the key comes after the cursor.
    fn wants(&self, key: u64) -> bool
        ensures { result ≡ is_wanted self.now (key, 0) }
    {
        match self.after {
            None => true,
            Some(last) => last < key,
        }
    }

    /// Takes a pair in, if it is among the least then.
    fn keep(&mut self, pair: (u64, u64)) -> Result<(), AllocError>
        ensures least { OnOk result (selected self.new ≡ least self.old.room (pair ∷ heap_items self.old.pairs)) }
        ensures after { self.new.after ≡ self.old.after }
        ensures room { self.new.room ≡ self.old.room }
    {
        if self.pairs.len() < self.room {
            self.pairs.push(pair)?;
            return Ok(());
        }
        let Some(greatest) = self.pairs.peek() else {
            return Ok(());
        };
        if pair >= *greatest {
            return Ok(());
        }
        let Some(_) = self.pairs.pop() else {
            unreachable!()
        };
        self.pairs.push(pair)?;
        Ok(())
    }

    /// What was selected, in ascending order.
    pub fn into_sorted(self) -> Vec<(u64, u64)>
        ensures { result.items ≡ selected self }
    {
        self.pairs.into_sorted_vec()
    }
}
