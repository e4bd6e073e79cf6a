//! An index that is exported while it goes on changing: the export is of one moment.

use ctrie_map::{Handle, HashKind, Map, MapError};
use std::alloc::Global;

/// The account into which all others pay.
const TILL: u64 = 0;

/// Amounts by account.
#[derive(Drop)]
struct Index {
    map: Map,
    now: Handle,
}

impl Index {
    /// 20 accounts with 50 each, which make 1,000.
    fn new(alloc: Global) -> Result<Index, MapError> {
        let mut map = Map::new(alloc, 256, HashKind::Wide)?;
        let now = Handle::first();
        for account in 1..21 {
            map.put(now, account, 50)?;
        }
        Ok(Index { map, now })
    }

    /// Moves one from an account to the till. It is moved on a copy, which becomes the index when all is done: so a payment that
    /// is refused changes no amount. False where the account is empty.
    fn pay(&mut self, account: u64) -> Result<bool, MapError> {
        let next = self.map.snapshot(self.now)?;
        let moved = move_one(&mut self.map, next, account);
        if moved == Ok(true) {
            let last = self.now;
            self.now = next;
            self.map.close(last)?;
        } else {
            let _ = self.map.close(next);
        }
        moved
    }
}

/// Sets both amounts of a payment. False where there is nothing to move.
fn move_one(map: &mut Map, handle: Handle, account: u64) -> Result<bool, MapError> {
    let left = map.get(handle, account)?.unwrap_or(0).checked_sub(1);
    let paid = map.get(handle, TILL)?.unwrap_or(0).checked_add(1);
    let (Some(left), Some(paid)) = (left, paid) else {
        return Ok(false);
    };
    map.put(handle, account, left)?;
    map.put(handle, TILL, paid)?;
    Ok(true)
}

/// The sum of all amounts.
fn sum(pairs: &[(u64, u64)]) -> u64 {
    let mut sum: u64 = 0;
    for (_, amount) in pairs {
        sum = sum.saturating_add(*amount);
    }
    sum
}

/// Freezes the index, and reads the copy while amounts are moved.
pub(crate) fn run<R: Print + AllocGlobal>(rt: &R) -> Result<(), MapError> {
    let mut index = Index::new(rt.alloc())?;
    let copy = index.map.freeze(index.now)?;
    let mut exported: u64 = 0;
    for account in 1..21 {
        index.pay(account)?;
        exported = exported.saturating_add(index.map.get(copy, account)?.unwrap_or(0));
    }
    let now = index.map.entries(index.now)?;
    let then = index.map.entries(copy)?;
    let paid = index.map.get(index.now, TILL)?.unwrap_or(0);
    let _ = println!(rt; "exported {exported} while {paid} were paid");
    let _ = println!(rt;
        "the copy has {}, the index {}",
        sum(then.as_slice()),
        sum(now.as_slice())
    );
    let with_copy = index.map.free();
    index.map.close(copy)?;
    let without = index.map.free();
    let slots = index.map.slots();
    let _ = println!(rt;
        "of {slots} slots {with_copy} are free with the copy and {without} without"
    );
    Ok(())
}
