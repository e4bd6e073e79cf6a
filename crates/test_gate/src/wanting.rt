//! Memory that is wanting: all that is given is taken, in ever smaller pieces. Each test is a process of its own, so no
//! other test meets it.

use crate::banks::Branch;
use crate::counters::Counter;
use gate::Gate;
use sharded_gate::ShardedGate;
use std::alloc::{AllocGlobal, Global};
use std::process::Abort;
use std::test::Fail;

/// How many pieces are taken at most.
const PIECES: usize = 1 << 18;

/// The size of the first piece is beyond what there is of addresses.
const LARGEST: usize = 1 << 47;

/// Takes pieces of this size until one is refused.
fn take_pieces(alloc: Global, pieces: &mut Vec<Vec<u8>>, size: usize) {
    for _ in pieces.len()..PIECES {
        let Ok(piece) = Vec::with_capacity(alloc, size) else {
            return;
        };
        let _ = pieces.push(piece);
    }
}

/// Takes all there is, for which this has room.
fn take_all(alloc: Global, pieces: &mut Vec<Vec<u8>>) {
    let mut size = LARGEST;
    for _ in 0..LARGEST.ilog2() {
        take_pieces(alloc, pieces, size);
        size /= 2;
    }
}

/// Without memory for a gate its object comes back.
#[test]
fn the_object_comes_back_without_memory(rt: HostRuntime) -> Result<(), Fail> {
    let mut pieces = Vec::with_capacity(rt.alloc(), PIECES)?;
    take_all(rt.alloc(), &mut pieces);
    let made = Gate::new(rt.alloc(), Counter { count: 9 }, 200);
    drop(pieces);
    let Err(counter) = made else {
        panic!(rt; "a gate takes memory")
    };
    assert_eq!(rt; counter.count, 9);
    Ok(())
}

/// Without memory for a sharded gate its shards come back.
#[test]
fn the_shards_come_back_without_memory(rt: HostRuntime) -> Result<(), Fail> {
    let mut branches = Vec::with_capacity(rt.alloc(), 2)?;
    branches.push(Branch { till: 3, vault: 0 })?;
    branches.push(Branch { till: 4, vault: 0 })?;
    let mut pieces = Vec::with_capacity(rt.alloc(), PIECES)?;
    take_all(rt.alloc(), &mut pieces);
    let made = ShardedGate::new(rt.alloc(), branches, 200);
    drop(pieces);
    let Err(branches) = made else {
        panic!(rt; "a gate takes memory")
    };
    let mut tills = 0u64;
    for branch in &branches {
        tills = tills.wrapping_add(branch.till);
    }
    assert_eq!(rt; (branches.len(), tills), (2, 7));
    Ok(())
}
