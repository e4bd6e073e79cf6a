//! Branches, changed.

use nodes::{inserted, position_of, removed, updated};
use slot_arena::{Node, Ref};

/// How many entries the branches have.
pub(crate) const ENTRIES: usize = 16;

/// What stands in a changed branch, so that none is left out.
fn sum_of(node: &Node) -> u64 {
    match node {
        Node::Branch { bitmap, entries } => {
            let last = entries.as_slice().last().copied().unwrap_or(Ref::default());
            u64::from(*bitmap).wrapping_add(last.birth())
        }
        _ => 0,
    }
}

/// A branch of 16 entries changed by turns in three ways.
fn changed(n: u32, entries: &[Ref], bitmap: u32) -> u64 {
    let flag = 1u32 << (n % 32);
    let position = position_of(flag, bitmap);
    let entry = Ref::new(u64::from(n), 1);
    if position >= entries.len() || entries.len() != ENTRIES {
        return 0;
    }
    match n % 3 {
        0 => sum_of(&inserted(flag, bitmap, entries, entry)),
        1 => sum_of(&updated(bitmap, entries, position, entry)),
        _ => sum_of(&removed(flag, bitmap, entries, position)),
    }
}

/// This many branches; the sum of what stands in them.
pub(crate) fn branches(count: u32) -> u64 {
    let entries = [Ref::new(1, 2); ENTRIES];
    let mut sum = 0u64;
    for n in 0..count {
        sum = sum.wrapping_add(changed(n, entries.as_slice(), 0x5555_5555));
    }
    sum
}
