//! An arena at work.

ghost use Rattle.std.specs.Prelude.{◌≡◌, ◌≤◌, [], length, IfOk, OnOk};
ghost use Rattle.slot_arena.specs.Heaps.{refs_of_node};
ghost use Rattle.slot_arena.specs.Arenas.{AreLive};

use crate::builders::ENTRIES;
use ctrie_base::Refusal;
use nodes::renewed;
use slot_arena::{Arena, Node, Ref};
use std::alloc::Global;

/// How many slots stay free.
pub(crate) const SPARE: u32 = 4;

/// More births than these are never drawn here.
pub(crate) const MOST_BIRTHS: u64 = 1 << 40;

/// A single under this key.
pub(crate) fn single(key: u32) -> Node
    ensures { refs_of_node result ≡ [] }
{
    Node::Single {
        key: u64::from(key),
        value: 0,
    }
}

/// A branch of these entries.
fn branch(entries: &[Ref]) -> Node
    requires { length entries.now ≤ 32 }
    ensures { refs_of_node result ≡ entries.now }
{
    renewed(0xFFFF, entries)
}

/// An arena of this many slots with singles in all but a few, and the references to them.
pub(crate) fn new_arena(alloc: Global, slots: u32) -> Result<(Arena, Vec<Ref>), Refusal>
    ensures { IfOk result (λ made. AreLive made.0.heap made.1.items) }
{
    let mut arena = Arena::new(alloc, slots)?;
    let mut refs = Vec::new(alloc);
    for key in SPARE..slots {
        add_single(&mut arena, &mut refs, key)?;
    }
    Ok((arena, refs))
}

/// Makes a single more, where there is a slot for it.
fn add_single(arena: &mut Arena, refs: &mut Vec<Ref>, key: u32) -> Result<(), Refusal>
    requires { AreLive arena.old.heap refs.old.items }
    ensures { OnOk result (AreLive arena.new.heap refs.new.items) }
{
    if arena.births() >= MOST_BIRTHS {
        return Ok(());
    }
    if let Some(at) = arena.make_held(single(key)) {
        refs.push(at)?;
    }
    Ok(())
}

/// Makes a branch of 16 entries and frees it, this many times, with other entries each time. Whether all
/// was done.
pub(crate) fn make_and_free(arena: &mut Arena, refs: &[Ref], count: u32) -> bool
    requires { AreLive arena.old.heap refs.now }
{
    let mut all = true;
    let mut from = 0;
    for _ in 0..count {
        if refs.len() < ENTRIES || refs.len() - ENTRIES <= from {
            from = 0;
        }
        all &= make_and_free_one(arena, refs, from);
        from += 1;
    }
    all
}

/// The same once, with the entries from this one on.
fn make_and_free_one(arena: &mut Arena, refs: &[Ref], from: usize) -> bool
    requires { AreLive arena.old.heap refs.now }
    ensures { AreLive arena.new.heap refs.now }
{
    if arena.births() >= MOST_BIRTHS || refs.len() < ENTRIES || refs.len() - ENTRIES < from {
        return false;
    }
    let Some(at) = arena.make_held(branch(&refs[from..from + ENTRIES])) else {
        return false;
    };
    arena.release(at);
    if arena.count(at) != 0 {
        return false;
    }
    arena.free(at);
    true
}
