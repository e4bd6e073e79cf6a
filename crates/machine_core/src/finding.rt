//! The value of a key, found along its hash.

ghost use Rattle.std.specs.Prelude.{◌≡◌};
ghost use Rattle.slot_arena.specs.Heaps.{node_at};
ghost use Rattle.machine_core.specs.Beneath.proof_contents.specs.Nodes.Looking.{look_at, look_among, look_in};
ghost use Rattle.machine_core.specs.Finding.{found_from, meant};
ghost use Rattle.machine_core.specs.Seen.{seen};

use crate::contents::MOST_LEVELS;
use crate::mains::{logical_main, position_of};
use crate::parts::Parts;
use epochs::Heap;
use nodes::has_flag;
use running::{entry_at, flag_of, node_at};
use slot_arena::{NodeRef, Ref};

/// What a main node says of a key.
pub enum Found {
    /// It isn't there.
    Absent,
    /// It has this value.
    Has(u64),
    /// It may be below this indirection.
    Below(Ref),
}

/// The value of the key in the map of this root.
pub fn value_along(parts: &Parts, root: Ref, key: u64) -> Option<u64>
    ensures { result ≡ found_from (seen parts.now) root key }
{
    let hash = parts.key_hash(key);
    let mut at = root;
    for depth in 0..MOST_LEVELS {
        let main = logical_main(&parts.heap, at);
        match look_in(&parts.heap, flag_of(hash, depth as usize), key, main) {
            Found::Absent => return None,
            Found::Has(value) => return Some(value),
            Found::Below(below) => at = below,
        }
    }
    None
}

/// What a main node says of the key, whose flag is this one at its depth.
fn look_in(heap: &Heap, flag: u32, key: u64, main: Ref) -> Found
    ensures { meant result ≡ look_in (node_at heap.now.heap) flag key (node_at heap.now.heap main) }
{
    match node_at(heap, main) {
        Some(NodeRef::Branch { bitmap, .. }) => {
            if !has_flag(bitmap, flag) {
                return Found::Absent;
            }
            look_at(heap, key, entry_at(heap, main, position_of(flag, bitmap)))
        }
        Some(NodeRef::Tomb { single }) => look_at(heap, key, *single),
        Some(NodeRef::List { singles }) => look_among(heap, key, singles.as_slice()),
        _ => Found::Absent,
    }
}

/// What the first of these singles that has the key says of it.
fn look_among(heap: &Heap, key: u64, singles: &[Ref]) -> Found
    ensures { meant result ≡ look_among (node_at heap.now.heap) key singles.now }
{
    for single in singles {
        match look_at(heap, key, *single) {
            Found::Absent => {}
            found => return found,
        }
    }
    Found::Absent
}

/// What an entry says of the key.
fn look_at(heap: &Heap, key: u64, entry: Ref) -> Found
    ensures { meant result ≡ look_at key entry (node_at heap.now.heap entry) }
{
    match node_at(heap, entry) {
        Some(NodeRef::Single { key: own, value }) if own == key => Found::Has(value),
        Some(NodeRef::Indirection { .. }) => Found::Below(entry),
        _ => Found::Absent,
    }
}
