//! The way down along a key's hash, where nothing stands in it: through indirections of the root's generation, over decided
//! branches.

ghost use Rattle.std.specs.Prelude.{◌≡◌, ◌↔◌, IfSome, IsTrue};
ghost use Rattle.slot_arena.specs.Heaps.{prev_at};
ghost use Rattle.machine_core.specs.Descending.{EndsAt, Finds};

use crate::contents::MOST_LEVELS;
use crate::mains::position_of;
use epochs::Heap;
use nodes::has_flag;
use running::{entry_at, flag_of, main_at, node_at};
use slot_arena::{NodeRef, Prev, Ref};

/// What stands for a key in the place of its flag in a branch.
#[derive(Clone, Copy)]
pub enum Entry {
    /// Nothing.
    Vacant,
    /// Its single, with this value.
    Own(u64),
    /// The single of another key.
    Other,
}

/// Where the way down along a key's hash ends.
#[derive(Clone, Copy)]
pub struct Place {
    /// The last indirection, and how many levels below the root it stands.
    pub indirection: Ref,
    pub depth: usize,
    /// Its main node, a branch.
    pub main: Ref,
    /// The flag of the key's hash there, and its position.
    pub flag: u32,
    pub position: usize,
    pub entry: Entry,
}

/// How the way goes on after a main node.
#[derive(Clone, Copy)]
pub enum Onward {
    /// By this indirection, of this generation.
    Below { at: Ref, generation: u64 },
    /// It ends here.
    Here { position: usize, entry: Entry },
    /// Something stands in it.
    Barred,
}

/// Goes down from a root along the key's hash. None where something stands in the way.
pub fn look_down(heap: &Heap, root: Ref, hash: u64, key: u64) -> Option<Place>
    ensures { IfSome result (λ place. EndsAt heap.now.heap root hash key place) }
{
    let Some(NodeRef::Indirection { generation, .. }) = node_at(heap, root) else {
        return None;
    };
    let mut indirection = root;
    for depth in 0..MOST_LEVELS {
        let main = main_at(heap, indirection);
        let flag = flag_of(hash, depth as usize);
        match look_in(heap, main, flag, key) {
            Onward::Below {
                at,
                generation: its,
            } if its == generation => indirection = at,
            Onward::Here { position, entry } => {
                return Some(Place {
                    indirection,
                    depth: depth as usize,
                    main,
                    flag,
                    position,
                    entry,
                });
            }
            _ => return None,
        }
    }
    None
}

/// What a decided branch has for the key, whose flag is this one at its depth.
#[inline(always)]
pub fn look_in(heap: &Heap, main: Ref, flag: u32, key: u64) -> Onward
    ensures { Finds heap.now.heap main flag key result }
{
    let Some(NodeRef::Branch { bitmap, .. }) = node_at(heap, main) else {
        return Onward::Barred;
    };
    if !is_decided(heap, main) {
        return Onward::Barred;
    }
    let position = position_of(flag, bitmap);
    if !has_flag(bitmap, flag) {
        return Onward::Here {
            position,
            entry: Entry::Vacant,
        };
    }
    let at = entry_at(heap, main, position);
    match node_at(heap, at) {
        Some(NodeRef::Single { key: own, value }) if own == key => Onward::Here {
            position,
            entry: Entry::Own(value),
        },
        Some(NodeRef::Single { .. }) => Onward::Here {
            position,
            entry: Entry::Other,
        },
        Some(NodeRef::Indirection { generation, .. }) => Onward::Below { at, generation },
        _ => Onward::Barred,
    }
}

/// Whether the main node is decided.
pub fn is_decided(heap: &Heap, main: Ref) -> bool
    ensures { IsTrue result ↔ (prev_at heap.now.heap main ≡ Prev.None) }
{
    matches!(heap.stored_prev(main), Prev::None)
}
