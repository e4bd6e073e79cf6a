//! How limbo is brought up to date.

ghost use Rattle.std.specs.Prelude.{◌≡◌, ℕ, ◌+◌, ◌*◌, ◌<◌, ◌≤◌, ◌++◌, [], length, All, IfSome};
ghost use Rattle.slot_arena.specs.Refs.{slot_of};
ghost use Rattle.slot_arena.specs.Tallies.{naming};
ghost use Rattle.slot_arena.specs.Arenas.{IsLive, waiting};
ghost use Rattle.epochs.specs.Rings.{all_of};
ghost use Rattle.epochs.specs.Memories.{Lists};
ghost use Rattle.epochs.specs.Settling.{IsSifted, bags_after, fresh_after};

use crate::fresh::Fresh;
use crate::ring::Ring;
use slot_arena::Arena;

/// Looks at each noted slot: one that is referred to leaves its bag, one that waits and is in no bag is
/// listed in `fresh`. That takes 3 ticks a slot, 5 for each that leaves, and 1 for each that is listed.
pub(crate) fn sift(arena: &mut Arena, bags: &mut Ring, fresh: &mut Fresh)
    requires lists { Lists arena.old bags.old.bags }
    requires empty { fresh.old.refs ≡ [] }
    requires room { length arena.old.heap.slots ≤ fresh.old.room }
    ensures heap { arena.new.heap ≡ arena.old.heap }
    ensures outside { arena.new.outside ≡ arena.old.outside }
    ensures noted { arena.new.noted ≡ [] }
    ensures sifted { IsSifted arena.old bags.old.bags bags.new.bags fresh.new.refs }
    ensures room { fresh.new.room ≡ fresh.old.room }
    ensures ticks { arena.new.ticks + bags.new.ticks + fresh.new.ticks + 5 * length (all_of bags.new.bags)
        ≡ arena.old.ticks + bags.old.ticks + fresh.old.ticks + 5 * length (all_of bags.old.bags) + 3 * length arena.old.noted + length fresh.new.refs }
{
    for _ in 0..arena.noted_len() {
        if let Some(slot) = arena.take_noted() {
            sift_one(arena, bags, fresh, slot);
        }
    }
}

/// Looks at one slot that was noted.
fn sift_one(arena: &mut Arena, bags: &mut Ring, fresh: &mut Fresh, slot: u32)
    requires within { slot < length arena.old.heap.slots }
    requires sizes { bags.old.bags.size ≡ length arena.old.heap.slots }
    requires room { length fresh.old.refs < fresh.old.room }
    requires single { naming slot (all_of bags.old.bags) ≤ 1 }
    ensures arena { arena.new ≡ record arena.old { ticks = arena.old.ticks + 1 } }
    ensures bags { bags.new.bags ≡ bags_after (waiting arena.old slot) slot bags.old.bags }
    ensures fresh { fresh.new.refs ≡ fresh_after (waiting arena.old slot) (naming slot (all_of bags.old.bags)) fresh.old.refs }
    ensures waits { IfSome (waiting arena.old slot) (λ r. (slot_of r ≡ slot) × IsLive arena.old.heap r) }
    ensures room { fresh.new.room ≡ fresh.old.room }
    ensures ticks { bags.new.ticks + fresh.new.ticks + 5 * length (all_of bags.new.bags) + length fresh.old.refs
        ≡ bags.old.ticks + fresh.old.ticks + 5 * length (all_of bags.old.bags) + 1 + length fresh.new.refs }
{
    let is_in = bags.contains(slot);
    match arena.waiting(slot) {
        Some(at) => {
            if !is_in {
                fresh.push(at);
            }
        }
        None => {
            if is_in {
                bags.leave(slot);
            }
        }
    }
}

/// Each of these slots enters the present bag, in this order.
pub(crate) fn enter_all(bags: &mut Ring, fresh: &mut Fresh)
    requires within { All (λ r. slot_of r < bags.old.bags.size) fresh.old.refs }
    requires single { (slot : ℕ) → naming slot (all_of bags.old.bags) + naming slot fresh.old.refs ≤ 1 }
    ensures bags { bags.new.bags ≡ record bags.old.bags { present = bags.old.bags.present ++ fresh.old.refs } }
    ensures refs { fresh.new.refs ≡ fresh.old.refs }
    ensures room { fresh.new.room ≡ fresh.old.room }
    ensures ticks { bags.new.ticks + fresh.new.ticks ≡ bags.old.ticks + fresh.old.ticks + 7 * length fresh.old.refs }
{
    for index in 0..fresh.len() {
        let at = fresh.get(index);
        bags.enter(at);
    }
}
