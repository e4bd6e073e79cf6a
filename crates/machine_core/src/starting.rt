//! How a machine starts.

ghost use Rattle.std.specs.Prelude.{◌≡◌, ◌↔◌, ◌+◌, ◌≤◌, ℕ, IsTrue, [], ◌∷◌, replicate, None, Some, true, IfOk, OnOk, IsOkUnless};
ghost use Rattle.slot_arena.specs.Arenas.{IsLive};
ghost use Rattle.slot_arena.specs.Refs.{ref_to};
ghost use Rattle.slot_arena.specs.Times.{times};
ghost use Rattle.epochs.specs.Limbo.{limbo_after};
ghost use Rattle.epochs.specs.Memories.{AreSizes};
ghost use Rattle.handle_table.specs.Numbers.{no_numbers, with_taken};
ghost use Rattle.machine_model.specs.States.{first_heap, first_state};
ghost use Rattle.proof_core.specs.Bounds.{AreInRange};
ghost use Rattle.machine_core.specs.Beneath.rdcss_root.specs.Tables.{new_table, with_root_in};
ghost use Rattle.machine_core.specs.Keeping.{IsKept};
ghost use Rattle.machine_core.specs.Seen.{seen};
ghost use Rattle.machine_core.specs.Starting.{AreIdle, IsIdle};
ghost use Rattle.machine_core.specs.Work.{ticks_of_a_start};

use crate::parts::{Actor, Parts};
use arrayvec::ArrayVec;
use ctrie_base::{HashKind, Refusal};
use epochs::Heap;
use handle_table::Handles;
use history::Access;
use machine_model::{Bounds, Root, RootWord};
use running::{Programs, Roots};
use slot_arena::{MOST_SLOTS, Node, Ref};
use std::alloc::{AllocError, Global};

/// How many steps a machine takes at most that lives long.
pub const LONGEST_LIFE: u64 = (1 << 45) - (1 << 21);

/// Whether the bounds are in range.
pub fn are_bounds(bounds: Bounds) -> bool
    ensures { IsTrue result ↔ AreInRange bounds }
{
    2 <= bounds.slots
        && bounds.slots <= MOST_SLOTS
        && 1 <= bounds.actors
        && bounds.actors <= 64
        && bounds.steps <= LONGEST_LIFE
}

/// A heap of this many slots, of which the first two have an empty branch and over it the root of handle 0,
/// which alone is held.
#[tactic(auto, using(crate::proofs::Starts::next_first, crate::proofs::Starts::next_second, crate::proofs::Starts::first_limbo, proof_core::proofs::Claims::one_live))]
fn first_memory(alloc: Global, slots: u32, actors: u8) -> Result<Heap, Refusal>
    requires { AreSizes slots actors }
    ensures heap { IfOk result (λ memory. memory.heap ≡ first_heap slots) }
    ensures outside { IfOk result (λ memory. memory.outside ≡ ref_to 2 1 ∷ []) }
    ensures limbo { IfOk result (λ memory. memory.limbo ≡ []) }
    ensures epoch { IfOk result (λ memory. memory.epoch ≡ 0) }
    ensures cursor { IfOk result (λ memory. memory.cursor ≡ 1) }
    ensures pins { IfOk result (λ memory. memory.pins ≡ replicate actors None) }
    ensures noted { IfOk result (λ memory. memory.noted ≡ []) }
    ensures ticks { IfOk result (λ memory. memory.ticks ≤ slots + 274) }
    ensures live { IfOk result (λ memory. IsLive memory.heap (ref_to 2 1)) }
    ensures only_memory { IsOkUnless result Refusal.Memory }
{
    let mut heap = Heap::new(alloc, slots, actors)?;
    let main = Ref::new(1, 0);
    let _ = heap.make_held(Node::Branch {
        bitmap: 0,
        entries: ArrayVec::new(),
    });
    let _ = heap.make_held(Node::Indirection {
        generation: 0,
        main,
    });
    heap.release(main);
    heap.settle();
    Ok(heap)
}

/// The handles: only 0 is open, writable over the first root, which was held before and is held still.
#[tactic(auto, using(proof_core::proofs::Claims::one_live, crate::proofs::Starts::none_ready))]
fn first_table(alloc: Global, heap: &mut Heap, actors: u8) -> Result<Roots, AllocError>
    requires outside { heap.old.outside ≡ ref_to 2 1 ∷ [] }
    requires live { IsLive heap.old.heap (ref_to 2 1) }
    requires limbo { limbo_after heap.old.heap heap.old.outside heap.old.epoch heap.old.limbo ≡ [] }
    requires settled { (heap.old.limbo ≡ []) × (heap.old.noted ≡ []) }
    ensures table { IfOk result (λ table. table ≡ with_root_in (new_table actors) 0 (Some (record { access = Access.Writable; word = RootWord.Plain (ref_to 2 1) }))) }
    ensures heap { heap.new.heap ≡ heap.old.heap }
    ensures held { (r : ℕ) → OnOk result (times r heap.new.outside ≡ times r (ref_to 2 1 ∷ [])) }
    ensures limbo { OnOk result (heap.new.limbo ≡ []) }
    ensures epochs { OnOk result ((heap.new.epoch ≡ heap.old.epoch) × (heap.new.cursor ≡ heap.old.cursor) × (heap.new.pins ≡ heap.old.pins)) }
    ensures noted { OnOk result (heap.new.noted ≡ []) }
    ensures ticks { OnOk result (heap.new.ticks ≤ heap.old.ticks + 36) }
{
    let mut table = Roots::new(alloc, actors)?;
    let root = Ref::new(2, 1);
    table.put(
        heap,
        0,
        Some(Root {
            access: Access::Writable,
            word: RootWord::Plain(root),
        }),
    );
    heap.release(root);
    heap.settle();
    Ok(table)
}

/// Handle 0 is taken, and nothing runs.
fn first_handles(alloc: Global) -> Result<Handles, AllocError>
    ensures { IfOk result (λ handles. handles ≡ with_taken no_numbers 0 true) }
{
    let mut handles = Handles::new(alloc)?;
    handles.take(0);
    Ok(handles)
}

/// An actor who runs nothing. It takes no memory.
fn idle_actor(alloc: Global, hashes: HashKind) -> Actor
    ensures { IsIdle hashes result }
{
    Actor {
        programs: Programs::new(alloc, hashes),
        under_way: None,
    }
}

/// This many of them.
fn idle_actors(alloc: Global, hashes: HashKind, actors: u8) -> Result<Vec<Actor>, AllocError>
    ensures { IfOk result (λ idle. AreIdle hashes actors idle.items) }
{
    let mut idle = Vec::with_capacity(alloc, actors as usize)?;
    for _ in 0..actors {
        idle.push(idle_actor(alloc, hashes))?;
    }
    Ok(idle)
}

/// The first state, with nothing left to settle.
#[tactic(auto, unfolding(machine_model::specs::States::first_state))]
pub fn first_parts(alloc: Global, bounds: Bounds) -> Result<Parts, Refusal>
    requires { AreInRange bounds }
    ensures first { IfOk result (λ parts. seen parts ≡ first_state bounds) }
    ensures kept { IfOk result (λ parts. IsKept parts) }
    ensures noted { IfOk result (λ parts. parts.heap.noted ≡ []) }
    ensures ticks { IfOk result (λ parts. parts.heap.ticks ≤ bounds.slots + ticks_of_a_start) }
    ensures only_memory { IsOkUnless result Refusal.Memory }
{
    let mut heap = first_memory(alloc, bounds.slots, bounds.actors)?;
    let table = first_table(alloc, &mut heap, bounds.actors)?;
    let actors = idle_actors(alloc, bounds.hash, bounds.actors)?;
    let handles = first_handles(alloc)?;
    Ok(Parts {
        limits: bounds,
        heap,
        generations: 1,
        table,
        actors,
        handles,
        steps: 0,
        begun: 0,
        alloc,
    })
}
