//! The nodes that a change of one key makes.

ghost use Rattle.std.specs.Prelude.{◌≡◌, ◌+◌, List};
ghost use Rattle.key_change.specs.Beneath.ctrie_base.specs.Hashes.{hash_of};
ghost use Rattle.key_change.specs.Beneath.slot_arena.specs.Heaps.{node_at, entry_at};
ghost use Rattle.key_change.specs.Beneath.nodes.specs.Builders.{pair};
ghost use Rattle.key_change.specs.Beneath.machine_model.specs.Building.{key_in, after_single, after_link};
ghost use Rattle.key_change.specs.Beneath.history.specs.declared.calls.Access.{Access};
ghost use Rattle.key_change.specs.Beneath.machine_model.specs.declared.building.BuildLine.TheVariants as build;
ghost use Rattle.key_change.specs.Beneath.machine_model.specs.declared.lines.Line.TheVariants as line;
ghost use Rattle.key_change.specs.Beneath.machine_model.specs.declared.operations.Operation.{Operation};
ghost use Rattle.key_change.specs.Beneath.machine_model.specs.Paths.{depth_of};
ghost use Rattle.key_change.specs.Beneath.machine_model.specs.States.{State};
ghost use Rattle.key_change.specs.Beneath.slot_arena.specs.declared.refs.Ref.{Ref as ARef};
ghost use Rattle.trie_parts.specs.Here.{at_heap};
ghost use Rattle.key_change.specs.Beneath.machine_model.specs.Calls.{key_of};
ghost use Rattle.trie_parts.specs.Tasks.{call_of, for_task};
ghost use Rattle.key_change.specs.Built.{build_line, built, depth_for};

use trie_parts::{
    Change as NodeChange, Heap, Node, Ref, Site, Task, changed_at, dual, entry_at, key_at,
    list_depth, parting, rung,
};

/// A step that makes a node for a change of one key. `former` is the key's value before the change.
#[derive(Clone, Copy)]
pub enum Building {
    /// Makes the new single.
    Single {
        site: Site,
        former: Option<u64>,
    },
    /// Makes the main node of the two singles, at the depth where their paths part or below all levels.
    Pair {
        position: usize,
        single: Ref,
        depth: usize,
    },
    /// Makes an indirection over the main node that was made for this depth.
    Link {
        position: usize,
        below: Ref,
        depth: usize,
    },
    /// Makes a branch for this depth whose one entry is the indirection that was made.
    Rung {
        position: usize,
        below: Ref,
        depth: usize,
    },
    /// Makes the new main node.
    Main {
        change: NodeChange,
        former: Option<u64>,
    },
}

/// The node that is made at the end of this path, for a change of this main node.
#[inline(always)]
pub(crate) fn built(heap: &Heap, task: Task, path: &[Ref], main: Ref, building: &Building) -> Node
    ensures { result ≡ built heap.now.heap task (build_line path.now main building.now) }
{
    match building {
        Building::Single { .. } => Node::Single {
            key: task.call.key(),
            value: task.call.value(),
        },
        Building::Pair {
            position,
            single,
            depth,
        } => beside(heap, task, entry_at(heap, main, *position), *depth, *single),
        Building::Link { below, .. } => Node::Indirection {
            generation: task.start(),
            main: *below,
        },
        Building::Rung { below, depth, .. } => rung(task.hash(), *depth, *below),
        Building::Main { change, .. } => changed_at(heap, main, task.flag_at(path), *change),
    }
}

/// The main node at a depth of an old single and the new one.
fn beside(heap: &Heap, task: Task, old: Ref, depth: usize, single: Ref) -> Node
    ensures { result ≡ pair task.hashes depth (hash_of task.hashes (key_in (node_at heap.now.heap old))) (hash_of task.hashes (key_of (call_of 0 task.call))) old single }
{
    let old_hash = hash_at(heap, task, old);
    dual(task.hashes, depth, old_hash, task.hash(), old, single)
}

/// The hash of a single's key.
pub(crate) fn hash_at(heap: &Heap, task: Task, single: Ref) -> u64
    ensures { result ≡ hash_of task.hashes (key_in (node_at heap.now.heap single)) }
{
    task.hashes.hash(key_at(heap, single))
}

/// The depth at which the new single and the one in whose place it is to stand part; 0 on any other line.
pub(crate) fn depth_ahead(
    heap: &Heap,
    task: Task,
    path: &[Ref],
    main: Ref,
    building: &Building,
) -> usize
    ensures { (state : State) (operation : Operation) (access : Access) →
        result ≡ depth_for (at_heap state heap.now.heap task.hashes) (for_task task access operation) (build_line path.now main building.now) }
{
    match building {
        Building::Single {
            site: Site::Beside { position },
            ..
        } => {
            let old_hash = hash_at(heap, task, entry_at(heap, main, *position));
            parting(
                old_hash,
                task.hash(),
                depth_below(path),
                list_depth(task.hashes),
            )
        }
        _ => 0,
    }
}

/// The depth one below the last indirection.
fn depth_below(path: &[Ref]) -> usize
    ensures { result ≡ depth_of path.now + 1 }
{
    path.len().max(1)
}

/// After the new single: the main node with it, or that of the two singles, which part at this depth.
pub(crate) fn after_single(site: Site, former: Option<u64>, depth: usize, made: Ref) -> Building
    ensures { (state : State) (operation : Operation) (path : List ARef) (main : ARef) → depth ≡ depth_for state operation (build.Single path main site former) →
        line.Build (build_line path main result) ≡ after_single state operation path main former site made }
{
    match site {
        Site::Absent => Building::Main {
            change: NodeChange::Insert { single: made },
            former,
        },
        Site::At { position } => Building::Main {
            change: NodeChange::Update {
                position,
                entry: made,
            },
            former,
        },
        Site::Beside { position } => Building::Pair {
            position,
            single: made,
            depth,
        },
    }
}

/// After an indirection: the topmost one goes into the main node, any other into a branch one higher.
pub(crate) fn after_link(path: &[Ref], position: usize, depth: usize, made: Ref) -> Building
    ensures { (main : ARef) → line.Build (build_line path.now main result) ≡ after_link path.now main position depth made }
{
    if depth == depth_below(path) {
        return Building::Main {
            change: NodeChange::Update {
                position,
                entry: made,
            },
            former: None,
        };
    }
    Building::Rung {
        position,
        below: made,
        depth: depth.saturating_sub(1),
    }
}
