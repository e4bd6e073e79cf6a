//! What comes after each look. The main node that is looked at, or one of whose entries is, is that at the end
//! of the path.

ghost use Rattle.std.specs.Prelude.{◌≡◌, ℕ, ◌==◌, ◌&&◌, nat_le, List, [], Some, if◌then◌else◌};
ghost use Rattle.key_finding.specs.Beneath.ctrie_base.specs.Hashes.{hash_of};
ghost use Rattle.key_finding.specs.Beneath.ctrie_base.specs.Paths.{position_of};
ghost use Rattle.key_finding.specs.Beneath.ctrie_base.specs.declared.hashes.HashKind.{HashKind};
ghost use Rattle.key_finding.specs.Beneath.slot_arena.specs.Heaps.{node_at, entry_at};
ghost use Rattle.key_finding.specs.Beneath.slot_arena.specs.declared.refs.Ref.{Ref as ARef};
ghost use Rattle.key_finding.specs.Beneath.nodes.specs.Levels.{has_flag, flag_of};
ghost use Rattle.key_finding.specs.Beneath.history.specs.declared.replies.Reply.TheVariants as reply;
ghost use Rattle.key_finding.specs.Beneath.machine_model.specs.Calls.{inserts, key_of, when_found};
ghost use Rattle.key_finding.specs.Beneath.machine_model.specs.Finding.{found_so, removing, after_tomb, going_down, key_after_main, is_passable, key_after_entry, after_listed};
ghost use Rattle.key_finding.specs.Beneath.machine_model.specs.Paths.{is_below_root, depth_of};
ghost use Rattle.key_finding.specs.Beneath.machine_model.specs.Renewing.{renew_next};
ghost use Rattle.key_finding.specs.Beneath.machine_model.specs.States.{State};
ghost use Rattle.key_finding.specs.Beneath.machine_model.specs.declared.building.BuildLine.TheVariants as build;
ghost use Rattle.key_finding.specs.Beneath.machine_model.specs.declared.building.Change.TheVariants as becomes;
ghost use Rattle.key_finding.specs.Beneath.machine_model.specs.declared.finding.KeyLine.TheVariants as key;
ghost use Rattle.key_finding.specs.Beneath.machine_model.specs.declared.lines.Line.TheVariants as line;
ghost use Rattle.key_finding.specs.Beneath.machine_model.specs.declared.operations.Operation.{Operation};
ghost use Rattle.key_finding.specs.Beneath.gcas.specs.declared.swap.Swap.{Swap};
ghost use Rattle.key_finding.specs.Beneath.trie_parts.specs.Here.{at_heap};
ghost use Rattle.key_finding.specs.Beneath.trie_parts.specs.Tasks.{call_of, for_task};
ghost use Rattle.key_finding.specs.Lines.{line_entered, line_found, absent_for};

use crate::calls::{KeyReply, Todo, absent_reply, inserts, when_found};
use crate::found::{Entered, Found};
use key_change::{
    Access, Building, ChangeAt, Heap, KeyCall, MOST_ENTRIES, NodeChange, NodeRef, Ref, Site, Task,
    entry_at, entry_count, has_flag, is_below_root, node_at, position_of,
};

/// After the look at the main node: the entry of the key's flag, or the first single of a list.
#[inline(always)]
pub fn after_main(heap: &Heap, task: Task, access: Access, path: &[Ref], main: Ref) -> Found
    ensures { (state : State) (operation : Operation) (s : Swap) →
        line_found (at_heap state heap.now.heap task.hashes) path.now s main result ≡ key_after_main (at_heap state heap.now.heap task.hashes)
        (for_task task access operation) path.now main (node_at heap.now.heap main) }
{
    match node_at(heap, main) {
        Some(NodeRef::Branch { bitmap, .. }) => in_branch(task, path, bitmap),
        Some(NodeRef::Tomb { .. }) => at_tomb(access, path),
        Some(NodeRef::List { .. }) => Found::Listed { position: 0 },
        Some(NodeRef::Indirection { .. } | NodeRef::Single { .. }) => Found::Impossible,
        None => in_branch(task, path, 0),
    }
}

/// In a branch with this bitmap: the entry of the key's flag, if it has one.
#[inline(always)]
fn in_branch(task: Task, path: &[Ref], bitmap: u32) -> Found
    ensures { (state : State) (handle : ℕ) (main : ARef) (s : Swap) →
        line_found state path.now s main result ≡ (let flag = flag_of (hash_of task.hashes (key_of (call_of handle task.call))) (depth_of path.now) in
        if has_flag bitmap flag then line.Key (key.Entry path.now main (position_of flag bitmap)) else absent_for (call_of handle task.call) path.now main Site.Absent) }
{
    let flag = task.flag_at(path);
    if !has_flag(bitmap, flag) {
        return absent(task.call, Site::Absent);
    }
    Found::Entry {
        position: position_of(flag, bitmap),
    }
}

/// At a tomb, which never stands at a root: a writable operation cleans the parent first, a read-only one
/// looks at its single.
#[inline(always)]
fn at_tomb(access: Access, path: &[Ref]) -> Found
    ensures { (state : State) (main : ARef) (s : Swap) → line_found state path.now s main result ≡ after_tomb access path.now main }
{
    match access {
        Access::Writable if !is_below_root(path) => Found::Impossible,
        Access::Writable => Found::Clean,
        Access::ReadOnly => Found::Listed { position: 0 },
    }
}

/// Where the key is absent: the call makes its single for this site, or answers.
#[inline(always)]
fn absent(call: KeyCall, site: Site) -> Found
    ensures { (state : State) (path : List ARef) (main : ARef) (s : Swap) (handle : ℕ) → line_found state path s main result ≡ absent_for (call_of handle call) path main site }
{
    if !inserts(call) {
        return Found::End(absent_reply(call));
    }
    Found::Change(ChangeAt::Build(Building::Single { site, former: None }))
}

/// After the look at a branch's entry: down through an indirection, or the key or another one is found.
#[inline(always)]
pub fn after_entry(
    heap: &Heap,
    task: Task,
    access: Access,
    path: &[Ref],
    main: Ref,
    position: usize,
) -> Entered
    ensures { (state : State) (operation : Operation) (s : Swap) →
        line_entered (at_heap state heap.now.heap task.hashes) path.now s main result ≡ key_after_entry (at_heap state heap.now.heap task.hashes)
        (for_task task access operation) path.now main position (node_at heap.now.heap (entry_at heap.now.heap main position)) }
{
    let entry = entry_at(heap, main, position);
    match node_at(heap, entry) {
        Some(NodeRef::Indirection { generation, .. }) => at_indirection(
            task, access, generation, entry,
        ),
        Some(NodeRef::Single { key, value }) => {
            if key == task.call.key() {
                return Entered::Here(found(heap, task.call, path, main, position, value));
            }
            Entered::Here(absent(task.call, Site::Beside { position }))
        }
        _ => Entered::Here(Found::Impossible),
    }
}

/// At an indirection of this generation: a writable operation goes through those of its root's generation
/// alone.
#[inline(always)]
fn at_indirection(task: Task, access: Access, generation: u64, below: Ref) -> Entered
    ensures { (state : State) (operation : Operation) (path : List ARef) (main : ARef) (s : Swap) →
        line_entered state path s main result ≡ (if is_passable (for_task task access operation) generation then going_down path below else renew_next state path main []) }
{
    match access {
        Access::Writable if !task.is_start(generation) => Entered::Here(Found::Renew),
        Access::Writable | Access::ReadOnly => Entered::Down { below },
    }
}

/// After the look at a single of a list or a tomb: the key is found, or the next single is looked at, or it is
/// absent.
pub fn after_listed(
    heap: &Heap,
    task: Task,
    access: Access,
    path: &[Ref],
    main: Ref,
    position: usize,
) -> Found
    ensures { (state : State) (operation : Operation) (s : Swap) →
        line_found (at_heap state heap.now.heap task.hashes) path.now s main result ≡ after_listed (at_heap state heap.now.heap task.hashes) (for_task task access operation)
        path.now main position (node_at heap.now.heap (entry_at heap.now.heap main position)) }
{
    match node_at(heap, entry_at(heap, main, position)) {
        Some(NodeRef::Single { key, value }) => {
            if key == task.call.key() {
                return found(heap, task.call, path, main, position, value);
            }
            let singles = entry_count(heap, main);
            if position.saturating_add(1) < singles {
                return Found::Listed {
                    position: position + 1,
                };
            }
            absent_listed(task.call, singles)
        }
        _ => Found::Impossible,
    }
}

/// Where the key is absent at the end of a list of this many singles: 32 are the most.
fn absent_listed(call: KeyCall, singles: usize) -> Found
    ensures { (state : State) (path : List ARef) (main : ARef) (s : Swap) (handle : ℕ) →
        line_found state path s main result ≡ (if inserts (call_of handle call) && nat_le 32 singles then line.End reply.Crowded else absent_for (call_of handle call) path
        main Site.Absent) }
{
    if inserts(call) && MOST_ENTRIES <= singles {
        return Found::End(KeyReply::Crowded);
    }
    absent(call, Site::Absent)
}

/// Where the key stands at this position of the main node, with this value.
#[inline(always)]
fn found(heap: &Heap, call: KeyCall, path: &[Ref], main: Ref, position: usize, value: u64) -> Found
    ensures { (state : State) (hashes : HashKind) (s : Swap) (handle : ℕ) →
        line_found (at_heap state heap.now.heap hashes) path.now s main result ≡ found_so (at_heap state heap.now.heap hashes) path.now main position value
        (when_found (call_of handle call) value) }
{
    match when_found(call, value) {
        Todo::Answer(answer) => Found::End(answer),
        Todo::Set => Found::Change(ChangeAt::Build(Building::Single {
            site: Site::At { position },
            former: Some(value),
        })),
        Todo::Remove => removing(heap, path, main, position, value),
    }
}

/// Takes the key out of a branch or list.
fn removing(heap: &Heap, path: &[Ref], main: Ref, position: usize, value: u64) -> Found
    ensures { (state : State) (hashes : HashKind) (s : Swap) →
        line_found (at_heap state heap.now.heap hashes) path.now s main result ≡ removing (at_heap state heap.now.heap hashes) path.now main position value
        (node_at heap.now.heap main) }
{
    match node_at(heap, main) {
        Some(NodeRef::Branch { entries, .. }) => from_branch(path, position, value, entries.len()),
        Some(NodeRef::List { singles }) => {
            let other = entry_at(heap, main, 1usize.saturating_sub(position));
            from_list(other, position, value, singles.len())
        }
        None => from_branch(path, position, value, 0),
        _ => Found::Impossible,
    }
}

/// Takes the key out of a branch of this many entries: of two below the root the other one is looked at first.
fn from_branch(path: &[Ref], position: usize, value: u64, entries: usize) -> Found
    ensures { (state : State) (main : ARef) (s : Swap) →
        line_found state path.now s main result ≡ (if is_below_root path.now && (entries == 2) then line.Key (key.Sibling path.now main position value) else line.Build
        (build.Main path.now main (becomes.Remove position) (Some value))) }
{
    if is_below_root(path) && entries == 2 {
        return Found::Change(ChangeAt::Sibling {
            position,
            former: value,
        });
    }
    changing(NodeChange::Remove { position }, value)
}

/// Takes the key out of a list of this many singles: of two a tomb of the other one is made.
fn from_list(other: Ref, position: usize, value: u64, singles: usize) -> Found
    ensures { (state : State) (path : List ARef) (main : ARef) (s : Swap) →
        line_found state path s main result ≡ (if singles == 2 then line.Build (build.Main path main (becomes.Entomb other) (Some value)) else line.Build
        (build.Main path main (becomes.Remove position) (Some value))) }
{
    if singles == 2 {
        return changing(NodeChange::Entomb { single: other }, value);
    }
    changing(NodeChange::Remove { position }, value)
}

/// Makes the main node without the key, which had this value.
fn changing(change: NodeChange, value: u64) -> Found
    ensures { (state : State) (path : List ARef) (main : ARef) (s : Swap) → line_found state path s main result ≡ line.Build (build.Main path main change (Some value)) }
{
    Found::Change(ChangeAt::Build(Building::Main {
        change,
        former: Some(value),
    }))
}
