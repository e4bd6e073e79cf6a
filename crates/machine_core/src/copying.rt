//! Calls that copy a map, empty it or take its handle away, carried out at once.

ghost use Rattle.std.specs.Prelude.{◌≡◌, ◌+◌, ◌≤◌, false, IfSome};
ghost use Rattle.machine_model.specs.Machine.{is_busy};
ghost use Rattle.machine_core.specs.Keeping.{IsCore};
ghost use Rattle.machine_core.specs.Rooting.{IsOverDecided};
ghost use Rattle.machine_core.specs.Seen.{seen};
ghost use Rattle.machine_core.specs.Straight.{CarriesForAny, IsClear, MayBegin};

use crate::descending::is_decided;
use crate::drafting::make;
use crate::parts::Parts;
use crate::rooting::{make_root, swap_root, take_away};
use crate::settling::count_call;
use arrayvec::ArrayVec;
use epochs::Heap;
use history::{Call, Reply};
use machine_model::Descriptor;
use running::node_at;
use slot_arena::{Node, NodeRef, Ref};

/// The main node of a root, where it is decided.
pub fn decided_main(heap: &Heap, root: Ref) -> Option<Ref>
    ensures { IfSome result (λ main. IsOverDecided heap.now.heap root main) }
{
    match node_at(heap, root) {
        Some(NodeRef::Indirection { main, .. }) => {
            if is_decided(heap, *main) {
                Some(*main)
            } else {
                None
            }
        }
        _ => None,
    }
}

/// Freezes the map of a handle over this root and its main node.
pub fn freeze(parts: &mut Parts, handle: u16, root: Ref, main: Ref) -> Reply
    requires core { IsCore parts.old }
    requires rest { is_busy (seen parts.old) ≡ false }
    requires allowed { MayBegin (seen parts.old) (Call.Freeze handle) }
    requires clear { IsClear (seen parts.old) handle root }
    requires over { IsOverDecided parts.old.heap.heap root main }
    ensures { CarriesForAny parts.old (Call.Freeze handle) result parts.new }
{
    let opened = parts.handles.least_free();
    let successor = make_root(parts, main);
    let offer = Descriptor {
        operation: parts.begun,
        attempt: 1,
        root,
        expected: main,
        successor,
        second: None,
        opens: Some(opened),
    };
    swap_root(parts, handle, &offer, &[successor]);
    count_call(parts, 10);
    Reply::Opened(opened)
}

/// Opens a writable copy of the map of a handle over this root and its main node.
pub fn snapshot(parts: &mut Parts, handle: u16, root: Ref, main: Ref) -> Reply
    requires core { IsCore parts.old }
    requires rest { is_busy (seen parts.old) ≡ false }
    requires allowed { MayBegin (seen parts.old) (Call.Snapshot handle) }
    requires clear { IsClear (seen parts.old) handle root }
    requires over { IsOverDecided parts.old.heap.heap root main }
    ensures { CarriesForAny parts.old (Call.Snapshot handle) result parts.new }
{
    let opened = parts.handles.least_free();
    let successor = make_root(parts, main);
    let second = make_root(parts, main);
    let offer = Descriptor {
        operation: parts.begun,
        attempt: 1,
        root,
        expected: main,
        successor,
        second: Some(second),
        opens: Some(opened),
    };
    swap_root(parts, handle, &offer, &[successor, second]);
    count_call(parts, 11);
    Reply::Opened(opened)
}

/// Empties the map of a handle over this root and its main node.
pub fn clear(parts: &mut Parts, handle: u16, root: Ref, main: Ref) -> Reply
    requires core { IsCore parts.old }
    requires rest { is_busy (seen parts.old) ≡ false }
    requires allowed { MayBegin (seen parts.old) (Call.Clear handle) }
    requires clear { IsClear (seen parts.old) handle root }
    requires over { IsOverDecided parts.old.heap.heap root main }
    ensures { CarriesForAny parts.old (Call.Clear handle) result parts.new }
{
    let branch = make(
        &mut parts.heap,
        Node::Branch {
            bitmap: 0,
            entries: ArrayVec::new(),
        },
    );
    let successor = make_root(parts, branch);
    let offer = Descriptor {
        operation: parts.begun,
        attempt: 1,
        root,
        expected: main,
        successor,
        second: None,
        opens: None,
    };
    swap_root(parts, handle, &offer, &[branch, successor]);
    count_call(parts, 11);
    Reply::Cleared
}

/// Closes a handle.
pub fn close(parts: &mut Parts, handle: u16) -> Reply
    requires core { IsCore parts.old }
    requires rest { is_busy (seen parts.old) ≡ false }
    requires allowed { MayBegin (seen parts.old) (Call.Close handle) }
    requires left { parts.old.steps + 2 ≤ parts.old.limits.steps }
    ensures { CarriesForAny parts.old (Call.Close handle) result parts.new }
{
    take_away(&mut parts.heap, &mut parts.table, handle);
    parts.handles.give_back(handle);
    count_call(parts, 2);
    Reply::Closed
}
