//! Calls that run alone, carried out at once: where nothing stands in the way of one, what its steps come to is done without them.

ghost use Rattle.std.specs.Prelude.{◌≡◌, ◌≤◌, ◌<◌, ◌+◌, ◌*◌, ℕ, false, true, length, None, IfNone, IfSome, IsTrue};
ghost use Rattle.history.specs.declared.replies.Reply.{Reply as AReply};
ghost use Rattle.machine_model.specs.Calls.{changed_reply, inserts, needs_writable, value_of};
ghost use Rattle.machine_model.specs.Machine.{is_busy};
ghost use Rattle.machine_model.specs.Contents.{most_levels};
ghost use Rattle.slot_arena.specs.Heaps.{entries_of, main_at, node_at};
ghost use Rattle.slot_arena.specs.declared.refs.Ref.{Ref as ARef};
ghost use Rattle.machine_core.specs.Beneath.key_finding.specs.Replies.{reply_of};
ghost use Rattle.machine_core.specs.Beneath.proof_straight.specs.Places.{Leaves};
ghost use Rattle.machine_core.specs.Beneath.snapshot.specs.Tasks.{call_of as copy_call};
ghost use Rattle.machine_core.specs.Beneath.trie_parts.specs.Tasks.{call_of};
ghost use Rattle.machine_core.specs.Changing.{IsAnswer, IsDeed, IsPut, IsRemoval, IsRemoving, looks_at, value_in};
ghost use Rattle.machine_core.specs.Descending.{IsHere};
ghost use Rattle.machine_core.specs.Keeping.{IsCore};
ghost use Rattle.machine_core.specs.Seen.{seen};
ghost use Rattle.machine_core.specs.Straight.{CarriesOutForAny, CarriesThere, IsClear, IsReached, MayBegin};

use crate::calls::program_of;
use crate::changing::{Deed, deed_of, more_looks, put_single, take_out};
use crate::copying::{clear, close, decided_main, freeze, snapshot};
use crate::descending::{Entry, Place, look_down};
use crate::pairing::put_beside;
use crate::parts::Parts;
use crate::renewing::{look_past, renew_down};
use crate::settling::count_call;
use epochs::Heap;
use history::{Call, Reply};
use machine_model::RootWord;
use running::{CopyCall, KeyCall, KeyReply, Program, entries_at, generation_at, key_reply};
use slot_arena::Ref;

/// No call that is carried out at once takes more slots, but for those with which it renews branches on its way down.
const MOST_MADE: u32 = 32;

/// Nor more steps.
const MOST_STEPS: u64 = 4096;

/// Carries the call out, or gives none, and nothing has changed: which of the two no clause says.
pub fn at_once(parts: &mut Parts, call: Call) -> Option<Reply>
    requires core { IsCore parts.old }
    requires rest { is_busy (seen parts.old) ≡ false }
    requires allowed { MayBegin (seen parts.old) call }
    ensures done { IfSome result (λ reply. CarriesOutForAny (seen parts.old) call reply (seen parts.new)) }
    ensures none { IfNone result (parts.new ≡ parts.old) }
    ensures core { IsCore parts.new }
{
    let handle = call.handle();
    match program_of(call) {
        Program::Key(asked) => change_at_once(parts, handle, asked),
        Program::Copy(copy) => copy_at_once(parts, handle, copy),
        Program::Close => close_at_once(parts, handle),
        Program::Walk(_) => None,
    }
}

/// The same of a call on one key.
fn change_at_once(parts: &mut Parts, handle: u16, call: KeyCall) -> Option<Reply>
    requires core { IsCore parts.old }
    requires rest { is_busy (seen parts.old) ≡ false }
    requires allowed { MayBegin (seen parts.old) (call_of handle call) }
    ensures done { IfSome result (λ reply. CarriesOutForAny (seen parts.old) (call_of handle call) reply (seen parts.new)) }
    ensures none { IfNone result (parts.new ≡ parts.old) }
    ensures core { IsCore parts.new }
{
    let root = clear_root(parts, handle)?;
    let key = call.key();
    let Some(place) = look_down(&parts.heap, root, parts.key_hash(key), key) else {
        return renew_at_once(parts, handle, call, root);
    };
    let deed = deed_of(call, place.entry);
    let more = looks_before(&parts.heap, &place, &deed)?;
    let reply = do_deed(parts, root, key, place, deed, more);
    Some(key_reply(reply))
}

/// The same, where branches are to be renewed on the way down.
#[inline(never)]
fn renew_at_once(parts: &mut Parts, handle: u16, call: KeyCall, root: Ref) -> Option<Reply>
    requires core { IsCore parts.old }
    requires rest { is_busy (seen parts.old) ≡ false }
    requires allowed { MayBegin (seen parts.old) (call_of handle call) }
    requires clear { IsClear (seen parts.old) handle root }
    ensures done { IfSome result (λ reply. CarriesOutForAny (seen parts.old) (call_of handle call) reply (seen parts.new)) }
    ensures none { IfNone result (parts.new ≡ parts.old) }
    ensures core { IsCore parts.new }
{
    if !writes(call) {
        return None;
    }
    let key = call.key();
    let place = look_past(&parts.heap, root, parts.key_hash(key), key)?;
    let deed = deed_of(call, place.entry);
    if !can_renew_to(&parts.heap, &place) || !leaves_two(&parts.heap, &place, &deed) {
        return None;
    }
    let place = renew_down(parts, root, key, place);
    let reply = do_deed(parts, root, key, place, deed, 0);
    Some(key_reply(reply))
}

/// Whether the call may change a map.
fn writes(call: KeyCall) -> bool
    ensures { (handle : ℕ) → result ≡ needs_writable (call_of handle call) }
{
    match call {
        KeyCall::Get { .. } => false,
        KeyCall::Put { .. }
        | KeyCall::PutIfAbsent { .. }
        | KeyCall::Replace { .. }
        | KeyCall::ReplaceIf { .. }
        | KeyCall::Remove { .. }
        | KeyCall::RemoveIf { .. } => true,
    }
}

/// Whether enough slots are free for a change at the place, and to renew the branches of all levels above it.
fn can_renew_to(heap: &Heap, place: &Place) -> bool
    requires { place.now.depth < most_levels }
    ensures { IsTrue result → 33 * place.now.depth + 32 ≤ length heap.now.heap.free }
{
    heap.free_slots() >= 33 * place.depth as u32 + MOST_MADE
}

/// Whether the call, if it takes its key out, leaves two entries at least.
fn leaves_two(heap: &Heap, place: &Place, deed: &Deed) -> bool
    ensures { IsTrue result → IsRemoving deed.now → 3 ≤ length (entries_of (node_at heap.now.heap place.now.main)) }
{
    match deed {
        Deed::Removes { .. } => entries_at(heap, place.main).len() >= 3,
        _ => true,
    }
}

/// How many entries more are looked at before the deed is done; none where it can't be.
#[inline(always)]
fn looks_before(heap: &Heap, place: &Place, deed: &Deed) -> Option<u64>
    requires main { place.now.main ≡ main_at heap.now.heap place.now.indirection }
    requires here { (key : ℕ) × IsHere heap.now.heap place.now.main place.now.flag key place.now.position place.now.entry }
    ensures { IfSome result (λ more. IsRemoving deed.now → (more ≤ 1) × Leaves heap.now.heap place.now.depth place.now.indirection place.now.position more) }
{
    match deed {
        Deed::Removes { .. } => more_looks(heap, place),
        _ => Some(0),
    }
}

/// What is done of a call on the key at the place, after this many looks more where it takes its key out.
#[inline(always)]
fn do_deed(parts: &mut Parts, root: Ref, key: u64, place: Place, deed: Deed, more: u64) -> KeyReply
    requires there { IsReached parts.old root key place (λ call. IsDeed call place.entry deed) }
    requires leaves { IsRemoving deed → (more ≤ 1) × Leaves parts.old.heap.heap place.depth place.indirection place.position more }
    ensures { CarriesThere parts.old root key place (λ call. IsDeed call place.entry deed) (λ call. reply_of result) parts.new }
{
    match deed {
        Deed::Answers(answer) => {
            leave(parts, place);
            answer
        }
        Deed::Puts { value, reply } => {
            put(parts, key, value, place);
            reply
        }
        Deed::Removes { reply } => {
            remove(parts, place, more);
            reply
        }
        Deed::Parts { value, reply } => {
            part(parts, root, key, value, place);
            reply
        }
    }
}

/// The same of a call that copies a map or empties it.
fn copy_at_once(parts: &mut Parts, handle: u16, call: CopyCall) -> Option<Reply>
    requires core { IsCore parts.old }
    requires rest { is_busy (seen parts.old) ≡ false }
    requires allowed { MayBegin (seen parts.old) (copy_call handle call) }
    ensures done { IfSome result (λ reply. CarriesOutForAny (seen parts.old) (copy_call handle call) reply (seen parts.new)) }
    ensures none { IfNone result (parts.new ≡ parts.old) }
    ensures core { IsCore parts.new }
{
    let root = clear_root(parts, handle)?;
    let main = decided_main(&parts.heap, root)?;
    match call {
        CopyCall::Freeze => Some(freeze(parts, handle, root, main)),
        CopyCall::Snapshot => Some(snapshot(parts, handle, root, main)),
        CopyCall::Clear => Some(clear(parts, handle, root, main)),
    }
}

/// The same of a close.
fn close_at_once(parts: &mut Parts, handle: u16) -> Option<Reply>
    requires core { IsCore parts.old }
    requires rest { is_busy (seen parts.old) ≡ false }
    requires allowed { MayBegin (seen parts.old) (Call.Close handle) }
    ensures done { IfSome result (λ reply. CarriesOutForAny (seen parts.old) (Call.Close handle) reply (seen parts.new)) }
    ensures none { IfNone result (parts.new ≡ parts.old) }
    ensures core { IsCore parts.new }
{
    if parts.limits.steps.saturating_sub(parts.steps) < 2 {
        return None;
    }
    Some(close(parts, handle))
}

/// The root of the handle, where no offer stands over it, and enough slots are free and steps left.
fn clear_root(parts: &Parts, handle: u16) -> Option<Ref>
    ensures { IfSome result (λ root. IsClear (seen parts.now) handle root) }
{
    let steps = parts.limits.steps.saturating_sub(parts.steps);
    if parts.heap.free_slots() < MOST_MADE || steps < MOST_STEPS {
        return None;
    }
    match parts.word(handle) {
        RootWord::Plain(root) => Some(root),
        RootWord::Offer(_) => None,
    }
}

/// Puts the key with this value at the place.
#[inline(always)]
fn put(parts: &mut Parts, key: u64, value: u64, place: Place)
    requires there { (root : ARef) × IsReached parts.old root key place (λ call. IsPut call place.entry) }
    ensures { (root : ARef) → CarriesThere parts.old root key place (λ call. IsPut call place.entry × (value ≡ value_of call))
        (λ call. changed_reply call (value_in place.entry)) parts.new }
{
    let Place { depth, entry, .. } = place;
    put_single(&mut parts.heap, place, key, value);
    count_call(parts, 4 * depth as u64 + looks_at(entry) + 13);
}

/// Puts the key with this value beside the single of another key.
fn part(parts: &mut Parts, root: Ref, key: u64, value: u64, place: Place)
    requires there { IsReached parts.old root key place (λ call. inserts call ≡ true) }
    requires other { place.entry ≡ Entry.Other }
    ensures { CarriesThere parts.old root key place (λ call. (inserts call ≡ true) × (value ≡ value_of call)) (λ call. changed_reply call None) parts.new }
{
    let Place { depth, .. } = place;
    let generation = generation_at(&parts.heap, root);
    let hashes = parts.limits.hash;
    let levels = put_beside(&mut parts.heap, hashes, generation, place, key, value);
    count_call(parts, 4 * depth as u64 + 2 * levels + 16);
}

/// Takes the key out; this many entries more are looked at to see that more than a single is left.
fn remove(parts: &mut Parts, place: Place, more: u64)
    requires there { (root : ARef) × (key : ℕ) × IsReached parts.old root key place (λ call. IsRemoval call place.entry) }
    requires few { more ≤ 1 }
    requires leaves { Leaves parts.old.heap.heap place.depth place.indirection place.position more }
    ensures { (root : ARef) (key : ℕ) → CarriesThere parts.old root key place (λ call. IsRemoval call place.entry) (λ call. changed_reply call (value_in place.entry)) parts.new }
{
    let Place { depth, .. } = place;
    take_out(&mut parts.heap, place);
    count_call(parts, 4 * depth as u64 + more + 13);
}

/// Leaves the key as it is.
fn leave(parts: &mut Parts, place: Place)
    requires there { (root : ARef) × (key : ℕ) × (answer : AReply) × IsReached parts.old root key place (λ call. IsAnswer call place.entry answer) }
    ensures { (root : ARef) (key : ℕ) (answer : AReply) → CarriesThere parts.old root key place (λ call. IsAnswer call place.entry answer) (λ call. answer) parts.new }
{
    let Place { depth, entry, .. } = place;
    count_call(parts, 4 * depth as u64 + looks_at(entry) + 6);
}

/// How many entries are looked at where this stands for the key.
fn looks_at(entry: Entry) -> u64
    ensures value { result ≡ looks_at entry }
    ensures few { result ≤ 1 }
{
    match entry {
        Entry::Vacant => 0,
        Entry::Own(_) | Entry::Other => 1,
    }
}
