//! One call of the core below a map, from its begin to its end, and the sweep after it.

ghost use Rattle.std.specs.Prelude.{◌≡◌, ◌≢◌, ◌<◌, ◌≤◌, ◌+◌, ◌&&◌, ℕ, nat_eq, IfOk, Ok, None, true, false, [], length};
ghost use Rattle.std.specs.FinMap as map;
ghost use Rattle.history.specs.declared.replies.Reply.TheVariants as reply;
ghost use Rattle.machine_model.specs.Machine.{is_busy};
ghost use Rattle.proof_sizes.specs.Beneath.proof_alone.specs.Calls.{CanCall};
ghost use Rattle.ctrie_map.specs.Beneath.map_worlds.specs.Worlds.{world_of};
ghost use Rattle.ctrie_map.specs.Beneath.proof_obstruction_free.specs.Calls.{slots_of};
ghost use Rattle.proof_sizes.specs.Beneath.proof_alone.specs.Sweeps.{Sweeps, most_sweeps};
ghost use Rattle.ctrie_map.specs.Beneath.proof_straight.specs.Running.{Comes};
ghost use Rattle.ctrie_map.specs.Cores.{Carries, IsCalm, Leads, TakesUpTo, adds, core_denial, free_in, is_without, is_worn_out, life_left, the_actor};
ghost use Rattle.ctrie_map.specs.Costs.{work_of_call};
ghost use Rattle.ctrie_map.specs.Drafts.{is_worn_out_by};
ghost use Rattle.ctrie_map.specs.Performing.{IsChange};

use crate::errors::MapError;
use crate::reading::value_in;
use history::{Call, Reply};
use machine_core::{Core, key_fits};
use machine_model::Bounds;

/// The one actor of a map's core.
pub(crate) const ACTOR: u8 = 1;

/// How many slots the core has beside those that were asked for: 570 that any call may take, and 27 that a call which adds a
/// key may add to what a handle reaches.
pub(crate) const RESERVE: u32 = 597;

/// How many steps a call takes at most, with its begin.
const CALL_STEPS: u64 = 3_963;

/// How many steps a snapshot takes at most, with the sweep after it, but for what becomes free by it.
pub(crate) const COPY_STEPS: u64 = 144;

/// How many steps of the sweep there are at most for a slot.
const SLOT_SWEEPS: u64 = 5;

/// How many more steps are left than a call may take with the sweep after it.
pub(crate) fn life_left(core: &Core) -> u64
    requires { IsCalm core.now.state }
    ensures { result ≡ life_left core.now.state }
{
    let Bounds { slots, steps, .. } = core.limits();
    let most = CALL_STEPS + SLOT_SWEEPS * (u64::from(slots) + 1);
    steps
        .saturating_sub(core.steps_taken())
        .saturating_sub(most)
}

/// Whether no more steps are left than a call may take with the sweep after it.
pub(crate) fn is_worn_out(core: &Core) -> bool
    requires { IsCalm core.now.state }
    ensures { result ≡ is_worn_out core.now.state }
{
    life_left(core) == 0
}

/// Whether no more steps are left than so much work takes, with the slots in use that may become free by it, and a call
/// after it.
pub(crate) fn is_worn_out_by(core: &Core, work: u64) -> bool
    requires { IsCalm core.now.state }
    ensures { result ≡ is_worn_out_by work core.now.state }
{
    let slots = core.limits().slots;
    let used = u64::from(slots).saturating_sub(u64::from(core.free_slots()));
    life_left(core) <= work.saturating_add(SLOT_SWEEPS * used)
}

/// How many of the slots that were asked for are free.
pub(crate) fn free_slots(core: &Core) -> u32
    ensures { result ≡ free_in core.now.state }
{
    core.free_slots().saturating_sub(RESERVE)
}

/// Whether the handle is open, and the key has no value in its map.
fn is_without(core: &Core, handle: u16, key: u64) -> bool
    ensures { result ≡ is_without (map.get (world_of core.now.state) handle) key }
{
    matches!(value_in(core, handle, key), Ok(None))
}

/// Whether the call adds a key to a map, or a copy.
fn adds(core: &Core, call: Call) -> bool
    ensures { result ≡ adds (world_of core.now.state) call }
{
    match call {
        Call::Put { handle, key, .. } | Call::PutIfAbsent { handle, key, .. } => {
            is_without(core, handle, key)
        }
        Call::Snapshot { .. } | Call::Freeze { .. } => true,
        _ => false,
    }
}

/// Whether the call adds something, and none of the slots that were asked for is free.
fn is_full_for(core: &Core, call: Call) -> bool
    ensures { result ≡ (nat_eq (free_in core.now.state) 0 && adds (world_of core.now.state) call) }
{
    free_slots(core) == 0 && adds(core, call)
}

/// Carries a call out step by step.
fn step_through(core: &mut Core, call: Call) -> Reply
    requires { CanCall core.old.state the_actor call }
    ensures { (n : ℕ) × Comes core.old.state the_actor call n result core.new.state }
{
    proof_sizes::calls_begin();
    proof_sizes::calls_go_on();
    let Ok(_) = core.begin(ACTOR, call) else {
        unreachable!()
    };
    while core.goes_on(ACTOR) {
        let Ok(_) = core.go(ACTOR) else {
            unreachable!()
        };
    }
    let Ok(ended) = core.end(ACTOR) else {
        unreachable!()
    };
    ended.reply
}

/// Carries a call out: at once where nothing stands in its way, and else step by step.
fn carry_out(core: &mut Core, call: Call) -> Reply
    requires { CanCall core.old.state the_actor call }
    ensures { (n : ℕ) × Comes core.old.state the_actor call n result core.new.state }
{
    match core.at_once(call) {
        Some(reply) => reply,
        None => step_through(core, call),
    }
}

/// Frees the slots that no handle reaches, where no operation runs.
fn sweep(core: &mut Core)
    requires rest { is_busy core.old.state ≡ false }
    requires left { core.old.state.steps + most_sweeps core.old.state < core.old.state.limits.steps }
    ensures swept { (n : ℕ) × Sweeps core.old.state n core.new.state }
    ensures clean { core.new.state.limbo ≡ [] }
{
    let _ = core.limits();
    proof_sizes::sweeps_leave();
    core.reclaim();
}

/// One call that nothing denies, from its begin to its end, and the sweep of what it makes free. Refused as `WornOut` alone.
/// One that adds something isn't begun where none of the slots that were asked for is free: so what a handle reaches leaves as
/// many slots as any call takes.
pub(crate) fn perform(core: &mut Core, call: Call) -> Result<Reply, MapError>
    requires calm { IsCalm core.old.state }
    requires change { IsChange call }
    requires allowed { core_denial core.old.state call ≡ None }
    ensures calm { IsCalm core.new.state }
    ensures carries { Carries result core.old.state call core.new.state }
    ensures leads { IfOk result (λ answer. answer ≢ reply.NoSlots → Leads core.old.state call core.new.state) }
    ensures full { is_worn_out core.old.state ≡ false → adds (world_of core.old.state) call ≡ true → free_in core.old.state ≡ 0 → result ≡ Ok reply.NoSlots }
    ensures work { TakesUpTo (work_of_call call) core.old.state core.new.state }
    ensures slots { length core.old.state.heap.free ≤ length core.new.state.heap.free + (slots_of call + 1) }
{
    let _ = core.limits();
    if is_worn_out(core) {
        return Err(MapError::WornOut);
    }
    if is_full_for(core, call) {
        return Ok(Reply::NoSlots);
    }
    key_fits(call);
    proof_sizes::calls_do();
    proof_sizes::refused_if_out();
    proof_sizes::enough_slots_for_calls();
    proof_sizes::sweeps_leave();
    proof_sizes::handles_use_slots();
    proof_sizes::one_handle_uses_all();
    proof_sizes::calls_grow_little();
    proof_sizes::copies_are_no_larger();
    proof_sizes::sweeps_keep_nodes();
    let reply = carry_out(core, call);
    sweep(core);
    Ok(reply)
}
