//! Keys that are taken out together, all or none, by what the caller's closure says of them.

ghost use Rattle.std.specs.Prelude.{◌≡◌, ◌<◌, ◌+◌, ℕ, IfOk, IfErr, List, if◌then◌else◌, length, slice_set, ◌≢◌, Err};
ghost use Rattle.ctrie_map.specs.declared.errors.MapError.TheVariants.{Full};
ghost use Rattle.std.specs.FinMap as map;
ghost use Rattle.history.specs.Worlds.{KeyMap};
ghost use Rattle.ctrie_map.specs.Changes.{IsAlone};
ghost use Rattle.ctrie_map.specs.Drafts.{HasMap};
ghost use Rattle.ctrie_map.specs.Maps.{IsWhole, handles_of, map_with};
ghost use Rattle.ctrie_map.specs.Retaining.{CanBeAsked, RefusesRetain, Retains, Sifts};

use crate::batches::{name_to_copy, remove_all};
use crate::errors::MapError;
use crate::handle::Handle;
use crate::map::Map;
use crate::names::Names;
use crate::reading::entries_in;
use machine_core::Core;

impl Map {
    /// Keeps the pairs that `f` wants: it takes all others out, or none. `f` is asked of each pair once, in ascending order of
    /// keys, before anything changes, and of none where the handle isn't open or is read-only, where 256 handles are open, or where
    /// there is no memory for a list of the pairs. While one handle alone is open it is never `Full`. While others are, it works on
    /// a copy, and is `Full` only where that copy, or the removal of an unwanted pair from it, found no slot: never where 24 slots
    /// and 571 for each unwanted pair were free before it. It is `WornOut` where no more steps are left than this many changes may
    /// take. No map has changed then, and `remove` may do for some of the pairs. Where all are wanted, nothing changes, no step is
    /// taken, and it is neither `Full` nor `WornOut`.
    pub fn retain<F: FnMut(u64, u64) -> bool>(
        &mut self,
        handle: Handle,
        f: F,
    ) -> Result<(), MapError>
        requires callable { (m : KeyMap) → HasMap (handles_of self.old) handle m → CanBeAsked F.pre F.step f (map.entries m) }
        ensures retains { IfOk result (λ _. Retains F.step f self.old handle self.new) }
        ensures refused { IfErr result (RefusesRetain F.step f self.old handle self.new) }
        ensures goes_on { IsAlone self.old → result ≢ Err Full }
    {
        retain(&mut self.core, &mut self.names, handle.number(), f)
    }
}

/// The same of a map's parts.
fn retain<F: FnMut(u64, u64) -> bool>(
    core: &mut Core,
    names: &mut Names,
    handle: u16,
    f: F,
) -> Result<(), MapError>
    requires callable { (m : KeyMap) → HasMap (handles_of (map_with core.old.state names.old)) handle m → CanBeAsked F.pre F.step f (map.entries m) }
    requires whole { IsWhole (map_with core.old.state names.old) }
    ensures whole { IsWhole (map_with core.new.state names.new) }
    ensures retains { IfOk result (λ _. Retains F.step f (map_with core.old.state names.old) handle (map_with core.new.state names.new)) }
    ensures refused { IfErr result (RefusesRetain F.step f (map_with core.old.state names.old) handle (map_with core.new.state names.new)) }
{
    let name = name_to_copy(names, handle)?;
    let mut pairs = entries_in(core, name.core)?;
    leave_unwanted(&mut pairs, f);
    if pairs.is_empty() {
        return Ok(());
    }
    remove_all(core, names, handle, name, pairs.as_slice())
}

/// Leaves the pairs that `f` doesn't want, asking it of one after the other.
fn leave_unwanted<F: FnMut(u64, u64) -> bool>(pairs: &mut Vec<(u64, u64)>, mut f: F)
    requires { CanBeAsked F.pre F.step f pairs.old.items }
    ensures { (wanted : List (ℕ × ℕ)) × Sifts F.step f pairs.old.items wanted pairs.new.items }
{
    let mut many = 0;
    let mut at = 0;
    while at < pairs.len() {
        let (key, value) = pairs[at];
        let wants = f(key, value);
        many = settle(pairs, many, (key, value), wants);
        at += 1;
    }
    pairs.truncate(many);
}

/// Puts a pair that isn't wanted after the first `many` ones. How many these are then.
fn settle(pairs: &mut Vec<(u64, u64)>, many: usize, pair: (u64, u64), wants: bool) -> usize
    requires { many < length pairs.old.items }
    ensures settled { pairs.new.items ≡ (if wants then pairs.old.items else slice_set pairs.old.items many pair) }
    ensures counted { result ≡ (if wants then many else many + 1) }
{
    if wants {
        return many;
    }
    pairs[many] = pair;
    many + 1
}
