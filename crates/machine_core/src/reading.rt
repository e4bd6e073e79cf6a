//! What a core tells of the maps of its handles without a list of all.

ghost use Rattle.std.specs.Prelude.{◌≡◌, length, None, IsSome, IfOk, IfErr, OnOk};
ghost use Rattle.machine_model.specs.Contents.{content_at};
ghost use Rattle.machine_model.specs.Refusing.{RefusesContent};
ghost use Rattle.machine_model.specs.States.{root_at};
ghost use Rattle.machine_core.specs.Comparing.{AreDifferences, RefusesEither};
ghost use Rattle.machine_core.specs.Finding.{found_along};
ghost use Rattle.proof_core.specs.Reading.{IsOneOf, next_of};
ghost use Rattle.proof_core.specs.Scanning.{scanned};

use crate::counting::count_of;
use crate::differing::{Difference, differences};
use crate::listing::next_of;
use crate::machine::Core;
use crate::picking::first_of;
use crate::scanning::scanned;
use ctrie_base::Refusal;
use history::Pairs;

impl Core {
    /// How many pairs the map of an open handle has. `NoHandle` exactly where the handle isn't open; there is no other
    /// refusal.
    pub fn count(&self, handle: u16) -> Result<u64, Refusal>
        ensures exact { IfOk result (λ count. count ≡ length (content_at self.now.state handle)) }
        ensures open { OnOk result (IsSome (root_at self.now.state handle)) }
        ensures refused { IfErr result (λ refusal. (root_at self.now.state handle ≡ None) × (refusal ≡ Refusal.NoHandle)) }
    {
        if self.parts.table.root(handle).is_none() {
            return Err(Refusal::NoHandle);
        }
        Ok(count_of(&self.parts, handle))
    }

    /// A pair of the map of an open handle, whichever is reached first, if it has one. `NoHandle` exactly where the handle
    /// isn't open; there is no other refusal.
    pub fn first(&self, handle: u16) -> Result<Option<(u64, u64)>, Refusal>
        ensures one { IfOk result (λ first. IsOneOf (content_at self.now.state handle) first) }
        ensures open { OnOk result (IsSome (root_at self.now.state handle)) }
        ensures refused { IfErr result (λ refusal. (root_at self.now.state handle ≡ None) × (refusal ≡ Refusal.NoHandle)) }
    {
        if self.parts.table.root(handle).is_none() {
            return Err(Refusal::NoHandle);
        }
        Ok(first_of(&self.parts, handle))
    }

    /// The next part of the map of an open handle: its first pairs whose keys come after this one, `room` at most, by rising key;
    /// all come after none. `NoHandle` exactly where the handle isn't open; any other refusal is `Memory`.
    pub fn part(&self, handle: u16, after: Option<u64>, room: usize) -> Result<Pairs, Refusal>
        ensures exact { IfOk result (λ pairs. pairs ≡ next_of after room (content_at self.now.state handle)) }
        ensures open { OnOk result (IsSome (root_at self.now.state handle)) }
        ensures refused { IfErr result (λ refusal. RefusesContent self.now.state handle refusal) }
    {
        if self.parts.table.root(handle).is_none() {
            return Err(Refusal::NoHandle);
        }
        Ok(next_of(&self.parts, handle, after, room)?)
    }

    /// The next part of the map of an open handle in the map's own order: its first pairs whose keys are after this one, `room`
    /// at most; all are after none. The order is by the hash, five bits after five from the lowest on, and by key among keys of
    /// one hash. A part costs a way down and what it hands out, and not the whole map. Parts of a handle that doesn't change,
    /// each after the last key of the one before, are one listing, where each key stands once. `NoHandle` exactly where the
    /// handle isn't open; any other refusal is `Memory`.
    pub fn scan(&self, handle: u16, after: Option<u64>, room: usize) -> Result<Pairs, Refusal>
        ensures exact { IfOk result (λ pairs. pairs ≡ scanned self.now.state.limits.hash after room (content_at self.now.state handle)) }
        ensures open { OnOk result (IsSome (root_at self.now.state handle)) }
        ensures refused { IfErr result (λ refusal. RefusesContent self.now.state handle refusal) }
    {
        if self.parts.table.root(handle).is_none() {
            return Err(Refusal::NoHandle);
        }
        Ok(scanned(&self.parts, handle, after, room)?)
    }

    /// The keys of which the maps of two open handles have different values, in ascending order, each with its values in
    /// both. What both share is skipped: where one was copied from the other, the work goes by what was changed since, and
    /// not by what is there. `NoHandle` exactly where one of them isn't open; any other refusal is `Memory`.
    pub fn differences(&self, older: u16, newer: u16) -> Result<Vec<Difference>, Refusal>
        ensures exact { IfOk result (λ differences. AreDifferences (found_along self.now.state older) (found_along self.now.state newer) differences.items) }
        ensures open { OnOk result (IsSome (root_at self.now.state older) × IsSome (root_at self.now.state newer)) }
        ensures refused { IfErr result (λ refusal. RefusesEither self.now.state older newer refusal) }
    {
        if self.parts.table.root(older).is_none() {
            return Err(Refusal::NoHandle);
        }
        if self.parts.table.root(newer).is_none() {
            return Err(Refusal::NoHandle);
        }
        Ok(differences(&self.parts, older, newer)?)
    }
}
