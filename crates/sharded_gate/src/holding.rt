//! Taking shards, and giving them back.
ghost use Rattle.std.specs.Prelude.{◌≡◌, ◌<◌, ◌+◌, [], false, length, IsTrue};
ghost use Rattle.gate.specs.Views.{IsOf, HasTaken, crew_view, holding, outside, released};
ghost use Rattle.sharded_gate.specs.Hands.{AreFrom, HasAll};
ghost use Rattle.sharded_gate.specs.Rules.{MayGive, MayRelease, HasGiven, HasSeen};

use crate::gates::ShardedGate;
use crate::rules::{Give, Look, Pass, Release, SPACING, Take};
use crate::sharded::Sharded;
use gate::{SHORT_WAITS, short_pause};

impl<O: Sharded<C, A>, C, A> ShardedGate<O, C, A> {
    /// Takes the shard if it is not taken, and returns whether it did.
    #[inline(always)]
    pub(crate) fn try_enter(&self, pass: &mut Pass<O, C, A>, shard: usize, number: u8) -> bool
        requires seat { pass.old.table_id ≡ self.now.id }
        requires number { IsOf number pass.old.me }
        requires within { shard < length self.now.first }
        ensures seat { pass.new.table_id ≡ pass.old.table_id }
        ensures inside { IsTrue result → HasTaken shard pass.old.me pass.new.me }
        ensures shut { result ≡ false → pass.new.me ≡ pass.old.me }
    {
        let found = self
            .table
            .shared
            .compare_exchange::<Take>(pass, shard * SPACING, 0, number as u64);
        found == 0
    }

    /// The same, by this many tries at most.
    fn enter_by_tries(&self, pass: &mut Pass<O, C, A>, shard: usize, number: u8, tries: u32) -> bool
        requires seat { pass.old.table_id ≡ self.now.id }
        requires number { IsOf number pass.old.me }
        requires within { shard < length self.now.first }
        ensures seat { pass.new.table_id ≡ pass.old.table_id }
        ensures inside { IsTrue result → HasTaken shard pass.old.me pass.new.me }
        ensures shut { result ≡ false → pass.new.me ≡ pass.old.me }
    {
        for _ in 0..tries {
            if self.try_enter(pass, shard, number) {
                return true;
            }
            short_pause();
        }
        false
    }

    /// Takes all shards, one after another in one order for all seats. Where the first one is taken, or another one for
    /// long, it gives back what it has, and tells that it has none.
    pub(crate) fn enter_all(&self, pass: &mut Pass<O, C, A>, number: u8) -> bool
        requires seat { pass.old.table_id ≡ self.now.id }
        requires outside { (seen : _) × (pass.old.me ≡ (outside number seen, [])) }
        ensures seat { pass.new.table_id ≡ pass.old.table_id }
        ensures all { IsTrue result → HasAll (length self.now.first) pass.old.me pass.new.me }
        ensures none { result ≡ false → pass.new.me ≡ pass.old.me }
    {
        for n in 0..self.shards {
            let shard = self.shards - 1 - n;
            let tries = if n == 0 { 1 } else { SHORT_WAITS };
            if !self.enter_by_tries(pass, shard, number, tries) {
                self.release_from(pass, shard + 1);
                return false;
            }
        }
        true
    }

    /// Gives back the shards from this one on, which are all that the seat has, and in which nothing is new.
    pub(crate) fn release_from(&self, pass: &mut Pass<O, C, A>, first: usize)
        requires seat { pass.old.table_id ≡ self.now.id }
        requires inside { (number : _) × (seen : _) × (slots : _) × (pass.old.me ≡ (holding number seen slots, slots)) × (AreFrom first slots) × (length slots + first ≡ length self.now.first) }
        ensures seat { pass.new.table_id ≡ pass.old.table_id }
        ensures outside { pass.new.me ≡ (crew_view pass.old.me.0.parts, []) }
    {
        for shard in first..self.shards {
            self.release(pass, shard);
        }
    }

    /// Gives back the shard that was taken last, with the seat's call made or none.
    #[inline(always)]
    pub(crate) fn give(&self, pass: &mut Pass<O, C, A>, shard: usize)
        requires seat { pass.old.table_id ≡ self.now.id }
        requires within { shard < length self.now.first }
        requires inside { MayGive O.answers O.about (length self.now.first) shard pass.old.me }
        ensures seat { pass.new.table_id ≡ pass.old.table_id }
        ensures given { HasGiven O.answers O.about (length self.now.first) pass.old.me pass.new.me }
    {
        self.table.shared.store::<Give>(pass, shard * SPACING, 0);
    }

    /// Gives back the shard that was taken last, in which nothing is new, and sees the whole.
    pub(crate) fn look(&self, pass: &mut Pass<O, C, A>, shard: usize)
        requires seat { pass.old.table_id ≡ self.now.id }
        requires within { shard < length self.now.first }
        requires inside { MayRelease shard pass.old.me }
        ensures seat { pass.new.table_id ≡ pass.old.table_id }
        ensures seen { HasSeen O.answers O.about (length self.now.first) pass.old.me pass.new.me }
    {
        self.table.shared.store::<Look>(pass, shard * SPACING, 0);
    }

    /// The same, and sees nothing.
    fn release(&self, pass: &mut Pass<O, C, A>, shard: usize)
        requires seat { pass.old.table_id ≡ self.now.id }
        requires within { shard < length self.now.first }
        requires inside { MayRelease shard pass.old.me }
        ensures seat { pass.new.table_id ≡ pass.old.table_id }
        ensures released { pass.new.me ≡ released pass.old.me }
    {
        self.table.shared.store::<Release>(pass, shard * SPACING, 0);
    }
}
