//! How the epoch grows, and what a heap's ticks are.

ghost use Rattle.std.specs.Prelude.{◌≡◌, ◌+◌, ◌-◌, ◌<◌, ◌≤◌, ◌^◌, [], length, true, None, slice_index_or, if◌then◌else◌};
ghost use Rattle.std.specs.List.{list_all};
ghost use Rattle.epochs.specs.Limbo.{limbo_after};
ghost use Rattle.epochs.specs.Memories.{reclaimer_of};
ghost use Rattle.epochs.specs.Sweeping.{is_passed, passes_all, swept_times};
ghost use Rattle.epochs.specs.Rings.{turned};

use crate::fresh::Fresh;
use crate::heap::Heap;
use crate::limbo::Swept;
use crate::ring::Ring;
use slot_arena::{Arena, MOST_SLOTS, Ticks};

/// Reads the record of the actor at the cursor, or lets the epoch grow where all actors were passed.
pub(crate) fn advance(
    bags: &mut Ring,
    epoch: &mut u64,
    cursor: &mut u8,
    pins: &[Option<u64>],
) -> Swept
    requires empty { bags.old.bags.oldest ≡ [] }
    requires started { (1 ≤ cursor.old) × (cursor.old ≤ length pins.now + 1) }
    requires few { length pins.now ≤ 64 }
    requires room { epoch.old < 2 ^ 48 }
    ensures scanned { cursor.old ≤ length pins.now →
        (let passed = is_passed epoch.old (slice_index_or pins.now (cursor.old - 1) None) in
        (result ≡ Swept.Scanned passed) × (cursor.new ≡ cursor.old + (if passed then 1 else 0)) × (epoch.new ≡ epoch.old) × (bags.new ≡ bags.old)) }
    ensures advanced { length pins.now < cursor.old →
        (result ≡ Swept.Advanced (epoch.old + 1)) × (cursor.new ≡ 1) × (epoch.new ≡ epoch.old + 1) × (bags.new ≡ record bags.old { bags = turned bags.old.bags }) }
{
    if *cursor as usize > pins.len() {
        bags.turn();
        *epoch += 1;
        *cursor = 1;
        return Swept::Advanced(*epoch);
    }
    let passed = is_passed(*epoch, pins[*cursor as usize - 1]);
    if passed {
        *cursor += 1;
    }
    Swept::Scanned { passed }
}

/// Whether an actor passes that has this record.
fn is_passed(epoch: u64, pin: Option<u64>) -> bool
    ensures { result ≡ is_passed epoch pin }
{
    match pin {
        None => true,
        Some(recorded) => recorded == epoch,
    }
}

/// Whether each actor passes.
fn are_passed(epoch: u64, pins: &[Option<u64>]) -> bool
    ensures { result ≡ list_all (is_passed epoch) pins.now }
{
    pins.iter().all(|pin| is_passed(epoch, *pin))
}

impl Heap {
    /// Lets the epoch grow at once, where the next steps of the sweep pass each actor, from the first one on: it does what
    /// these steps do, one for each actor and one more. Returns whether it did; else nothing has changed but its
    /// tick. Limbo stays, and all is settled.
    #[inline(always)]
    pub fn grow(&mut self) -> bool
        requires settled { self.old.noted ≡ [] }
        requires room { self.old.epoch < 2 ^ 48 }
        ensures passes { result ≡ passes_all self.old.pins (reclaimer_of self.old) }
        ensures swept { result ≡ true → reclaimer_of self.new ≡ swept_times self.old.pins (length self.old.pins + 1) (reclaimer_of self.old) }
        ensures same { self.new ≡ record self.old { epoch = self.old.epoch + (if result then 1 else 0); ticks = self.old.ticks + 1 } }
        ensures settled { self.new.limbo ≡ limbo_after self.new.heap self.new.outside self.new.epoch self.new.limbo }
    {
        prove!(self.arena.len() <= MOST_SLOTS as usize);
        let is_ripe = self.bags.first().is_some();
        self.ticks = ticks_of(&self.arena, &self.bags, &self.fresh);
        if is_ripe || self.cursor != 1 || !are_passed(self.epoch, self.pins.as_slice()) {
            return false;
        }
        self.bags.turn();
        self.epoch += 1;
        true
    }
}

/// The ticks of all three.
pub(crate) fn ticks_of(arena: &Arena, bags: &Ring, fresh: &Fresh) -> Ticks
    ensures { result.count ≡ arena.now.ticks + bags.now.ticks + fresh.now.ticks }
{
    Ticks::sum(&Ticks::sum(&arena.ticks(), &bags.ticks()), fresh.ticks())
}
