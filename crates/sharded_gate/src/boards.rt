//! A shard with the log of the calls that are about it, as its slot has it.
ghost use Rattle.std.specs.Prelude.{◌≡◌, [], ◌∷◌, ◌++◌, length};
ghost use Rattle.gate.specs.Logs.{entry, saturated};
ghost use Rattle.sharded_gate.specs.Shards.{fresh_shard, with_entry, AnswersAlone};

use crate::sharded::{Sharded, Visit};
use ctrie_base::Trace;
use gate::Entry;
use std::marker::Model;

/// Two lines of the cache, which processors fetch together.
type Gap = [u64; 16];

/// A shard, and the log of the calls about it, which takes no bytes but those of their number. Each call about the shard writes
/// this number, and no other word need be in its lines: neither of the shard nor of the next one, which lies after this one.
#[derive(Drop)]
#[repr(C)]
pub struct Shard<O, C, A> {
    object: O,
    log: Trace<Entry<C, A>>,
    before: Gap,
    calls: u64,
    behind: Gap,
}

const _: () = prove!(size_of::<Shard<u64, u64, u64>>() == 272);

impl<O, C, A> Model for Shard<O, C, A> {
    ghost use Rattle.std.specs.Prelude.{◌≡◌, length};
    ghost use Rattle.gate.specs.Logs.{saturated};
    ghost use Rattle.sharded_gate.specs.Shards.{LoggedShard};

    ghost Value = { LoggedShard O C A };

    ghost view = { λ s. record { object = s.object; log = s.log.items } };

    ghost invariant = { λ s. s.calls ≡ saturated (length s.log.items) };
}

impl<O, C, A> Shard<O, C, A> {
    /// The shard without a call.
    pub(crate) fn new(object: O) -> Shard<O, C, A>
        ensures { result ≡ fresh_shard object }
    {
        Shard {
            object,
            log: Trace::new(),
            before: [0; 16],
            calls: 0,
            behind: [0; 16],
        }
    }

    /// How many calls are about it, or the greatest number where there are more.
    pub(crate) fn calls(&self) -> u64
        ensures { result ≡ saturated (length self.now.log) }
    {
        self.calls
    }

    /// Adds the entry of a call to the log.
    pub(crate) fn note(&mut self, entry: &Entry<C, A>)
        ensures { self.new ≡ with_entry self.old entry.now }
    {
        self.log = self.log.with_last(entry);
        self.calls = self.calls.saturating_add(1);
    }

    /// Has the visitor see the shard.
    pub(crate) fn visit<V: Visit<O>>(&mut self, visitor: &mut V)
        ensures visited { V.does visitor.old self.old.object visitor.new self.new.object }
        ensures log { self.new.log ≡ self.old.log }
    {
        visitor.visit(&mut self.object);
    }
}

impl<O, C: Drop, A: Drop> Shard<O, C, A> {
    /// The object, as its last call left it.
    pub(crate) fn into_object(self) -> O
        ensures { result ≡ self.object }
    {
        let Shard {
            object,
            log: _,
            before: _,
            calls: _,
            behind: _,
        } = self;
        object
    }
}

impl<O: Sharded<C, A>, C: Copy, A: Drop> Shard<O, C, A> {
    /// Has the call of this seat performed, which is about this shard alone, and adds its entry to the log. It is counted first:
    /// another processor may have the number's line, which then comes over while the object is at work.
    #[inline(always)]
    pub(crate) fn call(&mut self, seat: u8, call: C) -> A
        ensures answered { AnswersAlone O.answers O.about seat self.old.object call result self.new.object }
        ensures log { self.new.log ≡ self.old.log ++ entry seat call result ∷ [] }
    {
        self.calls = self.calls.saturating_add(1);
        let answer = self.object.perform(seat, call);
        let entry = Entry { seat, call, answer };
        self.log = self.log.with_last(&entry);
        let Entry {
            seat: _,
            call: _,
            answer,
        } = entry;
        answer
    }
}
