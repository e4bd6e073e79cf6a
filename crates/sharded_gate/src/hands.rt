//! All shards in the hand of one seat, which reaches them one at a time.
ghost use Rattle.std.specs.Prelude.{◌≡◌, ◌<◌, ◌+◌, length};
ghost use Rattle.sharded_gate.specs.Hands.{AreFrom, turned_by, objects_of, noted_first, rest_of_hand};

use crate::boards::Shard;
use crate::rules::{Pass, Shared};
use crate::sharded::{Sharded, Shards, Visit};
use gate::Entry;
use std::marker::Model;

/// A seat that has all shards of the table.
pub(crate) struct Hand<'a, O: Sharded<C, A>, C, A> {
    pass: Pass<O, C, A>,
    shared: &'a Shared<O, C, A>,
    shards: usize,
}

impl<'a, O: Sharded<C, A>, C, A> Model for Hand<'a, O, C, A> {
    ghost use Rattle.std.specs.Prelude.{◌≡◌, length};
    ghost use Rattle.sharded_gate.specs.Hands.{Hand, AreFrom};

    ghost Value = { Hand O C A };

    ghost view = { λ h. record { id = h.pass.table_id; view = h.pass.me.0; slots = h.pass.me.1 } };

    ghost invariant = { λ h. (h.pass.table_id ≡ h.shared.now.table_id) × (AreFrom 0 h.pass.me.1) × (length h.pass.me.1 ≡ h.shards) };
}

impl<'a, O: Sharded<C, A>, C, A> Hand<'a, O, C, A> {
    /// The seat has these shards, in their order.
    pub(crate) fn new(
        pass: Pass<O, C, A>,
        shared: &'a Shared<O, C, A>,
        shards: usize,
    ) -> Hand<'a, O, C, A>
        requires table { pass.table_id ≡ shared.now.table_id }
        requires slots { AreFrom 0 pass.me.1 }
        requires many { length pass.me.1 ≡ shards }
        ensures { result ≡ record { id = pass.table_id; view = pass.me.0; slots = pass.me.1 } }
    {
        Hand {
            pass,
            shared,
            shards,
        }
    }

    /// The seat alone.
    pub(crate) fn into_pass(self) -> Pass<O, C, A>
        ensures table { result.table_id ≡ self.entry.id }
        ensures place { result.me ≡ (self.entry.view, self.entry.slots) }
        ensures slots { AreFrom 0 self.entry.slots }
    {
        let Hand {
            pass,
            shared: _,
            shards: _,
        } = self;
        pass
    }

    /// Adds the entry of a call to the log of each shard.
    pub(crate) fn note_all(&mut self, entry: &Entry<C, A>)
        ensures id { self.new.id ≡ self.old.id }
        ensures view { self.new.view ≡ self.old.view }
        ensures slots { self.new.slots ≡ noted_first (length self.old.slots) entry.now self.old.slots }
    {
        for shard in 0..self.shards {
            self.note(shard, entry);
        }
    }

    /// The same for one shard, once those before it have it.
    fn note(&mut self, shard: usize, entry: &Entry<C, A>)
        requires { shard < length self.old.slots }
        ensures id { self.new.id ≡ self.old.id }
        ensures view { self.new.view ≡ self.old.view }
        ensures many { length self.new.slots ≡ length self.old.slots }
        ensures slots { (start : _) → self.old.slots ≡ noted_first shard entry.now start → self.new.slots ≡ noted_first (shard + 1) entry.now start }
    {
        turn(&mut self.pass, shard);
        self.pass.slot_mut(self.shared, shard).note(entry);
        turn(&mut self.pass, self.shards - shard);
    }
}

impl<O: Sharded<C, A>, C, A> Shards<O> for Hand<'_, O, C, A> {
    ghost use Rattle.sharded_gate.specs.Hands.{HandRest, objects_of, rest_of_hand};

    ghost Rest = { HandRest O C A };

    ghost items = { λ h. objects_of h.slots };

    ghost rest = { rest_of_hand };

    fn count(&self) -> usize {
        self.shards
    }

    fn visit<V: Visit<O>>(&mut self, shard: usize, visitor: &mut V) {
        turn(&mut self.pass, shard);
        self.pass.slot_mut(self.shared, shard).visit(visitor);
        turn(&mut self.pass, self.shards - shard);
    }
}

/// The shard that the seat took last goes after the others, this many times. Nothing is done for it.
fn turn<O, C, A>(pass: &mut Pass<O, C, A>, times: usize)
    ensures table { pass.new.table_id ≡ pass.old.table_id }
    ensures view { pass.new.me.0 ≡ pass.old.me.0 }
    ensures slots { pass.new.me.1 ≡ turned_by times pass.old.me.1 }
{
    for done in 0..times {
        let _ = done;
        pass.turn();
    }
}
